// One turn of a call on strings.
ghost use Rattle.std.specs.Prelude.{◌≡◌, ◌<◌, ◌^◌, IfErr, IfOk, true};
ghost use Rattle.plain_model.specs.StringCalls.{string_call};
ghost use Rattle.call_turns.specs.Answers.{AnswerNeeds, IsDone, HasRegs};
ghost use Rattle.call_turns.specs.Turns.{IsRegs};
ghost use Rattle.ka10_unit.specs.Carrying.{Grows};
ghost use Rattle.ka10_unit.specs.Gathers.{Serves};
ghost use Rattle.file_bytes.specs.Asking.{asked_on};
ghost use Rattle.file_bytes.specs.Turning.{OthersStay, Stays};
ghost use Rattle.string_io.specs.Planning.{FitsPlan, Plans};
ghost use Rattle.string_io.specs.Turning.{StringStops, StringTurned, string_frames};

use crate::carrying::carry_out;
use crate::ends::at_once;
use crate::plan::Plan;
use crate::printing::psout;
use crate::taking::sin;
use crate::writing::sout;
use call_turns::{Answer, stopped};
use file_tables::FileTables;
use ka10_unit::Stop;
use machine_names::ForkName;
use page_contracts::Pages;
use plain_model::call::{End, PSOUT, SIN, SOUT};
use plain_units::Regs;
use plain_units::channel::ILLEGAL_INSTRUCTION;
use tty_lines::Line;

// How a call is to end, by its number, or why it stops; nothing changes. A number that is none of them traps as an illegal
// instruction.
fn planned<P: Pages>(
    number: u32,
    regs: &Regs,
    who: ForkName,
    input: &Line,
    tables: &FileTables,
    pages: &P,
) -> Result<Plan, Stop>
    requires regs { IsRegs regs.now }
    requires serves { Serves P.means pages.now who }
    ensures told { Plans P.means pages.now tables.now who (λ p. string_call number (asked_on who regs.now tables.now input.now.input p)) result }
    ensures fits { IfOk result (FitsPlan tables.now who) }
    ensures needs { IfErr result (StringStops P.means pages.now) }
{
    match number {
        SIN => sin(regs, who, input, tables, pages),
        SOUT => sout(regs, who, tables, pages),
        PSOUT => psout(regs, who, pages),
        _ => Ok(at_once(who, End::Trap(ILLEGAL_INSTRUCTION))),
    }
}

/// One turn of a call on strings, by its number (JSYS Manual), with the line of the terminal of the job that calls; it takes one byte of
/// its string. Its answer is that of the plain call, and so are the characters that are stored, the files, the JFNs and the
/// pages that it leaves. It looks first and changes then: it needs something first only where a page that it refers to, or a map
/// on the way, is in no frame, or where what it makes finds none. A turn that isn't done leaves all as it was, and none changes
/// another job. A number that is no call on strings traps as an illegal instruction.
pub fn call<P: Pages>(
    number: u32,
    regs: &Regs,
    who: ForkName,
    input: &mut Line,
    tables: &mut FileTables,
    pages: &mut P,
) -> Answer
    requires regs { IsRegs regs.now }
    requires serves { Serves P.means pages.old who }
    requires serial { P.means.serial pages.old who.tty < 2 ^ 62 }
    ensures told { StringTurned P.means pages.old pages.new tables.old tables.new input.old input.new who.tty result
        (λ p. string_call number (asked_on who regs.now tables.old input.old.input p)) }
    ensures needs { AnswerNeeds P.means.store string_frames pages.new result }
    ensures core { P.means.flat ≡ true → IsDone result }
    ensures stays { Stays pages.old pages.new tables.old tables.new input.old input.new result }
    ensures others { OthersStay who.tty tables.old tables.new input.old input.new }
    ensures grows { Grows P.means who.tty 129 pages.old pages.new }
    ensures regs { HasRegs result }
{
    match planned(number, regs, who, input, tables, pages) {
        Ok(plan) => carry_out(&plan, input, tables, pages),
        Err(stop) => stopped(stop),
    }
}
