// One turn of a call on bytes.
ghost use Rattle.std.specs.Prelude.{◌≡◌, ◌<◌, ◌^◌, IfErr, IfOk, IsOk, true};
ghost use Rattle.machine_names.specs.Bounds.{IsTerminal};
ghost use Rattle.page_contracts.specs.Pages.{MayLose};
ghost use Rattle.page_contracts.specs.Stores.{IsNeeded};
ghost use Rattle.plain_model.specs.ByteCalls.{byte_call};
ghost use Rattle.call_turns.specs.Answers.{AnswerNeeds, FitsAnswer, IsDone, answer_of as answer_to};
ghost use Rattle.call_turns.specs.Turns.{FitsEnd, IsRegs};
ghost use Rattle.call_turns.specs.Making.{MakesAtMost, MakesIn};
ghost use Rattle.file_bytes.specs.Asking.{asked_on};
ghost use Rattle.file_bytes.specs.Changing.{EndsOver};
ghost use Rattle.file_bytes.specs.Planning.{CanChange, Plans};
ghost use Rattle.file_bytes.specs.Turning.{OthersStay, Stays, Turned};

use crate::characters::next_character;
use crate::positions::{rfptr, sfptr, sizef};
use crate::reading::bin;
use crate::writing::bout;
use call_turns::{Answer, answer_of};
use file_bytes::change;
use file_tables::FileTables;
use machine_names::ForkName;
use page_contracts::{Need, Pages};
use plain_model::call::{BIN, BOUT, ByteChange, End, PBIN, RFPTR, SFPTR, SIZEF};
use plain_units::Regs;
use plain_units::channel::ILLEGAL_INSTRUCTION;
use tty_lines::Line;

// How a call is to end, by its number, or what it needs first; nothing changes. A number that is none of them traps as an illegal
// instruction.
fn planned<P: Pages>(
    number: u32,
    regs: &Regs,
    who: ForkName,
    input: &Line,
    tables: &FileTables,
    pages: &P,
) -> Result<End<ByteChange>, Need>
    requires regs { IsRegs regs.now }
    requires terminal { IsTerminal who.tty }
    ensures told { Plans P.means pages.now tables.now who.tty (λ p. byte_call number (asked_on who regs.now tables.now input.now.input p)) result }
    ensures fits { IfOk result (FitsEnd (CanChange P.means pages.now tables.now who.tty)) }
    ensures needs { IfErr result (IsNeeded P.means.store 1 pages.now) }
    ensures core { P.means.flat ≡ true → IsOk result }
{
    match number {
        SFPTR => Ok(sfptr(regs, who, tables)),
        SIZEF => Ok(sizef(regs, who, tables, pages)),
        RFPTR => Ok(rfptr(regs, who, tables)),
        BIN => bin(regs, who, input, tables, pages),
        BOUT => bout(regs, who, tables, pages),
        PBIN => Ok(next_character(1, regs, who, input)),
        _ => Ok(End::Trap(ILLEGAL_INSTRUCTION)),
    }
}

// Ends a turn: its change is made, if it is done.
fn end<P: Pages>(
    ending: End<ByteChange>,
    who: ForkName,
    input: &mut Line,
    tables: &mut FileTables,
    pages: &mut P,
) -> Answer
    requires fits { FitsEnd (CanChange P.means pages.old tables.old who.tty) ending }
    requires terminal { IsTerminal who.tty }
    requires serial { P.means.serial pages.old who.tty < 2 ^ 62 }
    ensures answer { result ≡ answer_to ending }
    ensures told { EndsOver P.means pages.old pages.new tables.old tables.new input.old input.new who.tty ending }
    ensures fits { FitsAnswer result }
    ensures stays { Stays pages.old pages.new tables.old tables.new input.old input.new result }
    ensures others { OthersStay who.tty tables.old tables.new input.old input.new }
    ensures loses { MayLose P.means pages.old pages.new }
    ensures made { MakesAtMost P.means who.tty 1 pages.old pages.new }
{
    match &ending {
        End::Done { change: what, .. } => {
            change(what, who.tty, input, tables, pages);
            answer_of(ending)
        }
        _ => answer_of(ending),
    }
}

/// One turn of a call on bytes, by its number (JSYS Manual), with the line of the terminal of the job that calls: its answer is
/// that of the plain call, and so are the characters that are stored, the files, the JFNs and the pages that it leaves. It looks
/// first and changes then: what it needs first is the page of the byte that it reads or writes, or a frame for that. A turn
/// that isn't done leaves all as it was, and none changes another job. A number that is no call on bytes traps as an illegal
/// instruction.
pub fn call<P: Pages>(
    number: u32,
    regs: &Regs,
    who: ForkName,
    input: &mut Line,
    tables: &mut FileTables,
    pages: &mut P,
) -> Answer
    requires regs { IsRegs regs.now }
    requires terminal { IsTerminal who.tty }
    requires serial { P.means.serial pages.old who.tty < 2 ^ 62 }
    ensures told { Turned P.means pages.old pages.new tables.old tables.new input.old input.new who.tty result
        (λ p. byte_call number (asked_on who regs.now tables.old input.old.input p)) }
    ensures needs { AnswerNeeds P.means.store 1 pages.new result }
    ensures core { P.means.flat ≡ true → IsDone result }
    ensures fits { FitsAnswer result }
    ensures stays { Stays pages.old pages.new tables.old tables.new input.old input.new result }
    ensures others { OthersStay who.tty tables.old tables.new input.old input.new }
    ensures loses { MayLose P.means pages.old pages.new }
    ensures made { MakesIn P.means who.tty pages.old pages.new result }
{
    match planned(number, regs, who, input, tables, pages) {
        Ok(ending) => end(ending, who, input, tables, pages),
        Err(need) => Answer::Need(need),
    }
}
