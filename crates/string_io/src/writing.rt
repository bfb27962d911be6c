// SOUT: the bytes of a string are written to a file, or printed.
ghost use Rattle.std.specs.Prelude.{◌≡◌, ◌+◌, ◌<◌, ◌≤◌, IfErr, IfOk, List, Ok, ℕ};
ghost use Rattle.word36.specs.Words.{right};
ghost use Rattle.page_contracts.specs.DrumWords.{DrumWords};
ghost use Rattle.plain_files.specs.Bytes.{most_bytes as most_bytes_of};
ghost use Rattle.plain_files.specs.NamedFiles.{open_file};
ghost use Rattle.plain_units.specs.Deeds.{in_ac};
ghost use Rattle.plain_model.specs.StringCalls.{next_pointer, puts_byte as puts_byte_of, sout as sout_of, with_next};
ghost use Rattle.call_turns.specs.Turns.{IsRegs};
ghost use Rattle.ka10_unit.specs.Gathers.{Serves, framed, weight};
ghost use Rattle.ka10_unit.specs.Taking.{read_frames};
ghost use Rattle.text_pointers.specs.Reading.{ReadsByte};
ghost use Rattle.file_bytes.specs.Asking.{IsOpenAs, asked_on};
ghost use Rattle.string_io.specs.Planning.{FitsPlan, Plans};
ghost use Rattle.string_io.specs.Turning.{StringStops};
ghost use Rattle.string_io.specs.Writing.{writes_to};

use crate::ends::{at_once, pointer_in, reading_plan};
use crate::filling::fills;
use crate::plan::Plan;
use crate::printing::prints;
use call_turns::returning;
use file_bytes::{Way, jfn_number, jfn_open};
use file_tables::FileTables;
use ka10_unit::Stop;
use machine_names::ForkName;
use page_contracts::Pages;
use page_files::{most_bytes, place};
use plain_files::Jfn;
use plain_model::call::{BAD_POSITION, ByteChange, End, NOT_OPEN, TERMINAL_INPUT, TERMINAL_OUTPUT};
use plain_units::Regs;
use string_counts::{behind_byte, ends_before};
use text_pointers::{PointedByte, byte_at};
use word36::Word;

// The byte that was read is to be written at which a JFN stands, unless it ends its string.
fn write_byte<P: Pages>(
    jfn: Jfn,
    pointer: Word,
    read: PointedByte,
    regs: &Regs,
    who: ForkName,
    tables: &FileTables,
    pages: &P,
) -> Result<Plan, Stop>
    requires regs { IsRegs regs.now }
    requires serves { Serves P.means pages.now who }
    requires open { IsOpenAs tables.now who.tty (right (in_ac regs.now 1)) jfn }
    requires room { jfn.at < most_bytes_of jfn.size }
    requires fork { read.reader.fork ≡ who }
    requires few { weight read.reader.gather ≤ read_frames + 1 }
    requires pointer { pointer ≡ next_pointer (in_ac regs.now 2) }
    requires reads { (d : DrumWords) → P.means.fits pages.now d → ReadsByte who (framed P.means pages.now d) regs.now pointer (Ok read) }
    ensures told { (input : List ℕ) → Plans P.means pages.now tables.now who (λ p. let a = asked_on who regs.now tables.now input p in with_next a (puts_byte_of a (open_file tables.now.dir jfn))) result }
    ensures fits { IfOk result (FitsPlan tables.now who) }
    ensures needs { IfErr result (StringStops P.means pages.now) }
{
    if ends_before(regs, read.byte) {
        return Ok(reading_plan(read.reader, returning(ByteChange::Nothing, *regs)));
    }
    let (page, _, _) = place(jfn.size, jfn.at);
    match fills(&read.reader.gather, pages, jfn.file, page) {
        Err(stop) => Err(stop),
        Ok(()) => {
            let ending = End::Done {
                change: ByteChange::Put(who.tty, jfn_number(regs), read.byte),
                regs: behind_byte(regs, pointer, read.byte),
                out: None,
                post: None,
            };
            Ok(reading_plan(read.reader, ending))
        }
    }
}

// The next byte of the string at the pointer in accumulator 2 is to be written at which a JFN stands, where its file has room for it.
fn writes<P: Pages>(
    jfn: Jfn,
    regs: &Regs,
    who: ForkName,
    tables: &FileTables,
    pages: &P,
) -> Result<Plan, Stop>
    requires regs { IsRegs regs.now }
    requires serves { Serves P.means pages.now who }
    requires open { IsOpenAs tables.now who.tty (right (in_ac regs.now 1)) jfn }
    ensures told { (input : List ℕ) → Plans P.means pages.now tables.now who (λ p. writes_to (asked_on who regs.now tables.now input p) (open_file tables.now.dir jfn)) result }
    ensures fits { IfOk result (FitsPlan tables.now who) }
    ensures needs { IfErr result (StringStops P.means pages.now) }
{
    if jfn.at >= most_bytes(jfn.size) {
        return Ok(at_once(who, End::Refused(BAD_POSITION)));
    }
    let pointer = pointer_in(regs, 2);
    match byte_at(regs, pages, who, pointer) {
        Err(stop) => Err(stop),
        Ok(read) => write_byte(jfn, pointer, read, regs, who, tables, pages),
    }
}

/// SOUT: the next byte of the string at the pointer in accumulator 2 is to be written to the file of the JFN in accumulator 1, or printed.
/// NO_JFN, NOT_OPEN, BAD_POSITION.
pub fn sout<P: Pages>(
    regs: &Regs,
    who: ForkName,
    tables: &FileTables,
    pages: &P,
) -> Result<Plan, Stop>
    requires regs { IsRegs regs.now }
    requires serves { Serves P.means pages.now who }
    ensures told { (input : List ℕ) → Plans P.means pages.now tables.now who (λ p. sout_of (asked_on who regs.now tables.now input p)) result }
    ensures fits { IfOk result (FitsPlan tables.now who) }
    ensures needs { IfErr result (StringStops P.means pages.now) }
{
    let number = jfn_number(regs);
    if number == TERMINAL_INPUT {
        return Ok(at_once(who, End::Refused(NOT_OPEN)));
    }
    if number == TERMINAL_OUTPUT {
        return prints(regs, who, pages);
    }
    match jfn_open(Way::ToWrite, regs, who, tables) {
        Ok(jfn) => writes(jfn, regs, who, tables, pages),
        Err(code) => Ok(at_once(who, End::Refused(code))),
    }
}
