// PSOUT, and SOUT to the terminal: the bytes of a string are printed.
ghost use Rattle.std.specs.Prelude.{◌≡◌, ◌%◌, IfErr, IfOk, List, ℕ};
ghost use Rattle.machine_names.specs.declared.names.ForkName.{ForkName as AForkName};
ghost use Rattle.plain_model.specs.StringCalls.{prints_byte as prints_byte_of, prints_next as prints_next_of, psout as psout_of, with_next};
ghost use Rattle.plain_model.specs.Calls.{ends};
ghost use Rattle.call_turns.specs.Turns.{FitsEnd, IsRegs};
ghost use Rattle.file_tables.specs.declared.tables.FileTables.{FileTables as AFileTables};
ghost use Rattle.ka10_unit.specs.Gathers.{Serves};
ghost use Rattle.file_bytes.specs.Asking.{asked, asked_on};
ghost use Rattle.file_bytes.specs.Planning.{CanTurn};
ghost use Rattle.string_io.specs.Planning.{FitsPlan, Plans};
ghost use Rattle.string_io.specs.Turning.{StringStops};

use crate::ends::{pointer_in, reading_plan};
use crate::plan::Plan;
use call_turns::{behind, returning, with_ac};
use ka10_unit::Stop;
use machine_names::ForkName;
use page_contracts::Pages;
use plain_model::call::{ByteChange, End};
use plain_units::Regs;
use string_counts::{behind_byte, ends_before};
use text_pointers::byte_at;
use word36::Word;

// The character of a byte: its low 7 bits.
fn character(byte: Word) -> u8
    ensures { result ≡ byte % 128 }
{
    (byte.value() % 128) as u8
}

// A byte that is 0 ends PSOUT, and leaves the pointer; another is printed.
fn prints_next(regs: &Regs, pointer: Word, byte: Word) -> End<ByteChange>
    requires { IsRegs regs.now }
    ensures end { (who : AForkName) (tables : AFileTables) (input : List ℕ) (pages : List ℕ → ℕ) → result ≡ prints_next_of (asked who regs.now tables input pages) pointer byte }
    ensures fits { (tables : AFileTables) (who : AForkName) → FitsEnd (CanTurn tables who.tty) result }
{
    let (regs, out) = if byte == Word::ZERO {
        (behind(*regs), None)
    } else {
        (with_ac(*regs, 1, pointer), Some(character(byte)))
    };
    End::Done {
        change: ByteChange::Nothing,
        regs,
        out,
        post: None,
    }
}

/// PSOUT: the next byte of the string at the pointer in accumulator 1 is to be printed, and the pointer goes to it; a byte that is 0
/// ends the call instead.
pub fn psout<P: Pages>(regs: &Regs, who: ForkName, pages: &P) -> Result<Plan, Stop>
    requires regs { IsRegs regs.now }
    requires serves { Serves P.means pages.now who }
    ensures told { (tables : AFileTables) (input : List ℕ) → Plans P.means pages.now tables who (λ p. psout_of (asked_on who regs.now tables input p)) result }
    ensures fits { (tables : AFileTables) → IfOk result (FitsPlan tables who) }
    ensures needs { IfErr result (StringStops P.means pages.now) }
{
    let pointer = pointer_in(regs, 1);
    match byte_at(regs, pages, who, pointer) {
        Err(stop) => Err(stop),
        Ok(read) => {
            let ending = prints_next(regs, pointer, read.byte);
            Ok(reading_plan(read.reader, ending))
        }
    }
}

// A byte that ends its string ends SOUT, and leaves the pointer; another is printed.
fn prints_byte(regs: &Regs, pointer: Word, byte: Word) -> End<ByteChange>
    requires { IsRegs regs.now }
    ensures end { (who : AForkName) (tables : AFileTables) (input : List ℕ) (pages : List ℕ → ℕ) → ends result ≡ prints_byte_of (asked who regs.now tables input pages) pointer byte }
    ensures fits { (tables : AFileTables) (who : AForkName) → FitsEnd (CanTurn tables who.tty) result }
{
    if ends_before(regs, byte) {
        return returning(ByteChange::Nothing, *regs);
    }
    End::Done {
        change: ByteChange::Nothing,
        regs: behind_byte(regs, pointer, byte),
        out: Some(character(byte)),
        post: None,
    }
}

/// SOUT to the terminal: the next byte of the string at the pointer in accumulator 2 is to be printed.
pub fn prints<P: Pages>(regs: &Regs, who: ForkName, pages: &P) -> Result<Plan, Stop>
    requires regs { IsRegs regs.now }
    requires serves { Serves P.means pages.now who }
    ensures told { (tables : AFileTables) (input : List ℕ) → Plans P.means pages.now tables who (λ p. let a = asked_on who regs.now tables input p in with_next a (prints_byte_of a)) result }
    ensures fits { (tables : AFileTables) → IfOk result (FitsPlan tables who) }
    ensures needs { IfErr result (StringStops P.means pages.now) }
{
    let pointer = pointer_in(regs, 2);
    match byte_at(regs, pages, who, pointer) {
        Err(stop) => Err(stop),
        Ok(read) => {
            let ending = prints_byte(regs, pointer, read.byte);
            Ok(reading_plan(read.reader, ending))
        }
    }
}
