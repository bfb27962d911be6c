// BIN: the next byte of a file, or the next character.
ghost use Rattle.std.specs.Prelude.{◌≡◌, ◌<◌, IfErr, IfOk, IsOk, List, true, ℕ};
ghost use Rattle.word36.specs.Words.{right};
ghost use Rattle.machine_names.specs.Bounds.{IsTerminal};
ghost use Rattle.machine_names.specs.declared.names.ForkName.{ForkName as AForkName};
ghost use Rattle.file_tables.specs.declared.tables.FileTables.{FileTables as AFileTables};
ghost use Rattle.plain_files.specs.NamedFiles.{open_file};
ghost use Rattle.page_contracts.specs.Stores.{IsNeeded};
ghost use Rattle.plain_units.specs.Deeds.{in_ac};
ghost use Rattle.plain_model.specs.ByteCalls.{at_end as at_end_of, bin as bin_of, next_byte as next_byte_of};
ghost use Rattle.call_turns.specs.Turns.{FitsEnd, IsRegs};
ghost use Rattle.file_bytes.specs.Asking.{IsOpenAs, asked, asked_on};
ghost use Rattle.file_bytes.specs.Planning.{CanTurn, Plans};

use crate::characters::next_character;
use call_turns::{behind, returning, with_ac, word_of};
use file_bytes::{Way, end_of, jfn_number, jfn_open};
use file_tables::FileTables;
use ka10_bytes::load;
use machine_names::ForkName;
use page_contracts::{Need, Pages};
use page_files::place;
use plain_files::Jfn;
use plain_model::call::{ByteChange, End, NOT_OPEN, TERMINAL_INPUT, TERMINAL_OUTPUT};
use plain_units::Regs;
use plain_units::channel::END_OF_FILE;
use tty_lines::Line;
use word36::Word;

// At the end of a file a byte is 0, the JFN stays, and the channel of the end is posted.
fn at_end(regs: &Regs) -> End<ByteChange>
    requires { IsRegs regs.now }
    ensures end { (who : AForkName) (tables : AFileTables) (input : List ℕ) (pages : List ℕ → ℕ) → result ≡ at_end_of (asked who regs.now tables input pages) }
    ensures fits { (who : AForkName) (tables : AFileTables) → FitsEnd (CanTurn tables who.tty) result }
{
    End::Done {
        change: ByteChange::Nothing,
        regs: behind(with_ac(*regs, 2, Word::ZERO)),
        out: None,
        post: Some(END_OF_FILE),
    }
}

// The byte at which a JFN stands, and the JFN goes to the next; or the page of that byte has to come into core first.
fn next_byte<P: Pages>(
    jfn: Jfn,
    regs: &Regs,
    who: ForkName,
    tables: &FileTables,
    pages: &P,
) -> Result<End<ByteChange>, Need>
    requires regs { IsRegs regs.now }
    requires open { IsOpenAs tables.now who.tty (right (in_ac regs.now 1)) jfn }
    ensures told { (input : List ℕ) → Plans P.means pages.now tables.now who.tty (λ p. next_byte_of (asked_on who regs.now tables.now input p) (open_file tables.now.dir jfn)) result }
    ensures fits { IfOk result (FitsEnd (CanTurn tables.now who.tty)) }
    ensures needs { IfErr result (IsNeeded P.means.store 1 pages.now) }
    ensures core { P.means.flat ≡ true → IsOk result }
{
    if end_of(jfn, tables) <= jfn.at {
        return Ok(at_end(regs));
    }
    let (page, offset, pointer) = place(jfn.size, jfn.at);
    match word_of(pages, jfn.file, page, offset) {
        Ok(word) => Ok(returning(
            ByteChange::Move(who.tty, jfn_number(regs), jfn.at + 1),
            with_ac(*regs, 2, load(pointer, word)),
        )),
        Err(need) => Err(need),
    }
}

/// BIN: accumulator 2 is to become the next byte of the file of the JFN in accumulator 1, or the next character; or the page of
/// that byte has to come into core first. NO_JFN, NOT_OPEN.
pub fn bin<P: Pages>(
    regs: &Regs,
    who: ForkName,
    input: &Line,
    tables: &FileTables,
    pages: &P,
) -> Result<End<ByteChange>, Need>
    requires regs { IsRegs regs.now }
    requires terminal { IsTerminal who.tty }
    ensures told { Plans P.means pages.now tables.now who.tty (λ p. bin_of (asked_on who regs.now tables.now input.now.input p)) result }
    ensures fits { IfOk result (FitsEnd (CanTurn tables.now who.tty)) }
    ensures needs { IfErr result (IsNeeded P.means.store 1 pages.now) }
    ensures core { P.means.flat ≡ true → IsOk result }
{
    let number = jfn_number(regs);
    if number == TERMINAL_INPUT {
        return Ok(next_character(2, regs, who, input));
    }
    if number == TERMINAL_OUTPUT {
        return Ok(End::Refused(NOT_OPEN));
    }
    match jfn_open(Way::ToRead, regs, who, tables) {
        Ok(jfn) => next_byte(jfn, regs, who, tables, pages),
        Err(code) => Ok(End::Refused(code)),
    }
}
