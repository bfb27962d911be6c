// BOUT: the next byte of a file, or a character that is printed.
ghost use Rattle.std.specs.Prelude.{◌≡◌, IfErr, IfOk, IsOk, List, true, ℕ};
ghost use Rattle.word36.specs.Words.{right};
ghost use Rattle.machine_names.specs.Bounds.{IsTerminal};
ghost use Rattle.machine_names.specs.declared.names.ForkName.{ForkName as AForkName};
ghost use Rattle.file_tables.specs.declared.tables.FileTables.{FileTables as AFileTables};
ghost use Rattle.plain_files.specs.NamedFiles.{open_file};
ghost use Rattle.page_contracts.specs.Stores.{IsNeeded};
ghost use Rattle.plain_units.specs.Deeds.{in_ac};
ghost use Rattle.plain_model.specs.ByteCalls.{bout as bout_of, prints_byte as prints_byte_of, put_byte as put_byte_of};
ghost use Rattle.call_turns.specs.Turns.{FitsEnd, IsRegs};
ghost use Rattle.file_bytes.specs.Asking.{IsOpenAs, asked, asked_on};
ghost use Rattle.file_bytes.specs.Planning.{CanChange, CanTurn, Plans};

use call_turns::{WhenFull, accumulator, behind, fill, returning};
use file_bytes::{Way, jfn_number, jfn_open};
use file_tables::FileTables;
use machine_names::ForkName;
use page_contracts::{Need, Pages};
use page_files::{most_bytes, place};
use plain_files::Jfn;
use plain_model::call::{BAD_POSITION, ByteChange, End, NOT_OPEN, TERMINAL_INPUT, TERMINAL_OUTPUT};
use plain_units::Regs;

// The byte at which a JFN stands is to be written, in a page that is there or is made; the unit traps where the drum is full. Or
// the page has to come into core first, or wants a frame.
fn put_byte<P: Pages>(
    jfn: Jfn,
    regs: &Regs,
    who: ForkName,
    tables: &FileTables,
    pages: &P,
) -> Result<End<ByteChange>, Need>
    requires regs { IsRegs regs.now }
    requires terminal { IsTerminal who.tty }
    requires open { IsOpenAs tables.now who.tty (right (in_ac regs.now 1)) jfn }
    ensures told { (input : List ℕ) → Plans P.means pages.now tables.now who.tty (λ p. put_byte_of (asked_on who regs.now tables.now input p) (open_file tables.now.dir jfn)) result }
    ensures fits { IfOk result (FitsEnd (CanChange P.means pages.now tables.now who.tty)) }
    ensures needs { IfErr result (IsNeeded P.means.store 1 pages.now) }
    ensures core { P.means.flat ≡ true → IsOk result }
{
    if jfn.at >= most_bytes(jfn.size) {
        return Ok(End::Refused(BAD_POSITION));
    }
    let (page, _, _) = place(jfn.size, jfn.at);
    let change = ByteChange::Put(who.tty, jfn_number(regs), accumulator(regs, 2));
    match fill(
        pages,
        jfn.file,
        page,
        returning(change, *regs),
        WhenFull::Traps,
    ) {
        Ok(outcome) => Ok(outcome.end),
        Err(need) => Err(need),
    }
}

// The low 7 bits of accumulator 2 are printed.
fn prints_byte(regs: &Regs) -> End<ByteChange>
    requires { IsRegs regs.now }
    ensures end { (who : AForkName) (tables : AFileTables) (input : List ℕ) (pages : List ℕ → ℕ) → result ≡ prints_byte_of (asked who regs.now tables input pages) }
    ensures fits { (who : AForkName) (tables : AFileTables) → FitsEnd (CanTurn tables who.tty) result }
{
    End::Done {
        change: ByteChange::Nothing,
        regs: behind(*regs),
        out: Some((accumulator(regs, 2).value() % 128) as u8),
        post: None,
    }
}

/// BOUT: the low bits of accumulator 2 are to become the next byte of the file of the JFN in accumulator 1, or are printed; or the
/// page of that byte has to come into core first, or wants a frame. NO_JFN, NOT_OPEN, BAD_POSITION.
pub fn bout<P: Pages>(
    regs: &Regs,
    who: ForkName,
    tables: &FileTables,
    pages: &P,
) -> Result<End<ByteChange>, Need>
    requires regs { IsRegs regs.now }
    requires terminal { IsTerminal who.tty }
    ensures told { (input : List ℕ) → Plans P.means pages.now tables.now who.tty (λ p. bout_of (asked_on who regs.now tables.now input p)) result }
    ensures fits { IfOk result (FitsEnd (CanChange P.means pages.now tables.now who.tty)) }
    ensures needs { IfErr result (IsNeeded P.means.store 1 pages.now) }
    ensures core { P.means.flat ≡ true → IsOk result }
{
    let number = jfn_number(regs);
    if number == TERMINAL_INPUT {
        return Ok(End::Refused(NOT_OPEN));
    }
    if number == TERMINAL_OUTPUT {
        return Ok(prints_byte(regs));
    }
    match jfn_open(Way::ToWrite, regs, who, tables) {
        Ok(jfn) => put_byte(jfn, regs, who, tables, pages),
        Err(code) => Ok(End::Refused(code)),
    }
}
