// SFPTR, RFPTR and SIZEF: where a JFN stands, and how long its file is.
ghost use Rattle.std.specs.Prelude.{◌≡◌, List, ℕ};
ghost use Rattle.machine_names.specs.Bounds.{IsTerminal};
ghost use Rattle.machine_names.specs.declared.names.ForkName.{ForkName as AForkName};
ghost use Rattle.page_contracts.specs.DrumWords.{DrumWords};
ghost use Rattle.plain_units.specs.Deeds.{in_ac};
ghost use Rattle.plain_files.specs.NamedFiles.{open_file};
ghost use Rattle.plain_model.specs.Calls.{ends};
ghost use Rattle.plain_model.specs.ByteCalls.{position_in as position_in_of, rfptr as rfptr_of, sfptr as sfptr_of, sizef as sizef_of};
ghost use Rattle.call_turns.specs.Turns.{FitsEnd, IsRegs};
ghost use Rattle.file_bytes.specs.Asking.{IsUsable, asked, asked_on};
ghost use Rattle.file_bytes.specs.Planning.{CanTurn};

use crate::ends::skipping;
use call_turns::{accumulator, with_ac};
use file_bytes::{Way, count_of, end_of, jfn_held, jfn_number, jfn_open, length_of};
use file_tables::FileTables;
use machine_names::ForkName;
use page_contracts::Pages;
use page_files::most_bytes;
use plain_files::Jfn;
use plain_model::call::{BAD_POSITION, ByteChange, End};
use plain_units::Regs;
use word36::Word;

// The position that accumulator 2 names in the file of a JFN: all ones is behind its last byte.
fn position_in(jfn: Jfn, regs: &Regs, tables: &FileTables) -> u64
    requires regs { IsRegs regs.now }
    requires usable { IsUsable tables.now jfn }
    ensures { (who : AForkName) (input : List ℕ) (pages : List ℕ → ℕ) → result ≡ position_in_of (asked who regs.now tables.now input pages) (open_file tables.now.dir jfn) (in_ac regs.now 2) }
{
    let word = accumulator(regs, 2);
    if word.value() == Word::MASK {
        end_of(jfn, tables)
    } else {
        word.value()
    }
}

/// SFPTR: the JFN in accumulator 1 is moved to the position in accumulator 2. NO_JFN, NOT_OPEN, BAD_POSITION.
pub fn sfptr(regs: &Regs, who: ForkName, tables: &FileTables) -> End<ByteChange>
    requires regs { IsRegs regs.now }
    requires terminal { IsTerminal who.tty }
    ensures turn { (input : List ℕ) (pages : List ℕ → ℕ) → ends result ≡ sfptr_of (asked who regs.now tables.now input pages) }
    ensures fits { FitsEnd (CanTurn tables.now who.tty) result }
{
    match jfn_open(Way::Anyhow, regs, who, tables) {
        Ok(jfn) => {
            let at = position_in(jfn, regs, tables);
            if at <= most_bytes(jfn.size) {
                skipping(ByteChange::Move(who.tty, jfn_number(regs), at), *regs)
            } else {
                End::Failed(BAD_POSITION)
            }
        }
        Err(code) => End::Failed(code),
    }
}

/// RFPTR: tells the position of the JFN in accumulator 1. NO_JFN, NOT_OPEN.
pub fn rfptr(regs: &Regs, who: ForkName, tables: &FileTables) -> End<ByteChange>
    requires regs { IsRegs regs.now }
    requires terminal { IsTerminal who.tty }
    ensures turn { (input : List ℕ) (pages : List ℕ → ℕ) → ends result ≡ rfptr_of (asked who regs.now tables.now input pages) }
    ensures fits { FitsEnd (CanTurn tables.now who.tty) result }
{
    match jfn_open(Way::Anyhow, regs, who, tables) {
        Ok(jfn) => skipping(
            ByteChange::Nothing,
            with_ac(*regs, 2, Word::wrapped(jfn.at)),
        ),
        Err(code) => End::Failed(code),
    }
}

/// SIZEF: tells the length of the file of the JFN in accumulator 1, in bytes of the file's own size, and how many pages it
/// has. NO_JFN.
pub fn sizef<P: Pages>(
    regs: &Regs,
    who: ForkName,
    tables: &FileTables,
    pages: &P,
) -> End<ByteChange>
    requires regs { IsRegs regs.now }
    requires terminal { IsTerminal who.tty }
    ensures turn { (d : DrumWords) (input : List ℕ) → P.means.fits pages.now d → ends result ≡ sizef_of (asked_on who regs.now tables.now input (P.means.plain pages.now d)) }
    ensures fits { FitsEnd (CanTurn tables.now who.tty) result }
{
    match jfn_held(regs, who, tables) {
        Ok(jfn) => {
            let told = with_ac(*regs, 2, Word::wrapped(length_of(jfn, tables)));
            let count = count_of(jfn.file, pages);
            skipping(
                ByteChange::Nothing,
                with_ac(told, 3, Word::wrapped(u64::from(count))),
            )
        }
        Err(code) => End::Failed(code),
    }
}
