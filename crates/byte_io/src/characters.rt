// The characters that are stored for a job.
ghost use Rattle.std.specs.Prelude.{◌≡◌, ◌<◌, ℕ, List};
ghost use Rattle.machine_names.specs.declared.names.TheConstants.{ACCUMULATORS};
ghost use Rattle.file_tables.specs.declared.tables.FileTables.{FileTables as AFileTables};
ghost use Rattle.plain_model.specs.ByteCalls.{next_character as next_character_of};
ghost use Rattle.call_turns.specs.Turns.{FitsEnd, IsRegs};
ghost use Rattle.file_bytes.specs.Asking.{asked};
ghost use Rattle.file_bytes.specs.Planning.{CanTurn};

use call_turns::{returning, with_ac};
use machine_names::ForkName;
use plain_model::call::{ByteChange, End};
use plain_units::Regs;
use script_texts::WaitOn;
use tty_lines::Line;
use word36::Word;

/// The oldest of the characters that are stored is to go to an accumulator, 0 to 15; where there is none, the fork waits for one.
pub fn next_character(ac: usize, regs: &Regs, who: ForkName, input: &Line) -> End<ByteChange>
    requires ac { ac < ACCUMULATORS }
    requires regs { IsRegs regs.now }
    ensures end { (tables : AFileTables) (pages : List ℕ → ℕ) → result ≡ next_character_of (asked who regs.now tables input.now.input pages) ac input.now.input }
    ensures fits { (tables : AFileTables) → FitsEnd (CanTurn tables who.tty) result }
{
    match input.oldest() {
        Some(code) => returning(
            ByteChange::Take(who.tty),
            with_ac(*regs, ac, Word::wrapped(u64::from(code))),
        ),
        None => End::Waits(WaitOn::Input),
    }
}
