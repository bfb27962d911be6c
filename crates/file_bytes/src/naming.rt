// The JFN that a call on bytes names.
ghost use Rattle.std.specs.Prelude.{◌≡◌, ◌<◌, ◌^◌, IfOk, List, Some, ℕ};
ghost use Rattle.word36.specs.Words.{right};
ghost use Rattle.machine_names.specs.Bounds.{IsTerminal};
ghost use Rattle.plain_files.specs.Directory.{Files};
ghost use Rattle.plain_files.specs.NamedFiles.{open_file};
ghost use Rattle.plain_units.specs.Deeds.{in_ac};
ghost use Rattle.plain_model.specs.ByteCalls.{jfn_held as jfn_held_of, jfn_open as jfn_open_of};
ghost use Rattle.call_turns.specs.Turns.{IsRegs};
ghost use Rattle.call_turns.specs.Numbers.{named_by};
ghost use Rattle.file_bytes.specs.Asking.{IsHeldAs, IsOpenAs, asked, is_so as is_so_of};

use call_turns::accumulator;
use file_tables::FileTables;
use machine_names::ForkName;
use plain_files::Jfn;
use plain_model::call::{NO_JFN, NOT_OPEN};
use plain_units::Regs;

/// How the file of a JFN is to be open.
#[derive(Clone, Copy)]
pub enum Way {
    Anyhow,
    ToRead,
    ToWrite,
}

/// The number in the right half of accumulator 1.
pub fn jfn_number(regs: &Regs) -> u32
    requires { IsRegs regs.now }
    ensures number { result ≡ right (in_ac regs.now 1) }
    ensures small { result < 2 ^ 18 }
{
    accumulator(regs, 1).right()
}

/// The JFN of the caller's job that accumulator 1 names; or NO_JFN.
pub fn jfn_held(regs: &Regs, who: ForkName, tables: &FileTables) -> Result<Jfn, u32>
    requires regs { IsRegs regs.now }
    requires terminal { IsTerminal who.tty }
    ensures held { (input : List ℕ) (pages : List ℕ → ℕ) → named_by (open_file tables.now.dir) result ≡ jfn_held_of (asked who regs.now tables.now input pages) }
    ensures fits { IfOk result (IsHeldAs tables.now who.tty (right (in_ac regs.now 1))) }
{
    match tables.jfn(who.tty, jfn_number(regs)) {
        Some(jfn) => Ok(jfn),
        None => Err(NO_JFN),
    }
}

// Whether the file of a JFN is open so.
fn is_so(way: Way, jfn: Jfn) -> bool
    ensures { (files : Files) → result ≡ is_so_of way (open_file files jfn) }
{
    match jfn.mode {
        Some(mode) => match way {
            Way::Anyhow => true,
            Way::ToRead => mode.r,
            Way::ToWrite => mode.w,
        },
        None => false,
    }
}

/// The same, where its file is open so; or NO_JFN, or NOT_OPEN.
pub fn jfn_open(way: Way, regs: &Regs, who: ForkName, tables: &FileTables) -> Result<Jfn, u32>
    requires regs { IsRegs regs.now }
    requires terminal { IsTerminal who.tty }
    ensures held { (input : List ℕ) (pages : List ℕ → ℕ) → named_by (open_file tables.now.dir) result ≡ jfn_open_of (is_so_of way) (asked who regs.now tables.now input pages) }
    ensures fits { IfOk result (IsOpenAs tables.now who.tty (right (in_ac regs.now 1))) }
{
    match jfn_held(regs, who, tables) {
        Ok(jfn) => {
            if is_so(way, jfn) {
                Ok(jfn)
            } else {
                Err(NOT_OPEN)
            }
        }
        Err(code) => Err(code),
    }
}
