// What the definitions say of the bounds.
ghost use Rattle.std.specs.Prelude.{◌≡◌, ◌≤◌};
ghost use Rattle.machine_names.specs.declared.names.ForkName.{ForkName as AForkName};
ghost use Rattle.machine_names.specs.Bounds.{IsTerminal, IsForkName, IsOwner};

use crate::{
    ACCUMULATORS, FILE_PAGES, LAST_SERIAL, MOST_FILES, MOST_FORKS, PAGE_ADDRESSES, SPACE_PAGES,
    TERMINALS, Tty,
};

/// The bounds by which the definitions speak are these numbers. The last serial names a fork; the console owns
/// pages and is no terminal.
pub fn bounds_hold()
    ensures numbers { (TERMINALS ≡ 16) × (MOST_FORKS ≡ 30) × (LAST_SERIAL ≡ 262143) × (SPACE_PAGES ≡ 512) × (PAGE_ADDRESSES ≡ 512) × (ACCUMULATORS ≡ 16) }
    ensures files { (MOST_FILES ≡ 512) × (FILE_PAGES ≡ 512) }
    ensures last { IsForkName (record { tty = record { 0 = 0 }; serial = LAST_SERIAL }) }
    ensures beyond { (f : AForkName) → IsForkName f → f.serial ≤ LAST_SERIAL }
    ensures owner { IsOwner Tty.CONSOLE }
    ensures apart { IsTerminal Tty.CONSOLE → ⊥ }
{}
