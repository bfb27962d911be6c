// Which number the map of a name has.
ghost use Rattle.std.specs.Prelude.{◌≡◌, ◌+◌, ◌*◌, length};
ghost use Rattle.machine_names.specs.declared.names.TheConstants.{LAST_SERIAL, TERMINALS};
ghost use Rattle.fork_maps.specs.ForkMaps.{first_map};
ghost use Rattle.fork_maps.specs.MapNumbers.{name_index};

use machine_names::{ForkName, LAST_SERIAL, MOST_FORKS, TERMINALS};
use std::alloc::{AllocError, Global};

/// How many maps there is room for: those of the forks that a terminal may have stand in a row.
pub const MOST_MAPS: u32 = TERMINALS as u32 * MOST_FORKS as u32;

// How many serials a terminal has. No fork has serial 0.
const SERIALS: u32 = LAST_SERIAL + 1;

// How many names forks have.
const NAMES: u32 = TERMINALS as u32 * SERIALS;

/// For each name of a fork the number that its map has, or had, among those of its terminal.
#[derive(Drop)]
pub struct MapNumbers {
    pub numbers: Vec<u8>,
    ghost sized: { length numbers.items ≡ TERMINALS * (LAST_SERIAL + 1) },
}

// Where a name stands among those of all terminals. None where no table has room for it.
#[inline]
fn name_index(name: ForkName) -> Option<usize>
    ensures { result ≡ name_index name }
{
    if name.tty.0 < TERMINALS && name.serial <= LAST_SERIAL {
        Some((u32::from(name.tty.0) * SERIALS + name.serial) as usize)
    } else {
        None
    }
}

/// The number of the first map that the forks of a terminal may have.
#[inline]
pub fn first_map(name: ForkName) -> u32
    ensures { result ≡ first_map name.tty }
{
    u32::from(name.tty.0) * u32::from(MOST_FORKS)
}

impl MapNumbers {
    ghost use Rattle.std.specs.Prelude.{◌≡◌, ◌≤◌, ◌<◌, ◌+◌, ℕ, None, Option, IfOk};
    ghost use Rattle.machine_names.specs.declared.names.ForkName.{ForkName as AForkName};
    ghost use Rattle.fork_maps.specs.ForkMaps.{first_map};
    ghost use Rattle.fork_maps.specs.MapNumbers.{AreListed, number_of, with_number};

    /// The numbers where no fork has a map. Err: no memory.
    pub fn boot(alloc: Global) -> Result<MapNumbers, AllocError>
        ensures { IfOk result (λ n. (fork : ℕ → Option AForkName) → ((k : ℕ) → fork k ≡ None) → AreListed fork n.numbers.items) }
    {
        let numbers = vec![in alloc; 0; NAMES as usize]?;
        Ok(MapNumbers { numbers })
    }

    /// The number that stands under a name. None where no table has room for it.
    #[inline]
    pub fn number(&self, name: ForkName) -> Option<u32>
        ensures { result ≡ number_of self.now.numbers.items name }
    {
        let Some(index) = name_index(name) else {
            return None;
        };
        Some(first_map(name) + u32::from(self.numbers[index]))
    }

    /// The map with a number becomes that of a name.
    pub fn set(&mut self, name: ForkName, number: u32)
        requires from { first_map name.tty ≤ number }
        requires below { number < first_map name.tty + MOST_FORKS }
        ensures { self.new.numbers.items ≡ with_number self.old.numbers.items name number }
    {
        if let Some(index) = name_index(name) {
            self.numbers[index] = (number - first_map(name)) as u8;
        }
    }
}
