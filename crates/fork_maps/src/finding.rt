// The map of a fork among all maps.
ghost use Rattle.std.specs.Prelude.{◌≡◌, ◌≢◌, true, false, None, Some, Option, length};
ghost use Rattle.machine_names.specs.declared.names.ForkName.{ForkName as AForkName};
ghost use Rattle.fork_maps.specs.ForkMaps.{AreOwn, fork_at, index_of};

use crate::map_numbers::{MOST_MAPS, MapNumbers, first_map};
use machine_names::{ForkName, MOST_FORKS};

/// The map of a fork, or of none.
pub trait ForkMap {
    /// Whose a map is, if it is some fork's.
    ghost whose: { Self → Option AForkName };

    /// What stands past the end of a list of maps.
    ghost past: { Self };

    /// Whose map it is, if it is some fork's.
    fn fork(&self) -> Option<ForkName>
        ensures { result ≡ whose self.now };

    /// That is nobody's.
    ghost nobody: { whose past ≡ None };
}

// Whether the map with a number is a fork's. There is none past the end.
#[inline]
fn is_map_of<M: ForkMap>(maps: &Vec<M>, number: u32, fork: ForkName) -> bool
    requires { length maps.now.items ≡ MOST_MAPS }
    ensures yes { result ≡ true → fork_at M.whose M.past maps.now.items number ≡ Some fork }
    ensures no { result ≡ false → fork_at M.whose M.past maps.now.items number ≢ Some fork }
{
    number < MOST_MAPS && maps[number as usize].fork() == Some(fork)
}

// The number of a fork's map, looked for among those of its terminal. None exactly where the fork has none.
fn searched<M: ForkMap>(maps: &Vec<M>, fork: ForkName) -> Option<u32>
    requires count { length maps.now.items ≡ MOST_MAPS }
    requires own { AreOwn (fork_at M.whose M.past maps.now.items) }
    ensures { result ≡ index_of M.whose maps.now.items fork }
{
    let first = first_map(fork);
    for number in first..first + u32::from(MOST_FORKS) {
        if is_map_of(maps, number, fork) {
            return Some(number);
        }
    }
    None
}

impl MapNumbers {
    ghost use Rattle.std.specs.Prelude.{◌≡◌, length};
    ghost use Rattle.fork_maps.specs.ForkMaps.{AreOwn, fork_at, index_of};
    ghost use Rattle.fork_maps.specs.MapNumbers.{AreListed};

    /// The number of a fork's map. None exactly where the fork has none.
    pub fn map_of<M: ForkMap>(&self, maps: &Vec<M>, fork: ForkName) -> Option<u32>
        requires count { length maps.now.items ≡ MOST_MAPS }
        requires own { AreOwn (fork_at M.whose M.past maps.now.items) }
        requires listed { AreListed (fork_at M.whose M.past maps.now.items) self.now.numbers.items }
        ensures { result ≡ index_of M.whose maps.now.items fork }
    {
        let Some(number) = self.number(fork) else {
            return searched(maps, fork);
        };
        if is_map_of(maps, number, fork) {
            return Some(number);
        }
        None
    }
}
