// Which home has the map of each fork.
ghost use Rattle.std.specs.Prelude.{◌≡◌, ◌<◌, ◌≤◌, ◌+◌, ℕ, None, IfOk, length, replicate};
ghost use Rattle.pager_walk.specs.MapPages.{AreNumbered, first_map, fork_at, index_of, no_map, root_at};
ghost use Rattle.fork_maps.specs.MapNumbers.{AreListed};

use fork_maps::{ForkMap, MOST_MAPS, MapNumbers};
use machine_names::{ForkName, MOST_FORKS, TERMINALS, Tty};
use page_homes::Home;
use std::alloc::{AllocError, Global};

/// The fork whose map is the page of a home. Where it is of no fork, the home says nothing.
#[derive(Clone, Copy, PartialEq, Eq)]
pub struct MapPage {
    /// Whose map it is, if it is one.
    pub fork: Option<ForkName>,
    /// The home whose page is the map.
    pub home: Home,
}

impl ForkMap for MapPage {
    ghost use Rattle.std.proofs.Common.{refl};
    ghost use Rattle.pager_walk.specs.MapPages.{no_map};

    ghost whose = { λ m. m.fork };

    ghost past = { no_map };

    #[inline(always)]
    fn fork(&self) -> Option<ForkName> {
        self.fork
    }

    ghost nobody = { refl };
}

// The map of no fork.
const NO_MAP: MapPage = MapPage {
    fork: None,
    home: Home(0),
};

/// Which home has the map of each fork. Under each name stands the number that its map has, so that a map is
/// found in one step.
#[derive(Drop)]
pub struct KeptMaps {
    /// The maps by their numbers.
    pub pages: Vec<MapPage>,
    numbers: MapNumbers,
    ghost listed: { AreListed (fork_at pages.items) numbers.numbers.items },
}

// As many maps of no fork as there is room for.
fn no_maps(alloc: Global) -> Result<Vec<MapPage>, AllocError>
    ensures { IfOk result (λ v. v.items ≡ replicate MOST_MAPS no_map) }
{
    let mut maps = Vec::with_capacity(alloc, MOST_MAPS as usize)?;
    for _map in 0..MOST_MAPS {
        maps.push(NO_MAP)?;
    }
    Ok(maps)
}

impl KeptMaps {
    ghost use Rattle.std.specs.Prelude.{◌≡◌, ◌<◌, ◌≤◌, ◌+◌, ℕ, None, Some, IfSome, IfOk, length, slice_set};

    /// Maps of no fork, and none is numbered.
    pub fn boot(alloc: Global) -> Result<KeptMaps, AllocError>
        ensures numbered { IfOk result (λ m. AreNumbered m.pages.items) }
        ensures none { IfOk result (λ m. (k : ℕ) → fork_at m.pages.items k ≡ None) }
        ensures pages { IfOk result (λ m. m.pages.items ≡ replicate MOST_MAPS no_map) }
    {
        let pages = no_maps(alloc)?;
        let numbers = MapNumbers::boot(alloc)?;
        Ok(KeptMaps { pages, numbers })
    }

    /// The number of a fork's map. None exactly where the fork has none.
    pub fn map_of(&self, fork: ForkName) -> Option<u32>
        requires numbered { AreNumbered self.now.pages.items }
        ensures { result ≡ index_of self.now.pages.items fork }
    {
        self.numbers.map_of(&self.pages, fork)
    }

    /// The home of the map with a number.
    pub fn root(&self, number: u32) -> Home
        requires { number < length self.now.pages.items }
        ensures { result ≡ root_at self.now.pages.items number }
    {
        self.pages[number as usize].home
    }

    /// A number that no fork's map has, among those of a terminal. None exactly where each has one.
    pub fn free_number(&self, tty: Tty) -> Option<u32>
        requires numbered { AreNumbered self.now.pages.items }
        requires terminal { tty.0 < TERMINALS }
        ensures free { IfSome result (λ k. (fork_at self.now.pages.items k ≡ None) × (first_map tty ≤ k) × (k < first_map tty + MOST_FORKS)) }
        ensures none { result ≡ None → (k : ℕ) → first_map tty ≤ k → k < first_map tty + MOST_FORKS → fork_at self.now.pages.items k ≡ None → ⊥ }
    {
        let first = tty.0 as u32 * MOST_FORKS as u32;
        for number in first..first + MOST_FORKS as u32 {
            if self.pages[number as usize].fork.is_none() {
                return Some(number);
            }
        }
        None
    }

    /// The page of a home becomes the map of a fork, under a number of its terminal.
    pub fn begin(&mut self, number: u32, fork: ForkName, home: Home)
        requires map { number < length self.old.pages.items }
        requires absent { index_of self.old.pages.items fork ≡ None }
        requires from { first_map fork.tty ≤ number }
        requires below { number < first_map fork.tty + MOST_FORKS }
        ensures { self.new.pages.items ≡ slice_set self.old.pages.items number (record { fork = Some fork; home = home }) }
    {
        self.numbers.set(fork, number);
        self.pages[number as usize] = MapPage {
            fork: Some(fork),
            home,
        };
    }

    /// The map with a number becomes that of no fork.
    pub fn end(&mut self, number: u32)
        requires { number < length self.old.pages.items }
        ensures { self.new.pages.items ≡ slice_set self.old.pages.items number (record { fork = None; home = root_at self.old.pages.items number }) }
    {
        let home = self.root(number);
        self.pages[number as usize] = MapPage { fork: None, home };
    }
}
