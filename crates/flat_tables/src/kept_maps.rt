// The maps of forks, and what looks at them go by.
ghost use Rattle.std.specs.Prelude.{◌≡◌, ◌≤◌, ◌<◌, ◌+◌, None, IfOk, length, replicate, map};
ghost use Rattle.flat_tables.specs.HeldMaps.{fork_at};
ghost use Rattle.fork_maps.specs.MapNumbers.{AreListed};
ghost use Rattle.flat_tables.specs.Looks.{AreLooked, IsCode, key_of, no_looks, look_of};

use crate::chain_walk::{Use, home_of};
use crate::held_entry::{EntryAt, HeldEntry};
use crate::held_map::{HeldMap, following, free_maps, set_held};
use crate::look::{Look, NO_LOOK, look_of};
use fork_maps::{CHAIN, MOST_MAPS, MapNumbers};
use machine_names::{ForkName, MOST_FORKS, SPACE_PAGES};
use page_homes::Home;
use std::alloc::{AllocError, Global};

/// The maps of forks. Beside each entry stands what a look goes by, and beside each map its fork's serial.
#[derive(Drop)]
pub struct KeptMaps {
    pub held: Vec<HeldMap>,
    looks: Vec<[Look; SPACE_PAGES]>,
    keys: Vec<u64>,
    numbers: MapNumbers,
    ghost looked: { AreLooked held.items looks.items keys.items },
    ghost numbered: { AreListed (fork_at held.items) numbers.numbers.items },
}

// Beside a map of no fork.
const NO_KEY: u64 = u64::MAX;

// What is kept beside maps of no fork.
fn no_keys(alloc: Global) -> Result<Vec<u64>, AllocError>
    ensures { IfOk result (λ v. v.items ≡ replicate MOST_MAPS (key_of None)) }
{
    vec![in alloc; NO_KEY; MOST_MAPS as usize]
}

// The number of no home.
const NO_CODE: u64 = u64::MAX;

// A home as a number.
fn code_of(home: Option<Home>) -> u64
    ensures { IsCode result home }
{
    match home {
        Some(home) => u64::from(home.0),
        None => NO_CODE,
    }
}

// What is kept beside the entries of a map that name no page.
fn no_row() -> [Look; SPACE_PAGES]
    ensures { result ≡ no_looks }
{
    [NO_LOOK; SPACE_PAGES]
}

// The same for as many maps as there is room for.
fn no_rows(alloc: Global) -> Result<Vec<[Look; SPACE_PAGES]>, AllocError>
    ensures { IfOk result (λ v. v.items ≡ replicate MOST_MAPS no_looks) }
{
    let mut rows = Vec::with_capacity(alloc, MOST_MAPS as usize)?;
    for _map in 0..MOST_MAPS {
        let row = no_row();
        rows.push(row)?;
    }
    Ok(rows)
}

// What is kept beside the entries of the map with a number.
fn row_of(number: u32, entries: &[HeldEntry; SPACE_PAGES]) -> [Look; SPACE_PAGES]
    ensures { result ≡ map (look_of number) entries.now }
{
    let mut row = no_row();
    for page in 0..SPACE_PAGES {
        row[page] = look_of(number, entries[page]);
    }
    row
}

impl KeptMaps {
    ghost use Rattle.std.specs.Prelude.{◌≡◌, ◌<◌, ◌≤◌, ◌+◌, false, is_some, None, Some, IfOk, IfSome, IsSome, length, replicate, slice_set};
    ghost use Rattle.std.specs.Option.{option_and_then, unwrap_or};
    ghost use Rattle.flat_tables.specs.HeldMaps.{AreHeld, free_map, first_map, map_at, fork_at, index_of, with_entry, followers};
    ghost use Rattle.flat_tables.specs.Walks.{walk, walk_within, ready_home};

    /// Maps of no fork, as many as there is room for.
    pub fn boot(alloc: Global) -> Result<KeptMaps, AllocError>
        ensures { IfOk result (λ m. m.held.items ≡ replicate MOST_MAPS free_map) }
    {
        let held = free_maps(alloc)?;
        let looks = no_rows(alloc)?;
        let keys = no_keys(alloc)?;
        let numbers = MapNumbers::boot(alloc)?;
        Ok(KeptMaps {
            held,
            looks,
            keys,
            numbers,
        })
    }

    /// Sets the entry at a page of a map.
    pub fn set(&mut self, at: EntryAt, entry: HeldEntry)
        requires map { at.map < length self.old.held.items }
        requires page { at.page < length (map_at self.old.held.items at.map).entries }
        ensures { self.new.held.items ≡ with_entry self.old.held.items at entry }
    {
        set_held(&mut self.held, at, entry);
        let row = &mut self.looks[at.map as usize];
        row[at.page as usize] = look_of(at.map, entry);
    }

    /// A map becomes that of a fork, with its entries.
    pub fn begin(&mut self, number: u32, fork: ForkName)
        requires map { number < length self.old.held.items }
        requires absent { is_some (index_of self.old.held.items fork) ≡ false }
        requires from { first_map fork.tty ≤ number }
        requires below { number < first_map fork.tty + MOST_FORKS }
        ensures { self.new.held.items ≡ slice_set self.old.held.items number (record { fork = Some fork; entries = (map_at self.old.held.items number).entries }) }
    {
        self.numbers.set(fork, number);
        let map = &mut self.held[number as usize];
        map.fork = Some(fork);
        self.keys[number as usize] = u64::from(fork.serial);
    }

    /// A map becomes that of a fork, and each of its entries follows the same entry of another fork.
    pub fn begin_following(&mut self, number: u32, fork: ForkName, serial: u32, near: u16)
        requires map { number < length self.old.held.items }
        requires absent { is_some (index_of self.old.held.items fork) ≡ false }
        requires from { first_map fork.tty ≤ number }
        requires below { number < first_map fork.tty + MOST_FORKS }
        ensures { self.new.held.items ≡ slice_set self.old.held.items number (record { fork = Some fork; entries = followers serial near }) }
    {
        self.numbers.set(fork, number);
        let entries = following(serial, near);
        self.looks[number as usize] = row_of(number, &entries);
        let map = &mut self.held[number as usize];
        map.fork = Some(fork);
        map.entries = entries;
        self.keys[number as usize] = u64::from(fork.serial);
    }

    /// A map becomes that of no fork.
    pub fn end(&mut self, number: u32)
        requires map { number < length self.old.held.items }
        ensures { self.new.held.items ≡ slice_set self.old.held.items number (record (map_at self.old.held.items number) { fork = None }) }
    {
        let map = &mut self.held[number as usize];
        map.fork = None;
        self.keys[number as usize] = NO_KEY;
    }

    /// The number of a fork's map. None exactly where the fork has none.
    pub fn map_of(&self, fork: ForkName) -> Option<u32>
        requires held { AreHeld self.now.held.items }
        ensures { result ≡ index_of self.now.held.items fork }
    {
        self.numbers.map_of(&self.held, fork)
    }

    /// The number of a fork's map, or 0 where the fork has none.
    pub fn near_map(&self, fork: ForkName) -> u16
        requires held { AreHeld self.now.held.items }
        ensures { result ≡ unwrap_or (index_of self.now.held.items fork) 0 }
    {
        match self.map_of(fork) {
            Some(map) => map as u16,
            None => 0,
        }
    }

    /// The home of the page at the end of the chain of an entry, where each entry lets it be used so as it is.
    #[inline(always)]
    pub fn home_for(&self, at: EntryAt, wanted: Use) -> Option<Home>
        requires held { AreHeld self.now.held.items }
        requires lives { IsSome (fork_at self.now.held.items at.map) }
        requires page { at.page < SPACE_PAGES }
        ensures { result ≡ option_and_then (ready_home wanted) (walk self.now.held.items at) }
    {
        let look = &self.looks[at.map as usize][at.page as usize];
        if look.ready[wanted.number()] {
            return Some(Home(look.number));
        }
        if let Some(home) = self.home_behind(at, wanted) {
            return Some(home);
        }
        let code = self.code_along(at, wanted);
        if code > u64::from(u32::MAX) {
            return None;
        }
        Some(Home(code as u32))
    }

    // The same where the entry follows one that names a page, as most do that follow one. None also in a longer chain.
    #[inline(always)]
    fn home_behind(&self, at: EntryAt, wanted: Use) -> Option<Home>
        requires held { AreHeld self.now.held.items }
        requires lives { IsSome (fork_at self.now.held.items at.map) }
        requires page { at.page < SPACE_PAGES }
        ensures { IfSome result (λ h. option_and_then (ready_home wanted) (walk_within CHAIN self.now.held.items at) ≡ Some h) }
    {
        let way = wanted.number();
        let look = &self.looks[at.map as usize][at.page as usize];
        if !look.passes[way] || self.keys[look.map as usize] != u64::from(look.number) {
            return None;
        }
        let behind = &self.looks[look.map as usize][look.page as usize];
        if behind.ready[way] {
            Some(Home(behind.number))
        } else {
            None
        }
    }

    // The same along a chain, as a number, since an Option handed back from a call is tested a second time. It is cold,
    // so that the way of an entry that is ready goes straight on.
    #[cold]
    #[inline(never)]
    fn code_along(&self, at: EntryAt, wanted: Use) -> u64
        requires held { AreHeld self.now.held.items }
        requires lives { IsSome (fork_at self.now.held.items at.map) }
        requires page { at.page < SPACE_PAGES }
        ensures { IsCode result (option_and_then (ready_home wanted) (walk_within CHAIN self.now.held.items at)) }
    {
        let way = wanted.number();
        let mut next = at;
        for entries in 0..CHAIN {
            let look = &self.looks[next.map as usize][next.page as usize];
            let number = look.number;
            if !look.passes[way] || self.keys[look.map as usize] != u64::from(number) {
                if look.ready[way] {
                    return u64::from(number);
                }
                return code_of(home_of(self, CHAIN, at, wanted));
            }
            next = EntryAt {
                map: u32::from(look.map),
                page: look.page,
            };
        }
        NO_CODE
    }
}
