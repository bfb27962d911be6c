// The maps of forks as they stand in memory.
ghost use Rattle.std.specs.Prelude.{◌≡◌, ◌+◌, ◌<◌, ◌≤◌, None, Some, IfOk, length, replicate};
ghost use Rattle.flat_tables.specs.HeldMaps.{AreHeld, no_page, free_map, map_at, fork_at, first_map, held_entry, with_entry, living_of, followers};

use crate::held_entry::{EntryAt, HeldEntry, Link};
use fork_maps::{FULL_ACCESS, ForkMap, MOST_MAPS};
use machine_names::{ForkName, MOST_FORKS, SPACE_PAGES, TERMINALS, Tty};
use std::alloc::{AllocError, Global};

/// The map of a fork, or of none.
#[derive(Drop)]
pub struct HeldMap {
    pub fork: Option<ForkName>,
    pub entries: [HeldEntry; SPACE_PAGES],
}

impl ForkMap for HeldMap {
    ghost use Rattle.std.proofs.Common.{None, [], refl};

    ghost whose = { λ m. m.fork };

    ghost past = { record { fork = None; entries = [] } };

    #[inline(always)]
    fn fork(&self) -> Option<ForkName> {
        self.fork
    }

    ghost nobody = { refl };
}

// Entries that name no page.
fn no_entries() -> [HeldEntry; SPACE_PAGES]
    ensures { result ≡ no_page }
{
    [HeldEntry::Empty; SPACE_PAGES]
}

/// Maps of no fork, as many as there is room for.
pub fn free_maps(alloc: Global) -> Result<Vec<HeldMap>, AllocError>
    ensures { IfOk result (λ v. v.items ≡ replicate MOST_MAPS free_map) }
{
    let mut maps = Vec::with_capacity(alloc, MOST_MAPS as usize)?;
    for _map in 0..MOST_MAPS {
        let entries = no_entries();
        maps.push(HeldMap {
            fork: None,
            entries,
        })?;
    }
    Ok(maps)
}

/// The entry at a page of a map.
#[inline]
pub fn entry_held(maps: &Vec<HeldMap>, at: EntryAt) -> HeldEntry
    requires map { at.map < length maps.now.items }
    requires page { at.page < length (map_at maps.now.items at.map).entries }
    ensures { held_entry maps.now.items at ≡ Some result }
{
    maps[at.map as usize].entries[at.page as usize]
}

/// Sets the entry at a page of a map.
pub fn set_held(maps: &mut Vec<HeldMap>, at: EntryAt, entry: HeldEntry)
    requires map { at.map < length maps.old.items }
    requires page { at.page < length (map_at maps.old.items at.map).entries }
    ensures { maps.new.items ≡ with_entry maps.old.items at entry }
{
    let map = &mut maps[at.map as usize];
    map.entries[at.page as usize] = entry;
}

/// The number of a map of no fork, among those of a terminal.
pub fn free_map_of(maps: &Vec<HeldMap>, tty: Tty) -> u32
    requires held { AreHeld maps.now.items }
    requires terminal { tty.0 < TERMINALS }
    requires few { living_of maps.now.items tty < MOST_FORKS }
    ensures fork { fork_at maps.now.items result ≡ None }
    ensures from { first_map tty ≤ result }
    ensures below { result < first_map tty + MOST_FORKS }
{
    let first = tty.0 as u32 * MOST_FORKS as u32;
    for number in first..first + MOST_FORKS as u32 {
        if maps[number as usize].fork.is_none() {
            return number;
        }
    }
    unreachable!()
}

/// Entries each of which follows the same entry of a fork, with every right.
pub fn following(serial: u32, near: u16) -> [HeldEntry; SPACE_PAGES]
    ensures { result ≡ followers serial near }
{
    let mut entries = no_entries();
    for page in 0..SPACE_PAGES {
        let link = Link {
            serial,
            page: page as u16,
            map: near,
        };
        entries[page] = HeldEntry::Follows(link, FULL_ACCESS);
    }
    entries
}
