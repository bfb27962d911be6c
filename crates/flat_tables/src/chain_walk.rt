// Walks along the chains of maps in memory.
ghost use Rattle.std.specs.Prelude.{◌≡◌, ◌<◌, None, Some, IsSome, length};
ghost use Rattle.std.specs.Option.{option_and_then};
ghost use Rattle.flat_tables.specs.HeldMaps.{AreHeld, fork_at, index_of};
ghost use Rattle.flat_tables.specs.Walks.{next_at, walk_within, use_of, lets, ready_home};

use crate::held_entry::{EntryAt, HeldEntry, Link};
use crate::held_map::entry_held;
use crate::kept_maps::KeptMaps;
use fork_maps::{FULL_ACCESS, Walk, ends, goes_on};
use machine_names::{Access, ForkName, Kind, SPACE_PAGES};
use page_homes::Home;

/// What is done with a page: it is read, written, executed, or read and then written.
#[derive(Clone, Copy, PartialEq, Eq)]
pub enum Use {
    Read,
    Write,
    Execute,
    Change,
}

impl Use {
    /// What a reference of a kind does.
    #[inline]
    pub fn of(kind: Kind) -> Use
        ensures { result ≡ use_of kind }
    {
        match kind {
            Kind::Read => Use::Read,
            Kind::Write => Use::Write,
            Kind::Execute => Use::Execute,
        }
    }

    /// Whether an entry with this access lets a page be used so as it is, with no copy.
    #[inline(always)]
    pub fn is_let(self, access: Access) -> bool
        ensures { result ≡ lets self access }
    {
        match self {
            Use::Read => access.r,
            Use::Write => access.w && !access.c,
            Use::Execute => access.x,
            Use::Change => access.r && access.w && !access.c,
        }
    }
}

// The home of the page at the end of a chain that lets it be used so as it is.
fn ready_home(walk: Walk<EntryAt>, wanted: Use) -> Option<Home>
    ensures { result ≡ ready_home wanted walk }
{
    let is_let = match wanted {
        Use::Read => walk.reads,
        Use::Write => walk.writes && walk.copy.is_none(),
        Use::Execute => walk.executes,
        Use::Change => walk.reads && walk.writes && walk.copy.is_none(),
    };
    if is_let { walk.home } else { None }
}

// Where the entry stands that a link names. None exactly where its fork doesn't live.
#[inline]
fn followed(maps: &KeptMaps, at: EntryAt, link: Link) -> Option<EntryAt>
    requires held { AreHeld maps.now.held.items }
    requires map { at.map < length maps.now.held.items }
    requires lives { IsSome (fork_at maps.now.held.items at.map) }
    ensures { result ≡ next_at maps.now.held.items at link }
{
    let fork = match maps.held[at.map as usize].fork {
        Some(own) => ForkName {
            tty: own.tty,
            serial: link.serial,
        },
        None => unreachable!(),
    };
    map_near(maps, fork, link.map).map(|map| EntryAt {
        map,
        page: link.page,
    })
}

// The number of a fork's map, which is looked at first where it may be.
#[inline]
fn map_near(maps: &KeptMaps, fork: ForkName, near: u16) -> Option<u32>
    requires held { AreHeld maps.now.held.items }
    ensures { result ≡ index_of maps.now.held.items fork }
{
    if (near as usize) < maps.held.len() && maps.held[near as usize].fork == Some(fork) {
        return Some(u32::from(near));
    }
    maps.map_of(fork)
}

/// The walk from an entry of a living fork's map along its chain, where so many entries are enough.
pub fn walk_along(maps: &KeptMaps, most: u32, at: EntryAt) -> Option<Walk<EntryAt>>
    requires held { AreHeld maps.now.held.items }
    requires lives { IsSome (fork_at maps.now.held.items at.map) }
    requires page { at.page < SPACE_PAGES }
    ensures { result ≡ walk_within most maps.now.held.items at }
{
    if most == 0 {
        return None;
    }
    match entry_held(&maps.held, at) {
        HeldEntry::Empty => Some(ends(at, FULL_ACCESS, None)),
        HeldEntry::Page(home, access) => Some(ends(at, access, Some(home))),
        HeldEntry::Follows(link, access) => {
            let Some(next) = followed(maps, at, link) else {
                return None;
            };
            let Some(rest) = walk_along(maps, most - 1, next) else {
                return None;
            };
            Some(goes_on(at, access, rest))
        }
    }
}

/// The home of the page at the end of a chain, where so many entries are enough, and each lets the page be
/// used so as it is.
pub fn home_of(maps: &KeptMaps, most: u32, at: EntryAt, wanted: Use) -> Option<Home>
    requires held { AreHeld maps.now.held.items }
    requires lives { IsSome (fork_at maps.now.held.items at.map) }
    requires page { at.page < SPACE_PAGES }
    ensures { result ≡ option_and_then (ready_home wanted) (walk_within most maps.now.held.items at) }
{
    match walk_along(maps, most, at) {
        None => None,
        Some(walk) => ready_home(walk, wanted),
    }
}
