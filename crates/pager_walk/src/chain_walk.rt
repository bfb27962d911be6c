// Walks along the chains of maps that are pages.
ghost use Rattle.std.specs.Prelude.{◌≡◌, ◌<◌, map};
ghost use Rattle.page_contracts.specs.DrumWords.{DrumWords};
ghost use Rattle.page_contracts.specs.Stores.{is_taken};
ghost use Rattle.pager_walk.specs.PagedMaps.{AreRooted, FitsMaps, tables_of};
ghost use Rattle.pager_walk.specs.Walks.{TellsWalk, WalkStands, allows, walk_at, walk_within, walked_behind};

use crate::paged_entry::{Looked, MapTables, PagedEntry, entry};
use fork_maps::{CHAIN, FULL_ACCESS, Walk, ends, goes_on};
use machine_names::{Access, ForkName, Kind, SPACE_PAGES, Slot};
use page_contracts::Store;
use page_homes::Home;

/// A walk whose entries stand in slots.
pub type Way = Walk<Slot>;

/// What a walk comes to.
#[derive(Clone, Copy, PartialEq, Eq)]
pub enum Walked {
    Along(Way),
    /// This home, of a map on the way, is in no frame.
    Absent(Home),
    /// The slot has no chain.
    NoChain,
}

impl Walked {
    /// Whether a reference is permitted: there is a chain, which permits it.
    pub fn permits(self, kind: Kind) -> bool
        ensures { result ≡ allows kind self }
    {
        match self {
            Walked::Along(walk) => walk.permits(kind),
            Walked::Absent(_) => false,
            Walked::NoChain => false,
        }
    }
}

// What a walk from an entry on comes to, whose rest is known.
fn behind(at: Slot, access: Access, rest: Walked) -> Walked
    ensures { result ≡ walked_behind at access rest }
{
    match rest {
        Walked::Along(walk) => Walked::Along(goes_on(at, access, walk)),
        Walked::Absent(home) => Walked::Absent(home),
        Walked::NoChain => Walked::NoChain,
    }
}

// The walk from a slot on along its chain, where so many entries are enough.
fn walk_along<S: Store>(store: &S, tables: &MapTables, most: u32, at: Slot) -> Walked
    requires rooted { AreRooted (tables_of tables.now) (map is_taken (S.means.homes store.now)) }
    requires page { at.page < SPACE_PAGES }
    ensures { result ≡ walk_within most (tables_of tables.now) (S.means.homes store.now) at }
{
    if most == 0 {
        return Walked::NoChain;
    }
    match entry(store, tables, at) {
        Looked::Is(PagedEntry::Empty) => Walked::Along(ends(at, FULL_ACCESS, None)),
        Looked::Is(PagedEntry::Page(home, access)) => Walked::Along(ends(at, access, Some(home))),
        Looked::Is(PagedEntry::Follows(serial, page, access)) => {
            let next = Slot {
                fork: ForkName {
                    tty: at.fork.tty,
                    serial,
                },
                page,
            };
            let rest = walk_along(store, tables, most - 1, next);
            behind(at, access, rest)
        }
        Looked::Absent(home) => Walked::Absent(home),
        Looked::Missing => Walked::NoChain,
        Looked::Refused => Walked::NoChain,
    }
}

/// The walk from a slot along its chain, entry by entry (CACM paper, "The memory management"): at most four
/// entries, each of a fork that has a map. Absent names the first map on the way that is in no frame. A word
/// that stands for no entry has no chain.
pub fn walk<S: Store>(store: &S, tables: &MapTables, at: Slot) -> Walked
    requires rooted { AreRooted (tables_of tables.now) (map is_taken (S.means.homes store.now)) }
    requires page { at.page < SPACE_PAGES }
    ensures answer { result ≡ walk_at (tables_of tables.now) (S.means.homes store.now) at }
    ensures stands { WalkStands (tables_of tables.now) (S.means.homes store.now) result }
    ensures told { (d : DrumWords) → FitsMaps (tables_of tables.now) (S.means.homes store.now) d → TellsWalk (tables_of tables.now) (S.means.homes store.now) d at result }
{
    walk_along(store, tables, CHAIN, at)
}
