// Chains over the entries of pages and the changes to come.
ghost use Rattle.std.specs.Prelude.{◌≡◌, ◌≤◌, ◌<◌, ℕ, length, true};
ghost use Rattle.machine_names.specs.declared.names.Tty.{Tty as ATty};
ghost use Rattle.machine_names.specs.declared.names.TheConstants.{SPACE_PAGES};
ghost use Rattle.plain_pages.specs.Maps.{entry_at, followed as followed_slot};
ghost use Rattle.page_contracts.specs.DrumWords.{DrumWords};
ghost use Rattle.plain_pages.specs.Room.{same_page};
ghost use Rattle.plain_pages.specs.PlainPages.{NumberedPages};
ghost use Rattle.std.specs.Option.{option_map, option_map_or, option_or};
ghost use Rattle.std.specs.Prelude.{if◌then◌else◌, Some, None, false};
ghost use Rattle.page_gather.specs.Walks.{away_within, view, views_of, walk_within};
ghost use Rattle.page_gather.specs.Changes.{AreChanged, are_in_space, change_of, is_in_space, same_slot, source_of as the_source_of, taken_names};
ghost use Rattle.page_gather.specs.Stepped.{EndsAtPlace, IsOfLiving, StepNeeds, WayNeeds, is_found, is_met, step_met, step_of as the_step_of, way_found};

use crate::change::{Change, FULL_ACCESS};
use crate::walk::Walked;
use machine_names::{Access, ForkName, PageName, Slot};
use page_contracts::{Pages, Seen};
use page_homes::Home;
use plain_pages::MapEntry;

/// How many entries a chain has at most.
pub const MOST_LINKS: usize = 4;

/// What a chain meets at a slot.
#[derive(Clone, Copy, PartialEq, Eq)]
pub enum ChainStep {
    /// No such fork lives.
    Missing,
    /// This home, of the map, is in no frame.
    Absent(Home),
    /// It ends, at an empty entry or at a page.
    Ends { empty: bool, access: Access },
    /// It goes on at this page of the fork with this serial, of the same terminal.
    Goes(u32, u16, Access),
}

/// What a walk comes to.
#[derive(Clone, Copy, PartialEq, Eq)]
pub enum Way {
    /// This home, of a map on the way, is in no frame.
    Absent(Home),
    /// There is no chain.
    Nowhere,
    Found(Walked),
}

/// Whether two slots are one.
pub fn is_same(a: Slot, b: Slot) -> bool
    ensures { result ≡ same_slot a b }
{
    a.fork.tty.0 == b.fork.tty.0 && a.fork.serial == b.fork.serial && a.page == b.page
}

// A change, if it is of this slot, and else the last one before it.
fn later_change(change: Change, slot: Slot, last: Option<Change>) -> Option<Change>
    ensures { result ≡ option_or (if same_slot change.slot slot then Some change else None) last }
{
    if is_same(change.slot, slot) {
        Some(change)
    } else {
        last
    }
}

/// The last change of a slot.
pub fn last_change(changes: &[Change], slot: Slot) -> Option<Change>
    ensures { result ≡ change_of changes.now slot }
{
    let mut last = None;
    for change in changes {
        last = later_change(*change, slot, last);
    }
    last
}

/// The slot in which the words stand, in the pages as they are, that stand under a slot after the changes.
pub fn source_of(changes: &[Change], slot: Slot) -> Option<Slot>
    requires page { slot.page < SPACE_PAGES }
    requires sources { are_in_space changes.now ≡ true }
    ensures is { result ≡ the_source_of changes.now slot }
    ensures space { is_in_space result ≡ true }
{
    match last_change(changes, slot) {
        None => Some(slot),
        Some(change) => change.source,
    }
}

/// Whether two names are those of one page.
pub fn is_same_page(a: PageName, b: PageName) -> bool
    ensures { result ≡ same_page a b }
{
    a.tty.0 == b.tty.0 && a.serial == b.serial
}

// How many names of a page a change takes.
fn names_taken_by(change: Change, page: PageName) -> u32
    ensures { result ≡ (if option_map_or (same_page page) change.old false then 1 else 0) }
{
    match change.old {
        None => 0,
        Some(old) => { if is_same_page(page, old) { 1 } else { 0 } }
    }
}

/// How many names of a page the changes take.
pub fn names_taken(changes: &[Change], page: PageName) -> u32
    requires { length changes.now ≤ 128 }
    ensures taken { result ≡ taken_names page changes.now }
    ensures few { result ≤ length changes.now }
{
    let mut count = 0;
    for change in changes {
        count += names_taken_by(*change, page);
    }
    count
}

// What a chain meets at an entry.
fn step_of(entry: MapEntry) -> ChainStep
    ensures { result ≡ the_step_of (view entry) }
{
    match entry {
        MapEntry::Empty => ChainStep::Ends {
            empty: true,
            access: FULL_ACCESS,
        },
        MapEntry::Names(_, access) => ChainStep::Ends {
            empty: false,
            access,
        },
        MapEntry::Follows(serial, page, access) => ChainStep::Goes(serial, page, access),
    }
}

// What a chain meets at a slot after the changes.
fn step_at<P: Pages>(pages: &P, changes: &[Change], slot: Slot) -> ChainStep
    requires { slot.page < SPACE_PAGES }
    ensures told { (d : DrumWords) (q : NumberedPages) (owner : ATty) (homes : ℕ) → P.means.fits pages.now d → AreChanged (P.means.plain pages.now d) q owner changes.now homes
        → result ≡ step_met ((P.means.scene pages.now).map_away slot.fork) (option_map view (entry_at q.maps slot)) }
    ensures lives { IsOfLiving (P.means.lives pages.now) slot.fork result }
    ensures needs { StepNeeds P.means.store pages.now result }
    ensures core { P.means.flat ≡ true → is_met result ≡ true }
{
    match pages.entry(slot) {
        Seen::Missing => ChainStep::Missing,
        Seen::Absent(home) => ChainStep::Absent(home),
        Seen::Is(entry) => match last_change(changes, slot) {
            None => step_of(entry),
            Some(change) => ChainStep::Ends {
                empty: false,
                access: change.access,
            },
        },
    }
}

// The slot that an entry of a slot follows.
fn followed(slot: Slot, serial: u32, page: u16) -> Slot
    ensures { result ≡ followed_slot slot serial page }
{
    Slot {
        fork: ForkName {
            tty: slot.fork.tty,
            serial,
        },
        page,
    }
}

/// Walks along the chain of a slot after the changes, where so many entries are enough.
pub fn walk<P: Pages>(pages: &P, changes: &[Change], left: usize, slot: Slot) -> Way
    requires { slot.page < SPACE_PAGES }
    ensures told { (d : DrumWords) (q : NumberedPages) (owner : ATty) (homes : ℕ) → P.means.fits pages.now d → AreChanged (P.means.plain pages.now d) q owner changes.now homes
        → result ≡ way_found (away_within left (P.means.scene pages.now).map_away (views_of (entry_at q.maps)) slot) (walk_within left (views_of (entry_at q.maps)) slot) }
    ensures ends { EndsAtPlace (P.means.lives pages.now) result }
    ensures needs { WayNeeds P.means.store pages.now result }
    ensures core { P.means.flat ≡ true → is_found result ≡ true }
{
    if left == 0 {
        return Way::Nowhere;
    }
    match step_at(pages, changes, slot) {
        ChainStep::Missing => Way::Nowhere,
        ChainStep::Absent(home) => Way::Absent(home),
        ChainStep::Ends { empty, access } => Way::Found(Walked::last(slot, empty, access)),
        ChainStep::Goes(serial, page, access) => match walk(
            pages,
            changes,
            left - 1,
            followed(slot, serial, page),
        ) {
            Way::Absent(home) => Way::Absent(home),
            Way::Nowhere => Way::Nowhere,
            Way::Found(rest) => Way::Found(rest.behind(slot, access)),
        },
    }
}
