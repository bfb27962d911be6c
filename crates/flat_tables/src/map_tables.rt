// The tables beside a store: the maps of forks, the pages of files, the names of pages, and how often each is named.
ghost use Rattle.std.specs.Prelude.{◌≡◌, ◌<◌, ◌≤◌, ◌+◌, ◌^◌, false, is_some, None, Some, IsSome, IfOk, List, length, replicate, slice_set};
ghost use Rattle.std.specs.FinMap as map;
ghost use Rattle.machine_names.specs.Bounds.{IsOwner};
ghost use Rattle.page_contracts.specs.Stores.{HomePlace, free};
ghost use Rattle.machine_names.specs.declared.names.TheConstants.{TERMINALS, MOST_FORKS};
ghost use Rattle.flat_tables.specs.Serials.{serial_of, with_next};
ghost use Rattle.plain_pages.specs.PlainPages.{first_serials};
ghost use Rattle.fork_maps.specs.declared.map_numbers.TheConstants.{MOST_MAPS};
ghost use Rattle.flat_tables.specs.HeldMaps.{free_map, AreHeld, map_at, followers, held_entry, with_entry, index_of, first_map, entry_of, name_of};
ghost use Rattle.flat_tables.specs.SlotTables.{share_of};
ghost use Rattle.flat_tables.specs.SlotTouches.{walk_of, is_alone, has_room};
ghost use Rattle.flat_tables.specs.TableSteps.{tables_of, next_name, left_shares, home_taken, home_renamed, entry_kept, entry_left, home_freed, fork_begun, fork_ended};

use crate::chain_walk::walk_along;
use crate::held_entry::{EntryAt, HeldEntry};
use crate::held_map::entry_held;
use crate::kept_maps::KeptMaps;
use crate::page_serials::PageSerials;
use fork_maps::{CHAIN, Walk};
use machine_names::{Access, ForkName, PageName, SPACE_PAGES, Slot, Tty};
use outside::Memory;
use page_files::Files;
use page_homes::Home;
use plain_pages::MapEntry;
use std::alloc::{AllocError, Global};

/// For each home the name of its page, where it has one, and how many entries and files name it; the maps of
/// forks; the homes of the pages of files; the next page serials; how many homes are taken, and how many forks live, and how many of both there may be.
#[derive(Drop)]
pub struct MapTables {
    pub names: Vec<Option<PageName>>,
    pub shares: Vec<u32>,
    pub maps: KeptMaps,
    pub files: Files<Home>,
    pub serials: PageSerials,
    pub taken: u32,
    pub living: u32,
    pub limit: u32,
}

// So many homes, none of whose pages has a name.
fn no_names(alloc: Global, number: u32) -> Result<Vec<Option<PageName>>, AllocError>
    ensures { IfOk result (λ v. v.items ≡ replicate number None) }
{
    let mut names = Vec::with_capacity(alloc, number as usize)?;
    for _home in 0..number {
        names.push(None)?;
    }
    Ok(names)
}

// So many homes, none of whose pages is named.
fn no_shares(alloc: Global, number: u32) -> Result<Vec<u32>, AllocError>
    ensures { IfOk result (λ v. v.items ≡ replicate number 0) }
{
    vec![in alloc; 0; number as usize]
}

impl MapTables {
    /// No fork and no page, and room for so many of both. Err: no memory.
    pub fn boot(alloc: Global, limit: u32) -> Result<MapTables, Memory>
        ensures names { IfOk result (λ m. m.names.items ≡ replicate limit None) }
        ensures shares { IfOk result (λ m. m.shares.items ≡ replicate limit 0) }
        ensures maps { IfOk result (λ m. m.maps.held.items ≡ replicate MOST_MAPS free_map) }
        ensures files { IfOk result (λ m. m.files ≡ map.empty) }
        ensures terminals { IfOk result (λ m. m.serials.terminals ≡ first_serials) }
        ensures console { IfOk result (λ m. m.serials.console ≡ 1) }
        ensures numbers { IfOk result (λ m. (m.taken ≡ 0) × (m.living ≡ 0) × (m.limit ≡ limit)) }
    {
        let names = no_names(alloc, limit)?;
        let shares = no_shares(alloc, limit)?;
        let maps = KeptMaps::boot(alloc)?;
        let files = Files::boot(alloc)?;
        Ok(MapTables {
            names,
            shares,
            maps,
            files,
            serials: PageSerials::first(),
            taken: 0,
            living: 0,
            limit,
        })
    }

    /// The walk along the chain of a slot. None where its fork doesn't live, too.
    pub fn walk(&self, slot: Slot) -> Option<Walk<EntryAt>>
        requires held { AreHeld self.now.maps.held.items }
        requires page { slot.page < SPACE_PAGES }
        ensures { result ≡ walk_of self.now.maps.held.items slot }
    {
        let Some(map) = self.maps.map_of(slot.fork) else {
            return None;
        };
        walk_along(
            &self.maps,
            CHAIN,
            EntryAt {
                map,
                page: slot.page,
            },
        )
    }

    /// Whether so many pages more may live.
    pub fn has_room(&self, pages: u32) -> bool
        requires few { pages ≤ 2 }
        requires room { self.now.taken + self.now.living ≤ self.now.limit }
        requires limit { self.now.limit < 2 ^ 31 }
        ensures { (places : List HomePlace) → result ≡ has_room (tables_of places self.now) pages }
    {
        self.taken + self.living + pages <= self.limit
    }

    /// The entry at a place.
    pub fn entry(&self, at: EntryAt) -> HeldEntry
        requires { IsSome (held_entry self.now.maps.held.items at) }
        ensures { held_entry self.now.maps.held.items at ≡ Some result }
    {
        entry_held(&self.maps.held, at)
    }

    /// An entry as it is seen: it names the page of a home.
    pub fn seen(&self, entry: HeldEntry) -> MapEntry
        ensures { result ≡ entry_of self.now.names.items entry }
    {
        match entry {
            HeldEntry::Empty => MapEntry::Empty,
            HeldEntry::Page(home, access) => MapEntry::Names(self.name(home), access),
            HeldEntry::Follows(link, access) => MapEntry::Follows(link.serial, link.page, access),
        }
    }

    /// The name of the page of a home; that of none where it has none.
    pub fn name(&self, home: Home) -> PageName
        ensures { result ≡ name_of self.now.names.items home }
    {
        let nobody = PageName {
            tty: Tty(0),
            serial: 0,
        };
        if home.0 as usize >= self.names.len() {
            return nobody;
        }
        self.names[home.0 as usize].unwrap_or(nobody)
    }

    /// How many entries and files name the page of a home.
    pub fn share(&self, home: Home) -> u32
        ensures { result ≡ share_of self.now.shares.items home.0 }
    {
        if home.0 as usize >= self.shares.len() {
            return 0;
        }
        self.shares[home.0 as usize]
    }

    /// Whether an entry is the only name of its page.
    pub fn is_alone(&self, at: EntryAt) -> bool
        requires { IsSome (held_entry self.now.maps.held.items at) }
        ensures { result ≡ is_alone self.now.shares.items (held_entry self.now.maps.held.items at) }
    {
        match self.entry(at) {
            HeldEntry::Empty => false,
            HeldEntry::Page(home, _) => self.share(home) == 1,
            HeldEntry::Follows(_, _) => false,
        }
    }

    // The page that an entry names is named once less.
    fn leave(&mut self, entry: HeldEntry)
        ensures rest { self.new ≡ record self.old { shares = self.new.shares } }
        ensures shares { self.new.shares.items ≡ left_shares self.old.shares.items (Some entry) }
    {
        if let HeldEntry::Page(home, _) = entry {
            if (home.0 as usize) < self.shares.len() {
                self.shares[home.0 as usize] = self.shares[home.0 as usize].saturating_sub(1);
            }
        }
    }

    /// A home gets the name of an owner's next page.
    pub fn rename(&mut self, home: Home, owner: Tty)
        requires home { home.0 < length self.old.names.items }
        requires owner { IsOwner owner }
        requires serial { serial_of self.old.serials owner < 2 ^ 63 }
        requires terminals { length self.old.serials.terminals ≡ TERMINALS }
        ensures names { self.new.names.items ≡ slice_set self.old.names.items home.0 (Some (next_name self.old.serials owner)) }
        ensures serials { self.new.serials ≡ with_next self.old.serials owner }
        ensures rest { self.new ≡ record self.old { names = self.new.names; serials = self.new.serials } }
    {
        let serial = self.serials.take(owner);
        self.names[home.0 as usize] = Some(PageName { tty: owner, serial });
    }

    /// Sets an entry.
    pub fn set(&mut self, at: EntryAt, entry: HeldEntry)
        requires { IsSome (held_entry self.old.maps.held.items at) }
        ensures maps { self.new.maps.held.items ≡ with_entry self.old.maps.held.items at entry }
        ensures rest { self.new ≡ record self.old { maps = self.new.maps } }
    {
        self.maps.set(at, entry);
    }

    /// A home that was free is taken for a new page of an owner, and an entry names it.
    pub fn take_home(&mut self, at: EntryAt, home: Home, access: Access, owner: Tty)
        requires there { IsSome (held_entry self.old.maps.held.items at) }
        requires name { home.0 < length self.old.names.items }
        requires share { home.0 < length self.old.shares.items }
        requires owner { IsOwner owner }
        requires serial { serial_of self.old.serials owner < 2 ^ 63 }
        requires terminals { length self.old.serials.terminals ≡ TERMINALS }
        requires taken { self.old.taken < 2 ^ 31 }
        ensures { (places : List HomePlace) (page : HomePlace) → tables_of (slice_set places home.0 page) self.new ≡ home_taken (tables_of places self.old) at home page access owner }
    {
        let old = self.entry(at);
        self.leave(old);
        self.rename(home, owner);
        self.shares[home.0 as usize] = 1;
        self.set(at, HeldEntry::Page(home, access));
        self.taken += 1;
    }

    /// The home of a page that an entry alone names becomes that of a new page of an owner.
    pub fn rename_home(&mut self, at: EntryAt, home: Home, access: Access, owner: Tty)
        requires there { IsSome (held_entry self.old.maps.held.items at) }
        requires name { home.0 < length self.old.names.items }
        requires owner { IsOwner owner }
        requires serial { serial_of self.old.serials owner < 2 ^ 63 }
        requires terminals { length self.old.serials.terminals ≡ TERMINALS }
        ensures { (places : List HomePlace) → tables_of places self.new ≡ home_renamed (tables_of places self.old) at home access owner }
    {
        self.rename(home, owner);
        self.set(at, HeldEntry::Page(home, access));
    }

    /// An entry becomes another, of the same page or of none.
    pub fn keep_page(&mut self, at: EntryAt, entry: HeldEntry)
        requires { IsSome (held_entry self.old.maps.held.items at) }
        ensures { (places : List HomePlace) → tables_of places self.new ≡ entry_kept (tables_of places self.old) at entry }
    {
        self.set(at, entry);
    }

    /// An entry becomes one of no page, and its page is named once less.
    pub fn leave_page(&mut self, at: EntryAt, entry: HeldEntry)
        requires { IsSome (held_entry self.old.maps.held.items at) }
        ensures { (places : List HomePlace) → tables_of places self.new ≡ entry_left (tables_of places self.old) at entry }
    {
        let old = self.entry(at);
        self.leave(old);
        self.set(at, entry);
    }

    /// An entry that alone named the page of a home becomes one of no page, and the home has none any more.
    pub fn drop_page(&mut self, at: EntryAt, home: Home, entry: HeldEntry)
        requires there { IsSome (held_entry self.old.maps.held.items at) }
        requires name { home.0 < length self.old.names.items }
        requires share { home.0 < length self.old.shares.items }
        requires taken { 1 ≤ self.old.taken }
        ensures { (places : List HomePlace) → tables_of (slice_set places home.0 free) self.new ≡ home_freed (tables_of places self.old) at home entry }
    {
        self.names[home.0 as usize] = None;
        self.shares[home.0 as usize] = 0;
        self.set(at, entry);
        self.taken -= 1;
    }

    /// A fork begins to live, with the empty map that has this number.
    pub fn add_empty(&mut self, number: u32, fork: ForkName)
        requires map { number < length self.old.maps.held.items }
        requires absent { is_some (index_of self.old.maps.held.items fork) ≡ false }
        requires from { first_map fork.tty ≤ number }
        requires below { number < first_map fork.tty + MOST_FORKS }
        requires living { self.old.living < 2 ^ 31 }
        ensures { (places : List HomePlace) → tables_of places self.new ≡ fork_begun (tables_of places self.old) number fork (map_at self.old.maps.held.items number).entries }
    {
        self.maps.begin(number, fork);
        self.living += 1;
    }

    /// A fork begins to live, each entry of whose map follows the same entry of another fork.
    pub fn add_follower(&mut self, number: u32, fork: ForkName, serial: u32, near: u16)
        requires map { number < length self.old.maps.held.items }
        requires absent { is_some (index_of self.old.maps.held.items fork) ≡ false }
        requires from { first_map fork.tty ≤ number }
        requires below { number < first_map fork.tty + MOST_FORKS }
        requires living { self.old.living < 2 ^ 31 }
        ensures { (places : List HomePlace) → tables_of places self.new ≡ fork_begun (tables_of places self.old) number fork (followers serial near) }
    {
        self.maps.begin_following(number, fork, serial, near);
        self.living += 1;
    }

    /// A fork ends, whose map has this number and is empty.
    pub fn end_fork(&mut self, number: u32)
        requires map { number < length self.old.maps.held.items }
        requires living { 1 ≤ self.old.living }
        ensures { (places : List HomePlace) → tables_of places self.new ≡ fork_ended (tables_of places self.old) number }
    {
        self.maps.end(number);
        self.living -= 1;
    }
}
