// Entries of maps that are pages.
ghost use Rattle.std.specs.Prelude.{◌≡◌, ◌<◌, ◌≤◌, length, List, Bool, None, IfOk, is_some, map, replicate};
ghost use Rattle.std.specs.FinMap as fin;
ghost use Rattle.page_contracts.specs.DrumWords.{DrumWords};
ghost use Rattle.page_contracts.specs.Stores.{FitsHomes, HomePlace, is_taken};
ghost use Rattle.plain_pages.specs.PlainPages.{NumberedPages};
ghost use Rattle.page_contracts.specs.Pages.{FollowsPage, Scene, SeenNeeds, seen_of};
ghost use Rattle.pager_walk.specs.Decoding.{pointer_in};
ghost use Rattle.pager_walk.specs.MapPages.{no_map};
ghost use Rattle.fork_maps.specs.declared.map_numbers.TheConstants.{MOST_MAPS};
ghost use Rattle.pager_walk.specs.PagedMaps.{AreRooted, FitsMaps, LookStands, TellsEntry, entry_for, entry_in, look_at, map_away, maps_over, name_at, name_of, page_entry, plain_entry, seen_for, tables_of};

use crate::map_pages::KeptMaps;
use machine_names::{Access, PageName, SPACE_PAGES, Slot, Tty};
use outside::Memory;
use page_contracts::{Seen, Store};
use page_homes::Home;
use plain_pages::MapEntry;
use share_table::{Pointer, ShareTable, decode};
use std::alloc::{AllocError, Global};
use word36::Word;

/// An entry of a map, as its word and the tables say: nothing; the page of a home; or an entry of the
/// fork of the same terminal with that serial, that it follows.
#[derive(Clone, Copy, PartialEq, Eq)]
pub enum PagedEntry {
    Empty,
    Page(Home, Access),
    Follows(u32, u16, Access),
}

/// What a look at an entry finds.
#[derive(Clone, Copy, PartialEq, Eq)]
pub enum Looked {
    Is(PagedEntry),
    /// This home, of the map, is in no frame.
    Absent(Home),
    /// No map is that fork's.
    Missing,
    /// The word stands for no entry, or names a home that has no page, or a share that isn't there.
    Refused,
}

/// What is kept in memory of maps that are pages: which home has the map of each fork, for each home
/// the name of its page, where it has one, and the pages that are shared.
#[derive(Drop)]
pub struct MapTables {
    /// Which home has the map of each fork.
    pub maps: KeptMaps,
    /// By home, the name of its page, where it has one. The page of a map has none.
    pub names: Vec<Option<PageName>>,
    /// The pages that have a share, with the counts of their names.
    pub shares: ShareTable,
}

// The pointer that a word stands for, if it stands for one.
fn pointer_of(word: Word) -> Option<Pointer>
    ensures { result ≡ pointer_in word }
{
    decode(word)
}

// So many homes, none of whose pages has a name.
fn no_names(alloc: Global, homes: u32) -> Result<Vec<Option<PageName>>, AllocError>
    ensures { IfOk result (λ v. v.items ≡ replicate homes None) }
{
    let mut names = Vec::with_capacity(alloc, homes as usize)?;
    for _home in 0..homes {
        names.push(None)?;
    }
    Ok(names)
}

impl MapTables {
    /// No map, and no page has a name or is shared; room for so many homes and shares. Each drum with
    /// enough pages fits, and the plain maps over it are none. Err: no memory.
    pub fn boot(alloc: Global, homes: u32) -> Result<MapTables, Memory>
        ensures rooted { IfOk result (λ m. (taken : List Bool) → length taken ≤ homes → AreRooted (tables_of m) taken) }
        ensures fits { IfOk result (λ m. (places : List HomePlace) (d : DrumWords) → FitsHomes places d → FitsMaps (tables_of m) places d) }
        ensures none { IfOk result (λ m. (places : List HomePlace) (d : DrumWords) → maps_over (tables_of m) places d ≡ fin.empty) }
        ensures maps { IfOk result (λ m. m.maps.pages.items ≡ replicate MOST_MAPS no_map) }
        ensures names { IfOk result (λ m. m.names.items ≡ replicate homes None) }
        ensures shares { IfOk result (λ m. m.shares ≡ record { room = homes; pages = fin.empty }) }
    {
        let maps = KeptMaps::boot(alloc)?;
        let names = no_names(alloc, homes)?;
        let shares = ShareTable::boot(alloc, homes)?;
        Ok(MapTables {
            maps,
            names,
            shares,
        })
    }

    /// Whether the page of a home has a name.
    pub fn has_name(&self, home: Home) -> bool
        ensures { result ≡ is_some (name_at self.now.names.items home.0) }
    {
        if home.0 as usize >= self.names.len() {
            return false;
        }
        self.names[home.0 as usize].is_some()
    }

    // The entry that names the page of a home. None where the home has no page with a name.
    fn page_entry(&self, home: Home, access: Access) -> Option<PagedEntry>
        ensures { result ≡ page_entry self.now.names.items home access }
    {
        if self.has_name(home) {
            Some(PagedEntry::Page(home, access))
        } else {
            None
        }
    }

    /// The name of the page of a home; that of none where it has none.
    pub fn name(&self, home: Home) -> PageName
        ensures { result ≡ name_of self.now.names.items home }
    {
        let nobody = PageName {
            tty: Tty(0),
            serial: 0,
        };
        if home.0 as usize >= self.names.len() {
            return nobody;
        }
        self.names[home.0 as usize].unwrap_or(nobody)
    }

    /// An entry with the name of a page in the place of its home.
    pub fn plain(&self, entry: PagedEntry) -> MapEntry
        ensures { result ≡ plain_entry self.now.names.items entry }
    {
        match entry {
            PagedEntry::Empty => MapEntry::Empty,
            PagedEntry::Page(home, access) => MapEntry::Names(self.name(home), access),
            PagedEntry::Follows(serial, page, access) => MapEntry::Follows(serial, page, access),
        }
    }

    // What a look finds, as the layer above sees it.
    fn shown(&self, looked: Looked) -> Seen
        ensures { result ≡ seen_for (tables_of self.now) looked }
    {
        match looked {
            Looked::Is(entry) => Seen::Is(self.plain(entry)),
            Looked::Absent(home) => Seen::Absent(home),
            Looked::Missing => Seen::Missing,
            Looked::Refused => Seen::Missing,
        }
    }

    /// The entry that a pointer is. None exactly where it names a home that has no page, or a share that
    /// isn't there.
    pub fn entry_for(&self, pointer: Pointer) -> Option<PagedEntry>
        ensures { result ≡ entry_for (tables_of self.now) pointer }
    {
        match pointer {
            Pointer::Empty => Some(PagedEntry::Empty),
            Pointer::Private(home, access) => self.page_entry(home, access),
            Pointer::Shared(share, access) => {
                if !self.shares.has(share) {
                    return None;
                }
                self.page_entry(self.shares.home_of(share), access)
            }
            Pointer::Indirect(serial, page, access) => {
                Some(PagedEntry::Follows(serial, page, access))
            }
        }
    }

    /// The entry that a word stands for. None exactly where it stands for none, or names a home that
    /// has no page, or a share that isn't there.
    pub fn entry_in(&self, word: Word) -> Option<PagedEntry>
        ensures { result ≡ entry_in (tables_of self.now) word }
    {
        match pointer_of(word) {
            None => None,
            Some(pointer) => self.entry_for(pointer),
        }
    }
}

// What a look at the entry of a slot finds.
fn found<S: Store>(store: &S, tables: &MapTables, at: Slot) -> Looked
    requires rooted { AreRooted (tables_of tables.now) (map is_taken (S.means.homes store.now)) }
    requires page { at.page < SPACE_PAGES }
    ensures { result ≡ look_at (tables_of tables.now) (S.means.homes store.now) at }
{
    let Some(number) = tables.maps.map_of(at.fork) else {
        return Looked::Missing;
    };
    let home = tables.maps.root(number);
    let Some(word) = store.word(home, at.page) else {
        return Looked::Absent(home);
    };
    match tables.entry_in(word) {
        None => Looked::Refused,
        Some(entry) => Looked::Is(entry),
    }
}

/// The entry of a slot, in this order: Missing, where no map is its fork's; Absent, where the map is in no
/// frame; Refused, where the word stands for none; and else the entry.
pub fn entry<S: Store>(store: &S, tables: &MapTables, at: Slot) -> Looked
    requires rooted { AreRooted (tables_of tables.now) (map is_taken (S.means.homes store.now)) }
    requires page { at.page < SPACE_PAGES }
    ensures answer { result ≡ look_at (tables_of tables.now) (S.means.homes store.now) at }
    ensures stands { LookStands (tables_of tables.now) (S.means.homes store.now) result }
    ensures told { (d : DrumWords) → FitsMaps (tables_of tables.now) (S.means.homes store.now) d → TellsEntry (tables_of tables.now) (S.means.homes store.now) d at result }
{
    found(store, tables, at)
}

/// The entry of a slot as the layer above sees it, with the name of a page in the place of its home. A word
/// that stands for none is Missing, as is the entry of a fork that has no map.
pub fn seen<S: Store>(store: &S, tables: &MapTables, at: Slot) -> Seen
    requires rooted { AreRooted (tables_of tables.now) (map is_taken (S.means.homes store.now)) }
    requires page { at.page < SPACE_PAGES }
    ensures answer { result ≡ seen_for (tables_of tables.now) (look_at (tables_of tables.now) (S.means.homes store.now) at) }
    ensures follows { FollowsPage result }
    ensures needs { SeenNeeds S.means store.now result }
    ensures told { (d : DrumWords) (p : NumberedPages) (scene : Scene) → FitsMaps (tables_of tables.now) (S.means.homes store.now) d → p.maps ≡ maps_over (tables_of tables.now) (S.means.homes store.now) d
        → scene.map_away ≡ map_away (tables_of tables.now) (S.means.homes store.now) → result ≡ seen_of p scene at }
{
    tables.shown(entry(store, tables, at))
}
