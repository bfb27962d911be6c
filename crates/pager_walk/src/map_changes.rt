// Changes of maps that are pages.
ghost use Rattle.std.specs.Prelude.{◌≡◌, ◌<◌, ◌≤◌, ◌+◌, ℕ, None, Some, IsSome, true, map, slice_set};
ghost use Rattle.std.specs.FinMap as fin;
ghost use Rattle.machine_names.specs.PageWords.{zero_words};
ghost use Rattle.plain_pages.specs.Maps.{set_entry};
ghost use Rattle.plain_pages.specs.NewMaps.{empty_map, following_map};
ghost use Rattle.share_table.specs.Pointers.{IsPointer, pointer_word};
ghost use Rattle.page_contracts.specs.DrumWords.{DrumWords};
ghost use Rattle.page_contracts.specs.Stores.{IsFreed, IsMade, IsUsed, free_homes, here, is_here, is_taken, place, room_of, with_word_in};
ghost use Rattle.pager_walk.specs.declared.paged_entry.PagedEntry.{PagedEntry as APagedEntry};
ghost use Rattle.pager_walk.specs.MapPages.{first_map, fork_at, index_of, root_at};
ghost use Rattle.pager_walk.specs.NewPages.{following_words};
ghost use Rattle.pager_walk.specs.PagedMaps.{AreRooted, FitsMaps, entry_for, is_near, look_at, maps_over, plain_entry, tables_of, with_name, with_root, without_root};

use crate::paged_entry::MapTables;
use fork_maps::{FULL_ACCESS, MOST_MAPS};
use machine_names::{ForkName, LAST_SERIAL, MOST_FORKS, PageName, SPACE_PAGES, Slot};
use page_contracts::{Room, Store};
use page_homes::Home;
use share_table::{Pointer, encode};

/// Sets the entry of a slot whose map is in a frame: puts the word of an entry into the map's page, which is
/// a use of it. What the entry named before is named there no more.
pub fn set<S: Store>(store: &mut S, tables: &MapTables, at: Slot, pointer: Pointer)
    requires rooted { AreRooted (tables_of tables.now) (map is_taken (S.means.homes store.old)) }
    requires page { at.page < SPACE_PAGES }
    requires near { is_near (look_at (tables_of tables.now) (S.means.homes store.old) at) ≡ true }
    requires pointer { IsPointer pointer }
    requires entry { IsSome (entry_for (tables_of tables.now) pointer) }
    ensures homes { (k : ℕ) → index_of tables.now.maps.pages.items at.fork ≡ Some k
        → S.means.homes store.new ≡ slice_set (S.means.homes store.old) (root_at tables.now.maps.pages.items k).0 (with_word_in (place (S.means.homes store.old) (root_at tables.now.maps.pages.items k).0) at.page (pointer_word pointer)) }
    ensures used { (k : ℕ) → index_of tables.now.maps.pages.items at.fork ≡ Some k → IsUsed S.means (root_at tables.now.maps.pages.items k).0 store.old store.new }
    ensures rooted { AreRooted (tables_of tables.now) (map is_taken (S.means.homes store.new)) }
    ensures fits { (d : DrumWords) → FitsMaps (tables_of tables.now) (S.means.homes store.old) d → FitsMaps (tables_of tables.now) (S.means.homes store.new) d }
    ensures told { (d : DrumWords) (e : APagedEntry) → FitsMaps (tables_of tables.now) (S.means.homes store.old) d → entry_for (tables_of tables.now) pointer ≡ Some e
        → maps_over (tables_of tables.now) (S.means.homes store.new) d ≡ set_entry (maps_over (tables_of tables.now) (S.means.homes store.old) d) at (plain_entry tables.now.names.items e) }
{
    let Some(number) = tables.maps.map_of(at.fork) else {
        unreachable!()
    };
    let home = tables.maps.root(number);
    store.put(home, at.page, encode(pointer));
}

/// Takes a free home, and a free frame, for a zero page with a name; there are both. No entry names it yet.
pub fn make_page<S: Store>(store: &mut S, tables: &mut MapTables, name: PageName) -> Home
    requires rooted { AreRooted (tables_of tables.old) (map is_taken (S.means.homes store.old)) }
    requires room { room_of (free_homes (S.means.homes store.old)) (S.means.spare store.old) 1 ≡ Room.Enough }
    ensures made { IsMade S.means result.0 (here zero_words) store.old store.new }
    ensures tables { tables_of tables.new ≡ with_name (tables_of tables.old) result name }
    ensures rooted { AreRooted (tables_of tables.new) (map is_taken (S.means.homes store.new)) }
    ensures fits { (d : DrumWords) → FitsMaps (tables_of tables.old) (S.means.homes store.old) d → FitsMaps (tables_of tables.new) (S.means.homes store.new) d }
    ensures told { (d : DrumWords) → FitsMaps (tables_of tables.old) (S.means.homes store.old) d
        → maps_over (tables_of tables.new) (S.means.homes store.new) d ≡ maps_over (tables_of tables.old) (S.means.homes store.old) d }
{
    let home = store.make();
    tables.names[home.0 as usize] = Some(name);
    home
}

/// The same for a page with the words of another, which is in a frame.
pub fn copy_page<S: Store>(
    store: &mut S,
    tables: &mut MapTables,
    from: Home,
    name: PageName,
) -> Home
    requires rooted { AreRooted (tables_of tables.old) (map is_taken (S.means.homes store.old)) }
    requires room { room_of (free_homes (S.means.homes store.old)) (S.means.spare store.old) 1 ≡ Room.Enough }
    requires from { is_here (place (S.means.homes store.old) from.0) ≡ true }
    ensures made { IsMade S.means result.0 (place (S.means.homes store.old) from.0) store.old store.new }
    ensures tables { tables_of tables.new ≡ with_name (tables_of tables.old) result name }
    ensures rooted { AreRooted (tables_of tables.new) (map is_taken (S.means.homes store.new)) }
    ensures fits { (d : DrumWords) → FitsMaps (tables_of tables.old) (S.means.homes store.old) d → FitsMaps (tables_of tables.new) (S.means.homes store.new) d }
    ensures told { (d : DrumWords) → FitsMaps (tables_of tables.old) (S.means.homes store.old) d
        → maps_over (tables_of tables.new) (S.means.homes store.new) d ≡ maps_over (tables_of tables.old) (S.means.homes store.old) d }
{
    let home = store.copy(from);
    tables.names[home.0 as usize] = Some(name);
    home
}

/// A fork gets a map under a number of its terminal that is no fork's: the page of a new home, each of whose
/// words is that of an empty entry. A home and a frame are free for it.
pub fn begin<S: Store>(store: &mut S, tables: &mut MapTables, number: u32, fork: ForkName) -> Home
    requires rooted { AreRooted (tables_of tables.old) (map is_taken (S.means.homes store.old)) }
    requires absent { index_of tables.old.maps.pages.items fork ≡ None }
    requires number { fork_at tables.old.maps.pages.items number ≡ None }
    requires most { number < MOST_MAPS }
    requires from { first_map fork.tty ≤ number }
    requires below { number < first_map fork.tty + MOST_FORKS }
    requires room { room_of (free_homes (S.means.homes store.old)) (S.means.spare store.old) 1 ≡ Room.Enough }
    ensures made { IsMade S.means result.0 (here zero_words) store.old store.new }
    ensures tables { tables_of tables.new ≡ with_root (tables_of tables.old) number fork result }
    ensures rooted { AreRooted (tables_of tables.new) (map is_taken (S.means.homes store.new)) }
    ensures fits { (d : DrumWords) → FitsMaps (tables_of tables.old) (S.means.homes store.old) d → FitsMaps (tables_of tables.new) (S.means.homes store.new) d }
    ensures told { (d : DrumWords) → FitsMaps (tables_of tables.old) (S.means.homes store.old) d
        → maps_over (tables_of tables.new) (S.means.homes store.new) d ≡ fin.insert (maps_over (tables_of tables.old) (S.means.homes store.old) d) fork empty_map }
{
    let home = store.make();
    tables.maps.begin(number, fork, home);
    home
}

// Takes a free home for the page of a map, each of whose entries follows the same entry of the fork with a
// serial.
fn make_following<S: Store>(store: &mut S, serial: u32) -> Home
    requires room { room_of (free_homes (S.means.homes store.old)) (S.means.spare store.old) 1 ≡ Room.Enough }
    requires serial { 1 ≤ serial }
    requires last { serial ≤ LAST_SERIAL }
    ensures { IsMade S.means result.0 (here (following_words serial SPACE_PAGES)) store.old store.new }
{
    let home = store.make();
    for page in 0..SPACE_PAGES {
        let word = encode(Pointer::Indirect(serial, page as u16, FULL_ACCESS));
        store.put(home, page as u16, word);
    }
    home
}

/// The same, of a fork of the same terminal: each entry of the new map follows the same entry of it, with
/// every right.
pub fn begin_following<S: Store>(
    store: &mut S,
    tables: &mut MapTables,
    number: u32,
    fork: ForkName,
    leader: ForkName,
) -> Home
    requires rooted { AreRooted (tables_of tables.old) (map is_taken (S.means.homes store.old)) }
    requires absent { index_of tables.old.maps.pages.items fork ≡ None }
    requires number { fork_at tables.old.maps.pages.items number ≡ None }
    requires most { number < MOST_MAPS }
    requires from { first_map fork.tty ≤ number }
    requires below { number < first_map fork.tty + MOST_FORKS }
    requires room { room_of (free_homes (S.means.homes store.old)) (S.means.spare store.old) 1 ≡ Room.Enough }
    requires serial { 1 ≤ leader.serial }
    requires last { leader.serial ≤ LAST_SERIAL }
    ensures made { IsMade S.means result.0 (here (following_words leader.serial SPACE_PAGES)) store.old store.new }
    ensures tables { tables_of tables.new ≡ with_root (tables_of tables.old) number fork result }
    ensures rooted { AreRooted (tables_of tables.new) (map is_taken (S.means.homes store.new)) }
    ensures fits { (d : DrumWords) → FitsMaps (tables_of tables.old) (S.means.homes store.old) d → FitsMaps (tables_of tables.new) (S.means.homes store.new) d }
    ensures told { (d : DrumWords) → FitsMaps (tables_of tables.old) (S.means.homes store.old) d
        → maps_over (tables_of tables.new) (S.means.homes store.new) d ≡ fin.insert (maps_over (tables_of tables.old) (S.means.homes store.old) d) fork (following_map leader) }
{
    let home = make_following(store, leader.serial);
    tables.maps.begin(number, fork, home);
    home
}

/// A fork's map goes, which has a number: its home is given up, and the number is no fork's. What its entries named is named
/// there no more.
pub fn end<S: Store>(store: &mut S, tables: &mut MapTables, number: u32, fork: ForkName)
    requires rooted { AreRooted (tables_of tables.old) (map is_taken (S.means.homes store.old)) }
    requires fork { index_of tables.old.maps.pages.items fork ≡ Some number }
    ensures freed { IsFreed S.means (root_at tables.old.maps.pages.items number).0 store.old store.new }
    ensures tables { tables_of tables.new ≡ without_root (tables_of tables.old) number }
    ensures rooted { AreRooted (tables_of tables.new) (map is_taken (S.means.homes store.new)) }
    ensures fits { (d : DrumWords) → FitsMaps (tables_of tables.old) (S.means.homes store.old) d → FitsMaps (tables_of tables.new) (S.means.homes store.new) d }
    ensures told { (d : DrumWords) → FitsMaps (tables_of tables.old) (S.means.homes store.old) d
        → maps_over (tables_of tables.new) (S.means.homes store.new) d ≡ fin.remove (maps_over (tables_of tables.old) (S.means.homes store.old) d) fork }
{
    store.free(tables.maps.root(number));
    tables.maps.end(number);
}
