// Pages that are settled: made, copied or used.
ghost use Rattle.std.specs.Prelude.{◌≡◌, ◌+◌, ◌<◌, ◌^◌, None, Some, map, true};
ghost use Rattle.page_homes.specs.declared.homes.Home.{Home as AHome};
ghost use Rattle.page_contracts.specs.DrumWords.{DrumWords};
ghost use Rattle.page_contracts.specs.Stores.{IsMade, free_homes, is_here, is_taken, place, room_of};
ghost use Rattle.pager_walk.specs.PagedMaps.{AreRooted, FitsMaps, tables_of, with_name};
ghost use Rattle.paged_tables.specs.MadePages.{page_like};

use crate::slot_paged::SlotPaged;
use machine_names::{Access, FileNo, Kind, PageName, Place, Slot, Tty};
use page_contracts::{Room, Store};
use page_homes::Home;
use pager_walk::{FULL_ACCESS, MapTables, Walked, Way, copy_page, make_page, walk};
use share_table::Pointer;

// A page with a name in a home of its own: a zero page, or one with the words of another, which is in a frame.
fn new_page<S: Store>(
    store: &mut S,
    tables: &mut MapTables,
    from: Option<Home>,
    name: PageName,
) -> Home
    requires rooted { AreRooted (tables_of tables.old) (map is_taken (S.means.homes store.old)) }
    requires room { room_of (free_homes (S.means.homes store.old)) (S.means.spare store.old) 1 ≡ Room.Enough }
    requires from { (h : AHome) → from ≡ Some h → is_here (place (S.means.homes store.old) h.0) ≡ true }
    ensures made { IsMade S.means result.0 (page_like (S.means.homes store.old) from) store.old store.new }
    ensures tables { tables_of tables.new ≡ with_name (tables_of tables.old) result name }
    ensures rooted { AreRooted (tables_of tables.new) (map is_taken (S.means.homes store.new)) }
    ensures fits { (d : DrumWords) → FitsMaps (tables_of tables.old) (S.means.homes store.old) d → FitsMaps (tables_of tables.new) (S.means.homes store.new) d }
{
    match from {
        Some(from) => copy_page(store, tables, from, name),
        None => make_page(store, tables, name),
    }
}

impl<S: Store> SlotPaged<S> {
    ghost use Rattle.std.specs.Prelude.{◌≡◌, ◌+◌, ◌<◌, ◌^◌, None, Some, true};
    ghost use Rattle.std.specs.FinMap as fin;
    ghost use Rattle.machine_names.specs.declared.names.TheConstants.{SPACE_PAGES};
    ghost use Rattle.machine_names.specs.Bounds.{IsFilePage, IsOwner};
    ghost use Rattle.machine_names.specs.Orders.{file_page};
    ghost use Rattle.page_homes.specs.declared.homes.Home.{Home as AHome};
    ghost use Rattle.page_contracts.specs.DrumWords.{DrumWords};
    ghost use Rattle.page_contracts.specs.Stores.{IsMade, is_here, place};
    ghost use Rattle.flat_tables.specs.Serials.{serial_of};
    ghost use Rattle.pager_walk.specs.PagedMaps.{FitsMaps, is_near, look_at};
    ghost use Rattle.paged_tables.specs.LeftShares.{left_of};
    ghost use Rattle.paged_tables.specs.MadePages.{FilesPage, MakesPage, RenamesPage, page_like, page_named};
    ghost use Rattle.paged_tables.specs.PagedTables.{beside_of};
    ghost use Rattle.paged_tables.specs.PagedTouches.{has_one_name, roomy};

    // A page more, with an owner's next name, in a home of its own: a zero page, or a copy of one that is in a frame. Nothing names it yet.
    fn add_page(&mut self, from: Option<Home>, owner: Tty) -> Home
        requires from { (h : AHome) → from ≡ Some h → is_here (place (S.means.homes self.old.store) h.0) ≡ true }
        requires owner { IsOwner owner }
        requires serial { serial_of self.old.tables.serials owner < 2 ^ 63 }
        requires room { roomy (beside_of self.old.tables) 1 ≡ true }
        requires frame { 0 < S.means.spare self.old.store }
        ensures made { IsMade S.means result.0 (page_like (S.means.homes self.old.store) from) self.old.store self.new.store }
        ensures beside { beside_of self.new.tables ≡ page_named (beside_of self.old.tables) result owner }
        ensures fits { (d : DrumWords) → FitsMaps (beside_of self.old.tables).tables (S.means.homes self.old.store) d → FitsMaps (beside_of self.new.tables).tables (S.means.homes self.new.store) d }
    {
        let name = self.tables.take_name(owner);
        let home = new_page(&mut self.store, &mut self.tables.tables, from, name);
        self.tables.unshare(home);
        self.tables.taken += 1;
        home
    }

    // A page in a home of its own, which an entry names in the place of what it named: a zero page, or a copy of another.
    fn make_named(&mut self, at: Slot, from: Option<Home>, access: Access, owner: Tty)
        requires page { at.page < SPACE_PAGES }
        requires near { is_near (look_at (beside_of self.old.tables).tables (S.means.homes self.old.store) at) ≡ true }
        requires from { (h : AHome) → from ≡ Some h → is_here (place (S.means.homes self.old.store) h.0) ≡ true }
        requires owner { IsOwner owner }
        requires serial { serial_of self.old.tables.serials owner < 2 ^ 63 }
        requires room { roomy (beside_of self.old.tables) 1 ≡ true }
        requires frame { 0 < S.means.spare self.old.store }
        ensures { MakesPage S.means self.old.store self.new.store (beside_of self.old.tables) (beside_of self.new.tables) at (page_like (S.means.homes self.old.store) from) access
            (left_of (beside_of self.old.tables) (look_at (beside_of self.old.tables).tables (S.means.homes self.old.store) at)) owner }
    {
        self.leave(at);
        let home = self.add_page(from, owner);
        self.put_pointer(at, Pointer::Private(home, access));
    }

    // A copy of a page that has no other name takes its home.
    fn copy_alone(&mut self, at: Slot, home: Home, access: Access, owner: Tty)
        requires page { at.page < SPACE_PAGES }
        requires near { is_near (look_at (beside_of self.old.tables).tables (S.means.homes self.old.store) at) ≡ true }
        requires one { has_one_name (beside_of self.old.tables) home.0 ≡ true }
        requires here { is_here (place (S.means.homes self.old.store) home.0) ≡ true }
        requires owner { IsOwner owner }
        requires serial { serial_of self.old.tables.serials owner < 2 ^ 63 }
        ensures { RenamesPage S.means self.old.store self.new.store (beside_of self.old.tables) (beside_of self.new.tables) at home access owner }
    {
        self.store.used(home);
        self.tables.rename(home, owner);
        self.put_page(at, home, access);
    }

    // A zero page in a home of its own, for a file that has no such page.
    fn make_filed(&mut self, file: FileNo, page: u16, owner: Tty)
        requires page { IsFilePage file page }
        requires none { fin.get self.old.tables.files (file_page file.0 page) ≡ None }
        requires owner { IsOwner owner }
        requires serial { serial_of self.old.tables.serials owner < 2 ^ 63 }
        requires room { roomy (beside_of self.old.tables) 1 ≡ true }
        requires frame { 0 < S.means.spare self.old.store }
        ensures { FilesPage S.means self.old.store self.new.store (beside_of self.old.tables) (beside_of self.new.tables) (file_page file.0 page) owner }
    {
        let home = self.add_page(None, owner);
        self.tables.file(file, page, home);
    }
}

impl<S: Store> SlotPaged<S> {
    ghost use Rattle.std.specs.Prelude.{◌≡◌, ◌<◌, ◌^◌, is_some, true};
    ghost use Rattle.machine_names.specs.declared.names.TheConstants.{SPACE_PAGES};
    ghost use Rattle.machine_names.specs.Bounds.{IsFilePage, IsOwner};
    ghost use Rattle.page_contracts.specs.Pages.{IsPlace, can_settle};
    ghost use Rattle.flat_tables.specs.Serials.{serial_of};
    ghost use Rattle.pager_walk.specs.declared.chain_walk.Walked.TheVariants.{Along};
    ghost use Rattle.pager_walk.specs.MapPages.{index_of};
    ghost use Rattle.pager_walk.specs.Walks.{WayStands, walk_at};
    ghost use Rattle.paged_tables.specs.PagedMeaning.{lives_in};
    ghost use Rattle.paged_tables.specs.PagedTables.{beside_of};
    ghost use Rattle.paged_tables.specs.PagedTouches.{touched_over, walk_touched};
    ghost use Rattle.paged_tables.specs.PlacesSettled.{SettlesPlace};

    // The page of a file is settled.
    fn settle_filed(&mut self, file: FileNo, page: u16, kind: Kind, owner: Tty)
        requires page { IsFilePage file page }
        requires ready { can_settle (touched_over (beside_of self.old.tables) (S.means.homes self.old.store) (S.means.spare self.old.store) (Place.File file page) kind) ≡ true }
        requires owner { IsOwner owner }
        requires serial { serial_of self.old.tables.serials owner < 2 ^ 63 }
        ensures { SettlesPlace S.means self.old.store self.new.store (beside_of self.old.tables) (beside_of self.new.tables) (Place.File file page) kind owner }
    {
        match self.tables.filed(file, page) {
            Some(home) => self.store.used(home),
            None => self.make_filed(file, page, owner),
        }
    }

    // The page at the end of a chain is settled.
    fn settle_along(&mut self, at: Slot, way: Way, kind: Kind, owner: Tty)
        requires lives { is_some (index_of (beside_of self.old.tables).tables.maps at.fork) ≡ true }
        requires page { at.page < SPACE_PAGES }
        requires walks { Along way ≡ walk_at (beside_of self.old.tables).tables (S.means.homes self.old.store) at }
        requires stands { WayStands (beside_of self.old.tables).tables (S.means.homes self.old.store) way }
        requires ready { can_settle (walk_touched (beside_of self.old.tables) (S.means.homes self.old.store) (S.means.spare self.old.store) kind (Along way)) ≡ true }
        requires owner { IsOwner owner }
        requires serial { serial_of self.old.tables.serials owner < 2 ^ 63 }
        ensures { SettlesPlace S.means self.old.store self.new.store (beside_of self.old.tables) (beside_of self.new.tables) (Place.Fork at) kind owner }
    {
        let Some(home) = way.home else {
            self.make_named(way.end, None, FULL_ACCESS, owner);
            return;
        };
        let Some(to) = way.copy_for(kind) else {
            self.store.used(home);
            return;
        };
        let access = Access {
            x: way.executes,
            ..FULL_ACCESS
        };
        if self.is_alone(to) {
            self.copy_alone(to, home, access, owner);
        } else {
            self.make_named(to, Some(home), access, owner);
        }
    }

    /// Makes the zero page or the copy that a touch announces, for an owner. One page is made, in a frame. A page that the
    /// touch finds ready is used.
    pub fn settle(&mut self, at: Place, kind: Kind, owner: Tty)
        requires place { IsPlace (lives_in (beside_of self.old.tables)) at }
        requires ready { can_settle (touched_over (beside_of self.old.tables) (S.means.homes self.old.store) (S.means.spare self.old.store) at kind) ≡ true }
        requires owner { IsOwner owner }
        requires serial { serial_of self.old.tables.serials owner < 2 ^ 63 }
        ensures { SettlesPlace S.means self.old.store self.new.store (beside_of self.old.tables) (beside_of self.new.tables) at kind owner }
    {
        let slot = match at {
            Place::Fork(slot) => slot,
            Place::File(file, page) => {
                self.settle_filed(file, page, kind, owner);
                return;
            }
        };
        let Walked::Along(way) = walk(&self.store, &self.tables.tables, slot) else {
            unreachable!()
        };
        self.settle_along(slot, way, kind, owner);
    }
}
