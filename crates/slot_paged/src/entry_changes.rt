// Entries that are set.
ghost use Rattle.std.specs.Prelude.{◌≡◌, ℕ};
ghost use Rattle.plain_pages.specs.Maps.{narrowed as permitted};
ghost use Rattle.pager_walk.specs.declared.paged_entry.Looked.TheVariants as looked;
ghost use Rattle.pager_walk.specs.declared.paged_entry.PagedEntry.TheVariants as paged;
ghost use Rattle.paged_tables.specs.SetEntries.{narrow_paged};

use crate::slot_paged::SlotPaged;
use machine_names::{Access, Slot};
use page_contracts::Store;
use page_homes::Home;
use pager_walk::{Looked, PagedEntry, entry, set};
use plain_pages::NewEntry;
use share_table::Pointer;

impl<S: Store> SlotPaged<S> {
    ghost use Rattle.std.specs.Prelude.{◌≡◌, ◌<◌, Some, IsSome, is_some, true};
    ghost use Rattle.machine_names.specs.declared.names.TheConstants.{SPACE_PAGES};
    ghost use Rattle.share_table.specs.Pointers.{IsPointer};
    ghost use Rattle.pager_walk.specs.declared.paged_entry.PagedEntry.{PagedEntry as APagedEntry};
    ghost use Rattle.pager_walk.specs.PagedMaps.{entry_for, is_near, look_at, name_at};
    ghost use Rattle.flat_pages.specs.FileSteps.{HasHome};
    ghost use Rattle.paged_tables.specs.FreedEntries.{FreesEntry, KeepsHomes};
    ghost use Rattle.paged_tables.specs.LeftShares.{left_of};
    ghost use Rattle.paged_tables.specs.MadePages.{pointer_to, with_shares};
    ghost use Rattle.paged_tables.specs.PagedTables.{beside_of};
    ghost use Rattle.paged_tables.specs.PagedTouches.{has_one_name};
    ghost use Rattle.paged_tables.specs.SetEntries.{FindsEntry, FreesPage, JoinsEntry, PutsPointer, SetsSlot, bare_entry};

    // The page that an entry names is named once less, where it keeps another name. The entry stays.
    pub(crate) fn leave(&mut self, at: Slot)
        requires { at.page < SPACE_PAGES }
        ensures store { self.new.store ≡ self.old.store }
        ensures beside { beside_of self.new.tables ≡ with_shares (beside_of self.old.tables) (left_of (beside_of self.old.tables) (look_at (beside_of self.old.tables).tables (S.means.homes self.old.store) at)) }
    {
        let seen = entry(&self.store, &self.tables.tables, at);
        self.tables.leave_entry(seen);
    }

    // The word of a pointer that stands for an entry is put into the map of a slot.
    pub(crate) fn put_pointer(&mut self, at: Slot, pointer: Pointer)
        requires page { at.page < SPACE_PAGES }
        requires near { is_near (look_at (beside_of self.old.tables).tables (S.means.homes self.old.store) at) ≡ true }
        requires pointer { IsPointer pointer }
        requires entry { IsSome (entry_for (beside_of self.old.tables).tables pointer) }
        ensures { PutsPointer S.means self.old.store self.new.store (beside_of self.old.tables) (beside_of self.new.tables) (beside_of self.old.tables).tables.shares (beside_of self.old.tables).shared at pointer }
    {
        set(&mut self.store, &self.tables.tables, at, pointer);
    }

    // The word of the pointer that names the page of a home, which has a name.
    pub(crate) fn put_page(&mut self, at: Slot, home: Home, access: Access)
        requires page { at.page < SPACE_PAGES }
        requires near { is_near (look_at (beside_of self.old.tables).tables (S.means.homes self.old.store) at) ≡ true }
        requires named { is_some (name_at (beside_of self.old.tables).tables.names home.0) ≡ true }
        ensures { PutsPointer S.means self.old.store self.new.store (beside_of self.old.tables) (beside_of self.new.tables) (beside_of self.old.tables).tables.shares (beside_of self.old.tables).shared at (pointer_to (beside_of self.old.tables) home access) }
    {
        let pointer = self.tables.pointer(home, access);
        self.put_pointer(at, pointer);
    }

    // An entry is set, and the page that it named has a name fewer, where it keeps another.
    fn put_left(&mut self, at: Slot, pointer: Pointer)
        requires page { at.page < SPACE_PAGES }
        requires near { is_near (look_at (beside_of self.old.tables).tables (S.means.homes self.old.store) at) ≡ true }
        requires pointer { IsPointer pointer }
        requires bare { IsSome (bare_entry pointer) }
        ensures { PutsPointer S.means self.old.store self.new.store (beside_of self.old.tables) (beside_of self.new.tables) (left_of (beside_of self.old.tables) (look_at (beside_of self.old.tables).tables (S.means.homes self.old.store) at)) (beside_of self.old.tables).shared at pointer }
    {
        self.leave(at);
        self.put_pointer(at, pointer);
    }

    // An entry is set in the place of one that alone named the page of a home, which is given up.
    fn put_freed(&mut self, at: Slot, home: Home, pointer: Pointer)
        requires page { at.page < SPACE_PAGES }
        requires near { is_near (look_at (beside_of self.old.tables).tables (S.means.homes self.old.store) at) ≡ true }
        requires one { has_one_name (beside_of self.old.tables) home.0 ≡ true }
        requires pointer { IsPointer pointer }
        requires bare { IsSome (bare_entry pointer) }
        ensures { FreesPage S.means self.old.store self.new.store (beside_of self.old.tables) (beside_of self.new.tables) home at pointer }
    {
        self.store.free(home);
        self.tables.drop_page(home);
        self.put_pointer(at, pointer);
    }

    // An entry is set that names no page, and a page that it alone named is given up.
    pub(crate) fn set_unnamed(&mut self, at: Slot, pointer: Pointer)
        requires page { at.page < SPACE_PAGES }
        requires near { is_near (look_at (beside_of self.old.tables).tables (S.means.homes self.old.store) at) ≡ true }
        requires pointer { IsPointer pointer }
        requires bare { IsSome (bare_entry pointer) }
        ensures sets { (e : APagedEntry) → bare_entry pointer ≡ Some e → SetsSlot S.means self.old.store self.new.store (beside_of self.old.tables) (beside_of self.new.tables) at e }
        ensures frees { FreesEntry S.means self.old.store self.new.store (beside_of self.old.tables) (beside_of self.new.tables) at }
    {
        let seen = entry(&self.store, &self.tables.tables, at);
        match self.tables.alone_page(seen) {
            Some(home) => self.put_freed(at, home, pointer),
            None => self.put_left(at, pointer),
        }
    }

    // An entry that names no page becomes one of a page that has another name.
    fn put_joined(&mut self, at: Slot, home: Home, access: Access)
        requires page { at.page < SPACE_PAGES }
        requires near { is_near (look_at (beside_of self.old.tables).tables (S.means.homes self.old.store) at) ≡ true }
        requires named { is_some (name_at (beside_of self.old.tables).tables.names home.0) ≡ true }
        ensures { JoinsEntry S.means self.old.store self.new.store (beside_of self.old.tables) (beside_of self.new.tables) home at access }
    {
        self.tables.join(home);
        self.put_page(at, home, access);
    }

    // An entry is set to a page that a file names.
    fn set_page(&mut self, at: Slot, home: Home, access: Access)
        requires page { at.page < SPACE_PAGES }
        requires near { is_near (look_at (beside_of self.old.tables).tables (S.means.homes self.old.store) at) ≡ true }
        requires seen { FindsEntry (look_at (beside_of self.old.tables).tables (S.means.homes self.old.store) at) }
        requires filed { HasHome self.old.tables.files home }
        ensures sets { SetsSlot S.means self.old.store self.new.store (beside_of self.old.tables) (beside_of self.new.tables) at (paged.Page home access) }
        ensures keeps { KeepsHomes S.means self.old.store self.new.store (beside_of self.old.tables) (beside_of self.new.tables) at }
    {
        self.set_unnamed(at, Pointer::Empty);
        self.put_joined(at, home, access);
    }
}

// An entry, of which no more is permitted than is given.
fn narrowed(entry: PagedEntry, given: Access) -> PagedEntry
    ensures { result ≡ narrow_paged given entry }
{
    match entry {
        PagedEntry::Empty => PagedEntry::Empty,
        PagedEntry::Page(home, access) => PagedEntry::Page(home, narrow(access, given)),
        PagedEntry::Follows(serial, page, access) => {
            PagedEntry::Follows(serial, page, narrow(access, given))
        }
    }
}

// What is permitted by both; a copy is made first where either has it.
fn narrow(old: Access, given: Access) -> Access
    ensures { result ≡ permitted old given }
{
    Access {
        r: old.r && given.r,
        w: old.w && given.w,
        x: old.x && given.x,
        c: old.c || given.c,
    }
}

impl<S: Store> SlotPaged<S> {
    ghost use Rattle.std.specs.Prelude.{◌≡◌, ◌<◌, ◌≤◌, true};
    ghost use Rattle.machine_names.specs.declared.names.Access.{Access as AnAccess};
    ghost use Rattle.machine_names.specs.declared.names.TheConstants.{LAST_SERIAL, SPACE_PAGES};
    ghost use Rattle.page_contracts.specs.Pages.{is_entry};
    ghost use Rattle.plain_pages.specs.NewEntries.{IsNewEntry};
    ghost use Rattle.pager_walk.specs.PagedMaps.{look_at, seen_for};
    ghost use Rattle.paged_tables.specs.FreedEntries.{KeepsHomes};
    ghost use Rattle.paged_tables.specs.PagedTables.{beside_of};
    ghost use Rattle.paged_tables.specs.PagedSlots.{filed_over};
    ghost use Rattle.paged_tables.specs.SetEntries.{ChangesEntry, PutsPointer, pointer_of};

    // No more of an entry that a look finds is permitted than is given.
    fn narrow_entry(&mut self, slot: Slot, seen: PagedEntry, given: Access)
        requires page { slot.page < SPACE_PAGES }
        requires seen { look_at (beside_of self.old.tables).tables (S.means.homes self.old.store) slot ≡ looked.Is seen }
        ensures { PutsPointer S.means self.old.store self.new.store (beside_of self.old.tables) (beside_of self.new.tables) (beside_of self.old.tables).tables.shares (beside_of self.old.tables).shared slot (pointer_of (beside_of self.old.tables) (narrow_paged given seen)) }
    {
        let pointer = self.tables.pointer_of(narrowed(seen, given));
        self.put_pointer(slot, pointer);
    }

    // An entry is set anew that a look finds.
    fn change(&mut self, slot: Slot, seen: PagedEntry, new: NewEntry)
        requires page { slot.page < SPACE_PAGES }
        requires seen { look_at (beside_of self.old.tables).tables (S.means.homes self.old.store) slot ≡ looked.Is seen }
        requires new { IsNewEntry (filed_over (beside_of self.old.tables)) new }
        requires follows { (serial page : ℕ) (a : AnAccess) → new ≡ NewEntry.Follows serial page a → (1 ≤ serial) × (serial ≤ LAST_SERIAL) }
        ensures changes { ChangesEntry S.means self.old.store self.new.store (beside_of self.old.tables) (beside_of self.new.tables) slot new }
        ensures keeps { KeepsHomes S.means self.old.store self.new.store (beside_of self.old.tables) (beside_of self.new.tables) slot }
    {
        match new {
            NewEntry::Empty => self.set_unnamed(slot, Pointer::Empty),
            NewEntry::Follows(serial, page, access) => {
                self.set_unnamed(slot, Pointer::Indirect(serial, page, access));
            }
            NewEntry::FilePage(file, page, access) => {
                let Some(home) = self.tables.filed(file, page) else {
                    unreachable!()
                };
                self.set_page(slot, home, access);
            }
            NewEntry::Narrow(access) => self.narrow_entry(slot, seen, access),
        }
    }

    /// Sets an entry that a look at it finds. It may be set to a page that a file has, which may be in no frame.
    /// A page that loses its last name is dropped. The serial of a fork that is followed is 1 to 262,143.
    pub fn set_entry(&mut self, slot: Slot, new: NewEntry)
        requires page { slot.page < SPACE_PAGES }
        requires seen { is_entry (seen_for (beside_of self.old.tables).tables (look_at (beside_of self.old.tables).tables (S.means.homes self.old.store) slot)) ≡ true }
        requires new { IsNewEntry (filed_over (beside_of self.old.tables)) new }
        requires follows { (serial page : ℕ) (a : AnAccess) → new ≡ NewEntry.Follows serial page a → (1 ≤ serial) × (serial ≤ LAST_SERIAL) }
        ensures changes { ChangesEntry S.means self.old.store self.new.store (beside_of self.old.tables) (beside_of self.new.tables) slot new }
        ensures keeps { KeepsHomes S.means self.old.store self.new.store (beside_of self.old.tables) (beside_of self.new.tables) slot }
    {
        let Looked::Is(seen) = entry(&self.store, &self.tables.tables, slot) else {
            unreachable!()
        };
        self.change(slot, seen, new);
    }
}
