// Maps in memory over a store.
ghost use Rattle.flat_tables.specs.SlotTables.{AreTables};
ghost use Rattle.flat_tables.specs.TableSteps.{tables_of};
ghost use Rattle.flat_pages.specs.SlotMeaning.{AreTold};

use flat_tables::{
    EntryAt, FULL_ACCESS, HeldEntry, Link, MapTables, PageSerials, Use, free_map_of,
};
use machine_names::{
    Access, FILE_PAGES, FileNo, ForkName, Kind, PAGE_ADDRESSES, PageName, Place, SPACE_PAGES, Slot,
    Tty,
};
use outside::{Drum, Memory};
use page_contracts::{
    Completed, Found, Need, Pages, Peeked, Room, Seen, SpaceHandle, Store, Touch,
};
use page_homes::{FrameId, Home, MOST_HOMES};
use plain_pages::{NewEntry, NewMap};
use std::alloc::Global;
use word36::Word;

/// The pages of forks and of files, whose maps are in memory, over a store: an entry may follow another, a page
/// may be copied when it is first written, and a page that nothing names is given up.
/// Nothing is allocated after the boot.
#[derive(Drop)]
pub struct FlatSlots<S: Store> {
    store: S,
    tables: MapTables,
    ghost agree: { AreTables (tables_of (S.means.homes store) tables) },
    ghost told: { AreTold (tables_of (S.means.homes store) tables) },
}

impl<S: Store + Drop> FlatSlots<S> {
    ghost use Rattle.std.specs.Prelude.{◌≡◌, ◌≤◌, true, false, IfOk, replicate};
    ghost use Rattle.std.specs.Ordering.{nat_cmp};
    ghost use Rattle.machine_names.specs.declared.names.Tty.{Tty as ATty};
    ghost use Rattle.machine_names.specs.declared.names.ForkName.{ForkName as AForkName};
    ghost use Rattle.machine_names.specs.Bounds.{IsOwner};
    ghost use Rattle.page_contracts.specs.DrumWords.{DrumWords};
    ghost use Rattle.plain_pages.specs.PlainPages.{opening_pages};
    ghost use Rattle.page_contracts.specs.Stores.{free, FitsHomes};

    /// No fork and no page, over a store with so many homes, at most 16,384, all of them free: so many pages
    /// and forks may live. Err: no memory.
    pub fn boot(alloc: Global, store: S, pages: u32) -> Result<FlatSlots<S>, Memory>
        requires homes { S.means.homes store ≡ replicate pages free }
        requires pages { pages ≤ MOST_HOMES }
        ensures plain { IfOk result (λ s. (d : DrumWords) → ⟦<FlatSlots<S> as Pages>⟧.means.plain s d ≡ opening_pages nat_cmp pages) }
        ensures fits { IfOk result (λ s. (d : DrumWords) → FitsHomes (replicate pages free) d → ⟦<FlatSlots<S> as Pages>⟧.means.fits s d) }
        ensures count { IfOk result (λ s. ⟦<FlatSlots<S> as Pages>⟧.means.count s ≡ 0) }
        ensures most { IfOk result (λ s. ⟦<FlatSlots<S> as Pages>⟧.means.most s ≡ pages) }
        ensures serials { IfOk result (λ s. (t : ATty) → IsOwner t → ⟦<FlatSlots<S> as Pages>⟧.means.serial s t ≡ 1) }
        ensures first { IfOk result (λ s. (t : ATty) → ⟦<FlatSlots<S> as Pages>⟧.means.serial s t ≤ 1) }
        ensures frames { IfOk result (λ s. (⟦<FlatSlots<S> as Pages>⟧.means.scene s).free_frames ≡ S.means.spare store) }
        ensures lives { IfOk result (λ s. (f : AForkName) → ⟦<FlatSlots<S> as Pages>⟧.means.lives s f ≡ false) }
        ensures forks { IfOk result (λ s. (t : ATty) → ⟦<FlatSlots<S> as Pages>⟧.means.forks_of s t ≡ 0) }
    {
        let tables = MapTables::boot(alloc, pages)?;
        Ok(FlatSlots { store, tables })
    }
}

impl<S: Store> FlatSlots<S> {
    ghost use Rattle.std.specs.Prelude.{◌≡◌, ◌≤◌, ◌+◌, true, ℕ, Some, None, IsSome, if◌then◌else◌};
    ghost use Rattle.page_homes.specs.declared.homes.Home.{Home as AHome};
    ghost use Rattle.page_contracts.specs.Pages.{framed};
    ghost use Rattle.page_contracts.specs.Stores.{place, is_taken};
    ghost use Rattle.page_contracts.specs.Pages.{absent_or};
    ghost use Rattle.flat_tables.specs.declared.held_entry.EntryAt.{EntryAt as AnEntry};
    ghost use Rattle.flat_tables.specs.HeldMaps.{held_entry};
    ghost use Rattle.flat_tables.specs.SlotTouches.{scene_of, has_room, is_alone, touch_copy, touch_filed, touch_made};
    ghost use Rattle.page_contracts.specs.Stores.{away_at};

    // What a touch answers where a zero page has to be made, and so many pages in all.
    fn blank(&self, pages: u32) -> Touch
        requires { (1 ≤ pages) × (pages ≤ 2) }
        ensures { result ≡ (if has_room (tables_of (S.means.homes self.now.store) self.now.tables) pages then framed (scene_of (tables_of (S.means.homes self.now.store) self.now.tables) (S.means.spare self.now.store)) Touch.Zero else Touch.Full) }
    {
        if !self.tables.has_room(pages) {
            return Touch::Full;
        }
        self.framed(Touch::Zero)
    }

    // What wants a frame answers so, where none is free.
    fn framed(&self, touch: Touch) -> Touch
        requires { has_room (tables_of (S.means.homes self.now.store) self.now.tables) 1 ≡ true }
        ensures { result ≡ framed (scene_of (tables_of (S.means.homes self.now.store) self.now.tables) (S.means.spare self.now.store)) touch }
    {
        match self.store.room(1) {
            Room::Enough => touch,
            _ => Touch::NeedFrame,
        }
    }

    // What is in a frame answers so.
    fn present(&self, home: Home, touch: Touch) -> Touch
        requires { is_taken (place (S.means.homes self.now.store) home.0) ≡ true }
        ensures { result ≡ absent_or (away_at (S.means.homes self.now.store) home.0) touch }
    {
        match self.store.find(home) {
            Some(_) => touch,
            None => Touch::Absent(home),
        }
    }

    // What a touch answers where a page has to be copied into an entry.
    fn copied(&self, home: Home, at: EntryAt) -> Touch
        requires taken { is_taken (place (S.means.homes self.now.store) home.0) ≡ true }
        requires there { IsSome (held_entry self.now.tables.maps.held.items at) }
        ensures { result ≡ touch_copy (tables_of (S.means.homes self.now.store) self.now.tables) (scene_of (tables_of (S.means.homes self.now.store) self.now.tables) (S.means.spare self.now.store)) (away_at (S.means.homes self.now.store) home.0) (is_alone self.now.tables.shares.items (held_entry self.now.tables.maps.held.items at)) }
    {
        if self.tables.is_alone(at) {
            return self.present(home, Touch::Copy { sole: true });
        }
        if !self.tables.has_room(1) {
            return Touch::Full;
        }
        let touch = self.framed(Touch::Copy { sole: false });
        self.present(home, touch)
    }

    // What a touch answers that is permitted.
    fn made(&self, home: Option<Home>, copy: Option<EntryAt>) -> Touch
        requires taken { (h : AHome) → home ≡ Some h → is_taken (place (S.means.homes self.now.store) h.0) ≡ true }
        requires there { (m : AnEntry) → copy ≡ Some m → IsSome (held_entry self.now.tables.maps.held.items m) }
        ensures { result ≡ touch_made (away_at (S.means.homes self.now.store)) (tables_of (S.means.homes self.now.store) self.now.tables) (scene_of (tables_of (S.means.homes self.now.store) self.now.tables) (S.means.spare self.now.store)) home copy }
    {
        let Some(home) = home else {
            return if copy.is_none() {
                self.blank(1)
            } else {
                self.blank(2)
            };
        };
        match copy {
            None => self.present(home, Touch::Ready),
            Some(at) => self.copied(home, at),
        }
    }

    // What a touch answers of a page of a file, or of none.
    fn touch_filed(&self, home: Option<Home>, kind: Kind) -> Touch
        requires { (h : AHome) → home ≡ Some h → is_taken (place (S.means.homes self.now.store) h.0) ≡ true }
        ensures { result ≡ touch_filed (away_at (S.means.homes self.now.store)) (tables_of (S.means.homes self.now.store) self.now.tables) (scene_of (tables_of (S.means.homes self.now.store) self.now.tables) (S.means.spare self.now.store)) kind home }
    {
        match (home, kind) {
            (None, Kind::Read | Kind::Execute) => Touch::Denied(kind),
            (home, _) => self.made(home, None),
        }
    }
}

impl<S: Store> FlatSlots<S> {
    ghost use Rattle.std.specs.Prelude.{◌≡◌, ◌<◌, ◌^◌, IsSome, Some, None, true, false, ℕ};
    ghost use Rattle.std.specs.FinMap as map;
    ghost use Rattle.plain_pages.specs.Maps.{full_access};
    ghost use Rattle.machine_names.specs.Bounds.{IsFilePage, IsOwner};
    ghost use Rattle.machine_names.specs.Orders.{file_page};
    ghost use Rattle.machine_names.specs.PageWords.{zero_words};
    ghost use Rattle.page_contracts.specs.Stores.{IsUsed, here, is_here, place};
    ghost use Rattle.flat_tables.specs.declared.held_entry.HeldEntry.TheVariants as entry;
    ghost use Rattle.flat_tables.specs.Serials.{serial_of};
    ghost use Rattle.flat_tables.specs.HeldMaps.{fork_at, held_entry};
    ghost use Rattle.flat_tables.specs.SlotTouches.{has_room, is_alone};
    ghost use Rattle.flat_tables.specs.TableSteps.{home_renamed};
    ghost use Rattle.page_homes.specs.declared.homes.Home.{Home as AHome};
    ghost use Rattle.flat_tables.specs.SlotSteps.{TakesHome};
    ghost use Rattle.flat_pages.specs.FileSteps.{FilesHome, SettlesFiled};

    // A zero page in a home of its own, for an empty entry.
    fn make_zero(&mut self, at: EntryAt, owner: Tty)
        requires empty { held_entry self.old.tables.maps.held.items at ≡ Some entry.Empty }
        requires lives { IsSome (fork_at self.old.tables.maps.held.items at.map) }
        requires owner { IsOwner owner }
        requires serial { serial_of self.old.tables.serials owner < 2 ^ 63 }
        requires room { has_room (tables_of (S.means.homes self.old.store) self.old.tables) 1 ≡ true }
        requires frame { 0 < S.means.spare self.old.store }
        ensures { TakesHome S.means self.old.store self.new.store self.old.tables self.new.tables at (here zero_words) full_access owner }
    {
        let home = self.store.make();
        self.tables.take_home(at, home, FULL_ACCESS, owner);
    }

    // A zero page in a home of its own, for a file that has no such page.
    fn make_filed(&mut self, file: FileNo, page: u16, owner: Tty)
        requires page { IsFilePage file page }
        requires none { map.get self.old.tables.files (file_page file.0 page) ≡ None }
        requires owner { IsOwner owner }
        requires serial { serial_of self.old.tables.serials owner < 2 ^ 63 }
        requires room { has_room (tables_of (S.means.homes self.old.store) self.old.tables) 1 ≡ true }
        requires frame { 0 < S.means.spare self.old.store }
        ensures { FilesHome S.means self.old.store self.new.store self.old.tables self.new.tables (file_page file.0 page) owner }
    {
        let home = self.store.make();
        self.tables.file_home(file, page, home, owner);
    }

    // A copy in a home of its own, of a page that keeps another name.
    fn copy_new(&mut self, at: EntryAt, from: Home, access: Access, owner: Tty)
        requires there { IsSome (held_entry self.old.tables.maps.held.items at) }
        requires lives { IsSome (fork_at self.old.tables.maps.held.items at.map) }
        requires shared { is_alone self.old.tables.shares.items (held_entry self.old.tables.maps.held.items at) ≡ false }
        requires from { is_here (place (S.means.homes self.old.store) from.0) ≡ true }
        requires owner { IsOwner owner }
        requires serial { serial_of self.old.tables.serials owner < 2 ^ 63 }
        requires room { has_room (tables_of (S.means.homes self.old.store) self.old.tables) 1 ≡ true }
        requires frame { 0 < S.means.spare self.old.store }
        ensures { TakesHome S.means self.old.store self.new.store self.old.tables self.new.tables at (place (S.means.homes self.old.store) from.0) access owner }
    {
        let home = self.store.copy(from);
        self.tables.take_home(at, home, access, owner);
    }

    // The zero page that a touch of a page of a file announces is made, and a page that is there is used.
    fn settle_filed(&mut self, file: FileNo, page: u16, owner: Tty)
        requires page { IsFilePage file page }
        requires here { (h : AHome) → map.get self.old.tables.files (file_page file.0 page) ≡ Some h → is_here (place (S.means.homes self.old.store) h.0) ≡ true }
        requires owner { IsOwner owner }
        requires serial { serial_of self.old.tables.serials owner < 2 ^ 63 }
        requires room { map.get self.old.tables.files (file_page file.0 page) ≡ None → has_room (tables_of (S.means.homes self.old.store) self.old.tables) 1 ≡ true }
        requires frame { map.get self.old.tables.files (file_page file.0 page) ≡ None → 0 < S.means.spare self.old.store }
        ensures { SettlesFiled S.means self.old.store self.new.store self.old.tables self.new.tables (file_page file.0 page) owner (map.get self.old.tables.files (file_page file.0 page)) }
    {
        match self.tables.filed(file, page) {
            Some(home) => self.store.used(home),
            None => self.make_filed(file, page, owner),
        }
    }

    // A copy of a page that has no other name takes its home.
    fn copy_alone(&mut self, at: EntryAt, home: Home, old: Access, access: Access, owner: Tty)
        requires entry { held_entry self.old.tables.maps.held.items at ≡ Some (entry.Page home old) }
        requires lives { IsSome (fork_at self.old.tables.maps.held.items at.map) }
        requires alone { is_alone self.old.tables.shares.items (held_entry self.old.tables.maps.held.items at) ≡ true }
        requires from { is_here (place (S.means.homes self.old.store) home.0) ≡ true }
        requires owner { IsOwner owner }
        requires serial { serial_of self.old.tables.serials owner < 2 ^ 63 }
        ensures tables { tables_of (S.means.homes self.new.store) self.new.tables ≡ home_renamed (tables_of (S.means.homes self.old.store) self.old.tables) at home access owner }
        ensures used { IsUsed S.means home.0 self.old.store self.new.store }
        ensures homes { S.means.homes self.new.store ≡ S.means.homes self.old.store }
    {
        self.store.used(home);
        self.tables.rename_home(at, home, access, owner);
    }
}

impl<S: Store> FlatSlots<S> {
    ghost use Rattle.std.specs.Prelude.{◌≡◌, ◌<◌, ℕ, IsSome, Some, None, true, false};
    ghost use Rattle.std.specs.Option.{option_and_then};
    ghost use Rattle.std.specs.FinMap as map;
    ghost use Rattle.machine_names.specs.Bounds.{IsFilePage};
    ghost use Rattle.machine_names.specs.declared.names.TheConstants.{MOST_FILES};
    ghost use Rattle.machine_names.specs.Orders.{file_page};
    ghost use Rattle.flat_tables.specs.HeldMaps.{name_at};
    ghost use Rattle.flat_tables.specs.SlotTables.{share_of};
    ghost use Rattle.flat_pages.specs.FileSteps.{EmptiesFile, HasHome, IsNamed, SetsFile};
    ghost use Rattle.machine_names.specs.declared.names.Access.{Access as AnAccess};
    ghost use Rattle.page_contracts.specs.Stores.{IsFreed};
    ghost use Rattle.flat_tables.specs.declared.held_entry.HeldEntry.TheVariants as entry;
    ghost use Rattle.flat_tables.specs.declared.held_entry.Link.{Link as ALink};
    ghost use Rattle.flat_tables.specs.HeldMaps.{fork_at, held_entry, points_at};
    ghost use Rattle.std.specs.Prelude.{is_some};
    ghost use Rattle.page_contracts.specs.Pages.{IsPlace};
    ghost use Rattle.flat_tables.specs.HeldMaps.{index_of};
    ghost use Rattle.flat_tables.specs.SlotTouches.{home_at, is_alone};
    ghost use Rattle.flat_tables.specs.TableSteps.{home_freed};
    ghost use Rattle.flat_tables.specs.SlotSteps.{SetsEntry};
    ghost use Rattle.flat_pages.specs.Emptying.{EmptiesMap};
    ghost use Rattle.flat_tables.specs.Walks.{ready_home, walk};

    // An entry becomes one of no page, in the place of one that alone named the page of a home.
    fn drop_page(&mut self, at: EntryAt, home: Home, old: Access, new: HeldEntry)
        requires there { held_entry self.old.tables.maps.held.items at ≡ Some (entry.Page home old) }
        requires lives { IsSome (fork_at self.old.tables.maps.held.items at.map) }
        requires alone { is_alone self.old.tables.shares.items (held_entry self.old.tables.maps.held.items at) ≡ true }
        requires none { (k : ℕ) → points_at k new ≡ 0 }
        requires page { (l : ALink) (a : AnAccess) → new ≡ entry.Follows l a → l.page < SPACE_PAGES }
        ensures freed { IsFreed S.means home.0 self.old.store self.new.store }
        ensures tables { tables_of (S.means.homes self.new.store) self.new.tables ≡ home_freed (tables_of (S.means.homes self.old.store) self.old.tables) at home new }
    {
        self.store.free(home);
        self.tables.drop_page(at, home, new);
    }

    // An entry becomes one of no page. A page that loses its last name is given up.
    fn set_unnamed(&mut self, at: EntryAt, new: HeldEntry)
        requires there { IsSome (held_entry self.old.tables.maps.held.items at) }
        requires lives { IsSome (fork_at self.old.tables.maps.held.items at.map) }
        requires none { (k : ℕ) → points_at k new ≡ 0 }
        requires page { (l : ALink) (a : AnAccess) → new ≡ entry.Follows l a → l.page < SPACE_PAGES }
        ensures { SetsEntry S.means self.old.store self.new.store self.old.tables self.new.tables at new }
    {
        if let HeldEntry::Page(home, old) = self.tables.entry(at) {
            if self.tables.is_alone(at) {
                self.drop_page(at, home, old, new);
                return;
            }
        }
        self.tables.leave_page(at, new);
    }

    // An entry becomes another of the same page, or of none as before.
    fn set_kept(&mut self, at: EntryAt, old: HeldEntry, new: HeldEntry)
        requires there { held_entry self.old.tables.maps.held.items at ≡ Some old }
        requires lives { IsSome (fork_at self.old.tables.maps.held.items at.map) }
        requires same { (k : ℕ) → points_at k new ≡ points_at k old }
        requires page { (l : ALink) (a : AnAccess) → new ≡ entry.Follows l a → l.page < SPACE_PAGES }
        ensures { SetsEntry S.means self.old.store self.new.store self.old.tables self.new.tables at new }
    {
        self.tables.keep_page(at, new);
    }

    // An entry becomes one of a page that a file names.
    fn set_filed(&mut self, at: EntryAt, home: Home, access: Access)
        requires there { IsSome (held_entry self.old.tables.maps.held.items at) }
        requires lives { IsSome (fork_at self.old.tables.maps.held.items at.map) }
        requires filed { HasHome self.old.tables.files home }
        ensures { SetsEntry S.means self.old.store self.new.store self.old.tables self.new.tables at (entry.Page home access) }
    {
        self.set_unnamed(at, HeldEntry::Empty);
        self.join_entry(at, home, access);
    }

    // An empty entry becomes one of a page that has another name.
    fn join_entry(&mut self, at: EntryAt, home: Home, access: Access)
        requires there { held_entry self.old.tables.maps.held.items at ≡ Some entry.Empty }
        requires lives { IsSome (fork_at self.old.tables.maps.held.items at.map) }
        requires named { is_some (name_at self.old.tables.names.items home.0) ≡ true }
        ensures { SetsEntry S.means self.old.store self.new.store self.old.tables self.new.tables at (entry.Page home access) }
    {
        self.tables.join_entry(at, home, access);
    }

    // A file names no page any more at one of its pages. A page that loses its last name is given up.
    fn unfile(&mut self, file: FileNo, page: u16)
        requires { IsFilePage file page }
        ensures { SetsFile S.means self.old.store self.new.store self.old.tables self.new.tables (file_page file.0 page) None }
    {
        let Some(home) = self.tables.filed(file, page) else {
            return;
        };
        if self.tables.share(home) == 1 {
            self.free_filed(file, page, home);
            return;
        }
        self.tables.leave_file(file, page, home);
    }

    // The same where the file alone names the page.
    fn free_filed(&mut self, file: FileNo, page: u16, home: Home)
        requires page { IsFilePage file page }
        requires there { map.get self.old.tables.files (file_page file.0 page) ≡ Some home }
        requires alone { share_of self.old.tables.shares.items home.0 ≡ 1 }
        ensures { SetsFile S.means self.old.store self.new.store self.old.tables self.new.tables (file_page file.0 page) None }
    {
        self.store.free(home);
        self.tables.free_file(file, page, home);
    }

    // A file names a page that has another name, where it named none.
    fn join_file(&mut self, file: FileNo, page: u16, home: Home)
        requires page { IsFilePage file page }
        requires none { map.get self.old.tables.files (file_page file.0 page) ≡ None }
        requires named { is_some (name_at self.old.tables.names.items home.0) ≡ true }
        ensures { SetsFile S.means self.old.store self.new.store self.old.tables self.new.tables (file_page file.0 page) (Some home) }
    {
        self.tables.join_file(file, page, home);
    }

    // A file names a page that an entry names too, in the place of what it named.
    fn refile(&mut self, file: FileNo, page: u16, home: Home)
        requires page { IsFilePage file page }
        requires entry { IsNamed self.old.tables.maps.held.items home.0 }
        ensures { SetsFile S.means self.old.store self.new.store self.old.tables self.new.tables (file_page file.0 page) (Some home) }
    {
        self.unfile(file, page);
        self.join_file(file, page, home);
    }

    // A file names no page any more at its first pages. Pages that lose their last name are given up.
    fn unfile_all(&mut self, file: FileNo)
        requires { file.0 < MOST_FILES }
        ensures { EmptiesFile S.means self.old.store self.new.store self.old.tables self.new.tables file.0 FILE_PAGES }
    {
        for page in 0..FILE_PAGES as u16 {
            self.unfile(file, page);
        }
    }

    // The home of the page at the end of the chain of a place, or of that of a file.
    fn home_of(&self, at: Place) -> Option<Home>
        requires { IsPlace (λ f. is_some (index_of self.now.tables.maps.held.items f)) at }
        ensures { result ≡ home_at (tables_of (S.means.homes self.now.store) self.now.tables) at }
    {
        match at {
            Place::Fork(slot) => match self.tables.walk(slot) {
                Some(walk) => walk.home,
                None => None,
            },
            Place::File(file, page) => self.tables.filed(file, page),
        }
    }

    // Where the page is at the end of a chain that lets it be used so as it is, if it is in a frame.
    #[inline(always)]
    fn found(&self, space: SpaceHandle, page: u16, wanted: Use) -> Option<Found>
        requires lives { IsSome (fork_at self.now.tables.maps.held.items space.0) }
        requires page { page < SPACE_PAGES }
        ensures { result ≡ option_and_then (λ h. S.means.found self.now.store h.0) (option_and_then (ready_home wanted) (walk self.now.tables.maps.held.items (record { map = space.0; page = page }))) }
    {
        let at = EntryAt { map: space.0, page };
        match self.tables.maps.home_for(at, wanted) {
            Some(home) => self.store.find(home),
            None => None,
        }
    }

    // Each entry of a map is emptied. Pages that lose their last name are given up.
    fn empty_map(&mut self, map: u32)
        requires lives { IsSome (fork_at self.old.tables.maps.held.items map) }
        ensures { EmptiesMap S.means self.old.store self.new.store self.old.tables self.new.tables map SPACE_PAGES }
    {
        for page in 0..SPACE_PAGES as u16 {
            self.set_unnamed(EntryAt { map, page }, HeldEntry::Empty);
        }
    }
}

impl<S: Store> Pages for FlatSlots<S> {
    ghost use Rattle.std.proofs.Common.{refl};
    ghost use Rattle.flat_pages.specs.SlotMeaning.{slots_meaning, slots_housed, slots_agree};

    ghost means = { slots_meaning S.means (λ s. s.store) (λ s. tables_of (S.means.homes s.store) s.tables) };

    fn touch(&self, at: Place, kind: Kind) -> Touch {
        let slot = match at {
            Place::Fork(slot) => slot,
            Place::File(file, page) => {
                return self.touch_filed(self.tables.filed(file, page), kind);
            }
        };
        let Some(walk) = self.tables.walk(slot) else {
            return Touch::Denied(kind);
        };
        if !walk.permits(kind) {
            return Touch::Denied(kind);
        }
        self.made(walk.home, walk.copy_for(kind))
    }

    fn word(&self, at: Place, offset: u16) -> Word {
        match self.home_of(at) {
            Some(home) => self.store.word(home, offset).unwrap_or(Word::ZERO),
            None => Word::ZERO,
        }
    }

    fn peek(&self, at: Place, offset: u16) -> Peeked {
        match self.home_of(at) {
            Some(home) => match self.store.word(home, offset) {
                Some(word) => Peeked::Is(word),
                None => Peeked::Absent(home),
            },
            None => Peeked::NoPage,
        }
    }

    fn page_at(&self, at: Place) -> Option<(PageName, u32)> {
        match self.home_of(at) {
            Some(home) => Some((self.tables.name(home), self.tables.share(home))),
            None => None,
        }
    }

    fn entry(&self, slot: Slot) -> Seen {
        match self.tables.maps.map_of(slot.fork) {
            Some(map) => {
                let at = EntryAt {
                    map,
                    page: slot.page,
                };
                Seen::Is(self.tables.seen(self.tables.entry(at)))
            }
            None => Seen::Missing,
        }
    }

    fn set_entry(&mut self, slot: Slot, new: NewEntry) {
        let Some(map) = self.tables.maps.map_of(slot.fork) else {
            return;
        };
        let at = EntryAt {
            map,
            page: slot.page,
        };
        match new {
            NewEntry::Empty => self.set_unnamed(at, HeldEntry::Empty),
            NewEntry::FilePage(file, page, access) => {
                let Some(home) = self.tables.filed(file, page) else {
                    unreachable!()
                };
                self.set_filed(at, home, access);
            }
            NewEntry::Follows(serial, page, access) => {
                let fork = ForkName {
                    tty: slot.fork.tty,
                    serial,
                };
                let map = self.tables.maps.near_map(fork);
                self.set_unnamed(at, HeldEntry::Follows(Link { serial, page, map }, access));
            }
            NewEntry::Narrow(access) => {
                let old = self.tables.entry(at);
                self.set_kept(at, old, old.narrowed(access));
            }
        }
    }

    fn settle(&mut self, at: Place, kind: Kind, owner: Tty) {
        let slot = match at {
            Place::Fork(slot) => slot,
            Place::File(file, page) => {
                self.settle_filed(file, page, owner);
                return;
            }
        };
        let Some(walk) = self.tables.walk(slot) else {
            return;
        };
        let Some(home) = walk.home else {
            self.make_zero(walk.end, owner);
            return;
        };
        let Some(to) = walk.copy_for(kind) else {
            self.store.used(home);
            return;
        };
        let access = Access {
            x: walk.executes,
            ..FULL_ACCESS
        };
        match self.tables.entry(to) {
            HeldEntry::Page(_, old) if self.tables.share(home) == 1 => {
                self.copy_alone(to, home, old, access, owner);
            }
            _ => self.copy_new(to, home, access, owner),
        }
    }

    fn put(&mut self, at: Place, offset: u16, word: Word) {
        if let Some(home) = self.home_of(at) {
            let _is_put = self.store.put(home, offset, word);
        }
    }

    fn space(&self, fork: ForkName) -> SpaceHandle {
        match self.tables.maps.map_of(fork) {
            Some(map) => SpaceHandle(map),
            None => unreachable!(),
        }
    }

    #[inline(always)]
    fn find(&self, space: SpaceHandle, page: u16, kind: Kind) -> Option<Found> {
        self.found(space, page, Use::of(kind))
    }

    #[inline(always)]
    fn find_to_change(&self, space: SpaceHandle, page: u16) -> Option<Found> {
        self.found(space, page, Use::Change)
    }

    #[inline(always)]
    fn look(&self, space: SpaceHandle, found: Found, address: u32) -> Word {
        self.store.look(found, (address % PAGE_ADDRESSES) as u16)
    }

    #[inline(always)]
    fn used(&mut self, space: SpaceHandle, found: Found, address: u32) {
        self.store.use_found(found);
    }

    #[inline(always)]
    fn learn(&mut self, space: SpaceHandle, page: u16) {}

    #[inline(always)]
    fn load(&mut self, space: SpaceHandle, found: Found, address: u32) -> Word {
        self.store.load(found, (address % PAGE_ADDRESSES) as u16)
    }

    #[inline(always)]
    fn store(&mut self, space: SpaceHandle, found: Found, address: u32, word: Word) {
        self.store
            .store(found, (address % PAGE_ADDRESSES) as u16, word);
    }

    fn add_fork(&mut self, fork: ForkName, map: NewMap) {
        let number = free_map_of(&self.tables.maps.held, fork.tty);
        match map {
            NewMap::Empty => self.tables.add_empty(number, fork),
            NewMap::FollowAll(other) => {
                let near = self.tables.maps.near_map(other);
                self.tables.add_follower(number, fork, other.serial, near);
            }
        }
    }

    fn drop_fork(&mut self, fork: ForkName) {
        let Some(map) = self.tables.maps.map_of(fork) else {
            return;
        };
        self.empty_map(map);
        self.tables.end_fork(map);
    }

    fn page_of(&self, file: FileNo, page: u16) -> Option<PageName> {
        match self.tables.filed(file, page) {
            Some(home) => Some(self.tables.name(home)),
            None => None,
        }
    }

    fn set_file(&mut self, file: FileNo, page: u16, from: Option<Slot>) {
        let Some(slot) = from else {
            self.unfile(file, page);
            return;
        };
        let Some(home) = self.home_of(Place::Fork(slot)) else {
            unreachable!()
        };
        self.refile(file, page, home);
    }

    fn drop_file(&mut self, file: FileNo) {
        self.unfile_all(file);
    }

    fn live(&self) -> u32 {
        self.tables.taken + self.tables.living
    }

    fn limit(&self) -> u32 {
        self.tables.limit
    }

    fn room(&self, pages: u32) -> Room {
        if pages > self.tables.limit - self.tables.taken - self.tables.living {
            return Room::Full;
        }
        match self.store.room(pages) {
            Room::Enough => Room::Enough,
            _ => Room::NeedFrame,
        }
    }

    fn fetch(&mut self, need: Need) -> Need {
        self.store.fetch(need)
    }

    fn complete<D: Drum>(&mut self, drum: &mut D) -> Completed {
        self.store.complete(drum)
    }

    fn is_moving(&self) -> bool {
        self.store.is_moving()
    }

    fn cancelled(&mut self) -> Option<Need> {
        self.store.cancelled()
    }

    fn evict(&mut self, frame: FrameId) {
        self.store.evict(frame);
    }

    fn keep(&mut self, holder: u16, home: Home) {
        self.store.keep(holder, home);
    }

    fn held(&self, holder: u16) -> u32 {
        self.store.held(holder)
    }

    fn let_go(&mut self, holder: u16) {
        self.store.let_go(holder);
    }

    fn members(&self) -> u32 {
        self.store.members()
    }

    ghost housed = { λ s. slots_housed S.means (λ p. p.store) (λ p. tables_of (S.means.homes p.store) p.tables) s s.told refl (S.sound s.store) };

    ghost agrees = { λ s d fits. slots_agree S.means (λ p. p.store) (λ p. tables_of (S.means.homes p.store) p.tables) s s.told refl d fits };

    ghost whole = { λ s d fits. s.told.whole d fits };

    ghost there = { λ s d fits. s.told.words d };

    ghost none_lives = { λ s f none. s.told.alone f none };
}
