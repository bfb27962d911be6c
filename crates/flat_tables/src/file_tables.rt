// The pages of files in the tables beside a store.
ghost use Rattle.std.specs.Prelude.{◌≡◌, ◌<◌, ◌≤◌, ◌+◌, ◌^◌, IsSome, List, length, slice_set};
ghost use Rattle.std.specs.FinMap as map;
ghost use Rattle.machine_names.specs.Bounds.{IsFilePage, IsOwner};
ghost use Rattle.machine_names.specs.declared.names.TheConstants.{TERMINALS};
ghost use Rattle.machine_names.specs.Orders.{file_page};
ghost use Rattle.page_contracts.specs.Stores.{HomePlace, free};
ghost use Rattle.flat_tables.specs.HeldMaps.{held_entry};
ghost use Rattle.flat_tables.specs.Serials.{serial_of};
ghost use Rattle.flat_tables.specs.SlotTables.{share_of};
ghost use Rattle.flat_tables.specs.TableSteps.{tables_of, joined_shares, home_filed, entry_joined, file_joined, file_left, file_freed};

use crate::held_entry::{EntryAt, HeldEntry};
use crate::map_tables::MapTables;
use machine_names::{Access, FileNo, Tty};
use page_homes::Home;

impl MapTables {
    /// The home of the page that a file names. None exactly where the file has no such page.
    pub fn filed(&self, file: FileNo, page: u16) -> Option<Home>
        requires { IsFilePage file page }
        ensures { result ≡ map.get self.now.files (file_page file.0 page) }
    {
        self.files.page(file, page)
    }

    // The page of a home is named once more.
    fn join(&mut self, home: Home)
        requires share { home.0 < length self.old.shares.items }
        requires few { share_of self.old.shares.items home.0 < 2 ^ 31 }
        ensures rest { self.new ≡ record self.old { shares = self.new.shares } }
        ensures shares { self.new.shares.items ≡ joined_shares self.old.shares.items home }
    {
        self.shares[home.0 as usize] += 1;
    }

    /// A home that was free is taken for a new page of an owner, and a file names it.
    pub fn file_home(&mut self, file: FileNo, page: u16, home: Home, owner: Tty)
        requires page { IsFilePage file page }
        requires name { home.0 < length self.old.names.items }
        requires share { home.0 < length self.old.shares.items }
        requires owner { IsOwner owner }
        requires serial { serial_of self.old.serials owner < 2 ^ 63 }
        requires terminals { length self.old.serials.terminals ≡ TERMINALS }
        requires taken { self.old.taken < 2 ^ 31 }
        ensures { (places : List HomePlace) (new : HomePlace) → tables_of (slice_set places home.0 new) self.new ≡ home_filed (tables_of places self.old) (file_page file.0 page) home new owner }
    {
        self.rename(home, owner);
        self.shares[home.0 as usize] = 1;
        let _old = self.files.put_page(file, page, home);
        self.taken += 1;
    }

    /// An entry of no page becomes one of a page that has another name.
    pub fn join_entry(&mut self, at: EntryAt, home: Home, access: Access)
        requires there { IsSome (held_entry self.old.maps.held.items at) }
        requires share { home.0 < length self.old.shares.items }
        requires few { share_of self.old.shares.items home.0 < 2 ^ 31 }
        ensures { (places : List HomePlace) → tables_of places self.new ≡ entry_joined (tables_of places self.old) at home access }
    {
        self.join(home);
        self.set(at, HeldEntry::Page(home, access));
    }

    /// A file names a page that has another name, where it named none.
    pub fn join_file(&mut self, file: FileNo, page: u16, home: Home)
        requires page { IsFilePage file page }
        requires share { home.0 < length self.old.shares.items }
        requires few { share_of self.old.shares.items home.0 < 2 ^ 31 }
        ensures { (places : List HomePlace) → tables_of places self.new ≡ file_joined (tables_of places self.old) (file_page file.0 page) home }
    {
        self.join(home);
        let _old = self.files.put_page(file, page, home);
    }

    /// A file names no page any more where it named that of a home, which has another name.
    pub fn leave_file(&mut self, file: FileNo, page: u16, home: Home)
        requires page { IsFilePage file page }
        requires share { home.0 < length self.old.shares.items }
        requires some { 1 ≤ share_of self.old.shares.items home.0 }
        ensures { (places : List HomePlace) → tables_of places self.new ≡ file_left (tables_of places self.old) (file_page file.0 page) home }
    {
        self.shares[home.0 as usize] -= 1;
        let _old = self.files.drop_page(file, page);
    }

    /// A file names no page any more where it alone named that of a home, and the home has none any more.
    pub fn free_file(&mut self, file: FileNo, page: u16, home: Home)
        requires page { IsFilePage file page }
        requires name { home.0 < length self.old.names.items }
        requires share { home.0 < length self.old.shares.items }
        requires taken { 1 ≤ self.old.taken }
        ensures { (places : List HomePlace) → tables_of (slice_set places home.0 free) self.new ≡ file_freed (tables_of places self.old) (file_page file.0 page) home }
    {
        self.names[home.0 as usize] = None;
        self.shares[home.0 as usize] = 0;
        let _old = self.files.drop_page(file, page);
        self.taken -= 1;
    }
}
