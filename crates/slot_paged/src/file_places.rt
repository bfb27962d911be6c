// Pages of files.
ghost use Rattle.std.specs.Prelude.{◌≡◌};

use crate::slot_paged::SlotPaged;
use machine_names::{FILE_PAGES, FileNo, PageName, Place, Slot};
use page_contracts::Store;
use page_homes::Home;
use paged_tables::PageHome;

impl<S: Store> SlotPaged<S> {
    ghost use Rattle.std.specs.Prelude.{◌≡◌};
    ghost use Rattle.machine_names.specs.Bounds.{IsFilePage};
    ghost use Rattle.machine_names.specs.Orders.{file_page};
    ghost use Rattle.slot_paged.specs.Slots.{slots};

    /// The page that a file names at one of its pages; it may be in no frame. None exactly where the file has
    /// no such page.
    pub fn page_of(&self, file: FileNo, page: u16) -> Option<PageName>
        requires { IsFilePage file page }
        ensures { result ≡ (slots S.means).filed self.now (file_page file.0 page) }
    {
        match self.tables.filed(file, page) {
            Some(home) => Some(self.tables.tables.name(home)),
            None => None,
        }
    }
}

impl<S: Store> SlotPaged<S> {
    ghost use Rattle.std.specs.Prelude.{◌≡◌, ◌<◌, Some, None, is_some, true, false};
    ghost use Rattle.std.specs.FinMap as fin;
    ghost use Rattle.machine_names.specs.declared.names.TheConstants.{MOST_FILES};
    ghost use Rattle.machine_names.specs.Bounds.{IsFilePage};
    ghost use Rattle.machine_names.specs.Orders.{file_page};
    ghost use Rattle.pager_walk.specs.PagedMaps.{name_at};
    ghost use Rattle.paged_tables.specs.FiledSteps.{EmptiesFiled, SetsFiled, SharesPage};
    ghost use Rattle.paged_tables.specs.PagedTables.{beside_of};
    ghost use Rattle.paged_tables.specs.PagedTouches.{names_at};

    // A file names a page no more that has no other name: the page is given up.
    fn free_filed(&mut self, file: FileNo, page: u16, home: Home)
        requires page { IsFilePage file page }
        requires there { fin.get self.old.tables.files (file_page file.0 page) ≡ Some home }
        requires alone { names_at (beside_of self.old.tables) home.0 ≡ 1 }
        ensures { SetsFiled S.means self.old.store self.new.store (beside_of self.old.tables) (beside_of self.new.tables) (file_page file.0 page) None }
    {
        self.store.free(home);
        self.tables.free_file(file, page, home);
    }

    // A file names no page any more at one of its pages. A page that loses its last name is given up.
    fn unfile(&mut self, file: FileNo, page: u16)
        requires { IsFilePage file page }
        ensures { SetsFiled S.means self.old.store self.new.store (beside_of self.old.tables) (beside_of self.new.tables) (file_page file.0 page) None }
    {
        let Some(home) = self.tables.filed(file, page) else {
            return;
        };
        if self.tables.names_of(home) == 1 {
            self.free_filed(file, page, home);
            return;
        }
        self.tables.leave_file(file, page, home);
    }

    // The page of a home has a share.
    fn share_page(&mut self, home: Home)
        requires { is_some (name_at self.old.tables.tables.names.items home.0) ≡ true }
        ensures store { self.new.store ≡ self.old.store }
        ensures shared { SharesPage (beside_of self.old.tables) (beside_of self.new.tables) home }
    {
        match self.tables.share_of(home) {
            Some(_) => (),
            None => {
                let _share = self.tables.give_share(home);
            }
        }
    }

    // A file names a page, where it named none.
    fn join_file(&mut self, file: FileNo, page: u16, home: Home)
        requires page { IsFilePage file page }
        requires none { fin.get self.old.tables.files (file_page file.0 page) ≡ None }
        requires named { is_some (name_at self.old.tables.tables.names.items home.0) ≡ true }
        ensures { SetsFiled S.means self.old.store self.new.store (beside_of self.old.tables) (beside_of self.new.tables) (file_page file.0 page) (Some home) }
    {
        self.share_page(home);
        self.tables.join_file(file, page, home);
    }

    // Whether a file names the page of a home at one of its pages.
    fn names_page(&self, file: FileNo, page: u16, home: Home) -> bool
        requires { IsFilePage file page }
        ensures yes { result ≡ true → fin.get self.now.tables.files (file_page file.0 page) ≡ Some home }
        ensures no { result ≡ false → fin.get self.now.tables.files (file_page file.0 page) ≡ Some home → ⊥ }
    {
        match self.tables.filed(file, page) {
            Some(old) => old.0 == home.0,
            None => false,
        }
    }

    // A file names a page in the place of what it named.
    fn refile(&mut self, file: FileNo, page: u16, home: Home)
        requires page { IsFilePage file page }
        requires named { is_some (name_at self.old.tables.tables.names.items home.0) ≡ true }
        ensures { SetsFiled S.means self.old.store self.new.store (beside_of self.old.tables) (beside_of self.new.tables) (file_page file.0 page) (Some home) }
    {
        if self.names_page(file, page, home) {
            return;
        }
        self.unfile(file, page);
        self.join_file(file, page, home);
    }

    /// Drops all pages of a file. Those that lose their last name are given up.
    pub fn drop_file(&mut self, file: FileNo)
        requires { file.0 < MOST_FILES }
        ensures { EmptiesFiled S.means self.old.store self.new.store (beside_of self.old.tables) (beside_of self.new.tables) file.0 FILE_PAGES }
    {
        for page in 0..FILE_PAGES as u16 {
            self.unfile(file, page);
        }
    }
}

impl<S: Store> SlotPaged<S> {
    ghost use Rattle.std.specs.Prelude.{◌≡◌, IfSome};
    ghost use Rattle.machine_names.specs.declared.names.Kind.TheVariants.{Read};
    ghost use Rattle.machine_names.specs.Bounds.{IsFilePage};
    ghost use Rattle.machine_names.specs.Orders.{file_page};
    ghost use Rattle.page_contracts.specs.declared.answers.Touch.TheVariants.{Ready};
    ghost use Rattle.page_contracts.specs.Pages.{IsPlace};
    ghost use Rattle.paged_tables.specs.FiledSteps.{SetsFilePage};
    ghost use Rattle.paged_tables.specs.PagedTables.{beside_of};
    ghost use Rattle.slot_paged.specs.Slots.{slots};

    /// Sets a page of a file: to the page at the end of a slot's chain, which a touch to read finds Ready, or to
    /// none. A page that loses its last name is dropped.
    pub fn set_file(&mut self, file: FileNo, page: u16, from: Option<Slot>)
        requires page { IsFilePage file page }
        requires place { IfSome from (λ s. IsPlace ((slots S.means).lives self.old) (Place.Fork s)) }
        requires ready { IfSome from (λ s. (slots S.means).touched self.old (Place.Fork s) Read ≡ Ready) }
        ensures { SetsFilePage S.means self.old.store self.new.store (beside_of self.old.tables) (beside_of self.new.tables) (file_page file.0 page) from }
    {
        let Some(slot) = from else {
            self.unfile(file, page);
            return;
        };
        let PageHome::At(home) = self.home_of(Place::Fork(slot)) else {
            unreachable!()
        };
        self.refile(file, page, home);
    }
}
