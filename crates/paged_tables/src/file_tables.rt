// The pages of files in the tables beside a store.
ghost use Rattle.std.specs.Prelude.{◌≡◌, ◌<◌, ◌≤◌, ◌^◌, None, length};
ghost use Rattle.std.specs.FinMap as fin;
ghost use Rattle.machine_names.specs.Bounds.{IsFilePage};
ghost use Rattle.machine_names.specs.Orders.{file_page};
ghost use Rattle.share_table.specs.Shares.{page_at};
ghost use Rattle.flat_tables.specs.SlotTables.{share_of};
ghost use Rattle.paged_tables.specs.FiledTables.{filed_freed, filed_joined, filed_left, joined_by_one, with_share};
ghost use Rattle.paged_tables.specs.MadePages.{with_shares};
ghost use Rattle.paged_tables.specs.PagedTables.{beside_of};

use crate::paged_tables::PagedTables;
use machine_names::FileNo;
use page_homes::Home;
use share_table::Share;

impl PagedTables {
    /// A file names the page of a home no more, which keeps another name.
    pub fn leave_file(&mut self, file: FileNo, page: u16, home: Home)
        requires page { IsFilePage file page }
        requires home { home.0 < length self.old.filed.items }
        requires some { 1 ≤ share_of self.old.filed.items home.0 }
        ensures { beside_of self.new ≡ filed_left (beside_of self.old) (file_page file.0 page) home }
    {
        let share = self.share_of(home);
        self.leave_share(share);
        self.filed[home.0 as usize] -= 1;
        let _old = self.files.drop_page(file, page);
    }

    /// A file names the page of a home no more, which has no other name, and no name any more.
    pub fn free_file(&mut self, file: FileNo, page: u16, home: Home)
        requires page { IsFilePage file page }
        requires name { home.0 < length self.old.tables.names.items }
        requires home { home.0 < length self.old.filed.items }
        requires taken { 1 ≤ self.old.taken }
        ensures { beside_of self.new ≡ filed_freed (beside_of self.old) (file_page file.0 page) home }
    {
        let share = self.share_of(home);
        self.leave_share(share);
        self.tables.names[home.0 as usize] = None;
        self.unshare(home);
        self.filed[home.0 as usize] = 0;
        let _old = self.files.drop_page(file, page);
        self.taken -= 1;
    }

    /// The page of a home gets a share, which counts its one name.
    pub fn give_share(&mut self, home: Home) -> Share
        requires home { home.0 < length self.old.shared.items }
        requires room { fin.len self.old.tables.shares.pages < self.old.tables.shares.room }
        ensures fresh { page_at self.old.tables.shares result.0 ≡ None }
        ensures below { result.0 < self.old.tables.shares.room }
        ensures given { beside_of self.new ≡ with_share (beside_of self.old) home result }
    {
        let share = self.tables.shares.share(home);
        self.shared[home.0 as usize] = Some(share);
        share
    }

    // One name more for the page of a share, where there is one.
    fn join_share(&mut self, share: Option<Share>)
        ensures { beside_of self.new ≡ with_shares (beside_of self.old) (joined_by_one self.old.tables.shares share) }
    {
        if let Some(share) = share {
            if self.tables.shares.has(share) {
                self.tables.shares.join(share);
            }
        }
    }

    /// A file names the page of a home, which has a share, where it named none.
    pub fn join_file(&mut self, file: FileNo, page: u16, home: Home)
        requires page { IsFilePage file page }
        requires home { home.0 < length self.old.filed.items }
        requires few { share_of self.old.filed.items home.0 < 2 ^ 31 }
        ensures { beside_of self.new ≡ filed_joined (beside_of self.old) (file_page file.0 page) home }
    {
        let share = self.share_of(home);
        self.join_share(share);
        self.filed[home.0 as usize] += 1;
        let _old = self.files.put_page(file, page, home);
    }
}
