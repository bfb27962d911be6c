// What is kept beside a store whose pages are maps and pages of forks and files.
ghost use Rattle.std.specs.Prelude.{◌≡◌, ◌+◌, ◌<◌, ◌≤◌, ◌^◌, None, IfOk, map, replicate, slice_set};
ghost use Rattle.machine_names.specs.Bounds.{IsOwner};
ghost use Rattle.flat_tables.specs.Serials.{serial_of, with_next};
ghost use Rattle.flat_tables.specs.TableSteps.{next_name};
ghost use Rattle.std.specs.FinMap as fin;
ghost use Rattle.machine_names.specs.Bounds.{IsFilePage};
ghost use Rattle.machine_names.specs.Orders.{file_page};

use flat_tables::PageSerials;
use machine_names::{Access, FileNo, PageName, Tty};
use outside::Memory;
use page_files::Files;
use page_homes::Home;
use pager_walk::{Looked, MapTables, PagedEntry};
use share_table::{Pointer, Share};
use std::alloc::{AllocError, Global};

/// What is kept in memory of maps and pages, with how many of them there are.
#[derive(Drop)]
pub struct PagedTables {
    /// The maps of forks, the names of pages, and the shares.
    pub tables: MapTables,
    /// By home, the share of its page, where it has one.
    pub shared: Vec<Option<Share>>,
    /// By home, how many pages of files name its page.
    pub filed: Vec<u32>,
    /// The homes of the pages of files.
    pub files: Files<Home>,
    /// The next page serial of each owner.
    pub serials: PageSerials,
    /// How many pages there are.
    pub taken: u32,
    /// How many forks live.
    pub living: u32,
    /// How many pages and forks there may be.
    pub limit: u32,
}

// For so many homes that none has a share.
fn no_shares(alloc: Global, homes: u32) -> Result<Vec<Option<Share>>, AllocError>
    ensures { IfOk result (λ v. v.items ≡ replicate homes None) }
{
    let mut shared = Vec::with_capacity(alloc, homes as usize)?;
    for _home in 0..homes {
        shared.push(None)?;
    }
    Ok(shared)
}

// For so many homes that no file names their pages.
fn none_filed(alloc: Global, homes: u32) -> Result<Vec<u32>, AllocError>
    ensures { IfOk result (λ v. v.items ≡ replicate homes 0) }
{
    vec![in alloc; 0; homes as usize]
}

impl PagedTables {
    ghost use Rattle.std.specs.Prelude.{IsSome, List, Some, length};
    ghost use Rattle.page_contracts.specs.DrumWords.{DrumWords};
    ghost use Rattle.page_contracts.specs.Stores.{FitsHomes, HomePlace, is_taken};
    ghost use Rattle.plain_pages.specs.PlainPages.{first_serials};
    ghost use Rattle.flat_tables.specs.SlotTables.{share_of};
    ghost use Rattle.pager_walk.specs.MapPages.{no_map};
    ghost use Rattle.pager_walk.specs.PagedMaps.{AreRooted, FitsMaps, tables_of};
    ghost use Rattle.fork_maps.specs.declared.map_numbers.TheConstants.{MOST_MAPS};
    ghost use Rattle.paged_tables.specs.LeftShares.{keeps_name, left_by_one, left_of, left_once};
    ghost use Rattle.paged_tables.specs.MadePages.{page_renamed, pointer_to, with_shares};
    ghost use Rattle.paged_tables.specs.PagedTables.{beside_of};
    ghost use Rattle.paged_tables.specs.SetEntries.{JoinsPage, SharesPage, alone_home, page_freed, pointer_of};
    ghost use Rattle.share_table.specs.declared.shares.Share.{Share as AShare};
    ghost use Rattle.share_table.specs.Shares.{page_at};
    ghost use Rattle.paged_tables.specs.PagedTouches.{has_one_name, names_at, roomy};
    ghost use Rattle.paged_tables.specs.NameCounts.{share_at};

    /// No fork and no page, and room for so many of both. Err: no memory.
    pub fn boot(alloc: Global, limit: u32) -> Result<PagedTables, Memory>
        ensures maps { IfOk result (λ t. t.tables.maps.pages.items ≡ replicate MOST_MAPS no_map) }
        ensures names { IfOk result (λ t. t.tables.names.items ≡ replicate limit None) }
        ensures shared { IfOk result (λ t. t.shared.items ≡ replicate limit None) }
        ensures filed { IfOk result (λ t. t.filed.items ≡ replicate limit 0) }
        ensures shares { IfOk result (λ t. t.tables.shares ≡ record { room = limit; pages = fin.empty }) }
        ensures files { IfOk result (λ t. t.files ≡ fin.empty) }
        ensures terminals { IfOk result (λ t. t.serials.terminals ≡ first_serials) }
        ensures console { IfOk result (λ t. t.serials.console ≡ 1) }
        ensures numbers { IfOk result (λ t. (t.taken ≡ 0) × (t.living ≡ 0) × (t.limit ≡ limit)) }
        ensures rooted { IfOk result (λ t. (places : List HomePlace) → length places ≤ limit → AreRooted (tables_of t.tables) (map is_taken places)) }
        ensures fits { IfOk result (λ t. (places : List HomePlace) (d : DrumWords) → FitsHomes places d → FitsMaps (tables_of t.tables) places d) }
    {
        let tables = MapTables::boot(alloc, limit)?;
        let shared = no_shares(alloc, limit)?;
        let filed = none_filed(alloc, limit)?;
        let files = Files::boot(alloc)?;
        Ok(PagedTables {
            tables,
            shared,
            filed,
            files,
            serials: PageSerials::first(),
            taken: 0,
            living: 0,
            limit,
        })
    }

    /// The home of the page that a file names. None exactly where the file has no such page.
    pub fn filed(&self, file: FileNo, page: u16) -> Option<Home>
        requires { IsFilePage file page }
        ensures { result ≡ fin.get self.now.files (file_page file.0 page) }
    {
        self.files.page(file, page)
    }

    /// The share of the page of a home. None exactly where it has none.
    pub fn share_of(&self, home: Home) -> Option<Share>
        ensures { result ≡ share_at self.now.shared.items home.0 }
    {
        if home.0 as usize >= self.shared.len() {
            return None;
        }
        self.shared[home.0 as usize]
    }

    /// How many map entries and pages of files name the page of a home.
    pub fn names_of(&self, home: Home) -> u32
        ensures { result ≡ names_at (beside_of self.now) home.0 }
    {
        if !self.tables.has_name(home) {
            return 0;
        }
        let Some(share) = self.share_of(home) else {
            return 1;
        };
        if !self.tables.shares.has(share) {
            return 0;
        }
        self.tables.shares.count_of(share)
    }

    // How many pages of files name the page of a home.
    fn filed_names(&self, home: Home) -> u32
        ensures { result ≡ share_of self.now.filed.items home.0 }
    {
        if home.0 as usize >= self.filed.len() {
            return 0;
        }
        self.filed[home.0 as usize]
    }

    /// Whether the page of a home has one name, which is no file's.
    pub fn has_one_name(&self, home: Home) -> bool
        ensures { result ≡ has_one_name (beside_of self.now) home.0 }
    {
        self.names_of(home) == 1 && self.filed_names(home) == 0
    }

    /// The pointer that names the page of a home: by its share, where it has one.
    pub fn pointer(&self, home: Home, access: Access) -> Pointer
        ensures { result ≡ pointer_to (beside_of self.now) home access }
    {
        match self.share_of(home) {
            Some(share) => Pointer::Shared(share, access),
            None => Pointer::Private(home, access),
        }
    }

    /// The pointer of an entry.
    pub fn pointer_of(&self, entry: PagedEntry) -> Pointer
        ensures { result ≡ pointer_of (beside_of self.now) entry }
    {
        match entry {
            PagedEntry::Empty => Pointer::Empty,
            PagedEntry::Page(home, access) => self.pointer(home, access),
            PagedEntry::Follows(serial, page, access) => Pointer::Indirect(serial, page, access),
        }
    }

    // Whether the page of a home keeps another name when an entry leaves it; what files name of it stays.
    fn keeps_name(&self, home: Home) -> bool
        ensures { result ≡ keeps_name (beside_of self.now) home.0 }
    {
        let names = self.names_of(home);
        1 < names && self.filed_names(home) < names
    }

    // The page of a share is named once less.
    pub(crate) fn leave_share(&mut self, share: Option<Share>)
        ensures { beside_of self.new ≡ with_shares (beside_of self.old) (left_by_one self.old.tables.shares share) }
    {
        let Some(share) = share else {
            return;
        };
        if self.tables.shares.has(share) {
            let _last = self.tables.shares.leave(share);
        }
    }

    // The page of a home is named once less, where it keeps another name.
    #[tactic(auto, unfolding(crate::specs::LeftShares::left_once))]
    fn leave(&mut self, home: Home)
        ensures { beside_of self.new ≡ with_shares (beside_of self.old) (left_once (beside_of self.old) home.0) }
    {
        if self.keeps_name(home) {
            let share = self.share_of(home);
            self.leave_share(share);
        }
    }

    /// The page that an entry names, if it names one, is named once less, where it keeps another name.
    pub fn leave_entry(&mut self, seen: Looked)
        ensures { beside_of self.new ≡ with_shares (beside_of self.old) (left_of (beside_of self.old) seen) }
    {
        match seen {
            Looked::Is(PagedEntry::Page(home, _)) => self.leave(home),
            Looked::Is(PagedEntry::Empty) => (),
            Looked::Is(PagedEntry::Follows(_, _, _)) => (),
            Looked::Absent(_) => (),
            Looked::Missing => (),
            Looked::Refused => (),
        }
    }

    /// The home of the page that an entry alone names, if there is one.
    pub fn alone_page(&self, seen: Looked) -> Option<Home>
        ensures { result ≡ alone_home (beside_of self.now) seen }
    {
        match seen {
            Looked::Is(PagedEntry::Page(home, _)) => {
                if self.has_one_name(home) {
                    Some(home)
                } else {
                    None
                }
            }
            Looked::Is(PagedEntry::Empty) => None,
            Looked::Is(PagedEntry::Follows(_, _, _)) => None,
            Looked::Absent(_) => None,
            Looked::Missing => None,
            Looked::Refused => None,
        }
    }

    /// Whether so many pages more may live.
    pub fn has_room(&self, pages: u32) -> bool
        requires { self.now.taken + self.now.living ≤ self.now.limit }
        ensures { result ≡ roomy (beside_of self.now) pages }
    {
        pages <= self.limit - self.taken - self.living
    }

    /// Takes the name of an owner's next page.
    pub fn take_name(&mut self, owner: Tty) -> PageName
        requires owner { IsOwner owner }
        requires serial { serial_of self.old.serials owner < 2 ^ 63 }
        ensures name { result ≡ next_name self.old.serials owner }
        ensures serials { self.new ≡ record self.old { serials = with_next self.old.serials owner } }
    {
        let serial = self.serials.take(owner);
        PageName { tty: owner, serial }
    }

    /// The page of a home has the name of an owner's next page.
    pub fn rename(&mut self, home: Home, owner: Tty)
        requires home { home.0 < length self.old.tables.names.items }
        requires owner { IsOwner owner }
        requires serial { serial_of self.old.serials owner < 2 ^ 63 }
        ensures { beside_of self.new ≡ page_renamed (beside_of self.old) home owner }
    {
        let name = self.take_name(owner);
        self.tables.names[home.0 as usize] = Some(name);
    }

    // The share of the page of a home, a new one where it had none.
    fn share_page(&mut self, home: Home) -> Share
        requires home { home.0 < length self.old.shared.items }
        requires room { share_at self.old.shared.items home.0 ≡ None → fin.len self.old.tables.shares.pages < self.old.tables.shares.room }
        ensures { SharesPage (beside_of self.old) (beside_of self.new) home result }
    {
        if let Some(share) = self.share_of(home) {
            return share;
        }
        let share = self.tables.shares.share(home);
        self.shared[home.0 as usize] = Some(share);
        share
    }

    /// The page of a home is named once more.
    pub fn join(&mut self, home: Home)
        requires home { home.0 < length self.old.shared.items }
        requires room { share_at self.old.shared.items home.0 ≡ None → fin.len self.old.tables.shares.pages < self.old.tables.shares.room }
        requires there { (s : AShare) → share_at self.old.shared.items home.0 ≡ Some s → IsSome (page_at self.old.tables.shares s.0) }
        ensures { JoinsPage (beside_of self.old) (beside_of self.new) home }
    {
        let share = self.share_page(home);
        self.tables.shares.join(share);
    }

    /// The page of a home goes, with its share, if it has one.
    pub fn drop_page(&mut self, home: Home)
        requires home { home.0 < length self.old.tables.names.items }
        requires taken { 1 ≤ self.old.taken }
        ensures { beside_of self.new ≡ page_freed (beside_of self.old) home }
    {
        let share = self.share_of(home);
        self.leave_share(share);
        self.tables.names[home.0 as usize] = None;
        self.unshare(home);
        self.taken -= 1;
    }

    /// A file names the page of a home, of which no other page of a file is.
    pub fn file(&mut self, file: FileNo, page: u16, home: Home)
        requires page { IsFilePage file page }
        requires home { home.0 < length self.old.filed.items }
        ensures { beside_of self.new ≡ record (beside_of self.old) { filed = slice_set self.old.filed.items home.0 1; files = fin.insert self.old.files (file_page file.0 page) home } }
    {
        self.filed[home.0 as usize] = 1;
        let _old = self.files.put_page(file, page, home);
    }

    /// The page of a home has no share.
    pub fn unshare(&mut self, home: Home)
        ensures { beside_of self.new ≡ record (beside_of self.old) { shared = slice_set self.old.shared.items home.0 None } }
    {
        if (home.0 as usize) < self.shared.len() {
            self.shared[home.0 as usize] = None;
        }
    }
}
