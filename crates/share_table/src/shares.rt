// The pages that have more than one name.
ghost use Rattle.std.specs.Prelude.{◌≡◌, ◌<◌, ◌≤◌, None, Some, IsSome, IfOk, is_some};
ghost use Rattle.std.specs.Option.{option_map};
ghost use Rattle.std.specs.FinMap as map;
ghost use Rattle.share_table.specs.Shares.{AreCounted, joined, last_home, left, one_fewer, one_more, page_at, with_page};

use outside::Memory;
use page_homes::{Home, MOST_HOMES};
use slab::Slab;
use std::alloc::Global;
use std::marker::Model;

/// The numbers of shares are below this: each share has a page of its own.
pub const MOST_SHARES: u32 = MOST_HOMES;

// A count that has come to this stays there: how many names there are isn't known any more.
const LAST_COUNT: u32 = u32::MAX;

/// The number of a page that is shared.
#[derive(Clone, Copy, PartialEq, Eq)]
pub struct Share(pub u32);

/// A page that is shared: its home, and how many map entries and pages of files name it.
#[derive(Clone, Copy, PartialEq, Eq)]
pub struct SharedPage {
    pub home: Home,
    pub count: u32,
}

/// The pages that are shared, by the numbers of their shares. A number that has become free is used
/// again.
#[derive(Drop)]
pub struct ShareTable {
    pages: Slab<SharedPage>,
    room: u32,
}

impl Model for ShareTable {
    ghost use Rattle.share_table.specs.Shares.{IsRoomy, Shares, shares_code, shares_of};

    ghost Value = { Shares };

    ghost coded = { shares_code };

    ghost view = { λ t. shares_of t.room t.pages };

    ghost invariant = { λ t. IsRoomy t.room t.pages };
}

// A count with one more.
fn one_more(count: u32) -> u32
    ensures { result ≡ one_more count }
{
    if count == LAST_COUNT {
        count
    } else {
        count + 1
    }
}

// A count with one fewer.
fn one_fewer(count: u32) -> u32
    requires { 1 ≤ count }
    ensures { result ≡ one_fewer count }
{
    if count == LAST_COUNT {
        count
    } else {
        count - 1
    }
}

impl ShareTable {
    /// No page is shared, and so many may be. Memory where there is none for just so many.
    pub fn boot(alloc: Global, pages: u32) -> Result<Self, Memory>
        ensures { IfOk result (λ t. t ≡ record { room = pages; pages = map.empty }) }
    {
        let slab = Slab::with_capacity(alloc, pages as usize)?;
        if slab.capacity() != pages as usize {
            return Err(Memory);
        }
        Ok(ShareTable {
            pages: slab,
            room: pages,
        })
    }

    /// How many pages may be shared. The numbers of all shares are below it.
    pub fn room(&self) -> u32
        ensures room { result ≡ self.now.room }
        ensures counted { AreCounted self.now }
    {
        self.room
    }

    /// How many pages are shared.
    pub fn len(&self) -> u32
        ensures { result ≡ map.len self.now.pages }
    {
        self.pages.len() as u32
    }

    /// Whether a share is there.
    pub fn has(&self, s: Share) -> bool
        ensures { result ≡ is_some (page_at self.now s.0) }
    {
        self.pages.get(s.0 as usize).is_some()
    }

    // The page of a share.
    fn page(&self, s: Share) -> SharedPage
        requires { IsSome (page_at self.now s.0) }
        ensures is { page_at self.now s.0 ≡ Some result }
        ensures named { 1 ≤ result.count }
    {
        match self.pages.get(s.0 as usize) {
            Some(page) => *page,
            None => unreachable!(),
        }
    }

    /// The home of a shared page.
    pub fn home_of(&self, s: Share) -> Home
        requires { IsSome (page_at self.now s.0) }
        ensures { option_map (λ p. p.home) (page_at self.now s.0) ≡ Some result }
    {
        self.page(s).home
    }

    /// How many names a shared page has, one at least. At 2^32 - 1 a count stays there.
    pub fn count_of(&self, s: Share) -> u32
        requires { IsSome (page_at self.now s.0) }
        ensures value { option_map (λ p. p.count) (page_at self.now s.0) ≡ Some result }
        ensures named { 1 ≤ result }
    {
        self.page(s).count
    }

    /// A new share of a page, which counts one name. There is room for it.
    pub fn share(&mut self, home: Home) -> Share
        requires { map.len self.old.pages < self.old.room }
        ensures new { page_at self.old result.0 ≡ None }
        ensures below { result.0 < self.old.room }
        ensures shared { self.new ≡ with_page self.old result.0 (record { home = home; count = 1 }) }
    {
        Share(self.pages.insert_reserved(SharedPage { home, count: 1 }) as u32)
    }

    // Gives the page of a share another count.
    fn set_count(&mut self, s: Share, page: SharedPage, count: u32)
        requires is { page_at self.old s.0 ≡ Some page }
        requires named { 1 ≤ count }
        ensures { self.new ≡ with_page self.old s.0 (record page { count = count }) }
    {
        match self.pages.get_mut(s.0 as usize) {
            Some(page) => page.count = count,
            None => unreachable!(),
        }
    }

    /// One name more for a shared page.
    pub fn join(&mut self, s: Share)
        requires { IsSome (page_at self.old s.0) }
        ensures { self.new ≡ joined self.old s.0 }
    {
        let page = self.page(s);
        self.set_count(s, page, one_more(page.count));
    }

    /// One name fewer for a shared page. Some exactly where it was the last one: the share has
    /// gone, and the page's home is answered.
    pub fn leave(&mut self, s: Share) -> Option<Home>
        requires { IsSome (page_at self.old s.0) }
        ensures last { result ≡ last_home (page_at self.old s.0) }
        ensures left { self.new ≡ left self.old s.0 }
    {
        let page = self.page(s);
        if page.count == 1 {
            self.pages.remove(s.0 as usize);
            return Some(page.home);
        }
        self.set_count(s, page, one_fewer(page.count));
        None
    }
}
