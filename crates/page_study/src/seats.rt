// Seats for pages.
ghost use Rattle.std.specs.Prelude.{◌≡◌, ◌<◌, ◌≤◌, ◌^◌};
ghost use Rattle.page_study.specs.Memories.{is_page};
ghost use Rattle.page_study.specs.Seats.{bucket};

use machine_names::PageName;

/// A page, and the number of the last reference to it.
#[derive(Clone, Copy)]
pub struct LastUse {
    pub page: PageName,
    pub number: u64,
}

/// Where a page's last reference has its place.
#[derive(Clone, Copy)]
pub struct Seat {
    pub last: LastUse,
    // The next seat whose page is of the same bucket; the end where there is none.
    pub behind: usize,
}

/// Where a page was found: behind so many others, with the number of the last reference to it.
#[derive(Clone, Copy)]
pub struct Found {
    pub distance: u64,
    pub number: u64,
}

// Pages of one terminal that are made one after another are of different buckets.
const APART: usize = 1031;

/// Whether two names are of one page.
pub fn is_same(one: PageName, other: PageName) -> bool
    ensures { result ≡ is_page one other }
{
    one.tty.0 == other.tty.0 && one.serial == other.serial
}

/// Which of so many buckets a page is of.
pub fn bucket_of(page: PageName, count: usize) -> usize
    requires some { 1 ≤ count }
    requires few { count < 2 ^ 32 }
    ensures within { result < count }
    ensures value { result ≡ bucket count page }
{
    let serial = (page.serial % count as u64) as usize;
    (serial + APART * page.tty.0 as usize) % count
}
