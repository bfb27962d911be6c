// Entries of forks' maps as they stand in memory.
ghost use Rattle.std.specs.Prelude.{◌≡◌};
ghost use Rattle.plain_pages.specs.Maps.{narrowed};
ghost use Rattle.flat_tables.specs.SlotSteps.{narrow_held};

use machine_names::Access;
use page_homes::Home;

/// An entry of a fork's map: nothing; the page of a home; or an entry of a fork of the same job, that
/// it follows.
#[derive(Clone, Copy, PartialEq, Eq)]
pub enum HeldEntry {
    Empty,
    Page(Home, Access),
    Follows(Link, Access),
}

/// The entry that another follows: the serial of its fork, and its page. The number is that of the map
/// which the fork had when the link was made; where another fork has it now, the map is looked for.
#[derive(Clone, Copy, PartialEq, Eq)]
pub struct Link {
    pub serial: u32,
    pub page: u16,
    pub map: u16,
}

/// Where an entry stands: the number of the map, and the page.
#[derive(Clone, Copy, PartialEq, Eq)]
pub struct EntryAt {
    pub map: u32,
    pub page: u16,
}

// What was permitted and is given too; the copy mark where it was or is given.
fn narrow(old: Access, given: Access) -> Access
    ensures { result ≡ narrowed old given }
{
    Access {
        r: old.r && given.r,
        w: old.w && given.w,
        x: old.x && given.x,
        c: old.c || given.c,
    }
}

impl HeldEntry {
    /// The entry, of which no more is permitted than is given.
    pub fn narrowed(self, given: Access) -> HeldEntry
        ensures { result ≡ narrow_held given self }
    {
        match self {
            HeldEntry::Empty => HeldEntry::Empty,
            HeldEntry::Page(home, access) => HeldEntry::Page(home, narrow(access, given)),
            HeldEntry::Follows(link, access) => HeldEntry::Follows(link, narrow(access, given)),
        }
    }
}
