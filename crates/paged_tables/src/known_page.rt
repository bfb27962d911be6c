// What is known of a page that a chain leads to.
ghost use Rattle.std.specs.Prelude.{◌≡◌};
ghost use Rattle.paged_tables.specs.KnownPages.{known_along, known_page, lets_change, lets_known};

use machine_names::Kind;
use page_homes::Home;
use pager_walk::{Walked, Way};

/// The home of the page at the end of a chain, and whether the chain lets the page be read, written and
/// executed as it is, with no copy.
#[derive(Clone, Copy, PartialEq, Eq)]
pub struct KnownPage {
    /// The home of the page.
    pub home: Home,
    /// Whether it may be read.
    pub reads: bool,
    /// Whether it may be written, and no entry of the chain has the copy mark.
    pub writes: bool,
    /// Whether it may be executed.
    pub executes: bool,
}

// What is known at the end of a chain.
fn known_page(way: Way, home: Home) -> KnownPage
    ensures { result ≡ known_page way home }
{
    KnownPage {
        home,
        reads: way.reads,
        writes: way.writes && way.copy.is_none(),
        executes: way.executes,
    }
}

impl KnownPage {
    /// What is known once a walk has come to its end. None exactly where it names no page, or doesn't end.
    pub fn along(walked: Walked) -> Option<KnownPage>
        ensures { result ≡ known_along walked }
    {
        match walked {
            Walked::Along(way) => match way.home {
                Some(home) => Some(known_page(way, home)),
                None => None,
            },
            Walked::Absent(_) => None,
            Walked::NoChain => None,
        }
    }

    /// Whether the page may be referenced so as it is.
    pub fn lets(self, kind: Kind) -> bool
        ensures { result ≡ lets_known kind self }
    {
        match kind {
            Kind::Read => self.reads,
            Kind::Write => self.writes,
            Kind::Execute => self.executes,
        }
    }

    /// Whether it may be read and written so.
    pub fn lets_change(self) -> bool
        ensures { result ≡ lets_change self }
    {
        self.reads && self.writes
    }
}
