// The sum of access along a chain of entries of maps.
ghost use Rattle.std.specs.Prelude.{◌≡◌};
ghost use Rattle.fork_maps.specs.ChainWalks.{allows_along, copy_for, walk_behind, walk_end};

use machine_names::{Access, Kind};
use page_homes::Home;

/// How many entries a chain has at most.
pub const CHAIN: u32 = 4;

/// Every right, and no copy mark.
pub const FULL_ACCESS: Access = Access {
    r: true,
    w: true,
    x: true,
    c: false,
};

/// What a walk along a chain finds. Where an entry stands is told by a slot, say, or by a number.
#[derive(Clone, Copy, PartialEq, Eq)]
pub struct Walk<At> {
    /// Where the last entry stands, and the home of the page that it names, if it names one.
    pub end: At,
    pub home: Option<Home>,
    /// Whether the chain permits to read, to write and to execute.
    pub reads: bool,
    pub writes: bool,
    pub executes: bool,
    /// Where the first entry stands that has the copy mark, if one has.
    pub copy: Option<At>,
}

impl<At: Copy> Walk<At> {
    /// Whether the chain permits a reference.
    pub fn permits(self, kind: Kind) -> bool
        ensures { result ≡ allows_along kind self }
    {
        match kind {
            Kind::Read => self.reads,
            Kind::Write => self.writes,
            Kind::Execute => self.executes,
        }
    }

    /// Where a reference makes a copy, if it makes one.
    pub fn copy_for(self, kind: Kind) -> Option<At>
        ensures { result ≡ copy_for kind self }
    {
        match kind {
            Kind::Read => None,
            Kind::Write => self.copy,
            Kind::Execute => None,
        }
    }
}

/// The walk that ends at an entry.
pub fn ends<At: Copy>(at: At, access: Access, home: Option<Home>) -> Walk<At>
    ensures { result ≡ walk_end at access home }
{
    let copy = if access.c { Some(at) } else { None };
    Walk {
        end: at,
        home,
        reads: access.r,
        writes: access.c || access.w,
        executes: access.x,
        copy,
    }
}

/// The walk from an entry on, whose rest is known.
pub fn goes_on<At: Copy>(at: At, access: Access, rest: Walk<At>) -> Walk<At>
    ensures { result ≡ walk_behind at access rest }
{
    if access.c {
        return Walk {
            reads: access.r && rest.reads,
            writes: rest.reads,
            executes: access.x && rest.executes,
            copy: Some(at),
            ..rest
        };
    }
    Walk {
        reads: access.r && rest.reads,
        writes: access.w && rest.writes,
        executes: access.x && rest.executes,
        ..rest
    }
}
