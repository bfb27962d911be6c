// The page from which a burst fetches.
ghost use Rattle.std.specs.Prelude.{◌<◌, ◌≤◌, ◌^◌};
ghost use Rattle.outside.specs.declared.TheConstants.{PAGE_WORDS};

use page_contracts::Found;

/// A page that was found and can be executed: its addresses that are no accumulators, so many from one
/// on, 512 at most.
#[derive(Clone, Copy)]
pub struct FetchPage {
    pub from: u32,
    pub length: u32,
    pub found: Found,
    ghost address: { from < 2 ^ 18 },
    ghost few: { length ≤ PAGE_WORDS },
}

impl FetchPage {
    /// No page was found.
    pub const NONE: FetchPage = FetchPage {
        from: 0,
        length: 0,
        found: Found(0),
    };
}
