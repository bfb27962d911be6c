// Where the words of pages stand: homes on the drum, and frames of core.

use outside::MOST_DRUM_PAGES;

/// Homes are numbered below this: each is a page of the drum.
pub const MOST_HOMES: u32 = MOST_DRUM_PAGES;

/// The home of a page: where it stands on the drum.
#[derive(Clone, Copy, PartialEq, Eq)]
pub struct Home(pub u32);

/// A frame of core.
#[derive(Clone, Copy, PartialEq, Eq)]
pub struct FrameId(pub u32);
