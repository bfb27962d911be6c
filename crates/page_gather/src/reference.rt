// A reference of a unit to a page, and what it comes to that it is added to others.
use machine_names::{ForkName, Kind, Slot, Tty};
use page_contracts::Need;

/// A reference to a page of a fork's space.
#[derive(Clone, Copy, PartialEq, Eq)]
pub struct PageReference {
    pub slot: Slot,
    pub kind: Kind,
}

impl Default for PageReference {
    /// A read of page 0.
    fn default() -> PageReference {
        PageReference {
            slot: NO_SLOT,
            kind: Kind::Read,
        }
    }
}

/// What stands in a cell that no slot was put into.
pub const NO_SLOT: Slot = Slot {
    fork: ForkName {
        tty: Tty(0),
        serial: 0,
    },
    page: 0,
};

/// What it comes to that a reference is added.
#[derive(Clone, Copy)]
pub enum Added {
    Went,
    /// A map or the page is in no frame; or the pages to be made so far find no frame.
    Need(Need),
    /// The map forbids a reference of this kind.
    Denied(Kind),
    /// A page would have to be made, and the drum is full.
    Full,
}
