// An entry that a reference will change.
use crate::reference::NO_SLOT;
use machine_names::{Access, PageName, Slot};

/// An entry that will name a new page.
#[derive(Clone, Copy, PartialEq, Eq)]
pub struct Change {
    pub slot: Slot,
    /// The access that the entry will have.
    pub access: Access,
    /// The slot of the page whose words the new page will have, as the pages are before the unit. None: zeros.
    pub source: Option<Slot>,
    /// The page that the entry names till then.
    pub old: Option<PageName>,
}

impl Default for Change {
    /// A zero page, under page 0.
    fn default() -> Change {
        Change {
            slot: NO_SLOT,
            access: FULL_ACCESS,
            source: None,
            old: None,
        }
    }
}

/// Every right, and no copy mark: the access of a zero page, and what an empty entry permits.
pub const FULL_ACCESS: Access = Access {
    r: true,
    w: true,
    x: true,
    c: false,
};
