// What a reference makes.
ghost use Rattle.std.specs.Prelude.{◌≡◌, ◌≤◌, ◌+◌, length};
ghost use Rattle.page_gather.specs.Gathering.{changes_of, changes_with, homes_of};

use crate::change::Change;
use arrayvec::ArrayVec;

/// How many entries a gather changes at most: two for each of its references.
pub const MOST_CHANGES: usize = 128;

/// What a reference makes, on the pages that those before it leave.
#[derive(Clone, Copy, PartialEq, Eq)]
pub enum Makings {
    Nothing,
    /// A zero page.
    Zero(Change),
    /// A copy. A sole copy takes the home of a page that has no other name.
    Copy { change: Change, sole: bool },
    /// A zero page, and then its copy.
    Both(Change, Change),
}

impl Makings {
    /// How many homes they take.
    pub fn homes(self) -> u32
        ensures { result ≡ homes_of self }
    {
        match self {
            Makings::Nothing => 0,
            Makings::Zero(_) => 1,
            Makings::Copy { change: _, sole } => { if sole { 0 } else { 1 } }
            Makings::Both(_, _) => 2,
        }
    }

    /// Puts the entries that they change behind others.
    pub fn push_to(self, changes: &mut ArrayVec<Change, MOST_CHANGES>)
        requires { length changes.old.items + changes_of self ≤ MOST_CHANGES }
        ensures { changes.new.items ≡ changes_with changes.old.items self }
    {
        match self {
            Makings::Nothing => {}
            Makings::Zero(change) => changes.push(change),
            Makings::Copy { change, sole: _ } => changes.push(change),
            Makings::Both(zero, copy) => {
                changes.push(zero);
                changes.push(copy);
            }
        }
    }
}
