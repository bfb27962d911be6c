// What a walk along a chain finds.
ghost use Rattle.std.specs.Prelude.{◌≡◌, if◌then◌else◌, ◌&&◌, None, Some};
ghost use Rattle.page_gather.specs.Walks.{last_walked, behind_walked, permits_walked, copied_walked};

use machine_names::{Access, Kind, Slot};

/// What a walk along a chain finds, whatever page it ends at.
#[derive(Clone, Copy, PartialEq, Eq)]
pub struct Walked {
    /// The slot of the last entry.
    pub end: Slot,
    /// Whether the last entry is empty.
    pub empty: bool,
    /// The first slot with the copy mark.
    pub marked: Option<Slot>,
    /// Whether the chain permits a read, a write and a fetch.
    pub reads: bool,
    pub writes: bool,
    pub executes: bool,
}

impl Walked {
    /// A chain of this entry alone.
    pub fn last(slot: Slot, empty: bool, access: Access) -> Walked
        ensures { result ≡ last_walked slot empty access }
    {
        Walked {
            end: slot,
            empty,
            marked: first_marked(slot, access, None),
            reads: access.r,
            writes: access.c || access.w,
            executes: access.x,
        }
    }

    /// The chain that goes on here behind an entry.
    pub fn behind(self, slot: Slot, access: Access) -> Walked
        ensures { result ≡ behind_walked slot access self }
    {
        Walked {
            end: self.end,
            empty: self.empty,
            marked: first_marked(slot, access, self.marked),
            reads: access.r && self.reads,
            writes: write_permitted(access, self.reads, self.writes),
            executes: access.x && self.executes,
        }
    }

    /// Whether the chain permits a reference of this kind.
    pub fn permits(self, kind: Kind) -> bool
        ensures { result ≡ permits_walked kind self }
    {
        match kind {
            Kind::Read => self.reads,
            Kind::Write => self.writes,
            Kind::Execute => self.executes,
        }
    }

    /// The slot that a reference of this kind puts a copy into.
    pub fn copied(self, kind: Kind) -> Option<Slot>
        ensures { result ≡ copied_walked kind self }
    {
        match kind {
            Kind::Write => self.marked,
            _ => None,
        }
    }
}

// The first marked slot from an entry on.
fn first_marked(slot: Slot, access: Access, rest: Option<Slot>) -> Option<Slot>
    ensures { result ≡ (if access.c then Some slot else rest) }
{
    if access.c { Some(slot) } else { rest }
}

// Whether a write goes through an entry: behind the first copy mark the others have only to be read.
fn write_permitted(access: Access, reads: bool, writes: bool) -> bool
    ensures { result ≡ (if access.c then reads else (access.w && writes)) }
{
    if access.c { reads } else { access.w && writes }
}
