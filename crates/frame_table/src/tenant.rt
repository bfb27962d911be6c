// What a frame that is taken is taken by, and holds of it.
ghost use Rattle.std.specs.Prelude.{◌≡◌, ◌<◌, ◌^◌};
ghost use Rattle.frame_table.specs.Core.{is_kept, new_tenant};
ghost use Rattle.frame_table.specs.Seats.{leaving_age};

use page_homes::{FrameId, Home};
use std::marker::Model;

/// How many pins a frame has at most.
pub const MOST_PINS: u8 = 64;

/// What a frame is taken by: the home whose page it holds, the number of its last use, how many
/// holds of it are not spent, how many pins it has, and whether a transfer of it is queued.
#[derive(Clone, Copy, PartialEq, Eq)]
pub struct Tenant {
    pub home: Home,
    pub age: u64,
    pub holds: u32,
    pub pins: u8,
    pub in_transfer: bool,
}

impl Tenant {
    // A page that has just got a frame, which is a use of it.
    pub(crate) fn new(home: Home, age: u64) -> Tenant
        ensures { result ≡ new_tenant home age }
    {
        Tenant {
            home,
            age,
            holds: 0,
            pins: 0,
            in_transfer: false,
        }
    }

    // Whether a transfer of the frame is queued.
    #[inline(always)]
    pub(crate) fn is_moving(self) -> bool
        ensures is { result ≡ self.in_transfer }
        ensures age { self.age < 2 ^ 64 }
    {
        self.in_transfer
    }

    // Whether a hold or a pin keeps the page in its frame.
    pub(crate) fn is_held(self) -> bool
        ensures { result ≡ is_kept self }
    {
        !(self.holds == 0 && self.pins == 0)
    }

    // The age of a page that may leave its frame. None where it is held or in transfer.
    pub(crate) fn leaving_age(self) -> Option<u64>
        ensures { result ≡ leaving_age self }
    {
        if !self.is_held() && !self.in_transfer {
            Some(self.age)
        } else {
            None
        }
    }
}

/// A hold of a frame. Whoever has it may read and write the frame's words, and has to give it back:
/// it can't be let go.
pub struct Hold {
    frame: FrameId,
}

impl Model for Hold {
    ghost use Rattle.std.specs.Prelude.{ℕ};

    ghost Value = { ℕ };

    ghost view = { λ h. h.frame.0 };
}

impl Hold {
    // A hold of a frame.
    pub(crate) fn of(frame: FrameId) -> Hold
        ensures { result ≡ frame.0 }
    {
        Hold { frame }
    }

    /// The frame that is held.
    pub fn frame(&self) -> FrameId
        ensures { result.0 ≡ self.now }
    {
        self.frame
    }

    // The frame that was held.
    pub(crate) fn spend(self) -> FrameId
        ensures { result.0 ≡ self }
    {
        let Hold { frame } = self;
        frame
    }
}
