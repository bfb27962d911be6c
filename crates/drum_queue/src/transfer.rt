// One transfer.
ghost use Rattle.std.specs.Prelude.{◌≡◌};
ghost use Rattle.drum_queue.specs.Transfers.{frame_of, is_write};

use page_homes::{FrameId, Home};

/// What is to go between a frame and the drum: the page of a home is read into the frame, or
/// written from it.
#[derive(Clone, Copy, PartialEq, Eq)]
pub enum Transfer {
    Read(FrameId, Home),
    Write(FrameId, Home),
}

impl Transfer {
    /// The frame of the transfer.
    pub fn frame(self) -> FrameId
        ensures { result.0 ≡ frame_of self }
    {
        match self {
            Transfer::Read(f, _) | Transfer::Write(f, _) => f,
        }
    }

    /// Whether a page is written.
    pub fn is_write(self) -> bool
        ensures { result ≡ is_write self }
    {
        matches!(self, Transfer::Write(_, _))
    }
}
