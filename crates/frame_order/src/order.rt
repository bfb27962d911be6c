// A list of frames, threaded by frame.
ghost use Rattle.std.specs.Prelude.{◌≡◌, ◌+◌, ◌<◌, ℕ, [], ◌∷◌, ◌++◌, length, slice_get, slice_index, true, false, IfOk};
ghost use Rattle.std.specs.Iterator.{YieldsFirst, item_count};
ghost use Rattle.frame_order.specs.FrameOrder.{IsOrder, stands_in, without};

use outside::Memory;
use std::alloc::Global;
use std::marker::Model;

/// Some of the frames below a number, each once, in an order. The order is a ring through two arrays, in which the
/// place behind the last frame is the end: behind it stands the first, before it the last.
#[derive(Drop)]
pub struct FrameOrder {
    before: Vec<u32>,
    behind: Vec<u32>,
    end: u32,
    len: u32,
}

impl Model for FrameOrder {
    ghost use Rattle.frame_order.specs.FrameOrder.{Order};
    ghost use Rattle.frame_order.specs.Ring.{IsRing, ring_view};

    ghost Value = { Order };

    ghost view = { λ o. ring_view o.end o.len o.behind.items };

    ghost invariant = { λ o. IsRing o.end o.len o.before.items o.behind.items };
}

impl FrameOrder {
    /// No frame is there. Memory where there is none for so many frames.
    pub fn boot(alloc: Global, frames: u32) -> Result<Self, Memory>
        ensures { IfOk result (λ o. o ≡ record { frames = frames; order = [] }) }
    {
        let places = frames as usize + 1;
        Ok(FrameOrder {
            before: vec![in alloc; frames; places]?,
            behind: vec![in alloc; frames; places]?,
            end: frames,
            len: 0,
        })
    }

    /// The number that all frames are below.
    pub fn frames(&self) -> u32
        ensures frames { result ≡ self.now.frames }
        ensures order { IsOrder self.now }
    {
        self.end
    }

    /// The first frame. None exactly where there is no frame.
    pub fn first(&self) -> Option<u32>
        ensures { result ≡ slice_get self.now.order 0 }
    {
        self.iter().next()
    }

    /// The frames, the first one first.
    pub fn iter(&self) -> Iter<'_>
        ensures { result ≡ self.now.order }
    {
        Iter {
            behind: &self.behind,
            frame: self.behind[self.end as usize],
            left: self.len,
        }
    }

    /// Puts a frame behind all others. It isn't there yet.
    pub fn push(&mut self, frame: u32)
        requires below { frame < self.old.frames }
        requires absent { stands_in frame self.old.order ≡ false }
        ensures { self.new ≡ record self.old { order = self.old.order ++ frame ∷ [] } }
    {
        let last = self.before[self.end as usize];
        self.behind[last as usize] = frame;
        self.behind[frame as usize] = self.end;
        self.before[frame as usize] = last;
        self.before[self.end as usize] = frame;
        self.len += 1;
    }

    /// Takes a frame away, which is there. The others stay in their order.
    pub fn remove(&mut self, frame: u32)
        requires { stands_in frame self.old.order ≡ true }
        ensures { self.new ≡ record self.old { order = without frame self.old.order } }
    {
        let last = self.before[frame as usize];
        let next = self.behind[frame as usize];
        self.behind[last as usize] = next;
        self.before[next as usize] = last;
        self.len -= 1;
    }
}

/// The frames of an order from one of them on.
#[derive(Drop)]
pub struct Iter<'a> {
    behind: &'a [u32],
    frame: u32,
    left: u32,
}

impl<'a> Model for Iter<'a> {
    ghost use Rattle.std.specs.Prelude.{ℕ, List, ◌<◌, ◌≡◌, length, slice_index};
    ghost use Rattle.frame_order.specs.FrameOrder.{threaded};

    ghost Value = { List ℕ };

    ghost view = { λ i. threaded (slice_index i.behind.now) i.left i.frame };

    ghost invariant = { λ i. (i.frame < length i.behind.now) × ((f : ℕ) → slice_index i.behind.now f < length i.behind.now) };
}

impl<'a> Iterator for Iter<'a> {
    type Item = u32;

    ghost next_gives = { YieldsFirst (λ s. s) };

    ghost remaining = { item_count (λ s. s) };

    fn next(&mut self) -> Option<u32> {
        if self.left == 0 {
            return None;
        }
        let frame = self.frame;
        self.frame = self.behind[frame as usize];
        self.left -= 1;
        Some(frame)
    }
}
