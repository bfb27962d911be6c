// The transfers that are queued.
ghost use Rattle.std.specs.Prelude.{◌≡◌, ◌<◌, [], ◌∷◌, ◌++◌, None, Some, IsSome, IfOk, true, false, length, slice_get, drop};
ghost use Rattle.drum_queue.specs.Transfers.{IsSingle, frame_of, transfer_of, without, writes};

use crate::Transfer;
use frame_order::FrameOrder;
use outside::Memory;
use page_homes::{FrameId, Home};
use std::alloc::Global;
use std::marker::Model;

/// Transfers of frames, one a frame at most, in the order in which they began. The order is one of
/// frames, and beside it the transfer of each frame stands at the frame's place.
#[derive(Drop)]
pub struct Queue {
    order: FrameOrder,
    transfers: Vec<Option<Transfer>>,
}

impl Model for Queue {
    ghost use Rattle.drum_queue.specs.Transfers.{Transfers};
    ghost use Rattle.drum_queue.specs.Places.{IsPlaced, queue_view};

    ghost Value = { Transfers };

    ghost view = { λ q. queue_view q.order q.transfers.items };

    ghost invariant = { λ q. IsPlaced q.order q.transfers.items };
}

impl Queue {
    /// No transfer is queued. Memory where there is none for so many frames.
    pub fn boot(alloc: Global, frames: u32) -> Result<Self, Memory>
        ensures { IfOk result (λ q. q ≡ record { frames = frames; queued = [] }) }
    {
        Ok(Queue {
            order: FrameOrder::boot(alloc, frames)?,
            transfers: vec![in alloc; None; frames as usize]?,
        })
    }

    /// The number that all frames are below.
    pub fn frames(&self) -> u32
        ensures frames { result ≡ self.now.frames }
        ensures single { IsSingle self.now }
    {
        self.order.frames()
    }

    /// Queues the read of a home's page into a frame. No transfer of the frame is queued yet.
    pub fn start_read(&mut self, f: FrameId, home: Home)
        requires below { f.0 < self.old.frames }
        requires idle { transfer_of f.0 self.old.queued ≡ None }
        ensures { self.new ≡ record self.old { queued = self.old.queued ++ Transfer.Read f home ∷ [] } }
    {
        self.start(Transfer::Read(f, home));
    }

    /// Queues the write of a home's page from a frame. No transfer of the frame is queued yet.
    pub fn start_write(&mut self, f: FrameId, home: Home)
        requires below { f.0 < self.old.frames }
        requires idle { transfer_of f.0 self.old.queued ≡ None }
        ensures { self.new ≡ record self.old { queued = self.old.queued ++ Transfer.Write f home ∷ [] } }
    {
        self.start(Transfer::Write(f, home));
    }

    // Puts a transfer behind all others.
    fn start(&mut self, transfer: Transfer)
        requires below { frame_of transfer < self.old.frames }
        requires idle { transfer_of (frame_of transfer) self.old.queued ≡ None }
        ensures { self.new ≡ record self.old { queued = self.old.queued ++ transfer ∷ [] } }
    {
        let frame = transfer.frame().0;
        self.order.push(frame);
        self.transfers[frame as usize] = Some(transfer);
    }

    /// The transfer of a frame. None exactly where there is none.
    pub fn transfer_of(&self, f: FrameId) -> Option<Transfer>
        requires { f.0 < self.now.frames }
        ensures { result ≡ transfer_of f.0 self.now.queued }
    {
        self.transfers[f.0 as usize]
    }

    // Takes away the transfer of a frame, which is there.
    fn take(&mut self, frame: u32)
        requires { IsSome (transfer_of frame self.old.queued) }
        ensures { self.new ≡ record self.old { queued = without frame self.old.queued } }
    {
        self.order.remove(frame);
        self.transfers[frame as usize] = None;
    }

    /// Takes away the transfer of a frame, if one is queued, and answers it. None exactly where
    /// there is none. The others stay in their order.
    pub fn cancel(&mut self, f: FrameId) -> Option<Transfer>
        requires { f.0 < self.old.frames }
        ensures answer { result ≡ transfer_of f.0 self.old.queued }
        ensures gone { self.new ≡ record self.old { queued = without f.0 self.old.queued } }
    {
        let transfer = self.transfer_of(f);
        if transfer.is_some() {
            self.take(f.0);
        }
        transfer
    }

    /// Takes away the write of a frame, if one is queued. False exactly where there is none; then
    /// all stays, a read of the frame too.
    pub fn rescue(&mut self, f: FrameId) -> bool
        requires { f.0 < self.old.frames }
        ensures answer { result ≡ writes (transfer_of f.0 self.old.queued) }
        ensures gone { result ≡ true → self.new ≡ record self.old { queued = without f.0 self.old.queued } }
        ensures stays { result ≡ false → self.new ≡ self.old }
    {
        let written = self.transfer_of(f).is_some_and(|t| t.is_write());
        if written {
            self.take(f.0);
        }
        written
    }

    /// The oldest transfer. None exactly where none is queued.
    pub fn next(&self) -> Option<Transfer>
        ensures { result ≡ slice_get self.now.queued 0 }
    {
        let frame = self.order.first()?;
        self.transfers[frame as usize]
    }

    /// Drops the oldest transfer, which has ended. One is queued.
    pub fn finish(&mut self)
        requires { 0 < length self.old.queued }
        ensures { self.new ≡ record self.old { queued = drop 1 self.old.queued } }
    {
        if let Some(frame) = self.order.first() {
            self.take(frame);
        }
    }
}
