// A sink that keeps its bytes in memory, and one that keeps none.
ghost use Rattle.std.specs.Prelude.{◌≡◌, ◌↔◌, ◌⊎◌, ◌<◌, ◌≤◌, ◌+◌, ◌++◌, [], Ok, None, Some, length, vec_len, vec_capacity, IfOk, IsOk, IsErr, OnOk, OnErr};
ghost use Rattle.outside.specs.Faults.{CountsUp, FailsNext};

use crate::failing_calls::FailingCalls;
use crate::{Failed, Memory, Sink};
use std::alloc::Global;

/// Room for bytes in memory, and the numbers of the calls of `write` and of `flush` that fail. It tells what it
/// has taken, and keeps nothing back.
#[derive(Drop)]
pub struct MemSink {
    bytes: Vec<u8>,
    room: usize,
    calls: FailingCalls,
    flushes: FailingCalls,
    faults: u64,
    ghost within: { vec_len bytes ≤ room },
    ghost reserved: { room ≤ vec_capacity bytes },
}

impl MemSink {
    /// A sink with room for so many bytes, all of which it reserves now, so that no call wants memory later.
    /// The calls of `write` with these numbers fail, counted from 1, and besides those whose piece doesn't
    /// fit; no call of `flush` fails. Memory where there is none for the room; no room needs none.
    pub fn new(alloc: Global, room: usize, failing: Vec<u64>) -> Result<Self, Memory>
        ensures none { room ≡ 0 → IsOk result }
        ensures taken { IfOk result (λ s. ⟦<MemSink as Sink>⟧.taken s ≡ Some []) }
        ensures faults { IfOk result (λ s. ⟦<MemSink as Sink>⟧.fault_count s ≡ 0) }
        ensures room { IfOk result (λ s. s.room ≡ room) }
        ensures failing { IfOk result (λ s. s.calls.failing ≡ failing) }
        ensures made { IfOk result (λ s. s.calls.made ≡ 0) }
        ensures flushes { IfOk result (λ s. s.flushes.failing.items ≡ []) }
    {
        let bytes = Vec::with_capacity(alloc, room)?;
        Ok(MemSink {
            bytes,
            room,
            calls: FailingCalls::new(failing),
            flushes: FailingCalls::new(Vec::new(alloc)),
            faults: 0,
        })
    }

    /// The sink with other numbers of the calls of `flush` that fail, counted from 1 and from now on.
    pub fn with_failing_flushes(self, failing: Vec<u64>) -> Self
        ensures failing { result.flushes.failing ≡ failing }
        ensures made { result.flushes.made ≡ 0 }
        ensures bytes { result.bytes ≡ self.bytes }
        ensures room { result.room ≡ self.room }
        ensures calls { result.calls ≡ self.calls }
        ensures faults { result.faults ≡ self.faults }
    {
        MemSink {
            bytes: self.bytes,
            room: self.room,
            calls: self.calls,
            flushes: FailingCalls::new(failing),
            faults: self.faults,
        }
    }

    /// The bytes taken so far.
    pub fn bytes(&self) -> &[u8]
        ensures { ⟦<MemSink as Sink>⟧.taken self.now ≡ Some result.now }
    {
        &self.bytes
    }
}

impl Sink for MemSink {
    ghost fault_count = { λ s. s.faults };

    ghost taken = { λ s. Some s.bytes.items };

    // It keeps nothing back.
    ghost handed_on = { λ _. Unit {0} };

    fn faults(&self) -> u64 {
        self.faults
    }

    // The calls that fail are those that are listed, and those whose piece doesn't fit. A piece is taken
    // whole.
    fn write(&mut self, piece: &[u8]) -> Result<usize, Failed>
        ensures fails { IsErr result ↔ FailsNext self.old.calls.failing.items self.old.calls.made ⊎ (self.old.room < vec_len self.old.bytes + length piece.now) }
        ensures made { CountsUp self.old.calls.made self.new.calls.made }
        ensures failing { self.new.calls.failing ≡ self.old.calls.failing }
        ensures flushes { self.new.flushes ≡ self.old.flushes }
        ensures room { self.new.room ≡ self.old.room }
        ensures later { self.old.faults ≤ self.new.faults }
        ensures faulted { OnErr result (CountsUp self.old.faults self.new.faults) }
        ensures unfaulted { OnOk result (self.new.faults ≡ self.old.faults) }
        ensures whole { IfOk result (λ n. n ≡ length piece.now) }
        ensures bytes { OnOk result (self.new.bytes.items ≡ self.old.bytes.items ++ piece.now) }
        ensures err { OnErr result (self.new.bytes.items ≡ self.old.bytes.items) }
    {
        let listed = self.calls.next();
        if listed
            || piece.len() > self.room - self.bytes.len()
            || self.bytes.extend_from_slice(piece).is_err()
        {
            self.faults = self.faults.saturating_add(1);
            return Err(Failed);
        }
        Ok(piece.len())
    }

    // The calls that fail are those that are listed.
    fn flush(&mut self) -> Result<(), Failed>
        ensures fails { IsErr result ↔ FailsNext self.old.flushes.failing.items self.old.flushes.made }
        ensures made { CountsUp self.old.flushes.made self.new.flushes.made }
        ensures failing { self.new.flushes.failing ≡ self.old.flushes.failing }
        ensures later { self.old.faults ≤ self.new.faults }
        ensures faulted { OnErr result (CountsUp self.old.faults self.new.faults) }
        ensures unfaulted { OnOk result (self.new.faults ≡ self.old.faults) }
        ensures bytes { self.new.bytes ≡ self.old.bytes }
        ensures room { self.new.room ≡ self.old.room }
        ensures calls { self.new.calls ≡ self.old.calls }
    {
        if self.flushes.next() {
            self.faults = self.faults.saturating_add(1);
            return Err(Failed);
        }
        Ok(())
    }
}

/// A sink that takes every piece whole and keeps none, so that it tells nothing. Its count of faults is 0
/// for good.
#[derive(Drop)]
pub struct SureSink;

impl SureSink {
    /// A sink that takes every piece.
    pub fn new() -> Self
        ensures { ⟦<SureSink as Sink>⟧.fault_count result ≡ 0 }
    {
        SureSink
    }
}

impl Sink for SureSink {
    ghost fault_count = { λ _. 0 };

    ghost taken = { λ _. None };

    ghost handed_on = { λ _. Unit {0} };

    fn faults(&self) -> u64 {
        0
    }

    fn write(&mut self, piece: &[u8]) -> Result<usize, Failed>
        ensures { result ≡ Ok (length piece.now) }
    {
        Ok(piece.len())
    }

    fn flush(&mut self) -> Result<(), Failed>
        ensures { result ≡ Ok tt }
    {
        Ok(())
    }
}
