// Sources that hold their bytes in memory.
ghost use Rattle.std.specs.Prelude.{◌≡◌, ◌↔◌, ◌<◌, ◌≤◌, ◌++◌, ℕ, List, Ok, Some, min, drop, take, length, vec_len, IfOk, IsErr, OnOk, OnErr};
ghost use Rattle.outside.specs.Faults.{CountsUp, FailsNext};
ghost use Rattle.outside.specs.Told.{EndsOnly};

use crate::failing_calls::FailingCalls;
use crate::{Failed, Source};
use std::marker::Model;

// Bytes, and how many of them were read.
#[derive(Drop)]
struct Unread {
    bytes: Vec<u8>,
    at: usize,
}

impl Model for Unread {
    ghost Value = { List ℕ };

    ghost view = { λ s. drop s.at s.bytes.items };

    ghost invariant = { λ s. s.at ≤ vec_len s.bytes };
}

impl Unread {
    // None were read yet.
    fn new(bytes: Vec<u8>) -> Self
        ensures { result ≡ bytes.items }
    {
        Unread { bytes, at: 0 }
    }

    // Copies as many bytes as are left and fit, and answers how many.
    fn fill(&mut self, piece: &mut [u8]) -> usize
        ensures count { result ≡ min (length piece.old) (length self.old) }
        ensures bytes { self.old ≡ take result piece.new ++ self.new }
    {
        let n = piece.len().min(self.bytes.len() - self.at);
        piece[..n].copy_from_slice(&self.bytes[self.at..self.at + n]);
        self.at += n;
        n
    }
}

/// Bytes in memory, and the numbers of the calls of `read` that fail. It tells what is left.
#[derive(Drop)]
pub struct MemSource {
    unread: Unread,
    calls: FailingCalls,
    faults: u64,
}

impl MemSource {
    /// A source of these bytes. The calls of `read` with these numbers fail, counted from 1, and no others.
    pub fn new(bytes: Vec<u8>, failing: Vec<u64>) -> Self
        ensures left { ⟦<MemSource as Source>⟧.left result ≡ Some bytes.items }
        ensures faults { ⟦<MemSource as Source>⟧.fault_count result ≡ 0 }
        ensures failing { result.calls.failing ≡ failing }
        ensures made { result.calls.made ≡ 0 }
    {
        MemSource {
            unread: Unread::new(bytes),
            calls: FailingCalls::new(failing),
            faults: 0,
        }
    }
}

impl Source for MemSource {
    ghost fault_count = { λ s. s.faults };

    ghost left = { λ s. Some s.unread };

    fn faults(&self) -> u64 {
        self.faults
    }

    // The calls that fail are those that are listed. A read fills the piece, or ends what is left.
    fn read(&mut self, piece: &mut [u8]) -> Result<usize, Failed>
        requires { 0 < length piece.old }
        ensures fails { IsErr result ↔ FailsNext self.old.calls.failing.items self.old.calls.made }
        ensures made { CountsUp self.old.calls.made self.new.calls.made }
        ensures failing { self.new.calls.failing ≡ self.old.calls.failing }
        ensures later { self.old.faults ≤ self.new.faults }
        ensures faulted { OnErr result (CountsUp self.old.faults self.new.faults) }
        ensures unfaulted { OnOk result (self.new.faults ≡ self.old.faults) }
        ensures whole { IfOk result (λ n. n ≡ min (length piece.old) (length self.old.unread)) }
        ensures bytes { IfOk result (λ n. self.old.unread ≡ take n piece.new ++ self.new.unread) }
        ensures end { IfOk result (EndsOnly (Some self.old.unread)) }
        ensures err { OnErr result (self.new.unread ≡ self.old.unread) }
    {
        if self.calls.next() {
            self.faults = self.faults.saturating_add(1);
            return Err(Failed);
        }
        Ok(self.unread.fill(piece))
    }
}

/// Bytes in memory, all of which can be read. It tells what is left, and its count of faults is 0 for good.
#[derive(Drop)]
pub struct SureSource {
    unread: Unread,
}

impl SureSource {
    /// A source of these bytes.
    pub fn new(bytes: Vec<u8>) -> Self
        ensures left { ⟦<SureSource as Source>⟧.left result ≡ Some bytes.items }
    {
        SureSource {
            unread: Unread::new(bytes),
        }
    }
}

impl Source for SureSource {
    ghost fault_count = { λ _. 0 };

    ghost left = { λ s. Some s.unread };

    fn faults(&self) -> u64 {
        0
    }

    // No call fails. A read fills the piece, or ends what is left.
    fn read(&mut self, piece: &mut [u8]) -> Result<usize, Failed>
        requires { 0 < length piece.old }
        ensures whole { result ≡ Ok (min (length piece.old) (length self.old.unread)) }
        ensures bytes { IfOk result (λ n. self.old.unread ≡ take n piece.new ++ self.new.unread) }
        ensures end { IfOk result (EndsOnly (Some self.old.unread)) }
    {
        Ok(self.unread.fill(piece))
    }
}
