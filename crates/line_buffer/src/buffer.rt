// The bytes of a script or a record that were read and not yet given.
ghost use Rattle.std.specs.Prelude.{◌≡◌, ◌^◌, ◌<◌, ◌≤◌, ◌⊎◌, ◌≢◌, ℕ, length, drop, IfOk, MatchOption, OnOk, OnErr};
ghost use Rattle.outside.specs.Faults.{Rose};
ghost use Rattle.outside.specs.Told.{EndsOnly, Stays};
ghost use Rattle.script_texts.specs.Script.{HasNoFeed};
ghost use Rattle.line_buffer.specs.Feeds.{EndsSo, Fills, IsFed, Reads, Spends, StopsWithin};

use memchr::memchr;
use outside::{Failed, Source};
use std::marker::Model;

/// How many bytes a line has at most, without its line feed.
pub const MOST_LINE: usize = 256;

// How many bytes are held at most.
const ROOM: usize = 4096;

/// Bytes in order, which clauses see as their list.
#[derive(Drop)]
pub struct Buffer {
    bytes: [u8; ROOM],
    from: usize,
    to: usize,
}

impl Model for Buffer {
    ghost use Rattle.std.specs.Prelude.{List, ℕ, ◌≡◌, ◌≤◌, ◌-◌, length, take, drop};
    ghost use Rattle.line_buffer.specs.declared.buffer.TheConstants.{ROOM};

    ghost Value = { List ℕ };

    ghost view = { λ b. take (b.to - b.from) (drop b.from b.bytes) };

    ghost invariant = { λ b. (b.from ≤ b.to) × (b.to ≤ ROOM) × (length b.bytes ≡ ROOM) };
}

/// Where the line at the front ends.
#[derive(Clone, Copy)]
pub enum Found {
    /// At the line feed behind so many bytes.
    Line(usize),
    /// Nowhere: these are the last bytes, no more than a line has and than there is room for.
    Last,
    /// Not within what is held, which is more than a line has or than there is room for.
    Over,
    /// The source failed.
    Fault,
}

/// How a line ends that is passed over.
#[derive(Clone, Copy)]
pub enum Passed {
    /// At a line feed within the room.
    Feed,
    /// At the end of the source, within the room.
    Last,
    /// Not within the room.
    Over,
    /// The source failed.
    Fault,
}

impl Buffer {
    /// No bytes.
    pub const EMPTY: Buffer = Buffer {
        bytes: [0; ROOM],
        from: 0,
        to: 0,
    };

    /// The bytes.
    pub fn bytes(&self) -> &[u8]
        ensures { result.now ≡ self.now }
    {
        &self.bytes[self.from..self.to]
    }

    /// Drops so many bytes from the front.
    pub fn skip(&mut self, n: usize)
        requires { n ≤ length self.old }
        ensures { self.new ≡ drop n self.old }
    {
        self.from += n;
    }

    /// Reads more bytes behind those that are held, and answers how many; 0 is the end of the source.
    pub fn fill<S: Source>(&mut self, s: &mut S) -> Result<usize, Failed>
        requires { length self.old < ROOM }
        ensures later { S.fault_count s.old ≤ S.fault_count s.new }
        ensures cause { OnErr result (Rose (S.fault_count s.old) (S.fault_count s.new)) }
        ensures unfaulted { OnOk result (S.fault_count s.new ≡ S.fault_count s.old) }
        ensures bytes { IfOk result (λ n. Fills S.left self.old self.new s.old s.new n) }
        ensures fits { IfOk result (λ _. length self.new ≤ ROOM) }
        ensures end { IfOk result (EndsOnly (S.left s.old)) }
        ensures same { OnErr result (self.new ≡ self.old) }
        ensures stays { OnErr result (Stays (S.left s.old) (S.left s.new)) }
    {
        self.bytes.copy_within(self.from..self.to, 0);
        self.to -= self.from;
        self.from = 0;
        let count = s.read(&mut self.bytes[self.to..])?;
        self.to += count;
        Ok(count)
    }

    /// Reads until the first line ends within what is held, until that is more than a line has or
    /// than there is room for, or until the source ends.
    pub fn find<S: Source>(&mut self, s: &mut S, room: u64) -> Found
        ensures later { S.fault_count s.old ≤ S.fault_count s.new }
        ensures cause { result ≡ Found.Fault → Rose (S.fault_count s.old) (S.fault_count s.new) }
        ensures unfaulted { result ≢ Found.Fault → S.fault_count s.new ≡ S.fault_count s.old }
        ensures reads { Reads S.left (StopsWithin 0 room) self.old s.old s.new (λ xs. xs ≡ self.new) }
        ensures line { (n : ℕ) → result ≡ Found.Line n → IsFed self.new n }
        ensures spends { result ≡ Found.Last → Spends (S.left s.old) (S.left s.new) }
        ensures last { result ≡ Found.Last → StopsWithin 0 room self.new }
        ensures fault { result ≡ Found.Fault → StopsWithin 0 room self.new }
        ensures over { result ≡ Found.Over → HasNoFeed self.new × ((MOST_LINE < length self.new) ⊎ (room < length self.new)) }
    {
        loop {
            let held = self.bytes();
            if let Some(n) = line_end(held) {
                return Found::Line(n);
            }
            let count = held.len();
            if count > MOST_LINE || count as u64 > room {
                return Found::Over;
            }
            match self.fill(s) {
                Ok(read) => {
                    if read == 0 {
                        return Found::Last;
                    }
                }
                Err(Failed) => return Found::Fault,
            }
        }
    }

    /// Passes over the line at the front, no line feed of which is held. What is read is not held.
    pub fn pass_line<S: Source>(&self, s: &mut S, room: u64) -> Passed
        requires plain { HasNoFeed self.now }
        requires small { room < 2 ^ 63 }
        ensures later { S.fault_count s.old ≤ S.fault_count s.new }
        ensures cause { result ≡ Passed.Fault → Rose (S.fault_count s.old) (S.fault_count s.new) }
        ensures unfaulted { result ≢ Passed.Fault → S.fault_count s.new ≡ S.fault_count s.old }
        ensures reads { Reads S.left (StopsWithin 0 room) self.now s.old s.new (EndsSo (length self.now) room result) }
        ensures spends { result ≡ Passed.Last → Spends (S.left s.old) (S.left s.new) }
    {
        let mut piece = [0; ROOM];
        let mut count = self.bytes().len() as u64;
        while count <= room {
            let read = match s.read(&mut piece) {
                Ok(read) => read,
                Err(Failed) => return Passed::Fault,
            };
            if read == 0 {
                return Passed::Last;
            }
            if let Some(n) = line_end(&piece[..read]) {
                return if count + (n as u64) < room {
                    Passed::Feed
                } else {
                    Passed::Over
                };
            }
            count += read as u64;
        }
        Passed::Over
    }
}

/// How many bytes stand before the first line feed. None exactly where there is none.
pub fn line_end(bytes: &[u8]) -> Option<usize>
    ensures { MatchOption result (HasNoFeed bytes.now) (IsFed bytes.now) }
{
    memchr(b'\n', bytes)
}
