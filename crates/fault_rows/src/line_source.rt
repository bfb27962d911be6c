// A source that gives one line a read, and one of whose reads fails.
ghost use Rattle.std.specs.Prelude.{None};

use outside::{Failed, Source};

// Bytes, of which some were given.
#[derive(Drop)]
struct Lines<'a> {
    bytes: &'a [u8],
    at: usize,
    most: usize,
}

impl<'a> Lines<'a> {
    ghost use Rattle.std.specs.Prelude.{◌≤◌, length};

    // Fills the front of a piece, up to the next line feed or with as many bytes as are given at once, and answers how many it filled.
    fn give(&mut self, piece: &mut [u8]) -> usize
        ensures { result ≤ length piece.old }
    {
        let most = piece.len().min(self.most);
        for filled in 0..most {
            let Some(byte) = self.bytes.get(self.at).copied() else {
                return filled;
            };
            piece[filled] = byte;
            self.at = self.at.saturating_add(1);
            if byte == b'\n' {
                return filled + 1;
            }
        }
        most
    }
}

/// Bytes, of which a read gives those up to the next line feed, but no more than so many; and the number of the read that
/// fails, counted from 1.
#[derive(Drop)]
pub(crate) struct LineSource<'a> {
    lines: Lines<'a>,
    reads: u64,
    fails: u64,
    faults: u64,
}

impl<'a> LineSource<'a> {
    /// None was read yet.
    pub(crate) fn new(bytes: &'a [u8], most: usize, fails: u64) -> Self {
        LineSource {
            lines: Lines { bytes, at: 0, most },
            reads: 0,
            fails,
            faults: 0,
        }
    }
}

impl<'a> Source for LineSource<'a> {
    ghost fault_count = { λ s. s.faults };

    ghost left = { λ _. None };

    fn faults(&self) -> u64 {
        self.faults
    }

    fn read(&mut self, piece: &mut [u8]) -> Result<usize, Failed> {
        self.reads = self.reads.saturating_add(1);
        if self.reads == self.fails {
            self.faults = self.faults.saturating_add(1);
            return Err(Failed);
        }
        Ok(self.lines.give(piece))
    }
}
