// Sources of a script: in pieces, and without an end.
ghost use Rattle.std.specs.Prelude.{None};

use outside::{Failed, Source};

/// Gives its bytes in pieces, each of so many at most, and counts its reads. The read of this number
/// fails; 0 is none.
#[derive(Drop)]
pub(crate) struct Pieces<'a> {
    rest: &'a [u8],
    most: usize,
    fails: u64,
    /// How often it was read.
    pub(crate) reads: u64,
    faults: u64,
}

impl<'a> Pieces<'a> {
    pub(crate) fn new(rest: &'a [u8], most: usize, fails: u64) -> Self {
        Pieces {
            rest,
            most,
            fails,
            reads: 0,
            faults: 0,
        }
    }
}

impl<'a> Source for Pieces<'a> {
    ghost fault_count = { λ s. s.faults };

    ghost left = { λ _. None };

    fn faults(&self) -> u64 {
        self.faults
    }

    fn read(&mut self, piece: &mut [u8]) -> Result<usize, Failed> {
        self.reads = self.reads.saturating_add(1);
        if self.reads == self.fails {
            self.faults = self.faults.saturating_add(1);
            return Err(Failed);
        }
        let count = self.most.min(self.rest.len()).min(piece.len());
        let (front, rest) = self.rest.split_at(count);
        piece[..count].copy_from_slice(front);
        self.rest = rest;
        Ok(count)
    }
}

/// Gives a line for ever.
#[derive(Drop)]
pub(crate) struct Endless<'a> {
    line: &'a [u8],
    at: usize,
}

impl<'a> Endless<'a> {
    pub(crate) fn new(line: &'a [u8]) -> Self {
        Endless { line, at: 0 }
    }
}

impl<'a> Source for Endless<'a> {
    ghost fault_count = { λ _. 0 };

    ghost left = { λ _. None };

    fn faults(&self) -> u64 {
        0
    }

    fn read(&mut self, piece: &mut [u8]) -> Result<usize, Failed> {
        for place in piece.iter_mut() {
            match self.line.get(self.at) {
                Some(byte) => {
                    *place = *byte;
                    self.at += 1;
                }
                None => {
                    *place = b'\n';
                    self.at = 0;
                }
            }
        }
        Ok(piece.len())
    }
}
