// The text of a program as it was read, kept so that a bad line of it can be shown.
ghost use Rattle.std.specs.Prelude.{◌≡◌, Err, IfSome, List, ℕ};
ghost use Rattle.asm_core.specs.Places.{outcome};

use crate::watch::{BadLine, TextKind, Wrong, unended};
use asm_core::{AsmFault, PROGRAM_BYTES, assemble};
use line_buffer::MOST_LINE;
use outside::{Failed, Source};
use std::alloc::Global;

// What was read, piece by piece. Where there was no memory for a piece, nothing is kept any more.
#[derive(Drop)]
struct Pieces {
    text: Option<Vec<u8>>,
}

impl Pieces {
    // Keeps a piece too.
    fn keep(&mut self, piece: &[u8]) {
        let kept = match &mut self.text {
            Some(text) => text.extend_from_slice(piece).is_ok(),
            None => true,
        };
        if !kept {
            self.text = None;
        }
    }

    // The line of this number, counted from 1, and what is wrong with it where it is bad.
    fn line(&self, number: u64) -> Option<BadLine<'_>>
        ensures { IfSome result (λ bad. (bad.number ≡ number) × (bad.of ≡ TextKind.Program)) }
    {
        let text = self.text.as_ref()?;
        let mut lines = 0u64;
        for piece in text.split_inclusive(|c| *c == b'\n') {
            lines = lines.saturating_add(1);
            if lines == number {
                return Some(bad_line(number, piece));
            }
        }
        None
    }
}

// The fault of a whole text. None where it is a program, or too long for one, or there is no memory to look.
fn fault_of(alloc: Global, text: &[u8]) -> Option<AsmFault>
    ensures { IfSome result (λ fault. outcome text.now ≡ Err fault) }
{
    if text.len() > PROGRAM_BYTES {
        return None;
    }
    let Err(fault) = assemble(alloc, text) else {
        return None;
    };
    match fault {
        AsmFault::Memory => None,
        fault => Some(fault),
    }
}

// A line that is bad, with its line feed or without.
fn bad_line(number: u64, piece: &[u8]) -> BadLine<'_>
    ensures { (result.number ≡ number) × (result.of ≡ TextKind.Program) }
{
    let (wrong, bytes) = match piece.strip_suffix(b"\n") {
        None => (unended(piece), piece),
        Some(line) if line.len() > MOST_LINE => (Wrong::TooLong, line),
        Some(line) => (Wrong::NoLine, line),
    };
    BadLine {
        number,
        wrong,
        of: TextKind::Program,
        bytes,
    }
}

/// A source, and all that was read of it.
#[derive(Drop)]
pub struct Kept<S: Source> {
    source: S,
    pieces: Pieces,
}

impl<S: Source> Kept<S> {
    /// Nothing was read yet.
    pub fn new(alloc: Global, source: S) -> Self
        ensures { result.source ≡ source }
    {
        Kept {
            source,
            pieces: Pieces {
                text: Some(Vec::new(alloc)),
            },
        }
    }

    /// The source.
    pub fn source(&self) -> &S
        ensures { result.now ≡ self.now.source }
    {
        &self.source
    }

    /// The fault for which the text that was read is no program. None where it is one, or too long, or there is no memory to
    /// look.
    pub fn fault(&self, alloc: Global) -> Option<AsmFault>
        ensures { IfSome result (λ fault. (text : List ℕ) × (outcome text ≡ Err fault)) }
    {
        let text = self.pieces.text.as_ref()?;
        fault_of(alloc, text)
    }

    /// The line of this number, counted from 1, and what is wrong with it where it is bad.
    pub fn bad(&self, number: u64) -> Option<BadLine<'_>>
        ensures { IfSome result (λ bad. (bad.number ≡ number) × (bad.of ≡ TextKind.Program)) }
    {
        self.pieces.line(number)
    }
}

impl<S: Source> Source for Kept<S> {
    ghost fault_count = { λ k. S.fault_count k.source };

    ghost left = { λ k. S.left k.source };

    fn faults(&self) -> u64 {
        self.source.faults()
    }

    // What it answers is what the source gave.
    fn read(&mut self, piece: &mut [u8]) -> Result<usize, Failed> {
        let count = self.source.read(piece)?;
        if count > 0 {
            self.pieces.keep(&piece[..count]);
        }
        Ok(count)
    }
}
