// A source and a sink over a reader and a writer of the standard library. They tell no content.
ghost use Rattle.std.specs.Prelude.{◌≡◌, ◌<◌, ◌≤◌, None, Some, length, IfOk};
ghost use Rattle.std.specs.Option.{option_copied};
ghost use Rattle.std.specs.Io.KnownBytes.{Keeps, ReadConsumes, WriteAppends};
ghost use Rattle.outside.specs.Faults.{CountsUp, FailsCounted};

use crate::{Failed, Sink, Source};
use std::io::{Error, ErrorKind, Read, Write};

/// A reader as a source. Each call is one call of the reader; an error, also an interruption, is a fault.
#[derive(Drop)]
pub struct StdSource<R: Read> {
    reader: R,
    faults: u64,
    error: Option<Error>,
}

impl<R: Read> StdSource<R> {
    /// The source of what the reader gives from here on.
    pub fn new(reader: R) -> Self
        ensures faults { result.faults ≡ 0 }
        ensures reader { result.reader ≡ reader }
        ensures error { result.error ≡ None }
    {
        StdSource {
            reader,
            faults: 0,
            error: None,
        }
    }

    /// The reader's error at the last fault. None exactly where there was no fault.
    pub fn error(&self) -> Option<&Error>
        ensures { option_copied result ≡ self.now.error }
    {
        self.error.as_ref()
    }
}

impl<R: Read> Source for StdSource<R> {
    ghost fault_count = { λ s. s.faults };

    ghost left = { λ _. None };

    fn faults(&self) -> u64 {
        self.faults
    }

    // What it answers is what the reader gave.
    fn read(&mut self, piece: &mut [u8]) -> Result<usize, Failed>
        requires { 0 < length piece.old }
        ensures reader { ReadConsumes (R.remaining self.old.reader) (R.remaining self.new.reader) result piece.new }
        ensures bound { IfOk result (λ n. n ≤ length piece.old) }
        ensures fault { FailsCounted result self.old.faults self.new.faults self.old.error self.new.error }
    {
        match self.reader.read(piece) {
            Ok(n) => Ok(n),
            Err(error) => {
                self.faults = self.faults.saturating_add(1);
                self.error = Some(error);
                Err(Failed)
            }
        }
    }
}

/// A writer as a sink. Each call is one call of the writer; an error, also an interruption, is a fault, and
/// so is a writer that takes nothing of a piece that isn't empty.
#[derive(Drop)]
pub struct StdSink<W: Write> {
    writer: W,
    faults: u64,
    error: Option<Error>,
}

impl<W: Write> StdSink<W> {
    /// The sink that gives what it takes to the writer.
    pub fn new(writer: W) -> Self
        ensures faults { result.faults ≡ 0 }
        ensures writer { result.writer ≡ writer }
        ensures error { result.error ≡ None }
    {
        StdSink {
            writer,
            faults: 0,
            error: None,
        }
    }

    /// The writer's error at the last fault. None exactly where there was no fault.
    pub fn error(&self) -> Option<&Error>
        ensures { option_copied result ≡ self.now.error }
    {
        self.error.as_ref()
    }

    // A fault is counted, and its error kept.
    fn fail(&mut self, error: Error) -> Failed
        ensures later { self.old.faults ≤ self.new.faults }
        ensures faults { CountsUp self.old.faults self.new.faults }
        ensures error { self.new.error ≡ Some error }
        ensures writer { self.new.writer ≡ self.old.writer }
    {
        self.faults = self.faults.saturating_add(1);
        self.error = Some(error);
        Failed
    }
}

impl<W: Write> Sink for StdSink<W> {
    ghost fault_count = { λ s. s.faults };

    ghost taken = { λ _. None };

    // A writer doesn't tell what it keeps.
    ghost handed_on = { λ _. Unit {0} };

    fn faults(&self) -> u64 {
        self.faults
    }

    // What it answers is what the writer took.
    fn write(&mut self, piece: &[u8]) -> Result<usize, Failed>
        ensures writer { WriteAppends (W.contents self.old.writer) (W.contents self.new.writer) result piece.now }
        ensures some { 0 < length piece.now → IfOk result (λ n. 0 < n) }
        ensures bound { IfOk result (λ n. n ≤ length piece.now) }
        ensures fault { FailsCounted result self.old.faults self.new.faults self.old.error self.new.error }
    {
        match self.writer.write(piece) {
            Ok(n) if n > 0 || piece.is_empty() => Ok(n),
            Ok(_) => Err(self.fail(ErrorKind::WriteZero.into())),
            Err(error) => Err(self.fail(error)),
        }
    }

    // The writer hands on what it keeps.
    fn flush(&mut self) -> Result<(), Failed>
        ensures writer { Keeps (W.contents self.old.writer) (W.contents self.new.writer) }
        ensures fault { FailsCounted result self.old.faults self.new.faults self.old.error self.new.error }
    {
        match self.writer.flush() {
            Ok(()) => Ok(()),
            Err(error) => Err(self.fail(error)),
        }
    }
}
