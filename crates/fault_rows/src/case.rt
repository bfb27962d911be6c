// A command with its script, and its runs.
use crate::changing::Changing;
use crate::fault::{Call, Fault};
use crate::line_source::LineSource;
use outside::{Drum, MemDrum, MemSink, Memory, Sink, Source};
use run_console::{Status, run_command};
use std::alloc::{AllocError, Global};

/// How many bytes a text has at most.
const MOST_WRITTEN: usize = 65_536;

/// How many pages the drum has where a row doesn't tell.
const DRUM_PAGES: u32 = 2048;

/// A command with its script and the pages of its drum, and both texts where nothing fails.
#[derive(Drop)]
pub(crate) struct Case {
    words: Vec<String>,
    script: Vec<u8>,
    pub pages: u32,
    pub out: Vec<u8>,
    pub rec: Vec<u8>,
}

/// How a run ended, and both texts.
#[derive(Drop)]
pub(crate) struct Ended {
    pub status: Status,
    pub out: MemSink,
    pub rec: MemSink,
}

impl Case {
    /// No words, and an empty script.
    pub(crate) fn new(alloc: Global) -> Self {
        Case {
            words: Vec::new(alloc),
            script: Vec::new(alloc),
            pages: DRUM_PAGES,
            out: Vec::new(alloc),
            rec: Vec::new(alloc),
        }
    }

    /// Takes the words of another command, told apart by a space, or none. Its script is still empty.
    pub(crate) fn begin(&mut self, words: Option<&str>, alloc: Global) -> Result<(), AllocError> {
        *self = Case::new(alloc);
        let Some(words) = words else { return Ok(()) };
        for word in words.split(' ') {
            self.words.push(String::from_str(alloc, word)?)?;
        }
        Ok(())
    }

    /// Puts one more line behind the script.
    pub(crate) fn push_line(&mut self, line: &str) -> Result<(), AllocError> {
        self.script.extend_from_slice(line.as_bytes())?;
        self.script.push(b'\n')?;
        Ok(())
    }

    /// Keeps both texts of the run in which nothing fails.
    pub(crate) fn keep(&mut self, out: &[u8], rec: &[u8]) -> Result<(), AllocError> {
        self.out.clear();
        self.out.extend_from_slice(out)?;
        self.rec.clear();
        self.rec.extend_from_slice(rec)?;
        Ok(())
    }

    /// The script, or the front of it that a cut leaves.
    fn script_of(&self, fault: Fault) -> &[u8] {
        match fault.call {
            Call::Cut => {
                let length = usize::try_from(fault.number).unwrap_or(usize::MAX);
                self.script.get(..length).unwrap_or(&self.script)
            }
            _ => &self.script,
        }
    }

    /// The source of a run.
    fn source(&self, fault: Fault) -> LineSource<'_> {
        let script = self.script_of(fault);
        match fault.call {
            Call::ReadByte => LineSource::new(script, 1, fault.number),
            _ => LineSource::new(script, usize::MAX, fault.number_of(Call::Read)),
        }
    }
}

/// A sink of which these calls fail.
fn sink(writes: Vec<u64>, flushes: Vec<u64>, alloc: Global) -> Result<MemSink, Memory> {
    Ok(MemSink::new(alloc, MOST_WRITTEN, writes)?.with_failing_flushes(flushes))
}

/// Runs a command. Each type is a parameter, so that no clause is written out over the objects of a row.
fn status_of<S: Source, T: Sink, R: Sink, D: Drum>(
    words: &[String],
    script: &mut S,
    (out, rec): (&mut T, &mut R),
    drum: &mut D,
    alloc: Global,
) -> Status {
    run_command(alloc, words, script, out, rec, drum)
}

/// Runs a case with a fault over a drum.
fn run_on<D: Drum>(
    case: &Case,
    fault: Fault,
    drum: &mut D,
    alloc: Global,
) -> Result<Ended, Memory> {
    let mut script = case.source(fault);
    let mut out = sink(
        fault.list(Call::OutWrite, alloc)?,
        fault.list(Call::OutFlush, alloc)?,
        alloc,
    )?;
    let mut rec = sink(
        fault.list(Call::RecordWrite, alloc)?,
        fault.list(Call::RecordFlush, alloc)?,
        alloc,
    )?;
    let status = status_of(&case.words, &mut script, (&mut out, &mut rec), drum, alloc);
    Ok(Ended { status, out, rec })
}

/// Runs a case with a fault over a drum that gives another word than was written.
fn run_changing(case: &Case, fault: Fault, alloc: Global) -> Result<Ended, Memory> {
    run_on(case, fault, &mut Changing::new(alloc, case.pages)?, alloc)
}

/// Runs a case with a fault over a drum that gives back what was written.
fn run_held(case: &Case, fault: Fault, alloc: Global) -> Result<Ended, Memory> {
    let reads = fault.list(Call::DrumRead, alloc)?;
    let writes = fault.list(Call::DrumWrite, alloc)?;
    let mut drum = MemDrum::new(alloc, fault.pages(case.pages), reads, writes)?;
    run_on(case, fault, &mut drum, alloc)
}

/// Runs a case with a fault.
pub(crate) fn run(case: &Case, fault: Fault, alloc: Global) -> Result<Ended, Memory> {
    if fault.call == Call::Changing {
        run_changing(case, fault, alloc)
    } else {
        run_held(case, fault, alloc)
    }
}
