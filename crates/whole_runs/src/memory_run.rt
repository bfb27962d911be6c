// One run over objects in memory.
use crate::same::same;
use outside::{Drum, MemSink, Memory, Sink, Source, SureDrum, SureSource};
use run_console::{Status, run_command};
use std::alloc::{AllocError, Global};
use std::process::Abort;

/// How many bytes a text has at most here.
const ROOM: usize = 1 << 18;

/// How many pages the drum has to have.
pub const PAGES: u32 = 2048;

/// How a run ended, and the objects that it used.
#[derive(Drop)]
pub struct Ran {
    pub status: Status,
    pub out: MemSink,
    pub rec: MemSink,
    pub drum: SureDrum,
}

/// What was made, for which there is memory in every test.
pub(crate) fn made<T>(rt: &impl Abort, answer: Result<T, Memory>) -> T {
    match answer {
        Ok(made) => made,
        Err(_) => panic!(rt; "no memory"),
    }
}

/// The words of a command.
pub(crate) fn words_of(alloc: Global, texts: &[&str]) -> Result<Vec<String>, AllocError> {
    let mut words = Vec::new(alloc);
    for text in texts {
        words.push(String::from_str(alloc, text)?)?;
    }
    Ok(words)
}

/// A sink with this room.
pub(crate) fn sink(alloc: Global, room: usize) -> Result<MemSink, Memory> {
    MemSink::new(alloc, room, Vec::new(alloc))
}

/// Runs a command. Each type is a parameter, so that no clause is written out over the objects of a run.
fn status_of<S: Source, T: Sink, R: Sink, D: Drum>(
    alloc: Global,
    words: &[String],
    script: &mut S,
    (out, rec): (&mut T, &mut R),
    drum: &mut D,
) -> Status {
    run_command(alloc, words, script, out, rec, drum)
}

/// Runs a command over a source and a drum of so many pages.
fn run_over<S: Source>(
    alloc: Global,
    texts: &[&str],
    script: &mut S,
    pages: u32,
) -> Result<Ran, Memory> {
    let words = words_of(alloc, texts)?;
    let mut out = sink(alloc, ROOM)?;
    let mut rec = sink(alloc, ROOM)?;
    let mut drum = SureDrum::new(alloc, pages)?;
    let status = status_of(alloc, &words, script, (&mut out, &mut rec), &mut drum);
    Ok(Ran {
        status,
        out,
        rec,
        drum,
    })
}

/// Runs the script that a source gives.
pub(crate) fn run_source<S: Source>(alloc: Global, script: &mut S) -> Result<Ran, Memory> {
    run_over(alloc, &["run"], script, PAGES)
}

/// Runs a script by these words, over a drum of so many pages.
pub(crate) fn run_words(
    alloc: Global,
    texts: &[&str],
    script: &[u8],
    pages: u32,
) -> Result<Ran, Memory> {
    let mut script = SureSource::new(Vec::from_slice(alloc, script)?);
    run_over(alloc, texts, &mut script, pages)
}

/// Runs a script.
pub(crate) fn run_script(alloc: Global, script: &[u8]) -> Result<Ran, Memory> {
    run_words(alloc, &["run"], script, PAGES)
}

/// A run ended with this status and exactly these texts.
pub(crate) fn assert_ended(
    rt: &impl Abort,
    ran: &Ran,
    status: Status,
    transcript: &[u8],
    record: &[u8],
) {
    same(rt, ran.status, status);
    same(rt, ran.out.bytes(), transcript);
    same(rt, ran.rec.bytes(), record);
}

/// Runs a script to its end, which gives exactly these texts and never asks the drum.
pub(crate) fn assert_runs<R: Abort + AllocGlobal>(
    rt: &R,
    script: &[u8],
    transcript: &[u8],
    record: &[u8],
) {
    let ran = made(rt, run_script(rt.alloc(), script));
    assert_ended(rt, &ran, Status::Done, transcript, record);
    same(rt, (ran.drum.reads(), ran.drum.writes()), (0, 0));
}
