// Runs over objects in memory that never fail.
use crate::memory_run::{PAGES, made, sink, words_of};
use crate::same::{same, same_at};
use outside::SureDrum;
use run_console::{Status, run_faultless, run_in_memory};
use std::alloc::Global;
use std::process::Abort;

const SCRIPT: &[u8] = b"LOGIN 0 SMITH\nRUN 5\n";

// How the script runs with these words and a drum of so many pages.
fn status_of(rt: &impl Abort, alloc: Global, texts: &[&str], pages: u32) -> Status {
    let mut drum = made(rt, SureDrum::new(alloc, pages));
    let words = words_of(alloc, texts).expect(rt, "no memory");
    let script = SCRIPT.to_vec(alloc).expect(rt, "no memory");
    run_faultless(alloc, &words, script, &mut drum)
}

#[test]
fn other_words_and_small_drums_are_usage(rt: HostRuntime) {
    let alloc = rt.alloc();
    let small = status_of(&rt, alloc, &["run"], PAGES - 1);
    same_at(&rt, 0, small, Status::Usage);
    let other = status_of(&rt, alloc, &["ran"], PAGES);
    same_at(&rt, 1, other, Status::Usage);
    let none = status_of(&rt, alloc, &[], PAGES);
    same_at(&rt, 2, none, Status::Usage);
    same(&rt, status_of(&rt, alloc, &["run"], PAGES), Status::Done);
}

#[test]
fn texts_in_memory_are_the_transcript_and_the_record(rt: HostRuntime) {
    let alloc = rt.alloc();
    let run = words_of(alloc, &["run"]).expect(&rt, "no memory");
    let script = b"LOGIN 0 SMITH\nPOKE 1 20 7\nRUN 5\n".to_vec(alloc);
    let script = script.expect(&rt, "no memory");
    let mut out = made(&rt, sink(alloc, 64));
    let mut rec = made(&rt, sink(alloc, 64));
    let mut drum = made(&rt, SureDrum::new(alloc, PAGES));
    let status = run_in_memory(alloc, &run, script, &mut out, &mut rec, &mut drum);
    same(&rt, status, Status::Done);
    same(&rt, out.bytes(), b"T0 @\n?NO JOB 1\n".as_slice());
    same(
        &rt,
        rec.bytes(),
        b"LOGIN 0 SMITH\nPOKE 1 20 7\nI 5\nE 0 0\n".as_slice(),
    );
}
