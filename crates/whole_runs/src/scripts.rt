// Whole scripts in memory: the first two, with memory enough; a long one; three terminals; a fork that makes one.
use crate::first;
use crate::memory_run::{PAGES, assert_ended, assert_runs, made, run_script, run_words};
use crate::same::same;
use outside::Memory;
use run_console::Status;
use std::alloc::{AllocError, Global};

#[test]
fn ample_memory_is_enough(rt: HostRuntime) {
    assert_runs(&rt, b"", b"", b"E 0 0\n");
    assert_runs(&rt, first::SCRIPT, first::TRANSCRIPT, first::RECORD);
}

// Puts a number below 2^36 behind a text, in octal.
fn push_octal(text: &mut Vec<u8>, number: u64) -> Result<(), AllocError> {
    for place in (0..12u32).rev() {
        let rest = number >> (place * 3);
        if rest > 0 || place == 0 {
            text.push(b'0' + (rest % 8) as u8)?;
        }
    }
    Ok(())
}

// A page of each of the 512, and more lines than a piece of the source has.
fn long_script(alloc: Global) -> Result<Vec<u8>, Memory> {
    let mut script = Vec::from_slice(alloc, b"LOGIN 0 A\n")?;
    for n in 0..8192u64 {
        script.extend_from_slice(b"POKE 0 ")?;
        push_octal(&mut script, n * 32)?;
        script.extend_from_slice(b" ")?;
        push_octal(&mut script, n * 8_388_607)?;
        script.extend_from_slice(b"\n")?;
    }
    Ok(script)
}

// With the map 513 have to be in 256 frames: 257 pages leave, and none comes back.
#[test]
fn a_long_script_is_its_own_record(rt: HostRuntime) {
    let script = made(&rt, long_script(rt.alloc()));
    let ran = made(&rt, run_script(rt.alloc(), &script));
    same(&rt, ran.status, Status::Done);
    same(&rt, ran.out.bytes(), b"T0 @\n".as_slice());
    same(
        &rt,
        ran.rec.bytes().strip_prefix(&script),
        Some(b"E 0 257\n".as_slice()),
    );
}

// Three terminals, of which one is started between two runs. Who loops is passed over after 200 units, with one member of the
// balance set as with 63.
#[test]
fn forks_run_by_turns(rt: HostRuntime) {
    for words in [["run"].as_slice(), &["run", "--frames", "8192"]] {
        let ran = made(
            &rt,
            run_words(
                rt.alloc(),
                words,
                // JRST 100, at terminals 0 and 15; at terminal 2 the word 0 is fetched
                b"LOGIN 2 B\nLOGIN 15 C\nLOGIN 0 A\n\
                  POKE 0 100 254000000100\n\
                  POKE 15 100 254000000100\n\
                  START 0 100\nSTART 15 100\nRUN 500\n\
                  START 2 100\nAUTO OFF\nRUN 700\n",
                PAGES,
            ),
        );
        assert_ended(
            &rt,
            &ran,
            Status::Done,
            b"T2 @\nT15 @\nT0 @\n\
              T2 \\015\\012\nT2 ?FORCED 15\\015\\012\nT2 @\n",
            b"LOGIN 2 B\nLOGIN 15 C\nLOGIN 0 A\n\
              POKE 0 100 254000000100\n\
              POKE 15 100 254000000100\n\
              START 0 100\nSTART 15 100\nU 0 1 200\nU 15 1 200\nU 0 1 100\n\
              START 2 100\nU 0 1 100\nU 15 1 200\nU 2 1 1\nU 0 1 200\nU 15 1 199\n\
              E 0 0\n",
        );
    }
}

// A fork makes an inferior and halts. The inferior runs on: it counts down, prints, and halts.
const INFERIOR: &[u8] = b"LOGIN 0 A\n\
    ; 100  MOVE 1,200 ; CFORK ; HALTF ; HALTF\n\
    POKE 0 100 200040000200\n\
    POKE 0 101 104000000152\n\
    POKE 0 102 104000000170\n\
    POKE 0 103 104000000170\n\
    ; 110  WFORK, of a fork that has ended, twice ; HALTF\n\
    POKE 0 110 104000000163\n\
    POKE 0 111 104000000163\n\
    POKE 0 112 104000000170\n\
    ; 120  MOVEI 6,3 ; SOJG 6,121 ; MOVEI 1,101 ; PBOUT ; HALTF\n\
    POKE 0 120 201300000003\n\
    POKE 0 121 367300000121\n\
    POKE 0 122 201040000101\n\
    POKE 0 123 104000000074\n\
    POKE 0 124 104000000170\n\
    ; bits 0 and 4: its pages follow, and it starts at 120\n\
    POKE 0 200 420000000120\n\
    START 0 100\n\
    RUN 20\n\
    FORKS 0\n\
    START 0 110\n\
    RUN 20\n\
    FORKS 0\n";

#[test]
fn an_inferior_runs_on(rt: HostRuntime) {
    for (words, pages) in [
        (["run"].as_slice(), PAGES),
        (&["run", "--frames", "160", "--drum", "256"], 256),
    ] {
        let ran = made(&rt, run_words(rt.alloc(), words, INFERIOR, pages));
        assert_ended(
            &rt,
            &ran,
            Status::Done,
            b"T0 @\\015\\012\nT0 @A\n\
              F 0 1 0 HALT PC 000104\n\
              F 0 2 1 HALT PC 000125\n\
              T0 \\015\\012\nT0 @\n\
              F 0 1 0 HALT PC 000113\n\
              F 0 2 1 HALT PC 000125\n",
            b"LOGIN 0 A\n\
              POKE 0 100 200040000200\n\
              POKE 0 101 104000000152\n\
              POKE 0 102 104000000170\n\
              POKE 0 103 104000000170\n\
              POKE 0 110 104000000163\n\
              POKE 0 111 104000000163\n\
              POKE 0 112 104000000170\n\
              POKE 0 120 201300000003\n\
              POKE 0 121 367300000121\n\
              POKE 0 122 201040000101\n\
              POKE 0 123 104000000074\n\
              POKE 0 124 104000000170\n\
              POKE 0 200 420000000120\n\
              START 0 100\n\
              U 0 1 3\nU 0 2 7\nI 10\n\
              FORKS 0\n\
              START 0 110\n\
              U 0 1 3\nI 17\n\
              FORKS 0\n\
              E 0 0\n",
        );
    }
}
