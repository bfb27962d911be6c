// The lines of files: each refusal in its order, and lines that are none.
use crate::memory_run::{PAGES, assert_ended, made, run_script, run_words};
use crate::same::same_at;
use outside::Memory;
use run_console::Status;
use std::alloc::{AllocError, Global};

// A script of rows, each of which shows its own lines.
fn run_rows(
    alloc: Global,
    rows: &[(&str, &str)],
    pages: u32,
) -> Result<(Vec<u8>, Vec<u8>), Memory> {
    let mut script = Vec::new(alloc);
    let mut transcript = Vec::new(alloc);
    for (line, shown) in rows {
        script.extend_from_slice(line.as_bytes())?;
        transcript.extend_from_slice(shown.as_bytes())?;
    }
    let ran = run_words(alloc, &["run", "--drum", "256"], &script, pages)?;
    Ok((transcript, Vec::from_slice(alloc, ran.out.bytes())?))
}

// Each line with what it shows.
const LINES: [(&str, &str); 16] = [
    ("PAGE <A>B.C 0\n", "?NO FILE <A>B.C\n"),
    ("WORDS <A>B.C 0 0 1\n", "?NO FILE <A>B.C\n"),
    ("FILE <A>B.C\n", ""),
    ("FILE <A>B.C\n", "?EXISTS <A>B.C\n"),
    ("PAGE <A>B.C 0\n", "?NO PAGE <A>B.C\n"),
    ("WORDS <A>B.C 0 777 1\n", ""),
    ("PAGE <A>B.C 0\n", "P <A>B.C 0\nW 777 000000000001\n"),
    ("PAGE <A>B.C 777\n", "?NO PAGE <A>B.C\n"),
    ("WORDS <A>B.C 777 0 0 0 3\n", ""),
    ("PAGE <A>B.C 777\n", "P <A>B.C 777\nW 002 000000000003\n"),
    ("PAGE <A>B.C 0\n", "P <A>B.C 0\nW 777 000000000001\n"),
    ("WORDS <A>B.C 0 776 2 0\n", ""),
    ("PAGE <A>B.C 0\n", "P <A>B.C 0\nW 776 000000000002\n"),
    ("FILE <A>B.\n", ""),
    ("PAGE <A>B. 0\n", "?NO PAGE <A>B.\n"),
    ("PAGE <B>B.C 0\n", "?NO FILE <B>B.C\n"),
];

#[test]
fn each_line_shows_its_own(rt: HostRuntime) {
    let (wanted, shown) = made(&rt, run_rows(rt.alloc(), &LINES, 256));
    same_at(&rt, 0, shown.as_slice(), wanted.as_slice());
}

// Puts three digits behind a text.
fn push_digits(text: &mut Vec<u8>, digits: [u32; 3]) -> Result<(), AllocError> {
    for digit in digits {
        text.push(b'0' + (digit % 10) as u8)?;
    }
    Ok(())
}

// So many files, and then these lines.
fn many_files(alloc: Global, count: u32, rest: &[u8]) -> Result<Vec<u8>, Memory> {
    let mut script = Vec::new(alloc);
    for n in 0..count {
        script.extend_from_slice(b"FILE <A>F")?;
        push_digits(&mut script, [n / 100, n / 10 % 10, n % 10])?;
        script.extend_from_slice(b".\n")?;
    }
    script.extend_from_slice(rest)?;
    Ok(script)
}

// A file that there is, is told before that there may be no more.
#[test]
fn there_are_512_files_at_most(rt: HostRuntime) {
    for (row, count, transcript) in [
        (0, 511, b"?EXISTS <A>F510.\n".as_slice()),
        (
            1,
            512,
            b"?FILES FULL <A>NEW.\n?EXISTS <A>F510.\n?NO FILE <A>NEW.\n",
        ),
    ] {
        let script = made(
            &rt,
            many_files(
                rt.alloc(),
                count,
                b"FILE <A>NEW.\nFILE <A>F510.\nWORDS <A>NEW. 0 0 1\n",
            ),
        );
        let ran = made(&rt, run_script(rt.alloc(), &script));
        same_at(&rt, row, ran.out.bytes(), transcript);
    }
}

// A file of so many pages and one of none, and then these lines.
fn many_pages(alloc: Global, count: u32, rest: &[u8]) -> Result<Vec<u8>, Memory> {
    let mut script = Vec::from_slice(alloc, b"FILE <A>BIG.\nFILE <A>SMALL.\n")?;
    for page in 0..count {
        script.extend_from_slice(b"WORDS <A>BIG. ")?;
        push_digits(&mut script, [page / 64, page / 8 % 8, page % 8])?;
        script.extend_from_slice(b" 0 1\n")?;
    }
    script.extend_from_slice(rest)?;
    Ok(script)
}

// A file that isn't there is told before that the drum is full; a page that is there is written on a full drum.
#[test]
fn a_full_drum_has_no_room_for_pages_of_files(rt: HostRuntime) {
    let rest = b"WORDS <A>SMALL. 0 0 1\nPAGE <A>SMALL. 0\nWORDS <A>BIG. 377 1 2\nPAGE <A>BIG. 377\n\
                 WORDS <A>NEW. 0 0 1\nWORDS <A>BIG. 400 0 1\nLOGIN 0 A\n";
    for (row, count, transcript) in [
        (
            0,
            256,
            b"?FULL <A>SMALL.\n?NO PAGE <A>SMALL.\n\
              P <A>BIG. 377\nW 000 000000000001\nW 001 000000000002\n\
              ?NO FILE <A>NEW.\n?FULL <A>BIG.\n?FULL 0\n"
                .as_slice(),
        ),
        (
            1,
            253,
            b"P <A>SMALL. 0\nW 000 000000000001\n\
              P <A>BIG. 377\nW 001 000000000002\n\
              ?NO FILE <A>NEW.\n?FULL 0\n",
        ),
    ] {
        let script = made(&rt, many_pages(rt.alloc(), count, rest));
        let ran = made(
            &rt,
            run_words(rt.alloc(), &["run", "--drum", "256"], &script, 256),
        );
        same_at(&rt, row, ran.out.bytes(), transcript);
    }
}

#[test]
fn lines_with_wrong_fields_are_none(rt: HostRuntime) {
    for line in [
        b"FILE\n".as_slice(),
        b"FILE A.B\n",
        b"FILE <A>B\n",
        b"FILE <A>.B\n",
        b"FILE <a>B.C\n",
        b"FILE <A>B.C D\n",
        b"WORDS <A>B.C 0 0\n",
        b"WORDS <A>B.C 0 1\n",
        b"WORDS <A>B.C 1000 0 1\n",
        b"WORDS <A>B.C 0 1000 1\n",
        b"WORDS <A>B.C 0 777 1 2\n",
        b"WORDS <A>B.C 0 0 1 2 3 4 5 6 7 10 11\n",
        b"WORDS <A>B.C 0 0 1000000000000\n",
        b"WORDS <A>B.C 0 0 8\n",
        b"PAGE <A>B.C\n",
        b"PAGE <A>B.C 1000\n",
        b"PAGE <A>B.C 8\n",
        b"PAGE <A>B.C 0 0\n",
    ] {
        let ran = made(&rt, run_words(rt.alloc(), &["run"], line, PAGES));
        assert_ended(&rt, &ran, Status::Script, b"?LINE 1\n", b"");
    }
}
