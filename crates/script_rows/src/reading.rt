// Scripts as they are read.
use crate::pieces::Pieces;
use outside::Source;
use script_lang::{Lines, MOST_BYTES, Next};
use std::io::{self, Write};

/// How many events a script gives before its last answer, and that answer.
fn ends<S: Source>(source: &mut S) -> (u64, Next) {
    let mut lines = Lines::new();
    let mut events = 0;
    for _line in 0..MOST_BYTES {
        match lines.next(source) {
            Next::One(_) => events += 1,
            last => return (events, last),
        }
    }
    (events, Next::End)
}

/// Prints how many events a script gives before its last answer, and that answer.
pub(crate) fn show_end<S: Source, W: Write>(source: &mut S, out: &mut W) -> io::Result<()> {
    let (events, last) = ends(source);
    write!(out, "{events} ")?;
    match last {
        Next::End => out.write_all(b"END"),
        Next::Bad(line) => write!(out, "BAD {line}"),
        Next::ReadFault => out.write_all(b"FAULT"),
        Next::Long => out.write_all(b"LONG"),
        Next::One(_) => out.write_all(b"EVENT"),
    }
}

/// Whether `next` reads each time where `needs_read` said so, and no other time.
pub(crate) fn reads_where_needed(bytes: &[u8], most: usize) -> bool {
    let mut source = Pieces::new(bytes, most, 0);
    let mut lines = Lines::new();
    for _line in 0..MOST_BYTES {
        let reads = source.reads;
        let needs = lines.needs_read();
        if source.reads != reads {
            return false;
        }
        let next = lines.next(&mut source);
        if needs != (source.reads > reads) {
            return false;
        }
        if !matches!(next, Next::One(_)) {
            return true;
        }
    }
    false
}
