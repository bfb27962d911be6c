//! Rows of records: replays records, one a line, and prints beside each its transcript.
//! No layer stands above; to a reader a row is a record, with `/` for each line feed, and the transcript of its replay, with `/` too.
//! Stands on record_player.
#![tactic(auto)]

use outside::{MemSink, SureSource};
use record_player::{ReplayEnd, replay};
use std::alloc::Global;
use std::io::{self, BufRead, BufReader, Write};

/// How many pages the drum has where a record doesn't tell.
const ASKED_PAGES: u32 = 2048;

/// How many bytes a transcript has at most.
const MOST_SHOWN: usize = 65_536;

/// The word for how a replay ended.
fn word_of(end: ReplayEnd) -> &'static [u8] {
    match end {
        ReplayEnd::Done => b"DONE",
        ReplayEnd::Bad(_) => b"BAD",
        ReplayEnd::Illegal(_) => b"ILLEGAL",
        ReplayEnd::Long => b"LONG",
        ReplayEnd::ReadFault => b"READ",
        ReplayEnd::WriteFault => b"WRITE",
        ReplayEnd::Memory => b"MEMORY",
    }
}

/// Bytes with another byte for each of one kind.
fn exchanged(bytes: &[u8], old: u8, new: u8, alloc: Global) -> io::Result<Vec<u8>> {
    let mut others = bytes.to_vec(alloc)?;
    for byte in &mut others {
        if *byte == old {
            *byte = new;
        }
    }
    Ok(others)
}

/// Prints a row with the transcript of its record's replay.
fn print_row<W: Write>(row: &[u8], out: &mut W, alloc: Global) -> io::Result<()> {
    let mut source = SureSource::new(exchanged(row, b'/', b'\n', alloc)?);
    let Ok(mut sink) = MemSink::new(alloc, MOST_SHOWN, Vec::new(alloc)) else {
        return out.write_all(b"NO MEMORY\n");
    };
    let end = replay(alloc, ASKED_PAGES, &mut source, &mut sink);
    out.write_all(row)?;
    out.write_all(b" | ")?;
    out.write_all(&exchanged(sink.bytes(), b'\n', b'/', alloc)?)?;
    out.write_all(b" ")?;
    out.write_all(word_of(end))?;
    out.write_all(b"\n")
}

/// Reads each line of the input, and prints it as a row.
fn print_rows<R: BufRead, W: Write>(rows: &mut R, out: &mut W, alloc: Global) -> io::Result<()> {
    let mut row = Vec::new(alloc);
    for _count in 0..u64::MAX {
        row.clear();
        if rows.read_until(b'\n', &mut row)? == 0 {
            return Ok(());
        }
        print_row(row.strip_suffix(b"\n").unwrap_or(&row), out, alloc)?;
    }
    Ok(())
}

fn main(rt: HostRuntime) -> io::Result<()> {
    let alloc = rt.alloc();
    let mut rows = BufReader::new(alloc, rt.stdin())?;
    let mut out = rt.stdout();
    print_rows(&mut rows, &mut out, alloc)
}
