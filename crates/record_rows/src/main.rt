//! Rows of records: reads records, one a line, and prints beside each what its lines say and how it ends.
//! No layer stands above; to a reader a row is a record, with `/` for each line feed, and what is read of it.
//! Stands on record_reader.
#![tactic(auto)]

use outside::SureSource;
use record_reader::{NextStep, Said, read_record};
use script_lang::digits::decimal;
use script_texts::Step;
use std::alloc::Global;
use std::io::{self, BufRead, BufReader, Write};

/// Prints words and a number behind them.
fn print_number<W: Write>(words: &[u8], n: u64, out: &mut W) -> io::Result<()> {
    out.write_all(words)?;
    out.write_all(decimal(n).as_slice())
}

/// Prints what a line says.
fn print_line<W: Write>(said: &Said, out: &mut W) -> io::Result<()> {
    match said {
        Said::Version(pages) => print_number(b"drum of ", *pages as u64, out),
        Said::Run(Step::Outer(_), _) => out.write_all(b"event"),
        Said::Run(Step::Unit(fork), count) => {
            print_number(b"fork ", fork.tty.0 as u64, out)?;
            print_number(b" ", fork.serial as u64, out)?;
            print_number(b" x ", *count, out)
        }
        Said::Run(Step::Idle, count) => print_number(b"idle x ", *count, out),
        Said::Counts(reads, writes) => {
            print_number(b"reads ", *reads, out)?;
            print_number(b" writes ", *writes, out)
        }
    }
}

/// Prints the answer that stands behind the lines.
fn print_end<W: Write>(end: &NextStep, out: &mut W) -> io::Result<()> {
    match end {
        NextStep::End => out.write_all(b"END"),
        NextStep::Bad(line) => print_number(b"BAD ", *line, out),
        NextStep::Long => out.write_all(b"LONG"),
        _ => out.write_all(b"FAULT"),
    }
}

/// The bytes of a record, of which a row has `/` for each line feed.
fn record_of(row: &[u8], alloc: Global) -> io::Result<Vec<u8>> {
    let mut bytes = row.to_vec(alloc)?;
    for byte in &mut bytes {
        if *byte == b'/' {
            *byte = b'\n';
        }
    }
    Ok(bytes)
}

/// Prints a row with what is read of it.
fn print_row<W: Write>(row: &[u8], out: &mut W, alloc: Global) -> io::Result<()> {
    let mut source = SureSource::new(record_of(row, alloc)?);
    out.write_all(row)?;
    out.write_all(b" | ")?;
    let Ok(reading) = read_record(alloc, &mut source) else {
        return out.write_all(b"NO MEMORY\n");
    };
    for said in &reading.lines {
        print_line(said, out)?;
        out.write_all(b", ")?;
    }
    print_end(&reading.end, out)?;
    out.write_all(b"\n")
}

/// Reads each line of the input, and prints it as a row.
fn print_rows<R: BufRead, W: Write>(rows: &mut R, out: &mut W, alloc: Global) -> io::Result<()> {
    let mut row = Vec::new(alloc);
    for _count in 0..u64::MAX {
        row.clear();
        if rows.read_until(b'\n', &mut row)? == 0 {
            return Ok(());
        }
        print_row(row.strip_suffix(b"\n").unwrap_or(&row), out, alloc)?;
    }
    Ok(())
}

fn main(rt: HostRuntime) -> io::Result<()> {
    let alloc = rt.alloc();
    let mut rows = BufReader::new(alloc, rt.stdin())?;
    let mut out = rt.stdout();
    print_rows(&mut rows, &mut out, alloc)
}
