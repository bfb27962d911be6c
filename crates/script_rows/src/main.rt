//! Rows of scripts: reads scripts, one a line, and prints how many events each gives and how it ends; and the events of generated scripts.
//! No layer stands above; to a reader a row is a script, with `/` for each line feed, and what is read of it.
//! Stands on script_lang.
#![tactic(auto)]

mod asked;
mod generated;
mod pieces;
mod reading;

use asked::{Row, read_row, script_of};
use generated::{show_generated, show_later};
use outside::MemSource;
use pieces::{Endless, Pieces};
use reading::{reads_where_needed, show_end};
use std::alloc::Global;
use std::io::{self, BufRead, BufReader, Write};
use std::process::ExitCode;

/// Sizes of the pieces in which a script is read: of one byte, of a few, and all.
const SIZES: [usize; 3] = [1, 5, 9000];

/// Those in which it is seen when it is read.
const SEEN: [usize; 5] = [1, 3, 5, 11, 9000];

/// Prints how a script ends in pieces of each size, and from memory.
fn show_ends<W: Write>(text: &str, out: &mut W, alloc: Global) -> io::Result<()> {
    let script = script_of(text, alloc)?;
    for most in SIZES {
        show_end(&mut Pieces::new(&script, most, 0), out)?;
        out.write_all(b", ")?;
    }
    show_end(&mut MemSource::new(script, Vec::new(alloc)), out)
}

/// Prints whether a script is read where that was told, in pieces of each size.
fn show_reads<W: Write>(text: &str, out: &mut W, alloc: Global) -> io::Result<()> {
    let script = script_of(text, alloc)?;
    for most in SEEN {
        let told = reads_where_needed(&script, most);
        write!(out, "{}", if told { " as told" } else { " otherwise" })?;
    }
    Ok(())
}

/// Prints what a row comes to.
fn show<W: Write>(row: &Row<'_>, out: &mut W, alloc: Global) -> io::Result<()> {
    match *row {
        Row::Ends(text) => show_ends(text, out, alloc),
        Row::Failing(most, read, text) => {
            let script = script_of(text, alloc)?;
            show_end(&mut Pieces::new(&script, most, read), out)
        }
        Row::Reads(text) => show_reads(text, out, alloc),
        Row::Endless(line) => show_end(&mut Endless::new(line.as_bytes()), out),
        Row::Seed(seed) => show_generated(seed, out),
        Row::Behind(seed, events) => show_later(seed, events, out),
    }
}

/// Prints a row with what it comes to; a comment as it is. False where it is no row.
fn print_row<W: Write>(line: &str, out: &mut W, alloc: Global) -> io::Result<bool> {
    if line.starts_with(';') {
        writeln!(out, "{line}")?;
        return Ok(true);
    }
    let Some(row) = read_row(line) else {
        return Ok(false);
    };
    write!(out, "{line} | ")?;
    show(&row, out, alloc)?;
    writeln!(out)?;
    Ok(true)
}

/// Prints each row of the input. False where one is none, which is told.
fn print_rows<R: BufRead, W: Write>(rows: &mut R, out: &mut W, alloc: Global) -> io::Result<bool> {
    let mut line = String::new(alloc);
    for number in 1..u64::MAX {
        line.clear();
        if rows.read_line(&mut line)? == 0 {
            return Ok(true);
        }
        let row = line.as_str();
        if !print_row(row.strip_suffix('\n').unwrap_or(row), out, alloc)? {
            writeln!(out, "?ROW {number}")?;
            return Ok(false);
        }
    }
    Ok(true)
}

fn main(rt: HostRuntime) -> io::Result<ExitCode> {
    let alloc = rt.alloc();
    let mut rows = BufReader::new(alloc, rt.stdin())?;
    let mut out = rt.stdout();
    if print_rows(&mut rows, &mut out, alloc)? {
        Ok(ExitCode::SUCCESS)
    } else {
        Ok(ExitCode::FAILURE)
    }
}
