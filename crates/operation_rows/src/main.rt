//! Rows of operations: reads operations on words, one a line, and prints beside each what it comes to.
//! No layer stands above; to a reader a row is an operation of the handbook with its words in octal.
//! Stands on ka10_alu, ka10_bytes, ka10_table and ka10_deeds.
#![tactic(auto)]

mod asked;
mod deeds;
mod operations;
mod outcomes;

use asked::read_row;
use operations::outcome_of;
use outcomes::show;
use std::alloc::Global;
use std::io::{self, BufRead, BufReader, Write};
use std::process::ExitCode;

/// Prints a row with what it comes to; a comment as it is. False where it is no row.
fn print_row<W: Write>(row: &[u8], out: &mut W) -> io::Result<bool> {
    if row.starts_with(b";") {
        out.write_all(row)?;
        out.write_all(b"\n")?;
        return Ok(true);
    }
    let Some(asked) = read_row(row) else {
        return Ok(false);
    };
    let Some(outcome) = outcome_of(&asked) else {
        return Ok(false);
    };
    out.write_all(row)?;
    out.write_all(b" |")?;
    show(&outcome, out)?;
    out.write_all(b"\n")?;
    Ok(true)
}

/// Prints each row of the input. False where one is none, which is told.
fn print_rows<R: BufRead, W: Write>(rows: &mut R, out: &mut W, alloc: Global) -> io::Result<bool> {
    let mut row = Vec::new(alloc);
    for number in 1..u64::MAX {
        row.clear();
        if rows.read_until(b'\n', &mut row)? == 0 {
            return Ok(true);
        }
        if !print_row(row.strip_suffix(b"\n").unwrap_or(&row), out)? {
            writeln!(out, "?ROW {number}")?;
            return Ok(false);
        }
    }
    Ok(true)
}

fn main(rt: HostRuntime) -> io::Result<ExitCode> {
    let alloc = rt.alloc();
    let mut rows = BufReader::new(alloc, rt.stdin())?;
    let mut out = rt.stdout();
    if print_rows(&mut rows, &mut out, alloc)? {
        Ok(ExitCode::SUCCESS)
    } else {
        Ok(ExitCode::FAILURE)
    }
}
