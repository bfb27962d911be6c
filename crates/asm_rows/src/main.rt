//! Rows of the assembler: reads commands with their texts, one a line, and prints beside each how it ends and what it writes.
//! No layer stands above; to a reader a row is a text, with `/` for each line feed, and the words that it becomes or its fault.
//! Stands on text_console and ka10_table.
#![tactic(auto)]

mod answers;
mod asked;

use answers::print_answer;
use asked::read_row;
use std::alloc::Global;
use std::io::{self, BufRead, BufReader, Write};
use std::process::ExitCode;

/// Prints a row with its answer; a comment as it is. False where it is no row.
fn print_row<W: Write>(line: &str, out: &mut W, alloc: Global) -> io::Result<bool> {
    if line.starts_with(';') {
        writeln!(out, "{line}")?;
        return Ok(true);
    }
    let Some(row) = read_row(line) else {
        return Ok(false);
    };
    write!(out, "{line} |")?;
    print_answer(&row, out, alloc)?;
    writeln!(out)?;
    Ok(true)
}

/// Prints each row of the input. False where one is none, which is told.
fn print_rows<R: BufRead, W: Write>(rows: &mut R, out: &mut W, alloc: Global) -> io::Result<bool> {
    let mut line = String::new(alloc);
    for number in 1..u64::MAX {
        line.clear();
        if rows.read_line(&mut line)? == 0 {
            return Ok(true);
        }
        let row = line.as_str();
        if !print_row(row.strip_suffix('\n').unwrap_or(row), out, alloc)? {
            writeln!(out, "?ROW {number}")?;
            return Ok(false);
        }
    }
    Ok(true)
}

fn main(rt: HostRuntime) -> io::Result<ExitCode> {
    let alloc = rt.alloc();
    let mut rows = BufReader::new(alloc, rt.stdin())?;
    let mut out = rt.stdout();
    if print_rows(&mut rows, &mut out, alloc)? {
        Ok(ExitCode::SUCCESS)
    } else {
        Ok(ExitCode::FAILURE)
    }
}
