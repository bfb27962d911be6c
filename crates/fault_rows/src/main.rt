//! Rows of runs that fail: runs scripts in memory over objects of which one call fails, and prints how each run ended.
//! No layer stands above; to a reader a row is a call that fails, the status, and how far both texts came.
//! Stands on run_console.
#![tactic(auto)]

mod asked;
mod case;
mod changing;
mod fault;
mod line_source;
mod shown;

use asked::{Row, read_row};
use case::{Case, run};
use fault::{Call, Fault};
use shown::{print_common, print_lines};
use std::alloc::Global;
use std::io::{self, BufRead, BufReader, Write};
use std::process::ExitCode;

/// Runs a case where nothing fails, keeps both texts, and prints them whole.
fn print_whole<W: Write>(case: &mut Case, out: &mut W, alloc: Global) -> io::Result<()> {
    let Ok(ended) = run(case, Fault::NONE, alloc) else {
        return out.write_all(b"NO MEMORY\n");
    };
    write!(out, "WHOLE | {} | ", ended.status.number())?;
    print_lines(ended.out.bytes(), out, alloc)?;
    out.write_all(b" | ")?;
    print_lines(ended.rec.bytes(), out, alloc)?;
    out.write_all(b"\n")?;
    Ok(case.keep(ended.out.bytes(), ended.rec.bytes())?)
}

/// Runs a case with one fault, and prints both texts beside the whole ones.
fn print_fault<W: Write>(
    case: &Case,
    name: &str,
    fault: Fault,
    out: &mut W,
    alloc: Global,
) -> io::Result<()> {
    let Ok(ended) = run(case, fault, alloc) else {
        return out.write_all(b"NO MEMORY\n");
    };
    write!(
        out,
        "{name} {} | {} | ",
        fault.number,
        ended.status.number()
    )?;
    print_common(ended.out.bytes(), &case.out, out, alloc)?;
    out.write_all(b" | ")?;
    print_common(ended.rec.bytes(), &case.rec, out, alloc)?;
    out.write_all(b"\n")
}

/// Runs a case once for each of these numbers of a call.
fn print_faults<W: Write>(
    case: &Case,
    (name, call): (&str, Call),
    (first, last): (u64, u64),
    out: &mut W,
    alloc: Global,
) -> io::Result<()> {
    for number in first..last.saturating_add(1) {
        print_fault(case, name, Fault { call, number }, out, alloc)?;
    }
    Ok(())
}

/// Does what a line asks; a comment and the words of a command are printed as they are. False where it asks nothing.
fn take_line<W: Write>(
    line: &str,
    case: &mut Case,
    out: &mut W,
    alloc: Global,
) -> io::Result<bool> {
    match read_row(line) {
        Some(Row::Comment) => writeln!(out, "{line}")?,
        Some(Row::Command(words)) => {
            case.begin(words, alloc)?;
            writeln!(out, "{line}")?;
        }
        Some(Row::Line(text)) => case.push_line(text)?,
        Some(Row::Drum(pages)) => case.pages = pages,
        Some(Row::Whole) => print_whole(case, out, alloc)?,
        Some(Row::Failing(name, call, first, last)) => {
            print_faults(case, (name, call), (first, last), out, alloc)?;
        }
        None => return Ok(false),
    }
    Ok(true)
}

/// Takes each line of the input. False where one asks nothing, which is told.
fn print_rows<R: BufRead, W: Write>(rows: &mut R, out: &mut W, alloc: Global) -> io::Result<bool> {
    let mut case = Case::new(alloc);
    let mut line = String::new(alloc);
    for number in 1..u64::MAX {
        line.clear();
        if rows.read_line(&mut line)? == 0 {
            return Ok(true);
        }
        let row = line.as_str();
        if !take_line(row.strip_suffix('\n').unwrap_or(row), &mut case, out, alloc)? {
            writeln!(out, "?ROW {number}")?;
            return Ok(false);
        }
    }
    Ok(true)
}

fn main(rt: HostRuntime) -> io::Result<ExitCode> {
    let alloc = rt.alloc();
    let mut rows = BufReader::new(alloc, rt.stdin())?;
    let mut out = rt.stdout();
    if print_rows(&mut rows, &mut out, alloc)? {
        Ok(ExitCode::SUCCESS)
    } else {
        Ok(ExitCode::FAILURE)
    }
}
