//! Rows of what is typed: reads words of a command, names of files and commands to the monitor, one a line, and prints what each is read as.
//! No layer stands above; to a reader a row is a line with what it asks for, or with `nothing`.
//! Stands on command_words, script_lang, file_dir and exec_cmd.
#![tactic(auto)]

mod asked;
mod named;

use asked::show_asked;
use exec_cmd::read;
use machine_names::DirName;
use named::{show_command, show_name};
use std::alloc::Global;
use std::io::{self, BufRead, BufReader, Write};
use std::process::ExitCode;

/// Prints what a row comes to: its first word says how it is read. False where that is no such word.
fn show<W: Write>(row: &[u8], out: &mut W, alloc: Global) -> io::Result<bool> {
    let user = DirName::new(b"SMITH");
    if let Some(words) = row.strip_prefix(b"WORDS") {
        return show_asked(words, out, alloc);
    }
    if let Some(text) = row.strip_prefix(b"NAME ") {
        show_name(script_lang::read_name(text, b"", &user), out)?;
    } else if let Some(text) = row.strip_prefix(b"PROGRAM ") {
        show_name(script_lang::read_name(text, b"SAV", &user), out)?;
    } else if let Some(text) = row.strip_prefix(b"FILE ") {
        show_name(file_dir::read_name(text, &user), out)?;
    } else if let Some(line) = row.strip_prefix(b"COMMAND ") {
        show_command(&read(line, &user), out)?;
    } else {
        return Ok(false);
    }
    Ok(true)
}

/// Prints a row with what it comes to; a comment as it is. False where it is no row.
fn print_row<W: Write>(row: &[u8], out: &mut W, alloc: Global) -> io::Result<bool> {
    out.write_all(row)?;
    if !row.starts_with(b";") {
        out.write_all(b" | ")?;
        if !show(row, out, alloc)? {
            return Ok(false);
        }
    }
    out.write_all(b"\n")?;
    Ok(true)
}

/// Prints each row of the input, up to one that is none. False where there is one.
fn print_rows<R: BufRead, W: Write>(rows: &mut R, out: &mut W, alloc: Global) -> io::Result<bool> {
    let mut row = Vec::new(alloc);
    for _count in 0..u64::MAX {
        row.clear();
        if rows.read_until(b'\n', &mut row)? == 0 {
            return Ok(true);
        }
        if !print_row(row.strip_suffix(b"\n").unwrap_or(&row), out, alloc)? {
            return Ok(false);
        }
    }
    Ok(true)
}

fn main(rt: HostRuntime) -> io::Result<ExitCode> {
    let alloc = rt.alloc();
    let mut rows = BufReader::new(alloc, rt.stdin())?;
    let mut out = rt.stdout();
    if print_rows(&mut rows, &mut out, alloc)? {
        Ok(ExitCode::SUCCESS)
    } else {
        Ok(ExitCode::FAILURE)
    }
}
