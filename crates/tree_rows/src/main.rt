//! Rows of forks: reads what is done to the forks of jobs, a deed a line, and prints what it answers.
//! No layer stands above; to a reader the rows behind `NEW` are the life of a job, step by step.
//! Stands on fork_tree.
#![tactic(auto)]

mod bodies;
mod deeds;
mod making;
mod seeing;

use bodies::change;
use deeds::{Answer, Deed, read_deed};
use fork_tree::Tree;
use making::make;
use seeing::see;
use std::alloc::Global;
use std::io::{self, BufRead, BufReader, Write};
use std::process::ExitCode;

/// Does what a row says, and answers that: a new tree is there, or a deed is done on the tree. None where neither can be.
fn act(tree: &mut Tree, deed: &Deed<'_>, alloc: Global) -> Option<Answer> {
    if deed.name == "NEW" {
        *tree = Tree::boot(alloc).ok()?;
        return Some(Answer::Done);
    }
    if let Some(answer) = make(tree, deed) {
        return Some(answer);
    }
    if let Some(answer) = change(tree, deed) {
        return Some(answer);
    }
    see(tree, deed)
}

/// Does what a row says, and prints the row with what that answers; a comment as it is. False where it can't be done.
fn print_row<W: Write>(
    line: &str,
    tree: &mut Tree,
    out: &mut W,
    alloc: Global,
) -> io::Result<bool> {
    if line.starts_with(';') {
        writeln!(out, "{line}")?;
        return Ok(true);
    }
    let Some(deed) = read_deed(line) else {
        return Ok(false);
    };
    let Some(answer) = act(tree, &deed, alloc) else {
        return Ok(false);
    };
    write!(out, "{line} |")?;
    answer.show(out)?;
    writeln!(out)?;
    Ok(true)
}

/// Does what each row of the input says. False where one can't be done, which is told.
fn print_rows<R: BufRead, W: Write>(
    rows: &mut R,
    tree: &mut Tree,
    out: &mut W,
    alloc: Global,
) -> io::Result<bool> {
    let mut line = String::new(alloc);
    for number in 1..u64::MAX {
        line.clear();
        if rows.read_line(&mut line)? == 0 {
            return Ok(true);
        }
        let row = line.as_str();
        let row = row.strip_suffix('\n').unwrap_or(row);
        if !print_row(row, tree, out, alloc)? {
            writeln!(out, "?ROW {number}")?;
            return Ok(false);
        }
    }
    Ok(true)
}

/// Does so from no fork on. The forks are let go here alone.
fn run<R: BufRead, W: Write>(rows: &mut R, out: &mut W, alloc: Global) -> io::Result<bool> {
    match Tree::boot(alloc) {
        Ok(mut tree) => print_rows(rows, &mut tree, out, alloc),
        Err(_) => Ok(false),
    }
}

fn main(rt: HostRuntime) -> io::Result<ExitCode> {
    let alloc = rt.alloc();
    let mut rows = BufReader::new(alloc, rt.stdin())?;
    let mut out = rt.stdout();
    if run(&mut rows, &mut out, alloc)? {
        Ok(ExitCode::SUCCESS)
    } else {
        Ok(ExitCode::FAILURE)
    }
}
