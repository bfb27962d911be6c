//! The program: it hands its words, standard input, standard output and the files `tenex.record` and `tenex.drum` to the one
//! call `tenex`; where the words are those of a command that reads a text, no file, and what takes their place. To its user the
//! exit status is how that ended, and standard error says what helps. Stands on tenex_console, and on host_side for the files and
//! what helps.
#![tactic(auto)]

use asm_core::AsmFault;
use command_words::{TextCommand, asked_run};
use host_side::{
    BadLine, DRUM, Kept, RECORD, TextKind, Watched, explain, explain_error, explain_fault,
    explain_line, make_drum, make_record, usage,
};
use outside::{FileDrum, Source, StdSink, StdSource, SureDrum, SureSink};
use std::fs::File;
use std::io::{self, BufWriter, ErrorKind};
use std::process::ExitCode;
use std::rt::Env;
use std::{env, fs};
use tenex_console::tenex;
use texts::Status;

/// What stands in for a standard stream that is closed: a folder, of which nothing is read and to which nothing is written.
const NO_STREAM: &str = "/";

/// The pages of the drum that stands in for one where a command uses none.
const NO_PAGES: u32 = 0;

/// The exit status where the file of the record or of the drum can't be made.
const CANNOT_OPEN: u8 = 9;

/// The words of the command after the program's name.
fn words<R: Env + AllocGlobal>(rt: &R) -> io::Result<Vec<String>> {
    let alloc = rt.alloc();
    Ok(env::args(rt)?.skip(1).collect(alloc)?)
}

/// Whether the words want no run, but the usage: there is none, or one that asks for help.
fn ask_for_usage(words: &[String]) -> bool {
    match words {
        [] => true,
        [word] => word.as_str() == "help" || word.as_str() == "--help",
        _ => false,
    }
}

/// Prints the one line of a run that did not begin, and answers its exit status.
fn refused<R: Print>(rt: &R, line: &str, status: u8) -> u8 {
    match rt.println(line) {
        Ok(()) => status,
        Err(_) => Status::WriteFault.number(),
    }
}

/// There is no memory, before the run or for its streams.
fn no_memory(rt: &HostRuntime) -> u8 {
    explain(rt, Status::Memory, TextKind::Script);
    refused(rt, "?MEMORY", Status::Memory.number())
}

/// The words are wrong, or ask for the usage. Nothing is started.
fn wrong_words(rt: &HostRuntime) -> u8 {
    usage(rt);
    refused(rt, "?USAGE", Status::Usage.number())
}

/// Runs the script on standard input, or a generated one, with these words, and these files for the record and the drum.
fn run(rt: &HostRuntime, words: &[String], record: File, drum: File) -> u8 {
    let alloc = rt.alloc();
    let Ok(printer) = BufWriter::new(alloc, rt.stdout()) else {
        return no_memory(rt);
    };
    let Ok(record) = BufWriter::new(alloc, record) else {
        return no_memory(rt);
    };
    let mut script = Watched::new(StdSource::new(rt.stdin()));
    let mut out = StdSink::new(printer);
    let mut rec = StdSink::new(record);
    let mut drum = FileDrum::new(drum);
    let status = tenex(alloc, words, &mut script, &mut out, &mut rec, &mut drum);
    if status == Status::Script {
        explain_bad(rt, &script);
    }
    explain(rt, status, TextKind::Script);
    explain_error(rt, "standard input", script.source().error());
    explain_error(rt, "standard output", out.error());
    explain_error(rt, RECORD, rec.error());
    if status == Status::DrumFault {
        explain_error(rt, DRUM, drum.error());
    }
    status.number()
}

/// Says which line of a bad script is bad.
fn explain_bad<S: Source>(rt: &HostRuntime, script: &Watched<S>) {
    if let Some(bad) = script.bad() {
        explain_line(rt, &bad);
    }
}

/// Makes of the text of this kind on standard input what these words ask for. No file is made.
fn read_text(rt: &HostRuntime, words: &[String], of: TextKind) -> u8 {
    let alloc = rt.alloc();
    let Ok(printer) = BufWriter::new(alloc, rt.stdout()) else {
        return no_memory(rt);
    };
    let Ok(mut drum) = SureDrum::new(alloc, NO_PAGES) else {
        return no_memory(rt);
    };
    let mut text = StdSource::new(rt.stdin());
    let mut out = StdSink::new(printer);
    let mut rec = SureSink::new();
    let status = tenex(alloc, words, &mut text, &mut out, &mut rec, &mut drum);
    explain(rt, status, of);
    explain_error(rt, "standard input", text.error());
    explain_error(rt, "standard output", out.error());
    status.number()
}

/// Assembles the program on standard input with these words. No file is made; its text is kept, to show what is wrong with it.
fn assemble(rt: &HostRuntime, words: &[String]) -> u8 {
    let alloc = rt.alloc();
    let Ok(printer) = BufWriter::new(alloc, rt.stdout()) else {
        return no_memory(rt);
    };
    let Ok(mut drum) = SureDrum::new(alloc, NO_PAGES) else {
        return no_memory(rt);
    };
    let mut text = Kept::new(alloc, StdSource::new(rt.stdin()));
    let mut out = StdSink::new(printer);
    let mut rec = SureSink::new();
    let status = tenex(alloc, words, &mut text, &mut out, &mut rec, &mut drum);
    explain_program(rt, status, &text);
    explain_error(rt, "standard input", text.source().error());
    explain_error(rt, "standard output", out.error());
    status.number()
}

/// Says why the text of a program was not assembled. The status doesn't tell for which fault, so the text is looked through
/// once more.
fn explain_program<S: Source>(rt: &HostRuntime, status: Status, text: &Kept<S>) {
    if status != Status::Assembly {
        return explain(rt, status, TextKind::Program);
    }
    match text.fault(rt.alloc()) {
        Some(fault) => explain_fault(rt, &fault, bad_line(&fault, text).as_ref()),
        None => explain(rt, status, TextKind::Program),
    }
}

/// The line for which a text is no program, where it is for one that is no line.
fn bad_line<'a, S: Source>(fault: &AsmFault, text: &'a Kept<S>) -> Option<BadLine<'a>> {
    match fault {
        AsmFault::Line(number) => text.bad(*number),
        _ => None,
    }
}

/// A file of a run can't be made.
fn cannot_open(rt: &HostRuntime, file: &str, error: &io::Error) -> u8 {
    explain_error(rt, file, Some(error));
    refused(rt, "?CANNOT OPEN", CANNOT_OPEN)
}

/// Makes the file of the drum anew where the words ask for a run, and runs. Wrong words leave the drum as it is.
fn run_asked(rt: &HostRuntime, words: &[String], record: File) -> u8 {
    match asked_run(rt.alloc(), words) {
        Ok(Some(_)) => match make_drum(rt) {
            Ok(drum) => run(rt, words, record, drum),
            Err(error) => cannot_open(rt, DRUM, &error),
        },
        Ok(None) => wrong_words(rt),
        Err(_) => no_memory(rt),
    }
}

/// Makes the file of the record anew, and runs.
fn run_recorded(rt: &HostRuntime, words: &[String]) -> u8 {
    match make_record(rt) {
        Ok(record) => run_asked(rt, words, record.file),
        Err(error) => cannot_open(rt, RECORD, &error),
    }
}

/// A word is no text. The record is emptied, as with other wrong words.
fn refuse_no_text(rt: &HostRuntime) -> u8 {
    match make_record(rt) {
        Ok(_) => wrong_words(rt),
        Err(error) => cannot_open(rt, RECORD, &error),
    }
}

/// Does what the command is that the first of its words names, right or wrong.
fn command(rt: &HostRuntime, words: &[String]) -> u8 {
    match TextCommand::begun_by(words) {
        Some(TextCommand::Record(_)) => read_text(rt, words, TextKind::Record),
        Some(TextCommand::Assemble) => assemble(rt, words),
        None => run_recorded(rt, words),
    }
}

/// The exit status of the program.
fn status(rt: &HostRuntime) -> u8 {
    match words(rt) {
        Ok(words) if ask_for_usage(&words) => wrong_words(rt),
        Ok(words) => command(rt, &words),
        Err(error) if error.kind() == ErrorKind::OutOfMemory => no_memory(rt),
        Err(_) => refuse_no_text(rt),
    }
}

/// Takes the places of standard streams that are closed, so that no file is opened there: such a stream fails
/// where it is used.
fn stand_in(rt: &HostRuntime) -> [io::Result<File>; 3] {
    [
        fs::open(rt, NO_STREAM),
        fs::open(rt, NO_STREAM),
        fs::open(rt, NO_STREAM),
    ]
}

fn main(rt: HostRuntime) -> ExitCode {
    let _streams = stand_in(&rt);
    ExitCode::from(status(&rt))
}
