// What standard error says to a person. No text of a run goes there, and where it can't be written nothing
// is lost.
use crate::watch::{BadLine, TextKind, Wrong};
use asm_core::AsmFault;
use std::io::Error;
use texts::Status;

/// How the program is used.
const USAGE: &str = "\
usage: tenex run [--frames N] [--drum N] < SCRIPT
       tenex big SEED [--frames N] [--drum N]
       tenex asm T < PROGRAM
       tenex replay [--drum N] < RECORD
       tenex image [--drum N] < RECORD
  run: runs the console script on standard input; the transcript goes to standard output, and the record to the
  file tenex.record in the current folder; the drum is the file tenex.drum there; both are made anew
  big: runs the script that is generated from the seed, a number of 1 to 9 digits, in the same way, and prints
  behind the transcript how many events, units, idle entries and characters there were
  --frames N   page frames of core, 160 to 8192; 256 if not given
  --drum N     pages of the drum, 256 to 16384: the most pages and forks at once; 2048 if not given
  asm: assembles the program on standard input; the lines of a script that put its words at terminal T, 0 to 15,
  go to standard output, and no file is made
  replay: plays the record on standard input; the transcript of its entries goes to standard output, and no file is
  made; where the run had another drum than 2048 pages, the option tells its size
  image: plays the record in the same way; the image of the files that it leaves goes to standard output
  docs/MACHINE.md has the lines of a script, a program and a record, and examples/ some to begin with";

/// An entry of a record is a unit of a fork that can't run there.
const NO_TURN: &str = "tenex: that entry of the record is a unit of a fork that can't run there: \
    the record is of a run with another drum (--drum N), or no run wrote it";

/// Says how the program is used.
pub fn usage<R: Eprint>(rt: &R) {
    let _ = rt.eprintln(USAGE);
}

/// What helps where a command that read this kind of text ended like this: nothing, where it was done, or where the
/// error of a file says it.
fn help(status: Status, of: TextKind) -> Option<&'static str> {
    match status {
        Status::Done | Status::ReadFault | Status::WriteFault => None,
        Status::Usage => Some(USAGE),
        Status::Script => Some(lines_of(of)),
        Status::DrumFault => Some("tenex: the drum failed"),
        Status::Memory => Some(lack_of(of)),
        Status::LongScript => Some(limit_of(of)),
        Status::Illegal => Some(NO_TURN),
        Status::Assembly => Some(lines_of(of)),
        Status::Image => Some("tenex: docs/MACHINE.md has the parts of an image"),
    }
}

/// Where the lines of this kind of text are described.
fn lines_of(kind: TextKind) -> &'static str {
    match kind {
        TextKind::Script => "tenex: docs/MACHINE.md has the lines of a script",
        TextKind::Program => "tenex: docs/MACHINE.md has the lines of a program",
        TextKind::Record => "tenex: docs/MACHINE.md has the lines of a record",
    }
}

/// What there is no memory for, where this kind of text was read.
fn lack_of(kind: TextKind) -> &'static str {
    match kind {
        TextKind::Program => "tenex: there is no memory for the program",
        _ => "tenex: there is no memory for a machine of this size",
    }
}

/// How long this kind of text may be, where it is longer.
fn limit_of(kind: TextKind) -> &'static str {
    match kind {
        TextKind::Script => "tenex: the script has more than 16777216 bytes",
        TextKind::Program => "tenex: the program has more than 1048576 bytes",
        TextKind::Record => "tenex: the record has more than 268435456 bytes",
    }
}

/// Says what helps where a command that read this kind of text ended like this.
pub fn explain<R: Eprint>(rt: &R, status: Status, of: TextKind) {
    if let Some(text) = help(status, of) {
        let _ = rt.eprintln(text);
    }
}

/// Says the system's reason, where a file failed.
pub fn explain_error<R: Eprint>(rt: &R, file: &str, error: Option<&Error>) {
    if let Some(error) = error {
        let _ = eprintln!(rt; "tenex: {file}: {error}");
    }
}

/// What a text of this kind is called.
fn name_of(kind: TextKind) -> &'static str {
    match kind {
        TextKind::Script => "a script",
        TextKind::Program => "a program",
        TextKind::Record => "a record",
    }
}

/// Says which line of a text is bad, and why.
pub fn explain_line<R: Eprint>(rt: &R, bad: &BadLine<'_>) {
    let number = bad.number;
    let _ = match bad.wrong {
        Wrong::NoLine => {
            let name = name_of(bad.of);
            let text = shown(bad);
            eprintln!(rt; "tenex: line {number} is no line of {name}: {text}")
        }
        Wrong::TooLong => eprintln!(rt; "tenex: line {number} has more than 256 bytes"),
        Wrong::TooManyTurns => {
            eprintln!(rt;
                "tenex: with line {number} the script asks for more than 1099511627776 turns"
            )
        }
        Wrong::Unended => eprintln!(rt; "tenex: line {number} does not end with a line feed"),
    };
}

/// A bad line as it can be shown: its bytes, where each is printed. A tab may stand in a program.
fn shown<'a>(bad: &BadLine<'a>) -> &'a str {
    let bytes = bad.bytes;
    let tabs = matches!(bad.of, TextKind::Program);
    if bytes
        .iter()
        .all(|c| is_printed(*c) || (tabs && *c == b'\t'))
    {
        text_of(bytes)
    } else {
        "it has bytes that are not printed"
    }
}

/// Characters of 7 bits as a text.
fn text_of(bytes: &[u8]) -> &str {
    str::from_utf8(bytes).unwrap_or("")
}

/// Whether a byte is a printed character or a space.
fn is_printed(c: u8) -> bool {
    (b' '..=b'~').contains(&c)
}

/// Says what is wrong with the text of a program, by its fault, with the line that is bad, where there is one.
pub fn explain_fault<R: Eprint>(rt: &R, fault: &AsmFault, bad: Option<&BadLine<'_>>) {
    if let Some(bad) = bad {
        return explain_line(rt, bad);
    }
    let _ = match fault {
        AsmFault::Memory => rt.eprintln(lack_of(TextKind::Program)),
        AsmFault::Line(n) => eprintln!(rt;
            "tenex: line {n} is no line of a program, or does not end with a line feed"
        ),
        AsmFault::Overrun(n) => eprintln!(rt;
            "tenex: a word or the label of line {n} would be at 1000000 or above"
        ),
        AsmFault::Doubled(symbol) => {
            let symbol = text_of(symbol.as_slice());
            eprintln!(rt; "tenex: the symbol {symbol} labels two lines")
        }
        AsmFault::Undefined(symbol) => {
            let symbol = text_of(symbol.as_slice());
            eprintln!(rt; "tenex: the symbol {symbol} is used and labels no line")
        }
    };
}
