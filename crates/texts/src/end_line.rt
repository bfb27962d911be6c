// The end of the transcript.
ghost use Rattle.std.specs.Prelude.{◌≡◌, ◌≤◌, ◌+◌, ◌++◌, length, decimal};
ghost use Rattle.script_texts.specs.Texts.{ended, field};
ghost use Rattle.texts.specs.Ends.{closing_line, end_line};
ghost use Rattle.texts.specs.OpenLine.{line_end};
ghost use Rattle.texts.specs.Tally.{tally_line};

use crate::line::Line;
use crate::{Last, Status, Tally};
use script_lang::digits::DECIMAL_DIGITS;

/// How many bytes the line of the counts has at most: a letter, four counts behind their spaces, and the line feed.
const SUMMARY_ROOM: usize = 86;

/// How many bytes the words of a closing line have at most before a number: `?ILLEGAL `.
const WORDS_ROOM: usize = 9;

/// The last line of the transcript, behind the line before, which is open where it is a terminal's of this
/// number.
pub fn end_line(before: Option<u8>, last: Last, tally: &Tally) -> Line
    ensures { result ≡ line_end before ++ end_line last tally.now }
{
    let mut line = Line::behind(before);
    match last {
        Last::Done { .. } => {}
        Last::Summary { .. } => push_tally(&mut line, tally),
        Last::Stopped(status, n) => push_closing(&mut line, status, n),
    }
    line
}

// Puts the line of the counts behind a line.
fn push_tally(line: &mut Line, tally: &Tally)
    requires { length line.old ≤ 1 }
    ensures { line.new ≡ line.old ++ tally_line tally.now }
{
    line.push(b"S ");
    line.push_decimal(tally.events);
    push_count(line, tally.units);
    push_count(line, tally.idles);
    push_count(line, tally.characters);
    line.push(b"\n");
}

// Puts a count behind a line, behind a space.
fn push_count(line: &mut Line, n: u64)
    requires { length line.old ≤ SUMMARY_ROOM }
    ensures bytes { line.new ≡ line.old ++ field (decimal n) }
    ensures long { length line.new ≤ length line.old + 1 + DECIMAL_DIGITS }
{
    line.push(b" ");
    line.push_decimal(n);
}

// Puts the line that tells how a command stopped behind a line.
fn push_closing(line: &mut Line, status: Status, n: u64)
    requires { length line.old ≤ 1 }
    ensures { line.new ≡ line.old ++ closing_line status n }
{
    match status {
        Status::Done | Status::WriteFault | Status::Assembly => {}
        Status::Usage => line.push(b"?USAGE\n"),
        Status::Script => push_numbered(line, b"?LINE ", n),
        Status::DrumFault => line.push(b"?DRUM\n"),
        Status::Memory => line.push(b"?MEMORY\n"),
        Status::ReadFault => line.push(b"?READ\n"),
        Status::LongScript => line.push(b"?LONG SCRIPT\n"),
        Status::Illegal => push_numbered(line, b"?ILLEGAL ", n),
        Status::Image => push_numbered(line, b"?IMAGE ", n),
    }
}

// Puts a line of words and a number behind a line.
fn push_numbered(line: &mut Line, words: &[u8], n: u64)
    requires behind { length line.old ≤ 1 }
    requires words { length words.now ≤ WORDS_ROOM }
    ensures { line.new ≡ line.old ++ ended (words.now ++ decimal n) }
{
    line.push(words);
    line.push_decimal(n);
    line.push(b"\n");
}
