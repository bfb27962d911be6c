// The lines of the transcript.
ghost use Rattle.std.specs.Prelude.{◌≡◌, ◌≤◌, ◌+◌, ◌++◌, length, codes, decimal};
ghost use Rattle.word36.specs.Octal.{octal_padded};
ghost use Rattle.script_texts.specs.Limits.{FitsItem, FitsCause};
ghost use Rattle.machine_names.specs.Bounds.{IsFileName};
ghost use Rattle.script_texts.specs.Texts.{escaped, ended, field, fork_text, cause_text, wait_text, status_text, frozen_text, shown_line};
ghost use Rattle.texts.specs.OpenLine.{item_text, item_open, line_end, line_start, char_end, goes_on};
ghost use Rattle.script_texts.specs.declared.event.Item.TheVariants.{Examined as AnExamined, PageLine as APageLine, PageWord as APageWord, UnitLine as AUnitLine};

use crate::line::{ADDRESS_DIGITS, LINE_ROOM, Line};
use machine_names::{FileName, ForkName, Tty};
use script_lang::digits::{DECIMAL_DIGITS, escaped, octal};
use script_texts::{ForkLine, ForkStatus, Item, Refusal, WaitOn};
use word36::{WORD_DIGITS, Word};

/// How many octal digits the offset of a word in its page is written with.
const OFFSET_DIGITS: usize = 3;

/// How many bytes the status of a fork has at most: a word and a channel.
const STATUS_ROOM: usize = 27;

/// How many bytes tell at most how a fork stands: its status, its freeze mark and its program counter.
const STANDING_ROOM: usize = 45;

/// How many bytes the words of a refusal have at most.
const WORDS_ROOM: usize = 20;

/// The bytes of an item behind the line before, which is open where it is a terminal's of this number.
pub fn item_line(before: Option<u8>, i: &Item) -> Line
    requires { FitsItem i.now }
    ensures { result ≡ item_text before i.now }
{
    match i {
        Item::Char(t, c) => char_line(before, *t, *c),
        Item::ForkLine(fork) => fork_line(before, fork),
        Item::Examined(t, serial, address, word) => {
            examined_line(before, *t, *serial, *address, *word)
        }
        Item::PageLine(name, page) => page_line(before, name, *page),
        Item::PageWord(offset, word) => page_word_line(before, *offset, *word),
        Item::UnitLine(f, address) => unit_line(before, *f, *address),
        Item::Refusal(cause) => refusal_line(before, cause),
    }
}

/// Whether a character of a terminal goes on in the line that is open, and doesn't end it.
pub fn goes_on(before: Option<u8>, t: Tty, c: u8) -> bool
    ensures { result ≡ goes_on before t.0 c }
{
    before == Some(t.0) && c != b'\n'
}

/// The number of the terminal whose line is open behind an item.
pub fn open_line(i: &Item) -> Option<u8>
    ensures { result ≡ item_open i.now }
{
    match i {
        Item::Char(_, b'\n') => None,
        Item::Char(t, _) => Some(t.0),
        _ => None,
    }
}

// A character of a terminal.
fn char_line(before: Option<u8>, t: Tty, c: u8) -> Line
    ensures { result ≡ line_start before t.0 ++ (escaped c ++ char_end c) }
{
    let mut line = line_start(before, t);
    line.push(escaped(c).as_slice());
    line.push(char_end(c));
    line
}

// What stands before a character of a terminal: nothing where its line is open.
fn line_start(before: Option<u8>, t: Tty) -> Line
    ensures bytes { result ≡ line_start before t.0 }
    ensures short { length result ≤ DECIMAL_DIGITS + 3 }
{
    if before == Some(t.0) {
        return Line::new();
    }
    let mut line = Line::behind(before);
    line.push(b"T");
    line.push_decimal(u64::from(t.0));
    line.push(b" ");
    line
}

// What stands behind a character: a line feed ends its line.
fn char_end(c: u8) -> &'static [u8]
    ensures bytes { result.now ≡ char_end c }
    ensures short { length result.now ≤ 1 }
{
    if c == b'\n' { b"\n" } else { b"" }
}

// The line of a fork.
fn fork_line(before: Option<u8>, fork: &ForkLine) -> Line
    ensures { result ≡ line_end before ++ ended (fork_text fork.now) }
{
    let mut line = Line::behind(before);
    line.push(b"F ");
    line.push_name(fork.name);
    line.push(b" ");
    line.push_decimal(u64::from(fork.superior));
    push_standing(&mut line, fork);
    line.push(b"\n");
    line
}

// Puts how a fork stands, and its program counter, behind a line.
fn push_standing(line: &mut Line, fork: &ForkLine)
    requires { length line.old + STANDING_ROOM ≤ LINE_ROOM }
    ensures bytes { line.new ≡ line.old ++ (field (status_text fork.now.status) ++ (frozen_text fork.now.frozen ++ (codes " PC " ++ octal_padded 6 fork.now.address))) }
    ensures short { length line.new ≤ length line.old + STANDING_ROOM }
{
    line.push(b" ");
    push_status(line, fork.status);
    line.push(frozen_text(fork.frozen));
    line.push(b" PC ");
    line.push_octal(ADDRESS_DIGITS, u64::from(fork.address));
}

// Puts how a fork stands behind a line.
fn push_status(line: &mut Line, status: ForkStatus)
    requires { length line.old + STATUS_ROOM ≤ LINE_ROOM }
    ensures bytes { line.new ≡ line.old ++ status_text status }
    ensures short { length line.new ≤ length line.old + STATUS_ROOM }
{
    match status {
        ForkStatus::Run => line.push(b"RUN"),
        ForkStatus::Wait(on) => line.push(wait_text(on)),
        ForkStatus::Halted => line.push(b"HALT"),
        ForkStatus::Forced(channel) => {
            line.push(b"FORCED ");
            line.push_decimal(u64::from(channel));
        }
    }
}

// What a fork waits for.
fn wait_text(on: WaitOn) -> &'static [u8]
    ensures bytes { result.now ≡ wait_text on }
    ensures short { length result.now ≤ 5 }
{
    match on {
        WaitOn::Input => b"INPUT",
        WaitOn::Fork => b"FORK",
        WaitOn::Sleep(_) => b"SLEEP",
    }
}

// What stands behind the status of a fork.
fn frozen_text(frozen: bool) -> &'static [u8]
    ensures bytes { result.now ≡ frozen_text frozen }
    ensures short { length result.now ≤ 7 }
{
    if frozen { b" FROZEN" } else { b"" }
}

// The line of a word that is examined.
fn examined_line(before: Option<u8>, t: Tty, serial: u32, address: u32, word: Word) -> Line
    ensures { result ≡ line_end before ++ ended (shown_line (AnExamined t serial address word)) }
{
    let mut line = Line::behind(before);
    line.push(b"X ");
    line.push_decimal(u64::from(t.0));
    line.push(b" ");
    line.push_decimal(u64::from(serial));
    line.push(b" ");
    line.push_octal(ADDRESS_DIGITS, u64::from(address));
    line.push(b" ");
    line.push_octal(WORD_DIGITS, word.value());
    line.push(b"\n");
    line
}

// The line of a file's page.
fn page_line(before: Option<u8>, name: &FileName, page: u16) -> Line
    requires { IsFileName name.now }
    ensures { result ≡ line_end before ++ ended (shown_line (APageLine name.now page)) }
{
    let mut line = Line::behind(before);
    line.push(b"P ");
    line.push(name.as_slice());
    line.push(b" ");
    line.push(octal(u64::from(page)).as_slice());
    line.push(b"\n");
    line
}

// The line of a word of a file's page.
fn page_word_line(before: Option<u8>, offset: u16, word: Word) -> Line
    ensures { result ≡ line_end before ++ ended (shown_line (APageWord offset word)) }
{
    let mut line = Line::behind(before);
    line.push(b"W ");
    line.push_octal(OFFSET_DIGITS, u64::from(offset));
    line.push(b" ");
    line.push_octal(WORD_DIGITS, word.value());
    line.push(b"\n");
    line
}

// The line of a unit.
fn unit_line(before: Option<u8>, f: ForkName, address: u32) -> Line
    ensures { result ≡ line_end before ++ ended (shown_line (AUnitLine f address)) }
{
    let mut line = Line::behind(before);
    line.push(b"U ");
    line.push_name(f);
    line.push(b" ");
    line.push_octal(ADDRESS_DIGITS, u64::from(address));
    line.push(b"\n");
    line
}

// The line of a refusal.
fn refusal_line(before: Option<u8>, cause: &Refusal) -> Line
    requires { FitsCause cause.now }
    ensures { result ≡ line_end before ++ ended (cause_text cause.now) }
{
    match cause {
        Refusal::Busy(t) => terminal_line(before, b"?BUSY ", *t),
        Refusal::NoJob(t) => terminal_line(before, b"?NO JOB ", *t),
        Refusal::SerialsOut(t) => terminal_line(before, b"?SERIALS OUT ", *t),
        Refusal::Full(t) => terminal_line(before, b"?FULL ", *t),
        Refusal::Denied(t) => terminal_line(before, b"?DENIED ", *t),
        Refusal::NoFork(t) => terminal_line(before, b"?NO FORK ", *t),
        Refusal::NoPage(t) => terminal_line(before, b"?NO PAGE ", *t),
        Refusal::Exists(name) => file_line(before, b"?EXISTS ", name),
        Refusal::FilesFull(name) => file_line(before, b"?FILES FULL ", name),
        Refusal::NoFile(name) => file_line(before, b"?NO FILE ", name),
        Refusal::FileFull(name) => file_line(before, b"?FULL ", name),
        Refusal::NoFilePage(name) => file_line(before, b"?NO PAGE ", name),
    }
}

// Words and the number of a terminal as a line.
fn terminal_line(before: Option<u8>, words: &[u8], t: Tty) -> Line
    requires { length words.now ≤ WORDS_ROOM }
    ensures { result ≡ line_end before ++ ended (words.now ++ decimal t.0) }
{
    let mut line = Line::behind(before);
    line.push(words);
    line.push_decimal(u64::from(t.0));
    line.push(b"\n");
    line
}

// Words and the name of a file as a line.
fn file_line(before: Option<u8>, words: &[u8], name: &FileName) -> Line
    requires words { length words.now ≤ WORDS_ROOM }
    requires name { IsFileName name.now }
    ensures { result ≡ line_end before ++ ended (words.now ++ name.now) }
{
    let mut line = Line::behind(before);
    line.push(words);
    line.push(name.as_slice());
    line.push(b"\n");
    line
}
