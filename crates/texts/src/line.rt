// Lines of a text, each made whole before it is written.
ghost use Rattle.std.specs.Prelude.{◌≡◌, ◌≤◌, ◌+◌, ◌++◌, [], length, decimal};
ghost use Rattle.word36.specs.Octal.{octal_padded};
ghost use Rattle.script_texts.specs.Texts.{name_text};
ghost use Rattle.texts.specs.OpenLine.{line_end};

use machine_names::ForkName;
use script_lang::digits::{DECIMAL_DIGITS, decimal, octal_padded};
use std::marker::Model;
use word36::WORD_DIGITS;

/// How many bytes the name of a fork has at most: two numbers, and a space between them.
pub const NAME_ROOM: usize = 41;

/// How many bytes the line of a run has at most: a letter, a name and a count behind their spaces, and the line
/// feed.
pub const RUN_ROOM: usize = 65;

/// How many bytes the line of an event has at most, without its line feed.
pub const EVENT_ROOM: usize = 256;

/// How many bytes a line has room for: the line of a run, and that of an event behind it.
pub const LINE_ROOM: usize = RUN_ROOM + EVENT_ROOM + 1;

/// How many octal digits an address is written with.
pub const ADDRESS_DIGITS: usize = 6;

/// A line of a text, and what stands before it: at most `LINE_ROOM` bytes, which clauses see as their list.
#[derive(Drop)]
pub struct Line {
    bytes: [u8; LINE_ROOM],
    count: usize,
}

impl Model for Line {
    ghost use Rattle.std.specs.Prelude.{List, ℕ, ◌≡◌, ◌≤◌, length, take};
    ghost use Rattle.texts.specs.declared.line.TheConstants.{LINE_ROOM};

    ghost Value = { List ℕ };

    ghost view = { λ l. take l.count l.bytes };

    ghost invariant = { λ l. (length l.bytes ≡ LINE_ROOM) × (l.count ≤ LINE_ROOM) };
}

impl Line {
    /// A line of no bytes.
    pub fn new() -> Self
        ensures { result ≡ [] }
    {
        Line {
            bytes: [0; LINE_ROOM],
            count: 0,
        }
    }

    /// A line behind the line before. Where that one is open it is a terminal's of this number, and its line
    /// feed comes first.
    pub fn behind(before: Option<u8>) -> Self
        ensures bytes { result ≡ line_end before }
        ensures short { length result ≤ 1 }
    {
        let mut line = Line::new();
        if before.is_some() {
            line.push(b"\n");
        }
        line
    }

    /// The bytes of the line.
    pub fn as_slice(&self) -> &[u8]
        ensures { result.now ≡ self.now }
    {
        &self.bytes[..self.count]
    }

    /// Puts bytes behind the line.
    pub fn push(&mut self, piece: &[u8])
        requires { length self.old + length piece.now ≤ LINE_ROOM }
        ensures bytes { self.new ≡ self.old ++ piece.now }
        ensures long { length self.new ≡ length self.old + length piece.now }
    {
        let end = self.count + piece.len();
        self.bytes[self.count..end].copy_from_slice(piece);
        self.count = end;
    }

    /// Puts the decimal digits of a number behind the line.
    pub fn push_decimal(&mut self, n: u64)
        requires { length self.old + DECIMAL_DIGITS ≤ LINE_ROOM }
        ensures bytes { self.new ≡ self.old ++ decimal n }
        ensures short { length self.new ≤ length self.old + DECIMAL_DIGITS }
    {
        let digits = decimal(n);
        self.push(digits.as_slice());
    }

    /// Puts so many octal digits of a number behind the line, the last ones.
    pub fn push_octal(&mut self, width: usize, n: u64)
        requires width { width ≤ WORD_DIGITS }
        requires room { length self.old + width ≤ LINE_ROOM }
        ensures bytes { self.new ≡ self.old ++ octal_padded width n }
        ensures long { length self.new ≡ length self.old + width }
    {
        let digits = octal_padded(width, n);
        self.push(digits.as_slice());
    }

    /// Puts the name of a fork behind the line: its terminal's number and its serial.
    pub fn push_name(&mut self, f: ForkName)
        requires { length self.old + NAME_ROOM ≤ LINE_ROOM }
        ensures bytes { self.new ≡ self.old ++ name_text f }
        ensures short { length self.new ≤ length self.old + NAME_ROOM }
    {
        self.push_decimal(u64::from(f.tty.0));
        self.push(b" ");
        self.push_decimal(u64::from(f.serial));
    }
}
