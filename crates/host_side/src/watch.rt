// The lines of a script that were read last, kept so that a bad one can be named.
ghost use Rattle.std.specs.Prelude.{◌≡◌, ◌↔◌, ◌<◌, ◌≤◌, length, IfSome};
ghost use Rattle.host_side.specs.BadLines.{IsWrong};

use line_buffer::MOST_LINE;
use outside::{Failed, Source};
use script_lang::{MOST_TURNS, Read, read_line};
use script_texts::Event;

/// How many bytes are kept: what was read last, and before it the line that had no end yet.
const KEPT_BYTES: usize = 8192;

/// What is wrong with a line of a script.
#[derive(Clone, Copy)]
pub enum Wrong {
    /// It is no line of the grammar.
    NoLine,
    /// It has more bytes than a line may have.
    TooLong,
    /// Its turns are more than those of a script may be, together with those before it.
    TooManyTurns,
    /// It is the last one, and has no line feed.
    Unended,
}

/// What a text is, or was to be.
#[derive(Clone, Copy)]
pub enum TextKind {
    Script,
    Program,
    Record,
}

/// A bad line: its number, counted from 1, what is wrong with it, of what it is one, and its bytes.
#[derive(Clone, Copy)]
pub struct BadLine<'a> {
    pub number: u64,
    pub wrong: Wrong,
    pub of: TextKind,
    pub bytes: &'a [u8],
}

// The lines that went by: how many, and how many turns they ask for.
#[derive(Clone, Copy)]
struct Lines {
    lines: u64,
    turns: u64,
}

impl Lines {
    // A good line went by. Only a RUN line has turns, so no other is read once more.
    fn pass(&mut self, line: &[u8]) {
        self.lines = self.lines.saturating_add(1);
        if !line.starts_with(b"RUN ") {
            return;
        }
        if let Read::One(Event::Run(turns)) = read_line(line) {
            self.turns = self.turns.saturating_add(u64::from(turns));
        }
    }

    // What is wrong with the next line, or with what stands there of one that has no end.
    fn wrong(&mut self, line: &[u8], is_ended: bool) -> Option<Wrong>
        ensures { IfSome result (λ wrong. IsWrong wrong line.now) }
    {
        self.lines = self.lines.saturating_add(1);
        if !is_ended {
            return Some(unended(line));
        }
        if line.len() > MOST_LINE {
            return Some(Wrong::TooLong);
        }
        match read_line(line) {
            Read::Nothing => None,
            Read::Bad => Some(Wrong::NoLine),
            Read::One(event) => self.wrong_event(&event),
        }
    }

    // What is wrong with the event of a line.
    fn wrong_event(&mut self, event: &Event) -> Option<Wrong>
        ensures { IfSome result (λ wrong. wrong ≡ Wrong.TooManyTurns) }
    {
        if let Event::Run(turns) = event {
            self.turns = self.turns.saturating_add(u64::from(*turns));
        }
        if self.turns > MOST_TURNS {
            return Some(Wrong::TooManyTurns);
        }
        None
    }
}

/// What is wrong with a line that has no line feed: it is too long, or else it is unended.
pub fn unended(line: &[u8]) -> Wrong
    ensures wrong { IsWrong result line.now }
    ensures long { result ≡ Wrong.TooLong ↔ MOST_LINE < length line.now }
    ensures unended { result ≡ Wrong.Unended ↔ length line.now ≤ MOST_LINE }
{
    if line.len() > MOST_LINE {
        Wrong::TooLong
    } else {
        Wrong::Unended
    }
}

// A line without its line feed, and whether it has one.
fn cut(piece: &[u8]) -> (&[u8], bool) {
    match piece.strip_suffix(b"\n") {
        Some(line) => (line, true),
        None => (piece, false),
    }
}

// The bytes that are kept, and the lines before them.
#[derive(Drop)]
struct Watch {
    bytes: [u8; KEPT_BYTES],
    count: usize,
    before: Lines,
}

impl Watch {
    // Nothing is kept, behind so many lines.
    fn behind(before: Lines) -> Self {
        Watch {
            bytes: [0; KEPT_BYTES],
            count: 0,
            before,
        }
    }

    // The bytes that are kept.
    fn kept(&self) -> &[u8] {
        self.bytes.get(..self.count).unwrap_or(&[])
    }

    // Keeps bytes too, as long as there is room: what is read at once is less than half of it.
    fn keep(&mut self, bytes: &[u8]) {
        if bytes.len() <= KEPT_BYTES && self.count <= KEPT_BYTES - bytes.len() {
            self.bytes[self.count..self.count + bytes.len()].copy_from_slice(bytes);
            self.count += bytes.len();
        }
    }

    // More is read, so the lines that have their end are good: only the one without is kept.
    fn take(&mut self, bytes: &[u8]) {
        let mut before = self.before;
        let mut begun: &[u8] = &[];
        for piece in self.kept().split_inclusive(|c| *c == b'\n') {
            match piece.strip_suffix(b"\n") {
                Some(line) => before.pass(line),
                None => begun = piece,
            }
        }
        let mut watch = Watch::behind(before);
        watch.keep(begun);
        watch.keep(bytes);
        *self = watch;
    }
}

/// A source, and what was read of it last.
#[derive(Drop)]
pub struct Watched<S: Source> {
    source: S,
    watch: Watch,
}

impl<S: Source> Watched<S> {
    /// Nothing was read yet.
    pub fn new(source: S) -> Self
        ensures { result.source ≡ source }
    {
        Watched {
            source,
            watch: Watch::behind(Lines { lines: 0, turns: 0 }),
        }
    }

    /// The source.
    pub fn source(&self) -> &S
        ensures { result.now ≡ self.now.source }
    {
        &self.source
    }

    /// The first bad line, where the source was read until there was one, and no further. What is wrong with it is so of its bytes.
    pub fn bad(&self) -> Option<BadLine<'_>>
        ensures { IfSome result (λ bad. IsWrong bad.wrong bad.bytes.now × (bad.of ≡ TextKind.Script)) }
    {
        let mut lines = self.watch.before;
        for piece in self.watch.kept().split_inclusive(|c| *c == b'\n') {
            let (line, is_ended) = cut(piece);
            if let Some(wrong) = lines.wrong(line, is_ended) {
                return Some(BadLine {
                    number: lines.lines,
                    wrong,
                    of: TextKind::Script,
                    bytes: line,
                });
            }
        }
        None
    }
}

impl<S: Source> Source for Watched<S> {
    ghost fault_count = { λ w. S.fault_count w.source };

    ghost left = { λ w. S.left w.source };

    fn faults(&self) -> u64 {
        self.source.faults()
    }

    // What it answers is what the source gave.
    fn read(&mut self, piece: &mut [u8]) -> Result<usize, Failed> {
        let count = self.source.read(piece)?;
        if count > 0 {
            self.watch.take(&piece[..count]);
        }
        Ok(count)
    }
}
