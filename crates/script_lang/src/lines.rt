// A script's lines, from a source that gives its bytes in pieces.
ghost use Rattle.std.specs.Prelude.{◌≡◌, ◌≢◌, ◌⊎◌, ◌↔◌, ◌+◌, ◌-◌, ◌^◌, ◌<◌, ◌≤◌, ℕ, [], ◌∷◌, drop, length, take, IsTrue};
ghost use Rattle.outside.specs.Faults.{Rose};
ghost use Rattle.script_texts.specs.Limits.{FitsEvent};
ghost use Rattle.script_texts.specs.Script.{HasNoFeed, IsBadRest, IsLongRest, most_bytes, most_turns, turns_of as turns_asked};
ghost use Rattle.script_texts.specs.declared.event.Event.{Event as AnEvent};
ghost use Rattle.line_buffer.specs.Feeds.{AllLeft, IsFed, Reads, Spends};

use crate::grammar::{Read, is_blank, read_line};
use crate::reached::{MOST_BYTES, MOST_TURNS, Reached};
use line_buffer::{Buffer, Found, MOST_LINE, Passed, line_end};
use outside::Source;
use script_texts::Event;

/// What a script has next.
#[derive(Clone, Copy)]
pub enum Next {
    /// The event of the next line that has one.
    One(Event),
    /// The end: nothing is left but lines without an event.
    End,
    /// The line of this number, counted from 1, is bad: none of a script, too long, without a line
    /// feed at the end, or a RUN whose turns are too many behind those before it.
    Bad(u64),
    /// The source failed.
    ReadFault,
    /// The script is longer than MOST_BYTES, and all its lines that end within these were given.
    Long,
}

// Whether more may be asked for.
#[derive(Clone, Copy)]
enum Reading {
    Open,
    Ended,
}

// What one line is.
#[derive(Clone, Copy)]
enum Line {
    // A line with an event, which is given.
    One(Event),
    // A line without one, which is passed over.
    Blank,
    Bad,
    // It does not end within the limit.
    Long,
    // There is none.
    End,
    Fault,
}

/// A script, read from a source in pieces and given line by line.
#[derive(Drop)]
pub struct Lines {
    buffer: Buffer,
    reached: Reached,
    stage: Reading,
}

impl Lines {
    ghost use Rattle.script_lang.specs.Lines.{Advances, Breaks, FrontIsBad, FrontIsLong, GivesLine, IsDone, IsFinal, IsOpen, IsPassedOver, IsReadBy, IsReadFor, IsUndecided, NeedsRead, Passes, Skips, Takes, given, lines_given, pending, turns_given};

    /// Nothing is taken or given.
    pub fn new() -> Self
        ensures pending { pending result ≡ [] }
        ensures given { given result ≡ 0 }
        ensures lines { lines_given result ≡ 0 }
        ensures turns { turns_given result ≡ 0 }
        ensures open { IsOpen result }
    {
        Lines {
            buffer: Buffer::EMPTY,
            reached: Reached::start(),
            stage: Reading::Open,
        }
    }

    /// Whether `next` has to read from the source: what comes next is not known from what was taken.
    /// Lines without an event that were taken are passed over.
    pub fn needs_read(&mut self) -> bool
        ensures answer { IsTrue result ↔ NeedsRead self.new }
        ensures skips { Skips self.old self.new }
    {
        while let Some(count) = line_end(self.buffer.bytes()) {
            if !self.passes_over(count) {
                return false;
            }
            self.give(count, 0);
        }
        self.buffer.bytes().len() as u64 <= self.room()
    }

    // Whether the line of so many bytes at the front has no event and ends within the limit.
    fn passes_over(&self, count: usize) -> bool
        requires { count ≤ length (pending self.now) }
        ensures { IsTrue result ↔ IsPassedOver (given self.now) (take count (pending self.now)) }
    {
        count <= MOST_LINE
            && (count as u64) < self.room()
            && is_blank(&self.buffer.bytes()[..count])
    }

    /// What the script has next. The source is read only while that is not known, and at most a piece
    /// is taken from it behind what tells. A fault comes exactly where the source failed, and is told
    /// only behind all that was known without that read. Nothing may be asked for behind an answer
    /// other than `One`.
    pub fn next<S: Source>(&mut self, s: &mut S) -> Next
        requires { IsOpen self.old }
        ensures later { S.fault_count s.old ≤ S.fault_count s.new }
        ensures cause { result ≡ Next.ReadFault → Rose (S.fault_count s.old) (S.fault_count s.new) }
        ensures unfaulted { result ≢ Next.ReadFault → S.fault_count s.new ≡ S.fault_count s.old }
        ensures unread { (NeedsRead self.old → ⊥) → s.new ≡ s.old }
        ensures reads { Reads S.left (IsUndecided (given self.old)) (pending self.old) s.old s.new (IsReadFor (given self.old) result) }

        // An event is that of a line at the front, and its turns are counted.
        ensures fits { (e : AnEvent) → result ≡ Next.One e → FitsEvent e }
        ensures takes { (e : AnEvent) → result ≡ Next.One e → Takes S.left self.old self.new s.old s.new (e ∷ []) }
        ensures advances { (e : AnEvent) → result ≡ Next.One e → Advances self.old self.new (turns_asked e) }
        ensures open { (e : AnEvent) → result ≡ Next.One e → IsOpen self.new }

        // Any other answer is the last.
        ensures end { result ≡ Next.End → AllLeft S.left (pending self.old) s.old (IsDone (given self.old)) }
        ensures spends { result ≡ Next.End → Spends (S.left s.old) (S.left s.new) }
        ensures bad { (n : ℕ) → result ≡ Next.Bad n → AllLeft S.left (pending self.old) s.old (Breaks (given self.old) (turns_given self.old) (lines_given self.old) n) }
        ensures long { result ≡ Next.Long → AllLeft S.left (pending self.old) s.old (Passes (given self.old)) }
        ensures last { IsOpen self.new → (e : AnEvent) × (result ≡ Next.One e) }
    {
        let next = self.advance(s);
        if !matches!(next, Next::One(_)) {
            self.stage = Reading::Ended;
        }
        next
    }

    // What the script has next, blank lines passed over.
    fn advance<S: Source>(&mut self, s: &mut S) -> Next
        ensures later { S.fault_count s.old ≤ S.fault_count s.new }
        ensures cause { result ≡ Next.ReadFault → Rose (S.fault_count s.old) (S.fault_count s.new) }
        ensures unfaulted { result ≢ Next.ReadFault → S.fault_count s.new ≡ S.fault_count s.old }
        ensures reads { Reads S.left (IsUndecided (given self.old)) (pending self.old) s.old s.new (IsReadFor (given self.old) result) }
        ensures stage { self.new.stage ≡ self.old.stage }
        ensures fits { (e : AnEvent) → result ≡ Next.One e → FitsEvent e }
        ensures takes { (e : AnEvent) → result ≡ Next.One e → Takes S.left self.old self.new s.old s.new (e ∷ []) }
        ensures advances { (e : AnEvent) → result ≡ Next.One e → Advances self.old self.new (turns_asked e) }
        ensures end { result ≡ Next.End → AllLeft S.left (pending self.old) s.old (IsDone (given self.old)) }
        ensures spends { result ≡ Next.End → Spends (S.left s.old) (S.left s.new) }
        ensures bad { (n : ℕ) → result ≡ Next.Bad n → AllLeft S.left (pending self.old) s.old (Breaks (given self.old) (turns_given self.old) (lines_given self.old) n) }
        ensures long { result ≡ Next.Long → AllLeft S.left (pending self.old) s.old (Passes (given self.old)) }
    {
        loop {
            match self.line(s) {
                Line::One(event) => return Next::One(event),
                Line::Blank => {}
                Line::Bad => return Next::Bad(self.reached.lines + 1),
                Line::Long => return Next::Long,
                Line::End => return Next::End,
                Line::Fault => return Next::ReadFault,
            }
        }
    }

    // What the next line is. One that gives an event or none is dropped from what is pending.
    fn line<S: Source>(&mut self, s: &mut S) -> Line
        ensures later { S.fault_count s.old ≤ S.fault_count s.new }
        ensures cause { result ≡ Line.Fault → Rose (S.fault_count s.old) (S.fault_count s.new) }
        ensures unfaulted { result ≢ Line.Fault → S.fault_count s.new ≡ S.fault_count s.old }
        ensures reads { Reads S.left (IsUndecided (given self.old)) (pending self.old) s.old s.new (IsReadBy self.old self.new result) }
        ensures stage { self.new.stage ≡ self.old.stage }
        ensures fits { (e : AnEvent) → result ≡ Line.One e → FitsEvent e }
        ensures advances { (e : AnEvent) → result ≡ Line.One e → Advances self.old self.new (turns_asked e) }
        ensures passes { result ≡ Line.Blank → Advances self.old self.new 0 }
        ensures end { result ≡ Line.End → AllLeft S.left (pending self.old) s.old (IsDone (given self.old)) }
        ensures spends { result ≡ Line.End → Spends (S.left s.old) (S.left s.new) }
        ensures bad { result ≡ Line.Bad → AllLeft S.left (pending self.old) s.old (Breaks (given self.old) (turns_given self.old) (lines_given self.old) (lines_given self.old + 1)) }
        ensures unmoved { result ≡ Line.Bad → lines_given self.new ≡ lines_given self.old }
        ensures long { result ≡ Line.Long → AllLeft S.left (pending self.old) s.old (Passes (given self.old)) }
    {
        let room = self.room();
        match self.buffer.find(s, room) {
            Found::Line(count) => self.judge(count),
            Found::Last => {
                if self.buffer.bytes().is_empty() {
                    Line::End
                } else {
                    Line::Bad
                }
            }
            Found::Over => self.long_line(s),
            Found::Fault => Line::Fault,
        }
    }

    // What the line of so many bytes at the front of what is pending is.
    fn judge(&mut self, count: usize) -> Line
        requires { IsFed (pending self.old) count }
        ensures here { (result ≢ Line.End) × (result ≢ Line.Fault) }
        ensures stage { self.new.stage ≡ self.old.stage }
        ensures fits { (e : AnEvent) → result ≡ Line.One e → FitsEvent e }
        ensures gives { (e : AnEvent) → result ≡ Line.One e → GivesLine self.old self.new (e ∷ []) }
        ensures advances { (e : AnEvent) → result ≡ Line.One e → Advances self.old self.new (turns_asked e) }
        ensures blank { result ≡ Line.Blank → GivesLine self.old self.new [] }
        ensures passes { result ≡ Line.Blank → Advances self.old self.new 0 }
        ensures bad { result ≡ Line.Bad → FrontIsBad (given self.old) (turns_given self.old) (pending self.old) }
        ensures unmoved { result ≡ Line.Bad → lines_given self.new ≡ lines_given self.old }
        ensures long { result ≡ Line.Long → FrontIsLong (given self.old) (pending self.old) }
    {
        if count as u64 >= self.room() {
            return Line::Long;
        }
        if count > MOST_LINE {
            return Line::Bad;
        }
        match read_line(&self.buffer.bytes()[..count]) {
            Read::One(event) => {
                let turns = turns_of(&event);
                if self.reached.turns + turns > MOST_TURNS {
                    return Line::Bad;
                }
                self.give(count, turns);
                Line::One(event)
            }
            Read::Nothing => {
                self.give(count, 0);
                Line::Blank
            }
            Read::Bad => Line::Bad,
        }
    }

    // Gives the line of so many bytes at the front, whose event asks for so many turns.
    fn give(&mut self, count: usize, turns: u64)
        requires fed { IsFed (pending self.old) count }
        requires short { given self.old + count < most_bytes }
        requires few { turns_given self.old + turns ≤ most_turns }
        ensures stage { self.new.stage ≡ self.old.stage }
        ensures pending { pending self.new ≡ drop (count + 1) (pending self.old) }
        ensures lines { lines_given self.new ≡ lines_given self.old + 1 }
        ensures advances { Advances self.old self.new turns }
        ensures given { given self.new ≡ given self.old + (count + 1) }
    {
        self.buffer.skip(count + 1);
        self.reached.go_past(count as u64 + 1, turns);
    }

    // What the line at the front is, where its end is not pending, and what is pending is more than a
    // line has or passes the limit.
    fn long_line<S: Source>(&self, s: &mut S) -> Line
        requires plain { HasNoFeed (pending self.now) }
        requires over { (MOST_LINE < length (pending self.now)) ⊎ (most_bytes - given self.now < length (pending self.now)) }
        ensures later { S.fault_count s.old ≤ S.fault_count s.new }
        ensures cause { result ≡ Line.Fault → Rose (S.fault_count s.old) (S.fault_count s.new) }
        ensures unfaulted { result ≢ Line.Fault → S.fault_count s.new ≡ S.fault_count s.old }
        ensures reads { Reads S.left (IsUndecided (given self.now)) (pending self.now) s.old s.new (IsReadBy self.now self.now result) }
        ensures here { IsFinal result }
        ensures bad { result ≡ Line.Bad → AllLeft S.left (pending self.now) s.old (IsBadRest (given self.now) (turns_given self.now)) }
        ensures long { result ≡ Line.Long → AllLeft S.left (pending self.now) s.old (IsLongRest (given self.now)) }
    {
        let room = self.room();
        match self.buffer.pass_line(s, room) {
            Passed::Feed => Line::Bad,
            Passed::Last => Line::Bad,
            Passed::Over => Line::Long,
            Passed::Fault => Line::Fault,
        }
    }

    // How many bytes may still be given.
    fn room(&self) -> u64
        ensures value { result ≡ most_bytes - given self.now }
        ensures whole { result + given self.now ≡ most_bytes }
    {
        MOST_BYTES - self.reached.bytes
    }
}

// How many turns an event asks for.
fn turns_of(event: &Event) -> u64
    ensures value { result ≡ turns_asked event.now }
    ensures small { result < 2 ^ 32 }
{
    match event {
        Event::Run(n) => *n as u64,
        _ => 0,
    }
}
