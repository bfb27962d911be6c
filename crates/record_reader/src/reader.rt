// A record's lines, from a source that gives its bytes in pieces.
ghost use Rattle.std.specs.Prelude.{◌≡◌, ◌≢◌, ◌⊎◌, ◌↔◌, ◌+◌, ◌<◌, ◌≤◌, ℕ, List, [], ◌∷◌, ◌++◌, length, drop, Some, IsTrue};
ghost use Rattle.outside.specs.Faults.{Rose};
ghost use Rattle.script_texts.specs.Script.{HasNoFeed};
ghost use Rattle.line_buffer.specs.Feeds.{AllLeft, IsFed, Reads, Spends, StopsWithin};
ghost use Rattle.script_texts.specs.Script.{most_turns};
ghost use Rattle.script_texts.specs.RecordLines.{RecordLine, said};
ghost use Rattle.record_reader.specs.Order.{FitsLine, turns_on};
ghost use Rattle.record_reader.specs.OneLine.{told, told_last};
ghost use Rattle.record_reader.specs.declared.line.Said.{Said as ASaid};
ghost use Rattle.record_reader.specs.Verdicts.{EndsAs, IsBadBehind, IsLongBehind, ReadsAs, Verdict, most_record_bytes};

use crate::line::{Said, may_follow, read, turns_of};
use crate::passed::{MOST_RECORD_BYTES, Passed};
use line_buffer::{Buffer, Found, MOST_LINE, Passed as LineEnd};
use outside::Source;
use script_lang::MOST_TURNS;
use script_texts::Step;

/// What a record has next.
#[derive(Clone, Copy)]
pub enum NextStep {
    /// The first line of version 2: the size of the drum.
    Size(u32),
    /// So many equal turns; or an event, once.
    Run(Step, u64),
    /// The last line of a run that is done: how often the drum was read and written.
    Counts(u64, u64),
    /// The end: nothing is left.
    End,
    /// The line of this number, counted from 1, is bad.
    Bad(u64),
    /// The source failed.
    ReadFault,
    /// The record is longer than MOST_RECORD_BYTES, and all its lines that end within these were given.
    Long,
}

impl NextStep {
    ghost use Rattle.record_reader.specs.Reader.{line_given};

    /// The answer that gives a line.
    pub(crate) fn of(said: Said) -> NextStep
        ensures { line_given result ≡ Some (told said) }
    {
        match said {
            Said::Version(pages) => NextStep::Size(pages),
            Said::Run(step, count) => NextStep::Run(step, count),
            Said::Counts(reads, writes) => NextStep::Counts(reads, writes),
        }
    }

    /// The line that is given. None where none is.
    pub fn said(&self) -> Option<Said>
        ensures { told_last result ≡ line_given self.now }
    {
        match self {
            NextStep::Size(pages) => Some(Said::Version(*pages)),
            NextStep::Run(step, count) => Some(Said::Run(*step, *count)),
            NextStep::Counts(reads, writes) => Some(Said::Counts(*reads, *writes)),
            _ => None,
        }
    }
}

// Whether more may be asked for.
#[derive(Clone, Copy)]
enum Reading {
    Open,
    Ended,
}

// What one line is.
#[derive(Clone, Copy)]
enum Line {
    // A line that goes on with those before it, which is given.
    One(Said),
    Bad,
    // It does not end within the limit.
    Long,
    // There is none.
    End,
    Fault,
}

/// A record, read from a source in pieces and given line by line.
#[derive(Drop)]
pub struct RecordReader {
    buffer: Buffer,
    passed: Passed,
    last: Option<Said>,
    stage: Reading,
}

impl RecordReader {
    ghost use Rattle.record_reader.specs.Reader.{Advances, FrontIsBad, FrontIsLong, GoesOnBehind, HasRead, IsFinal, IsOpen, IsReadBy, IsReadFor, StandsIn, TakesFront, line_given, pending, room_left, verdict_given};

    /// Nothing is taken or read.
    pub fn new() -> Self
        ensures pending { pending result ≡ [] }
        ensures read { HasRead result [] }
        ensures open { IsOpen result }
    {
        RecordReader {
            buffer: Buffer::EMPTY,
            passed: Passed::start(),
            last: None,
            stage: Reading::Open,
        }
    }

    /// What the record has next. The source is read only while that is not known, and at most a piece is
    /// taken from it behind what tells. A fault comes exactly where the source failed, and is told only
    /// behind all that was known without that read. Nothing may be asked for behind an answer that gives
    /// no line.
    pub fn next<S: Source>(&mut self, s: &mut S) -> NextStep
        requires { IsOpen self.old }
        ensures later { S.fault_count s.old ≤ S.fault_count s.new }
        ensures cause { result ≡ NextStep.ReadFault → Rose (S.fault_count s.old) (S.fault_count s.new) }
        ensures unfaulted { result ≢ NextStep.ReadFault → S.fault_count s.new ≡ S.fault_count s.old }
        ensures reads { Reads S.left (StopsWithin 0 (room_left self.old)) (pending self.old) s.old s.new (IsReadFor (room_left self.old) result) }

        // A line stood at the front of all that was left, and goes on with those that were read.
        ensures takes { (l : RecordLine) → line_given result ≡ Some l → AllLeft S.left (pending self.old) s.old (TakesFront S.left self.new s.new l) }
        ensures advances { (l : RecordLine) → line_given result ≡ Some l → Advances self.old self.new l }
        ensures open { (l : RecordLine) → line_given result ≡ Some l → IsOpen self.new }

        // Any other answer is the last.
        ensures ends { (v : Verdict) (lines : List RecordLine) → verdict_given result ≡ Some v → HasRead self.old lines → AllLeft S.left (pending self.old) s.old (EndsAs lines v) }
        ensures number { (n : ℕ) (lines : List RecordLine) → result ≡ NextStep.Bad n → HasRead self.old lines → n ≡ length lines + 1 }
        ensures spends { result ≡ NextStep.End → Spends (S.left s.old) (S.left s.new) }
        ensures last { IsOpen self.new → (l : RecordLine) × (line_given result ≡ Some l) }

        // Where the source tells its bytes, the answers tell the whole text.
        ensures stands { (text : List ℕ) (lines : List RecordLine) (l : RecordLine) → StandsIn S.left text self.old s.old lines → line_given result ≡ Some l → StandsIn S.left text self.new s.new (lines ++ l ∷ []) }
        ensures decides { (text : List ℕ) (lines : List RecordLine) (v : Verdict) → StandsIn S.left text self.old s.old lines → verdict_given result ≡ Some v → ReadsAs text lines v }
    {
        match self.line(s) {
            Line::One(said) => NextStep::of(said),
            Line::Bad => {
                self.stage = Reading::Ended;
                NextStep::Bad(self.passed.lines + 1)
            }
            Line::Long => {
                self.stage = Reading::Ended;
                NextStep::Long
            }
            Line::End => {
                self.stage = Reading::Ended;
                NextStep::End
            }
            Line::Fault => {
                self.stage = Reading::Ended;
                NextStep::ReadFault
            }
        }
    }

    // What the next line is. One that is given is dropped from what is pending.
    fn line<S: Source>(&mut self, s: &mut S) -> Line
        ensures later { S.fault_count s.old ≤ S.fault_count s.new }
        ensures cause { result ≡ Line.Fault → Rose (S.fault_count s.old) (S.fault_count s.new) }
        ensures unfaulted { result ≢ Line.Fault → S.fault_count s.new ≡ S.fault_count s.old }
        ensures stage { self.new.stage ≡ self.old.stage }
        ensures reads { Reads S.left (StopsWithin 0 (room_left self.old)) (pending self.old) s.old s.new (IsReadBy (room_left self.old) result) }
        ensures takes { (x : ASaid) → result ≡ Line.One x → AllLeft S.left (pending self.old) s.old (TakesFront S.left self.new s.new (told x)) }
        ensures advances { (x : ASaid) → result ≡ Line.One x → Advances self.old self.new (told x) }
        ensures end { result ≡ Line.End → AllLeft S.left (pending self.old) s.old (λ xs. xs ≡ []) }
        ensures spends { result ≡ Line.End → Spends (S.left s.old) (S.left s.new) }
        ensures bad { result ≡ Line.Bad → (lines : List RecordLine) → HasRead self.old lines → AllLeft S.left (pending self.old) s.old (IsBadBehind lines) }
        ensures unmoved { result ≡ Line.Bad → self.new.passed.lines ≡ self.old.passed.lines }
        ensures long { result ≡ Line.Long → (lines : List RecordLine) → HasRead self.old lines → AllLeft S.left (pending self.old) s.old (IsLongBehind lines) }
    {
        let room = self.room();
        match self.buffer.find(s, room) {
            Found::Line(count) => self.judge(count),
            Found::Last => {
                if self.buffer.bytes().is_empty() {
                    Line::End
                } else {
                    Line::Bad
                }
            }
            Found::Over => self.long_line(s),
            Found::Fault => Line::Fault,
        }
    }

    // What the line of so many bytes at the front of what is pending is.
    fn judge(&mut self, count: usize) -> Line
        requires { IsFed (pending self.old) count }
        ensures here { (result ≢ Line.End) × (result ≢ Line.Fault) }
        ensures stage { self.new.stage ≡ self.old.stage }
        ensures gives { (x : ASaid) → result ≡ Line.One x → pending self.old ≡ said (told x) ++ 10 ∷ pending self.new }
        ensures advances { (x : ASaid) → result ≡ Line.One x → Advances self.old self.new (told x) }
        ensures bad { result ≡ Line.Bad → (lines : List RecordLine) → HasRead self.old lines → FrontIsBad lines (pending self.old) }
        ensures unmoved { result ≡ Line.Bad → self.new.passed.lines ≡ self.old.passed.lines }
        ensures long { result ≡ Line.Long → (lines : List RecordLine) → HasRead self.old lines → FrontIsLong lines (pending self.old) }
    {
        if count as u64 >= self.room() {
            return Line::Long;
        }
        if count > MOST_LINE {
            return Line::Bad;
        }
        match read(&self.buffer.bytes()[..count]) {
            Some(said) => {
                if self.goes_on(&said) {
                    self.give(count, said);
                    Line::One(said)
                } else {
                    Line::Bad
                }
            }
            None => Line::Bad,
        }
    }

    // Whether a line within its limits goes on with those that were read.
    fn goes_on(&self, said: &Said) -> bool
        requires { FitsLine (told said.now) }
        ensures { IsTrue result ↔ GoesOnBehind self.now (told said.now) }
    {
        may_follow(&self.last, said) && turns_of(said) <= MOST_TURNS - self.passed.turns
    }

    // Gives the line of so many bytes at the front, which says this.
    fn give(&mut self, count: usize, said: Said)
        requires fed { IsFed (pending self.old) count }
        requires short { self.old.passed.bytes + count < most_record_bytes }
        requires few { self.old.passed.turns + turns_on (told said) ≤ most_turns }
        ensures stage { self.new.stage ≡ self.old.stage }
        ensures pending { pending self.new ≡ drop (count + 1) (pending self.old) }
        ensures bytes { self.new.passed.bytes ≡ self.old.passed.bytes + (count + 1) }
        ensures lines { self.new.passed.lines ≡ self.old.passed.lines + 1 }
        ensures turns { self.new.passed.turns ≡ self.old.passed.turns + turns_on (told said) }
        ensures last { self.new.last ≡ Some said }
    {
        self.buffer.skip(count + 1);
        self.passed.go_past(count as u64 + 1, turns_of(&said));
        self.last = Some(said);
    }

    // What the line at the front is, where its end is not pending, and what is pending is more than a
    // line has or passes the limit.
    fn long_line<S: Source>(&self, s: &mut S) -> Line
        requires plain { HasNoFeed (pending self.now) }
        requires over { (MOST_LINE < length (pending self.now)) ⊎ (room_left self.now < length (pending self.now)) }
        ensures later { S.fault_count s.old ≤ S.fault_count s.new }
        ensures cause { result ≡ Line.Fault → Rose (S.fault_count s.old) (S.fault_count s.new) }
        ensures unfaulted { result ≢ Line.Fault → S.fault_count s.new ≡ S.fault_count s.old }
        ensures reads { Reads S.left (StopsWithin 0 (room_left self.now)) (pending self.now) s.old s.new (IsReadBy (room_left self.now) result) }
        ensures here { IsFinal result }
        ensures bad { result ≡ Line.Bad → (lines : List RecordLine) → HasRead self.now lines → AllLeft S.left (pending self.now) s.old (IsBadBehind lines) }
        ensures long { result ≡ Line.Long → (lines : List RecordLine) → HasRead self.now lines → AllLeft S.left (pending self.now) s.old (IsLongBehind lines) }
    {
        match self.buffer.pass_line(s, self.room()) {
            LineEnd::Feed => Line::Bad,
            LineEnd::Last => Line::Bad,
            LineEnd::Over => Line::Long,
            LineEnd::Fault => Line::Fault,
        }
    }

    // How many bytes may still be given.
    fn room(&self) -> u64
        ensures value { result ≡ room_left self.now }
        ensures whole { result + self.now.passed.bytes ≡ most_record_bytes }
    {
        MOST_RECORD_BYTES - self.passed.bytes
    }
}
