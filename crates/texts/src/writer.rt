// A taker that writes both texts.
ghost use Rattle.std.specs.Prelude.{◌≡◌, ◌≤◌, None, Some, [], ◌∷◌, replicate, OnOk, OnErr};
ghost use Rattle.outside.specs.Faults.{CountsUp, Rose};
ghost use Rattle.script_texts.specs.Taker.{GoesOn, IsCut, StaysOnward};
ghost use Rattle.texts.specs.Tally.{no_tally};
ghost use Rattle.texts.specs.Turns.{step_of, open_run};

use crate::end_line::end_line;
use crate::entry::{entry_line, record_end};
use crate::item_line::open_line;
use crate::put::{put, put_item};
use crate::turns::{RunEntry, Turns, is_same_turn, run_line};
use crate::{Last, Tally};
use outside::{Failed, Sink};
use script_texts::{Event, Item, Step, Taker};

/// Writes the transcript of the items to one sink and the record of the steps to another, each as it comes.
/// It holds back the line feed behind the characters of one terminal, and the line of a run of equal turns,
/// until what comes next shows that they are complete. Each line is given to its sink whole. What it takes is
/// counted.
#[derive(Drop)]
pub struct Writer<'a, T: Sink, R: Sink> {
    out: &'a mut T,
    rec: &'a mut R,
    line: Option<u8>,
    run: Option<Turns>,
    tally: Tally,
    faults: u64,
}

impl<'a, T: Sink, R: Sink> Writer<'a, T, R> {
    ghost use Rattle.script_texts.specs.declared.event.Step.TheVariants.{Outer as AnOuter};
    ghost use Rattle.texts.specs.declared.last.Last.{Last as ALast};
    ghost use Rattle.texts.specs.declared.tally.Tally.{Tally as ATally};
    ghost use Rattle.script_texts.specs.Limits.{FitsEvent};
    ghost use Rattle.texts.specs.OpenRun.{step_text, step_run, run_end};
    ghost use Rattle.texts.specs.Writer.{IsOnward, IsHandedOn, HandsOn, Counts, Stands, IsCutWithin, IsCutAtEnd, Finishes, FailsAtEnd, Keeps, KeepsWritten};

    /// A writer that has written nothing, of the transcript to `out` and of the record to `rec`.
    pub fn new(out: &'a mut T, rec: &'a mut R) -> Self
        ensures out_name { result.out.ghost_name ≡ out.entry.ghost_name }
        ensures out { result.out.now ≡ out.old }
        ensures rec_name { result.rec.ghost_name ≡ rec.entry.ghost_name }
        ensures rec { result.rec.now ≡ rec.old }
        ensures line { result.line ≡ None }
        ensures run { result.run ≡ None }
        ensures tally { result.tally ≡ no_tally }
        ensures faults { result.faults ≡ 0 }
    {
        Writer {
            out,
            rec,
            line: None,
            run: None,
            tally: Tally::NONE,
            faults: 0,
        }
    }

    /// Closes both texts: the line and the run that are open, and the last lines; and then hands on what the
    /// sinks keep. Fails exactly where the count of faults rises, and then each sink has a front of its closed
    /// text, which may be the whole.
    pub fn finish(&mut self, last: Last) -> Result<(), Failed>
        ensures later { self.old.faults ≤ self.new.faults }
        ensures cause { OnErr result (Rose self.old.faults self.new.faults) }
        ensures unfaulted { OnOk result (self.new.faults ≡ self.old.faults) }
        ensures onward { StaysOnward (IsOnward T.fault_count R.fault_count) self.old self.new }
        ensures handed { OnOk result (IsHandedOn T.handed_on R.handed_on self.new) }
        ensures ok { OnOk result (Finishes T.taken R.taken last self.old self.new) }
        ensures err { OnErr result (FailsAtEnd T.taken R.taken last self.old self.new) }
    {
        let out_end = end_line(self.line, last, &self.tally);
        counted(&mut self.faults, put(&mut *self.out, &out_end))?;
        let rec_end = record_end(self.run, last);
        counted(&mut self.faults, put(&mut *self.rec, &rec_end))?;
        self.flush_both()
    }

    /// Gives up, once a call has failed: hands on what the sinks keep, so that what was written before is not
    /// lost. Both are tried: each has handed on all, or its count of faults rises. Whatever they have taken stays.
    pub fn give_up(&mut self)
        ensures later { self.old.faults ≤ self.new.faults }
        ensures onward { StaysOnward (IsOnward T.fault_count R.fault_count) self.old self.new }
        ensures tried { HandsOn T.handed_on R.handed_on T.fault_count R.fault_count self.old self.new }
        ensures stands { Keeps (Stands T.taken R.taken) self.old self.new }
        ensures cut { Keeps (IsCutWithin T.taken R.taken) self.old self.new }
        ensures cut_at_end { (last : ALast) (counts : ATally) → Keeps (IsCutAtEnd T.taken R.taken last counts) self.old self.new }
    {
        let _ = self.flush_both();
    }

    // Hands on what the sinks keep. Both are tried.
    fn flush_both(&mut self) -> Result<(), Failed>
        ensures counts { Counts T.fault_count R.fault_count result self.old self.new }
        ensures handed { OnOk result (IsHandedOn T.handed_on R.handed_on self.new) }
        ensures tried { HandsOn T.handed_on R.handed_on T.fault_count R.fault_count self.old self.new }
        ensures keeps { KeepsWritten T.taken R.taken self.old self.new }
    {
        let out = counted(&mut self.faults, self.out.flush());
        let rec = counted(&mut self.faults, self.rec.flush());
        out.and(rec)
    }

    // Takes so many equal turns: they go on with the run that is open, or begin one.
    #[inline]
    fn equal_turns(&mut self, turn: RunEntry, n: u64) -> Result<(), Failed>
        requires some { 1 ≤ n }
        ensures counts { Counts T.fault_count R.fault_count result self.old self.new }
        ensures ok { OnOk result (GoesOn (Stands T.taken R.taken) self.old self.new [] (replicate n (step_of turn))) }
        ensures err { OnErr result (IsCut (Stands T.taken R.taken) (IsCutWithin T.taken R.taken) self.old self.new [] (replicate n (step_of turn))) }
    {
        match self.run {
            None => self.begin_run(turn, n),
            Some(run) => {
                if is_same_turn(run.turn, turn) {
                    self.tally.count_turns(turn, n);
                    self.run = Some(Turns {
                        turn: run.turn,
                        count: run.count.saturating_add(n),
                    });
                    Ok(())
                } else {
                    self.begin_run(turn, n)
                }
            }
        }
    }

    // Takes so many equal turns that aren't of the run that is open.
    #[inline(never)]
    fn begin_run(&mut self, turn: RunEntry, n: u64) -> Result<(), Failed>
        requires some { 1 ≤ n }
        requires text { step_text (open_run self.old.run) (step_of turn) ≡ run_end (open_run self.old.run) }
        requires run { step_run (open_run self.old.run) (step_of turn) ≡ Some (step_of turn, 1) }
        ensures counts { Counts T.fault_count R.fault_count result self.old self.new }
        ensures ok { OnOk result (GoesOn (Stands T.taken R.taken) self.old self.new [] (replicate n (step_of turn))) }
        ensures err { OnErr result (IsCut (Stands T.taken R.taken) (IsCutWithin T.taken R.taken) self.old self.new [] (replicate n (step_of turn))) }
    {
        let line = run_line(self.run);
        counted(&mut self.faults, put(&mut *self.rec, &line))?;
        self.tally.count_turns(turn, n);
        self.run = Some(Turns { turn, count: n });
        Ok(())
    }

    // Takes an event.
    #[inline(never)]
    fn event(&mut self, e: Event) -> Result<(), Failed>
        requires { FitsEvent e }
        ensures counts { Counts T.fault_count R.fault_count result self.old self.new }
        ensures ok { OnOk result (GoesOn (Stands T.taken R.taken) self.old self.new [] (AnOuter e ∷ [])) }
        ensures err { OnErr result (IsCut (Stands T.taken R.taken) (IsCutWithin T.taken R.taken) self.old self.new [] (AnOuter e ∷ [])) }
    {
        let line = entry_line(self.run, &e);
        counted(&mut self.faults, put(&mut *self.rec, &line))?;
        self.tally.count_event();
        self.run = None;
        Ok(())
    }
}

// What a sink answered: a failure is counted. At 2^64 - 1 the count stays.
fn counted(faults: &mut u64, answer: Result<(), Failed>) -> Result<(), Failed>
    ensures answer { result ≡ answer }
    ensures later { faults.old ≤ faults.new }
    ensures cause { OnErr result (CountsUp faults.old faults.new) }
    ensures unfaulted { OnOk result (faults.new ≡ faults.old) }
{
    if answer.is_err() {
        *faults = faults.saturating_add(1);
    }
    answer
}

impl<'a, T: Sink, R: Sink> Taker for Writer<'a, T, R> {
    ghost use Rattle.texts.specs.Writer.{IsOnward, IsHandedOn, Stands, IsCutWithin};

    ghost fault_count = { λ w. w.faults };

    ghost onward = { λ first w. IsOnward T.fault_count R.fault_count first w };

    ghost stands = { λ first w is ss. Stands T.taken R.taken first w is ss };

    ghost cut = { λ first w is ss. IsCutWithin T.taken R.taken first w is ss };

    ghost handed_on = { λ w. IsHandedOn T.handed_on R.handed_on w };

    fn faults(&self) -> u64 {
        self.faults
    }

    #[inline(never)]
    fn item(&mut self, i: Item) -> Result<(), Failed> {
        counted(&mut self.faults, put_item(&mut *self.out, self.line, &i))?;
        self.tally.count_item(&i);
        self.line = open_line(&i);
        Ok(())
    }

    #[inline(always)]
    fn step(&mut self, s: Step) -> Result<(), Failed> {
        match s {
            Step::Unit(f) => self.equal_turns(RunEntry::Unit(f), 1),
            Step::Idle => self.equal_turns(RunEntry::Idle, 1),
            Step::Outer(e) => self.event(e),
        }
    }

    fn turns(&mut self, s: Step, n: u64) -> Result<(), Failed> {
        match s {
            Step::Unit(f) => self.equal_turns(RunEntry::Unit(f), n),
            Step::Idle => self.equal_turns(RunEntry::Idle, n),
            Step::Outer(_) => unreachable!(),
        }
    }

    fn flush(&mut self) -> Result<(), Failed> {
        self.flush_both()
    }
}
