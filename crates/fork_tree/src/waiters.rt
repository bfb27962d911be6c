// Forks that wait go on: a fork of their job has ended, a character is there, or the clock has reached their moment.
ghost use Rattle.std.specs.Prelude.{◌≡◌, ℕ, MatchBool, false};
ghost use Rattle.plain_model.specs.Forks.{fork_in};
ghost use Rattle.plain_model.specs.Trees.{awoken, changed, job_changed, readers_woken, sleepers_awoken, waiters_woken, without_read, without_sleep, without_wait};
ghost use Rattle.machine_names.specs.Bounds.{IsTerminal};
ghost use Rattle.fork_tree.specs.Waking.{NoneSleepsIn, NoneWaits, freed, freed_of, is_by};
ghost use Rattle.fork_tree.specs.declared.notes.Awaited.{Awaited as AnAwaited};

use crate::notes::{Awaited, Due};
use crate::tree::Tree;
use machine_names::{MOST_FORKS, TERMINALS, Tty};
use script_texts::{ForkStatus, WaitOn};

// The status of a fork that no longer waits for one.
fn without_wait(status: ForkStatus) -> ForkStatus
    ensures { result ≡ without_wait status }
{
    match status {
        ForkStatus::Wait(on) => match on {
            WaitOn::Fork => ForkStatus::Run,
            WaitOn::Input => status,
            WaitOn::Sleep(_) => status,
        },
        ForkStatus::Run => status,
        ForkStatus::Halted => status,
        ForkStatus::Forced(_) => status,
    }
}

// The status of a fork that no longer waits for a character.
fn without_read(status: ForkStatus) -> ForkStatus
    ensures { result ≡ without_read status }
{
    match status {
        ForkStatus::Wait(on) => match on {
            WaitOn::Input => ForkStatus::Run,
            WaitOn::Fork => status,
            WaitOn::Sleep(_) => status,
        },
        ForkStatus::Run => status,
        ForkStatus::Halted => status,
        ForkStatus::Forced(_) => status,
    }
}

// The status of a fork that no longer sleeps to a moment that the clock has reached.
fn without_sleep(clock: u64, status: ForkStatus) -> ForkStatus
    ensures { result ≡ without_sleep clock status }
{
    match status {
        ForkStatus::Wait(on) => match on {
            WaitOn::Sleep(moment) if moment <= clock => ForkStatus::Run,
            WaitOn::Sleep(_) => status,
            WaitOn::Input => status,
            WaitOn::Fork => status,
        },
        ForkStatus::Run => status,
        ForkStatus::Halted => status,
        ForkStatus::Forced(_) => status,
    }
}

// From when on a fork with a status may go on that sleeps.
fn sleep_due(status: ForkStatus) -> Due
    ensures { (clock : ℕ) → is_by result clock ≡ false → without_sleep clock status ≡ status }
{
    match status {
        ForkStatus::Wait(WaitOn::Sleep(moment)) => Due::From(moment),
        _ => Due::Never,
    }
}

// The status of a fork that no longer waits for this.
fn freed(awaited: Awaited, status: ForkStatus) -> ForkStatus
    ensures { result ≡ freed awaited status }
{
    match awaited {
        Awaited::End => without_wait(status),
        Awaited::Character => without_read(status),
        Awaited::Moment(clock) => without_sleep(clock, status),
    }
}

impl Tree {
    // The fork in a slot of a job, if one is there, no longer waits for this.
    fn wake(&mut self, tty: Tty, slot: u8, awaited: Awaited)
        ensures { self.new ≡ record self.old { forks = changed self.old.forks (freed_of awaited) (fork_in self.old.forks tty slot) } }
    {
        match self.fork_at(tty, slot) {
            Some(_) => {
                let body = self.body_at(tty, slot);
                body.status = freed(awaited, body.status);
            }
            None => {}
        }
    }

    // Who waits for this in a job runs again, in slot order.
    fn wake_all(&mut self, tty: Tty, awaited: Awaited)
        ensures { self.new ≡ record self.old { forks = job_changed (freed_of awaited) tty self.old.forks } }
    {
        self.are_trees();
        for slot in 1..=MOST_FORKS {
            self.wake(tty, slot, awaited);
        }
    }

    /// A fork of a job has ended: who waits for a fork of that job runs again, in slot order (JSYS Manual, WFORK). Thirty
    /// looks.
    #[tactic(auto, unfolding(plain_model::specs::Trees::waiters_woken))]
    pub fn wake_waiters(&mut self, tty: Tty)
        ensures { self.new ≡ record self.old { forks = waiters_woken self.old.forks tty } }
    {
        self.wake_all(tty, Awaited::End);
    }

    // Whether a fork of a job may wait for this. If not, none does.
    fn may_wait(&self, tty: Tty, awaited: Awaited) -> bool
        ensures { MatchBool result (IsTerminal tty) (NoneWaits awaited self.now.forks tty) }
    {
        let _ = &self.forks;
        if tty.0 >= TERMINALS {
            return false;
        }
        self.notes[usize::from(tty.0)].may_wait(awaited)
    }

    // From when on a fork in a slot of a job may go on that sleeps.
    fn slot_due(&self, tty: Tty, slot: u8) -> Due
        ensures { (clock : ℕ) → is_by result clock ≡ false → NoneSleepsIn clock self.now.forks tty slot }
    {
        match self.fork_at(tty, slot) {
            Some(fork) => sleep_due(fork.body.status),
            None => Due::Never,
        }
    }

    // From when on a fork of a job may go on that sleeps.
    fn sleepers_due(&self, tty: Tty) -> Due
        ensures { (clock : ℕ) → is_by result clock ≡ false → NoneWaits (AnAwaited.Moment clock) self.now.forks tty }
    {
        self.are_trees();
        let mut due = Due::Never;
        for slot in 1..=MOST_FORKS {
            due = due.sooner(self.slot_due(tty, slot));
        }
        due
    }

    // No fork of a job waits for a character, until a body is lent again.
    fn note_readers(&mut self, tty: Tty)
        requires terminal { IsTerminal tty }
        requires none { NoneWaits AnAwaited.Character self.old.forks tty }
        ensures { self.new ≡ self.old }
    {
        let _ = &self.forks;
        self.notes[usize::from(tty.0)].readers = Due::Never;
    }

    // No fork of a job sleeps to a moment before this, until a body is lent again.
    fn note_sleepers(&mut self, tty: Tty, due: Due)
        requires terminal { IsTerminal tty }
        requires none { (clock : ℕ) → is_by due clock ≡ false → NoneWaits (AnAwaited.Moment clock) self.old.forks tty }
        ensures { self.new ≡ self.old }
    {
        let _ = &self.forks;
        self.notes[usize::from(tty.0)].sleepers = due;
    }

    /// A character is stored for a job: who waits for one runs again, in slot order. Whether it was looked for any: where not, none
    /// waited. One look where no body of the job was lent since the last was stored, as where a line is typed; else thirty.
    #[tactic(auto, unfolding(plain_model::specs::Trees::readers_woken))]
    pub fn wake_readers(&mut self, tty: Tty) -> bool
        ensures woken { self.new ≡ record self.old { forks = readers_woken self.old.forks tty } }
        ensures none { result ≡ false → self.new ≡ self.old }
    {
        self.are_trees();
        if !self.may_wait(tty, Awaited::Character) {
            return false;
        }
        self.wake_all(tty, Awaited::Character);
        self.note_readers(tty);
        true
    }

    // Of a job, who sleeps to a moment that the clock has reached runs again, in slot order.
    fn wake_sleepers_of(&mut self, tty: Tty, clock: u64)
        ensures { self.new ≡ record self.old { forks = job_changed (awoken clock) tty self.old.forks } }
    {
        self.are_trees();
        if self.may_wait(tty, Awaited::Moment(clock)) {
            self.wake_all(tty, Awaited::Moment(clock));
            let due = self.sleepers_due(tty);
            self.note_sleepers(tty, due);
        }
    }

    /// The clock has come to a moment: who sleeps to one that it has reached runs again, by terminal and slot (JSYS Manual, DISMS). One look
    /// for each terminal where no body of its job was lent since the last look and none of its sleepers is due; else its thirty slots are
    /// gone over twice.
    #[tactic(auto, unfolding(plain_model::specs::Trees::sleepers_awoken))]
    pub fn wake_sleepers(&mut self, clock: u64)
        ensures { self.new ≡ record self.old { forks = sleepers_awoken clock self.old.forks } }
    {
        self.are_trees();
        for tty in 0..TERMINALS {
            self.wake_sleepers_of(Tty(tty), clock);
        }
    }
}
