// The lists follow what the forks of a job have come to.
ghost use Rattle.std.specs.Prelude.{None, Some, ◌≡◌, ◌≢◌, ◌≤◌, ◌&&◌, ℕ, slice_set, true};
ghost use Rattle.std.specs.List.{list_any};
ghost use Rattle.machine_names.specs.Bounds.{IsForkName, IsTerminal};
ghost use Rattle.machine_names.specs.declared.names.ForkName.{ForkName as AForkName};
ghost use Rattle.machine_names.specs.declared.names.Tty.{Tty as ATty};
ghost use Rattle.machine_names.specs.declared.names.TheConstants.{MOST_FORKS};
ghost use Rattle.std.specs.FinMap as map;
ghost use Rattle.plain_model.specs.declared.fork.Fork.{Fork as AFork};
ghost use Rattle.plain_model.specs.Forks.{IsRunnable, fork_in, runs_in};
ghost use Rattle.fork_tree.specs.Making.{last_name};
ghost use Rattle.job_sched.specs.Lines.{is_in_line};
ghost use Rattle.job_sched.specs.Schedules.{size};
ghost use Rattle.job_sched.specs.Ties.{WaitsLess};
ghost use Rattle.fork_lists.specs.Seeing.{place_at};
ghost use Rattle.fork_lists.specs.Following.{followed, followed_all, lost_stopped, picks_started, started_if, stopped_if};
ghost use Rattle.fork_lists.specs.Seeing.{all_jobs, has_waited, job_slots, seen_in, seen_of as seen_of_fork, SeenElsewhere};
ghost use Rattle.fork_lists.specs.Ties.{AreTied, CanFollow, CanFollowAll, CanFollowMaker, ComesOn, Follows, FollowsAll, Living};
ghost use Rattle.fork_lists.specs.Choices.{picked};

use crate::lists::ForkLists;
use crate::seen::{Seen, seen_of};
use fork_tree::Tree;
use machine_names::{ForkName, MOST_FORKS, TERMINALS, Tty};

/// Which forks start first where several do.
#[derive(Clone, Copy)]
enum Choice {
    /// Those that were seen to wait for a fork, as its end is told before a superior is told of it.
    Waiters,
    /// All others.
    Others,
}

// The place of a slot of a job among those of all jobs.
fn place_of(t: Tty, slot: u8) -> usize
    requires { 1 ≤ slot }
    ensures { result ≡ place_at t slot }
{
    usize::from(t.0) * usize::from(MOST_FORKS) + usize::from(slot - 1)
}

impl ForkLists {
    // What was seen of a slot of a job.
    fn seen_in(&self, t: Tty, slot: u8) -> Seen
        requires terminal { IsTerminal t }
        requires first { 1 ≤ slot }
        requires last { slot ≤ MOST_FORKS }
        ensures { result ≡ seen_in self.now.seen.items t slot }
    {
        self.seen[place_of(t, slot)]
    }

    // Who was seen in a slot stops, where it can't run now.
    fn stop_lost(&mut self, tree: &Tree, t: Tty, slot: u8)
        requires terminal { IsTerminal t }
        requires first { 1 ≤ slot }
        requires last { slot ≤ MOST_FORKS }
        ensures schedule { self.new.sched ≡ stopped_if tree.now.forks (seen_in self.old.seen.items t slot).fork self.old.sched }
        ensures seen { self.new.seen ≡ self.old.seen }
    {
        let seen = self.seen_in(t, slot);
        if let Some(name) = seen.fork {
            if !tree.runnable(name) {
                self.sched.stop(name);
            }
        }
    }

    // Each that was seen in a job stops, where it can't run now.
    fn stop_all(&mut self, tree: &Tree, t: Tty)
        requires terminal { IsTerminal t }
        ensures schedule { self.new.sched ≡ lost_stopped tree.now.forks self.old.seen.items t self.old.sched job_slots }
        ensures seen { self.new.seen ≡ self.old.seen }
    {
        for slot in 1..=MOST_FORKS {
            self.stop_lost(tree, t, slot);
        }
    }

    // Whether a fork in a slot is of a choice.
    fn is_picked(&self, t: Tty, choice: Choice, slot: u8, name: ForkName) -> bool
        requires terminal { IsTerminal t }
        requires first { 1 ≤ slot }
        requires last { slot ≤ MOST_FORKS }
        ensures { result ≡ picked self.now.seen.items t choice slot name }
    {
        let waited = self.seen_in(t, slot).has_waited(name);
        match choice {
            Choice::Waiters => waited,
            Choice::Others => !waited,
        }
    }

    // Whether a fork in a slot is of a choice, and can run now.
    fn is_started(&self, tree: &Tree, t: Tty, choice: Choice, slot: u8, name: ForkName) -> bool
        requires terminal { IsTerminal t }
        requires first { 1 ≤ slot }
        requires last { slot ≤ MOST_FORKS }
        ensures { result ≡ (picked self.now.seen.items t choice slot name && runs_in tree.now.forks name) }
    {
        self.is_picked(t, choice, slot, name) && tree.runnable(name)
    }

    // The fork in a slot starts, where it is of a choice and can run now.
    fn start_picked(&mut self, tree: &Tree, t: Tty, choice: Choice, slot: u8)
        requires terminal { IsTerminal t }
        requires first { 1 ≤ slot }
        requires last { slot ≤ MOST_FORKS }
        requires living { Living tree.now.forks self.old.sched }
        ensures schedule { self.new.sched ≡ started_if tree.now.forks (picked self.old.seen.items t choice slot) (fork_in tree.now.forks t slot) self.old.sched }
        ensures living { Living tree.now.forks self.new.sched }
        ensures seen { self.new.seen ≡ self.old.seen }
    {
        let Some(fork) = tree.fork_at(t, slot) else {
            return;
        };
        let name = fork.name;
        if self.is_started(tree, t, choice, slot, name) {
            self.sched.sound();
            self.sched.start(name);
        }
    }

    // Each fork of a job starts that is of a choice and can run now, by slot.
    fn start_all(&mut self, tree: &Tree, t: Tty, choice: Choice)
        requires terminal { IsTerminal t }
        requires living { Living tree.now.forks self.old.sched }
        ensures schedule { self.new.sched ≡ picks_started tree.now.forks (picked self.old.seen.items t choice) t self.old.sched job_slots }
        ensures living { Living tree.now.forks self.new.sched }
        ensures seen { self.new.seen ≡ self.old.seen }
    {
        for slot in 1..=MOST_FORKS {
            self.start_picked(tree, t, choice, slot);
        }
    }

    // Whether a fork was seen in a job to wait for one.
    fn has_waiters(&self, t: Tty) -> bool
        requires { IsTerminal t }
        ensures { result ≡ list_any (λ slot. (seen_in self.now.seen.items t slot).waits) job_slots }
    {
        for slot in 1..=MOST_FORKS {
            if self.seen_in(t, slot).waits {
                return true;
            }
        }
        false
    }

    // Each fork of a job starts that was seen to wait for one and can run now, by slot. Where none was, no fork is looked at.
    fn start_waiters(&mut self, tree: &Tree, t: Tty)
        requires terminal { IsTerminal t }
        requires living { Living tree.now.forks self.old.sched }
        ensures schedule { self.new.sched ≡ picks_started tree.now.forks (has_waited self.old.seen.items t) t self.old.sched job_slots }
        ensures living { Living tree.now.forks self.new.sched }
        ensures seen { self.new.seen ≡ self.old.seen }
    {
        if self.has_waiters(t) {
            self.start_all(tree, t, Choice::Waiters);
        }
    }

    // A slot of a job is seen as it is.
    fn note(&mut self, tree: &Tree, t: Tty, slot: u8)
        requires terminal { IsTerminal t }
        requires first { 1 ≤ slot }
        requires last { slot ≤ MOST_FORKS }
        ensures schedule { self.new.sched ≡ self.old.sched }
        ensures seen { self.new.seen.items ≡ slice_set self.old.seen.items (place_at t slot) (seen_of_fork (fork_in tree.now.forks t slot)) }
    {
        tree.are_trees();
        self.seen[place_of(t, slot)] = seen_of(tree.fork_at(t, slot));
    }

    // Each slot of a job is seen as it is.
    fn note_all(&mut self, tree: &Tree, t: Tty)
        requires { IsTerminal t }
        ensures schedule { self.new.sched ≡ self.old.sched }
        ensures mine { (slot : ℕ) → 1 ≤ slot → slot ≤ MOST_FORKS → seen_in self.new.seen.items t slot ≡ seen_of_fork (fork_in tree.now.forks t slot) }
        ensures others { (u : ATty) (slot : ℕ) → u.0 ≢ t.0 → 1 ≤ slot → slot ≤ MOST_FORKS → seen_in self.new.seen.items u slot ≡ seen_in self.old.seen.items u slot }
    {
        for slot in 1..=MOST_FORKS {
            self.note(tree, t, slot);
        }
    }

    /// The lists follow what the forks of a job have come to (CACM paper, "Scheduling"): who was seen there and can't run any more leaves them,
    /// and the set is filled; then whoever can run and stands in none is put last outside, those first that were seen to wait for a
    /// fork. Each by slot. Other jobs' forks stay where they stand. Each slot of the job is looked at four times, five where a fork was seen to wait for one.
    pub fn follow(&mut self, tree: &Tree, t: Tty)
        requires terminal { IsTerminal t }
        requires can { CanFollow tree.now.forks self.old t }
        ensures schedule { self.new.sched ≡ followed tree.now.forks self.old.seen.items t self.old.sched }
        ensures follows { Follows tree.now.forks t self.old self.new }
        ensures comes_on { (f : AForkName) → IsRunnable tree.now.forks f → is_in_line f self.old.sched ≡ true → ComesOn f self.old.sched self.new.sched }
    {
        tree.are_trees();
        self.sched.sound();
        self.stop_all(tree, t);
        self.start_waiters(tree, t);
        self.start_all(tree, t, Choice::Others);
        self.note_all(tree, t);
    }

    /// The lists follow a fork of which alone anything may have changed, in its slot: where it can't run any more it leaves them, and the set is filled. One
    /// look.
    pub fn follow_slot(&mut self, tree: &Tree, who: ForkName, slot: u8)
        requires name { IsForkName who }
        requires first { 1 ≤ slot }
        requires last { slot ≤ MOST_FORKS }
        ensures schedule { self.new.sched ≡ stopped_if tree.now.forks (Some who) self.old.sched }
        ensures mine { seen_in self.new.seen.items who.tty slot ≡ seen_of_fork (fork_in tree.now.forks who.tty slot) }
        ensures others { SeenElsewhere self.old.seen.items self.new.seen.items who.tty slot }
        ensures waits { WaitsLess self.old.sched.waiting self.new.sched.waiting }
        ensures set { size self.new.sched ≡ size self.old.sched }
        ensures comes_on { (f : AForkName) → IsRunnable tree.now.forks f → is_in_line f self.old.sched ≡ true → ComesOn f self.old.sched self.new.sched }
    {
        self.sched.sound();
        if !tree.runnable(who) {
            self.sched.stop(who);
        }
        self.note(tree, who.tty, slot);
    }

    // The fork that was made last at a terminal starts, where it can run now, and its slot is seen as it is.
    fn follow_newest(&mut self, tree: &Tree, t: Tty)
        requires terminal { IsTerminal t }
        requires living { Living tree.now.forks self.old.sched }
        ensures schedule { self.new.sched ≡ started_if tree.now.forks (λ f. true) (map.get tree.now.forks (last_name tree.now t)) self.old.sched }
        ensures mine { (f : AFork) → map.get tree.now.forks (last_name tree.now t) ≡ Some f → seen_in self.new.seen.items t f.slot ≡ seen_of_fork (Some f) }
        ensures others { (f : AFork) → map.get tree.now.forks (last_name tree.now t) ≡ Some f → SeenElsewhere self.old.seen.items self.new.seen.items t f.slot }
        ensures none { map.get tree.now.forks (last_name tree.now t) ≡ None → self.new.seen ≡ self.old.seen }
    {
        tree.are_trees();
        let Some(fork) = tree.newest(t) else {
            return;
        };
        if tree.runnable(fork.name) {
            self.sched.sound();
            self.sched.start(fork.name);
        }
        self.note(tree, t, fork.slot);
    }

    /// The lists follow a fork in its slot, and the fork that was made last at its terminal, where nothing else may have changed: where it can't run any more it
    /// leaves them, and the set is filled; then the new one, where it can run, is put last outside. Two looks.
    pub fn follow_maker(&mut self, tree: &Tree, who: ForkName, slot: u8)
        requires can { CanFollowMaker tree.now who slot self.old }
        ensures schedule { self.new.sched ≡ started_if tree.now.forks (λ f. true) (map.get tree.now.forks (last_name tree.now who.tty)) (stopped_if tree.now.forks (Some who) self.old.sched) }
        ensures tied { AreTied tree.now.forks self.new }
        ensures waits { WaitsLess self.old.sched.waiting self.new.sched.waiting }
        ensures set { size self.new.sched ≡ size self.old.sched }
        ensures comes_on { (f : AForkName) → IsRunnable tree.now.forks f → is_in_line f self.old.sched ≡ true → ComesOn f self.old.sched self.new.sched }
    {
        tree.are_trees();
        self.follow_slot(tree, who, slot);
        self.follow_newest(tree, who.tty);
    }

    /// The lists follow the forks of all jobs, which live as they did, by terminal.
    pub fn follow_all(&mut self, tree: &Tree)
        requires can { CanFollowAll tree.now.forks self.old }
        ensures schedule { self.new.sched ≡ followed_all tree.now.forks self.old.seen.items self.old.sched all_jobs }
        ensures follows { FollowsAll tree.now.forks self.old self.new }
        ensures comes_on { (f : AForkName) → IsRunnable tree.now.forks f → is_in_line f self.old.sched ≡ true → ComesOn f self.old.sched self.new.sched }
    {
        tree.are_trees();
        self.sched.sound();
        for t in 0..TERMINALS {
            self.follow(tree, Tty(t));
        }
    }
}
