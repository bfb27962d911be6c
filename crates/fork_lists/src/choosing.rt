// Whose turn is next, and for how long.
ghost use Rattle.std.specs.Prelude.{◌≡◌, ◌+◌, ◌-◌, ◌*◌, ◌/◌, ◌<◌, ◌≤◌, IfOk, MatchOption, [], length, min, replicate, true};
ghost use Rattle.std.specs.FinMap as map;
ghost use Rattle.machine_names.specs.declared.names.ForkName.{ForkName as AForkName};
ghost use Rattle.plain_model.specs.Forks.{ForkMap, IsRunnable};
ghost use Rattle.job_sched.specs.Schedules.{empty, heads, size};
ghost use Rattle.job_sched.specs.Ties.{IsSound};
ghost use Rattle.job_sched.specs.Units.{IsAlone, IsRow, row_ran};
ghost use Rattle.machine_names.specs.declared.names.TheConstants.{MOST_FORKS, TERMINALS, QUANTUM};
ghost use Rattle.fork_lists.specs.Seeing.{nobody};
ghost use Rattle.fork_lists.specs.Following.{last_counted};
ghost use Rattle.fork_lists.specs.Ties.{AreTied};

use crate::lists::ForkLists;
use crate::seen::{NOBODY, Seen};
use job_sched::Sched;
use machine_names::{ForkName, MOST_FORKS, TERMINALS};
use outside::Memory;
use std::alloc::{AllocError, Global};

// A place for each slot of each job.
const PLACES: usize = TERMINALS as usize * MOST_FORKS as usize;

// Nobody was seen in any slot.
fn nobody_seen(alloc: Global) -> Result<Vec<Seen>, AllocError>
    ensures { IfOk result (λ seen. seen.items ≡ replicate (TERMINALS * MOST_FORKS) nobody) }
{
    vec![in alloc; NOBODY; PLACES]
}

impl ForkLists {
    /// No fork lives. The balance set has so many members at most. Memory, where none was found.
    pub fn boot(alloc: Global, set: u32) -> Result<ForkLists, Memory>
        requires first { 1 ≤ set }
        requires last { set ≤ 63 }
        ensures tied { IfOk result (AreTied map.empty) }
        ensures empty { IfOk result (λ l. l.sched ≡ empty set) }
    {
        let sched = Sched::boot(alloc, set)?;
        let seen = nobody_seen(alloc)?;
        Ok(ForkLists { sched, seen })
    }

    /// What is so of every schedule.
    pub fn sound(&self)
        ensures { IsSound self.now.sched }
    {
        self.sched.sound();
    }

    /// The fork whose turn is next: the head of the ready list (CACM paper, "Scheduling"). None exactly where none is ready: where none is in page wait either, no fork can run. One step.
    pub fn choose(&self) -> Option<ForkName>
        ensures chosen { (forks : ForkMap) → AreTied forks self.now → MatchOption result (self.now.sched.waiting ≡ [] → (f : AForkName) → IsRunnable forks f → ⊥) (IsRunnable forks) }
        ensures head { MatchOption result (length self.now.sched.ready ≡ 0) (λ f. (0 < length self.now.sched.ready) × (heads f self.now.sched.ready ≡ true)) }
    {
        self.sched.sound();
        self.sched.choose()
    }

    /// Whether a fork is the head of the ready list. One step.
    pub fn is_head(&self, name: ForkName) -> bool
        ensures { result ≡ heads name self.now.sched.ready }
    {
        match self.sched.choose() {
            Some(head) => head == name,
            None => false,
        }
    }

    /// How many units the head may run in a row, where so many are left of a RUN: all where no other fork can run, and else those that are
    /// left of its quantum at most.
    pub fn most_in_row(&self, left: u32) -> u32
        requires head { 0 < length self.now.sched.ready }
        requires some { 1 ≤ left }
        ensures alone { IsAlone self.now.sched → result ≡ left }
        ensures quantum { (IsAlone self.now.sched → ⊥) → result ≡ min left (QUANTUM - self.now.sched.used) }
        ensures row { IsRow result self.now.sched }
        ensures most { result ≤ left }
        ensures some { 1 ≤ result }
    {
        self.sched.most_in_row(left)
    }

    /// The same, and no more than those that are left of its quantum, whether or not another fork can run.
    pub fn most_in_quantum(&self, left: u32) -> u32
        requires head { 0 < length self.now.sched.ready }
        requires some { 1 ≤ left }
        ensures quantum { result ≡ min left (QUANTUM - self.now.sched.used) }
        ensures within { self.now.sched.used + result ≤ QUANTUM }
        ensures row { IsRow result self.now.sched }
        ensures most { result ≤ left }
        ensures some { 1 ≤ result }
    {
        left.min(self.sched.quantum_left())
    }

    /// A row of so many units of the head is over, and the quanta that end by it. How many quanta these are.
    pub fn ran_row(&mut self, count: u32) -> u32
        requires { IsRow count self.old.sched }
        ensures ended { result ≡ (self.old.sched.used + count) / QUANTUM }
        ensures waits { self.new.sched.waiting ≡ self.old.sched.waiting }
        ensures set { size self.new.sched ≡ size self.old.sched }
        ensures ran { self.new.sched ≡ row_ran count self.old.sched }
        ensures seen { self.new.seen ≡ self.old.seen }
        ensures tied { (forks : ForkMap) → AreTied forks self.old → AreTied forks self.new }
    {
        self.sched.ran_row(count)
    }
    /// All units of a row of the head but the last are over. Who starts then stands before the head, where the last ends its quantum.
    pub fn count_but_last(&mut self, count: u32)
        requires row { IsRow count self.old.sched }
        requires some { 1 ≤ count }
        ensures ran { self.new.sched ≡ row_ran (count - 1) self.old.sched }
        ensures waits { self.new.sched.waiting ≡ self.old.sched.waiting }
        ensures seen { self.new.seen ≡ self.old.seen }
        ensures tied { (forks : ForkMap) → AreTied forks self.old → AreTied forks self.new }
    {
        self.sched.sound();
        self.ran_row(count - 1);
    }

    /// One more unit of a fork is over, where it still is the head.
    pub fn count_last(&mut self, name: ForkName)
        ensures schedule { self.new.sched ≡ last_counted name self.old.sched }
        ensures waits { self.new.sched.waiting ≡ self.old.sched.waiting }
        ensures tied { (forks : ForkMap) → AreTied forks self.old → AreTied forks self.new }
    {
        if self.is_head(name) {
            self.sched.sound();
            self.ran_row(1);
        }
    }
}
