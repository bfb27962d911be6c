// Page waits of the forks that are next.
ghost use Rattle.std.specs.Prelude.{◌≡◌, ◌<◌, Some, slice_get};
ghost use Rattle.std.specs.Option.{option_map};
ghost use Rattle.std.specs.List.{find};
ghost use Rattle.machine_names.specs.Bounds.{IsForkName};
ghost use Rattle.plain_model.specs.Forks.{ForkMap};
ghost use Rattle.job_sched.specs.Schedules.{arrived as arrived_in, is_member, member_at, members, size, wait_at, waited};
ghost use Rattle.fork_lists.specs.Ties.{AreTied};

use crate::lists::ForkLists;
use machine_names::ForkName;
use page_contracts::Need;

impl ForkLists {
    /// How many members the balance set may have.
    pub fn set(&self) -> u16
        ensures { result ≡ size self.now.sched }
    {
        self.sched.set()
    }

    /// A fork's number in the balance set. None exactly where it isn't a member.
    pub fn seat(&self, f: ForkName) -> Option<u16>
        requires { IsForkName f }
        ensures { result ≡ option_map (λ m. m.seat) (find (is_member f) (members self.now.sched)) }
    {
        self.sched.seat(f)
    }

    /// The member that has this number. None exactly where none has it.
    pub fn member(&self, seat: u16) -> Option<ForkName>
        requires { seat < size self.now.sched }
        ensures { result ≡ member_at self.now.sched seat }
    {
        self.sched.member(seat)
    }

    /// What the member that has this number waits for. None exactly where none has it, or it isn't in page wait.
    pub fn waits_at(&self, seat: u16) -> Option<Need>
        requires { seat < size self.now.sched }
        ensures { result ≡ wait_at self.now.sched seat }
    {
        self.sched.waits_at(seat)
    }

    /// The head of the ready list waits for something, and stays in the set.
    pub fn wait(&mut self, f: ForkName, need: Need)
        requires { option_map (λ m. m.fork) (slice_get self.old.sched.ready 0) ≡ Some f }
        ensures waits { self.new.sched ≡ waited self.old.sched need }
        ensures set { size self.new.sched ≡ size self.old.sched }
        ensures seen { self.new.seen ≡ self.old.seen }
        ensures tied { (forks : ForkMap) → AreTied forks self.old → AreTied forks self.new }
    {
        self.sched.wait(f, need);
    }

    /// Who waits for this, or for a frame, is ready, in the order in which they began to wait.
    pub fn arrived(&mut self, done: Need)
        ensures arrived { self.new.sched ≡ arrived_in self.old.sched done }
        ensures set { size self.new.sched ≡ size self.old.sched }
        ensures seen { self.new.seen ≡ self.old.seen }
        ensures tied { (forks : ForkMap) → AreTied forks self.old → AreTied forks self.new }
    {
        self.sched.arrived(done);
    }
}
