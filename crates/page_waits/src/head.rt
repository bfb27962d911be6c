// The fork whose turn is next, and its seat in the balance set.
ghost use Rattle.std.specs.Prelude.{◌≡◌, [], true, MatchOption, IfSome, None};
ghost use Rattle.machine_names.specs.declared.names.ForkName.{ForkName as AForkName};
ghost use Rattle.plain_model.specs.Forks.{ForkMap as AForkMap, IsRunnable};
ghost use Rattle.job_sched.specs.Schedules.{arrived, heads, waited};
ghost use Rattle.fork_lists.specs.Ties.{AreTied};
ghost use Rattle.page_waits.specs.Waits.{IsHead, Waits, Wakes, the_lists};

use fork_lists::ForkLists;
use fork_tree::Tree;
use machine_names::ForkName;
use page_contracts::Need;

/// A fork that is ready, with its seat in the balance set.
#[derive(Clone, Copy)]
pub struct Head {
    pub fork: ForkName,
    pub seat: u16,
}

/// The fork whose turn is next. None exactly where none is ready: where nobody is in page wait either, no fork can run.
pub fn next_head(lists: &ForkLists, tree: &Tree) -> Option<Head>
    requires tied { AreTied tree.now.forks lists.now }
    ensures head { MatchOption result (the_lists.ready lists.now ≡ []) (IsHead the_lists lists.now) }
    ensures heads { IfSome result (λ head. heads head.fork lists.now.sched.ready ≡ true) }
    ensures runs { IfSome result (λ head. IsRunnable tree.now.forks head.fork) }
    ensures none { result ≡ None → lists.now.sched.waiting ≡ [] → (f : AForkName) → IsRunnable tree.now.forks f → ⊥ }
{
    tree.are_trees();
    lists.sound();
    match lists.choose() {
        Some(fork) => match lists.seat(fork) {
            Some(seat) => Some(Head { fork, seat }),
            // The head is a member of the set.
            None => unreachable!(),
        },
        None => None,
    }
}

/// The fork whose turn is next waits for something.
pub fn wait(lists: &mut ForkLists, head: Head, need: Need)
    requires head { IsHead the_lists lists.old head }
    ensures waits { Waits the_lists head need lists.old lists.new }
    ensures schedule { lists.new.sched ≡ waited lists.old.sched need }
    ensures tied { (forks : AForkMap) → AreTied forks lists.old → AreTied forks lists.new }
{
    lists.sound();
    lists.wait(head.fork, need);
}

/// Who waits for this, or for a frame, is ready.
pub fn wake(lists: &mut ForkLists, done: Need)
    ensures wakes { Wakes the_lists done lists.old lists.new }
    ensures schedule { lists.new.sched ≡ arrived lists.old.sched done }
    ensures tied { (forks : AForkMap) → AreTied forks lists.old → AreTied forks lists.new }
{
    lists.sound();
    lists.arrived(done);
}
