// A machine that begins.
ghost use Rattle.std.specs.Prelude.{◌≡◌, ◌≤◌, ℕ, [], true};
ghost use Rattle.fork_lists.specs.Ties.{AreTied};
ghost use Rattle.job_sched.specs.Schedules.{size};
ghost use Rattle.page_waits.specs.Machines.{auto};

use crate::System;
use crate::machine::Machine;
use fork_lists::ForkLists;

impl<S: System> Machine<S> {
    /// A system in which no transfer is queued and nothing is held, with the lists of its forks, of which none is in page wait. AUTO is on.
    pub fn new(system: S, lists: ForkLists) -> Machine<S>
        requires set { size lists.sched ≤ S.means.store.members system }
        requires told { S.means.store.untold system ≡ [] }
        requires bare { (k : ℕ) → S.means.store.holds system k ≡ [] }
        requires calm { lists.sched.waiting ≡ [] }
        requires tied { AreTied (S.means.tree system).forks lists }
        ensures system { result.system ≡ system }
        ensures lists { result.lists ≡ lists }
        ensures on { auto result ≡ true }
    {
        Machine {
            system,
            lists,
            auto: true,
            holding: false,
        }
    }
}
