// The lists of all forks that can run.
ghost use Rattle.std.specs.Prelude.{◌≡◌, ◌*◌, length};
ghost use Rattle.machine_names.specs.declared.names.TheConstants.{MOST_FORKS, TERMINALS};
ghost use Rattle.fork_lists.specs.Seeing.{AreNamed};

use crate::seen::Seen;
use job_sched::Sched;

/// The lists of the scheduler, and what was seen of each slot of each job when its forks were last followed. Only `boot` takes memory.
#[derive(Drop)]
pub struct ForkLists {
    pub(crate) sched: Sched,
    /// What was seen, by terminal and slot.
    pub(crate) seen: Vec<Seen>,
    ghost room: { length seen.items ≡ TERMINALS * MOST_FORKS },
    ghost named: { AreNamed seen.items },
}
