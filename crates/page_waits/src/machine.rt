// The machine: a system with the lists of its forks.
ghost use Rattle.std.specs.Prelude.{◌≡◌, false};
ghost use Rattle.fork_lists.specs.Ties.{AreTied};
ghost use Rattle.page_waits.specs.Holders.{AreUnheld};
ghost use Rattle.page_waits.specs.Waits.{AreStanding, the_lists};

use crate::System;
use fork_lists::ForkLists;

/// The system, and who runs next.
#[derive(Drop)]
pub struct Machine<S: System> {
    system: S,
    lists: ForkLists,
    /// A run completes transfers by itself.
    auto: bool,
    /// Pages may be held for members of the balance set.
    holding: bool,
    // Who waits is awaited, and what is held is held for members.
    ghost standing: { AreStanding S.means the_lists system lists },
    // The forks in the lists are those that can run.
    ghost tied: { AreTied (S.means.tree system).forks lists },
    // Else none are.
    ghost unheld: { holding ≡ false → AreUnheld (S.means.store.holds system) },
}

mod boot;
mod bringing;
mod looking;
mod moving;
mod showing;
