// The system over pages.
ghost use Rattle.std.specs.Prelude.{◌≡◌, ◌≤◌, false};
ghost use Rattle.fork_tree.specs.Trees.{IsTree};
ghost use Rattle.page_waits.specs.Seats.{UNHELD_FRAMES};

use monitor_core::System;
use page_contracts::Pages;

/// The pages, the jobs with their forks, the files and the clock, of which a part of the pages is in core.
#[derive(Drop)]
pub struct Paged<P: Pages> {
    pub(crate) system: System<P>,
    // The forks of each job are a tree.
    ghost trees: { ∥ IsTree system.tree ∥₁ },
    // There are more frames than are held for forks.
    ghost many: { P.means.store.flat ≡ false → UNHELD_FRAMES ≤ P.means.store.frames system.pages },
}

impl<P: Pages> Paged<P> {
    /// A system over pages, as page waits ask it. Where it has frames, it has 32 at least.
    pub fn new(system: System<P>) -> Paged<P>
        requires many { P.means.store.flat ≡ false → UNHELD_FRAMES ≤ P.means.store.frames system.pages }
        ensures { result.system ≡ system }
    {
        system.trees();
        Paged { system }
    }
}
