// An inferior is killed, with all below it.
ghost use Rattle.std.specs.Prelude.{◌≡◌, IfErr, IsOk, OnErr, true};
ghost use Rattle.plain_model.specs.declared.call.ForkChange.{ForkChange as AForkChange};
ghost use Rattle.page_contracts.specs.Stores.{IsNeeded};
ghost use Rattle.job_forks.specs.Asking.{IsBelow};
ghost use Rattle.job_forks.specs.Holding.{CallLeaves, Holds};
ghost use Rattle.fork_calls.specs.Turning.{ChangesIf};

use fork_tree::Tree;
use job_forks::{ask_maps, kill_bare, kill_below};
use machine_names::ForkName;
use page_contracts::{Need, Pages};

/// Kills an inferior of a fork, and all below it, with their maps; who waits for a fork of the job runs again. Err: one of
/// the maps is in no frame, and nothing was changed.
pub fn kill<P: Pages>(
    who: ForkName,
    name: ForkName,
    tree: &mut Tree,
    pages: &mut P,
) -> Result<(), Need>
    requires below { IsBelow tree.old.forks who name }
    requires holds { Holds P.means pages.old tree.old.forks }
    ensures told { ChangesIf P.means pages.old pages.new tree.old tree.new result (AForkChange.Kill name) }
    ensures needs { IfErr result (IsNeeded P.means.store 1 pages.new) }
    ensures stopped { OnErr result (pages.new ≡ pages.old) }
    ensures left { OnErr result (tree.new ≡ tree.old) }
    ensures core { P.means.flat ≡ true → IsOk result }
    ensures leaves { CallLeaves P.means pages.old pages.new tree.old tree.new who 0 }
{
    tree.are_trees();
    ask_maps(name, tree, pages)?;
    kill_below(name, tree, pages);
    kill_bare(name, tree, pages);
    tree.are_trees();
    tree.wake_waiters(name.tty);
    tree.are_trees();
    Ok(())
}
