// Changes that a fork call makes once it has ended, with no word of a page.
ghost use Rattle.std.specs.Prelude.{◌≡◌, IfErr, IsOk, OnErr, IsSome, true};
ghost use Rattle.std.specs.FinMap as map;
ghost use Rattle.page_contracts.specs.Stores.{IsNeeded};
ghost use Rattle.plain_model.specs.ForkCalls.{fork_changed};
ghost use Rattle.plain_model.specs.declared.call.ForkChange.{ForkChange as AForkChange};
ghost use Rattle.plain_pages.specs.PlainPages.{NumberedPages};
ghost use Rattle.plain_model.specs.Forks.{OthersStay};
ghost use Rattle.plain_model.specs.Trees.{with_changed_of};
ghost use Rattle.fork_tree.specs.Trees.{IsTree};
ghost use Rattle.job_forks.specs.Asking.{IsBelow};
ghost use Rattle.job_forks.specs.Holding.{CallLeaves, ComeFrom, Holds, SamePlaces, parts};
ghost use Rattle.job_forks.specs.Limits.{IsBodyOf};
ghost use Rattle.fork_calls.specs.Steps.{IsChangeBelow, halted};
ghost use Rattle.fork_calls.specs.Turning.{ChangesIf};

use crate::killing::kill;
use fork_tree::Tree;
use machine_names::ForkName;
use page_contracts::{Need, Pages};
use plain_model::Body;
use plain_model::call::ForkChange;
use script_texts::ForkStatus;

// A fork that lives is halted, whatever its status was.
fn set_halted(name: ForkName, tree: &mut Tree)
    requires { IsSome (map.get tree.old.forks name) }
    ensures { tree.new ≡ with_changed_of tree.old name halted }
{
    if let Some(body) = tree.body_mut(name) {
        body.status = ForkStatus::Halted;
    }
}

// Halts an inferior: who waits for a fork of the job runs again, and the superior of the inferior is told by a channel.
fn halt(who: ForkName, name: ForkName, tree: &mut Tree)
    requires { IsBelow tree.old.forks who name }
    ensures told { (p : NumberedPages) → parts tree.new p ≡ fork_changed (AForkChange.Halt name) (parts tree.old p) }
    ensures same { SamePlaces tree.old.forks tree.new.forks }
    ensures kept { ComeFrom tree.old.forks tree.new.forks }
    ensures others { OthersStay name.tty tree.old.forks tree.new.forks }
    ensures trees { IsTree tree.new }
{
    tree.are_trees();
    set_halted(name, tree);
    tree.tell_end(name);
    tree.are_trees();
}

// An inferior gets the freeze mark, or loses it.
fn set_mark(who: ForkName, name: ForkName, on: bool, tree: &mut Tree)
    requires { IsBelow tree.old.forks who name }
    ensures told { (p : NumberedPages) → parts tree.new p ≡ fork_changed (AForkChange.Freeze name on) (parts tree.old p) }
    ensures same { SamePlaces tree.old.forks tree.new.forks }
    ensures kept { ComeFrom tree.old.forks tree.new.forks }
    ensures others { OthersStay name.tty tree.old.forks tree.new.forks }
    ensures trees { IsTree tree.new }
{
    tree.are_trees();
    tree.freeze(name, on);
    tree.are_trees();
}

/// A fork that lives has another body, which comes of its own.
pub fn set_body(name: ForkName, body: Body, tree: &mut Tree)
    requires { IsBodyOf tree.old.forks name body }
    ensures told { (p : NumberedPages) → parts tree.new p ≡ fork_changed (AForkChange.Become name body) (parts tree.old p) }
    ensures same { SamePlaces tree.old.forks tree.new.forks }
    ensures kept { ComeFrom tree.old.forks tree.new.forks }
    ensures others { OthersStay name.tty tree.old.forks tree.new.forks }
    ensures trees { IsTree tree.new }
{
    tree.are_trees();
    tree.set_body(name, body);
    tree.are_trees();
}

/// Makes a change of an inferior. Err: it needs this first, and nothing was changed.
pub fn change<P: Pages>(
    who: ForkName,
    what: ForkChange,
    tree: &mut Tree,
    pages: &mut P,
) -> Result<(), Need>
    requires change { IsChangeBelow tree.old.forks who what }
    requires holds { Holds P.means pages.old tree.old.forks }
    ensures told { ChangesIf P.means pages.old pages.new tree.old tree.new result what }
    ensures needs { IfErr result (IsNeeded P.means.store 1 pages.new) }
    ensures stopped { OnErr result (pages.new ≡ pages.old) }
    ensures left { OnErr result (tree.new ≡ tree.old) }
    ensures core { P.means.flat ≡ true → IsOk result }
    ensures leaves { CallLeaves P.means pages.old pages.new tree.old tree.new who 0 }
{
    tree.are_trees();
    match what {
        ForkChange::Nothing => {}
        ForkChange::Make(_) => unreachable!(),
        ForkChange::Kill(name) => return kill(who, name, tree, pages),
        ForkChange::Freeze(name, on) => set_mark(who, name, on, tree),
        ForkChange::Become(name, body) => set_body(name, body, tree),
        ForkChange::Halt(name) => halt(who, name, tree),
        ForkChange::Store(..) => unreachable!(),
    }
    Ok(())
}
