// CONTINUE: the top fork goes on.
ghost use Rattle.std.specs.Prelude.{◌≡◌, IsSome, if◌then◌else◌, false};
ghost use Rattle.std.specs.Option.{option_map_or};
ghost use Rattle.std.specs.FinMap as map;
ghost use Rattle.plain_model.specs.Commands.{is_forced as is_forced_of, resumed, without_halt as without_halt_of};
ghost use Rattle.plain_model.specs.Forks.{OthersStay};
ghost use Rattle.plain_model.specs.Trees.{with_changed_of};
ghost use Rattle.fork_tree.specs.Trees.{IsTree};
ghost use Rattle.job_commands.specs.Going.{can_continue};

use fork_tree::Tree;
use machine_names::ForkName;
use plain_model::Fork;
use script_texts::ForkStatus;

// Whether a fork was forced.
fn is_forced(status: ForkStatus) -> bool
    ensures { result ≡ is_forced_of status }
{
    match status {
        ForkStatus::Forced(_) => true,
        ForkStatus::Run => false,
        ForkStatus::Wait(_) => false,
        ForkStatus::Halted => false,
    }
}

// A fork that was halted runs.
fn without_halt(status: ForkStatus) -> ForkStatus
    ensures { result ≡ without_halt_of status }
{
    match status {
        ForkStatus::Halted => ForkStatus::Run,
        ForkStatus::Run => status,
        ForkStatus::Wait(_) => status,
        ForkStatus::Forced(_) => status,
    }
}

// Whether a fork can go on: it wasn't forced, and has run.
fn can_continue(fork: &Fork) -> bool
    ensures { result ≡ can_continue fork.now }
{
    !is_forced(fork.body.status) && fork.body.units != 0
}

// A fork goes on, with no freeze mark.
fn resume(top: ForkName, tree: &mut Tree)
    requires tree { IsTree tree.old }
    requires lives { IsSome (map.get tree.old.forks top) }
    ensures { tree.new ≡ with_changed_of tree.old top resumed }
{
    tree.freeze(top, false);
    if let Some(body) = tree.body_mut(top) {
        body.status = without_halt(body.status);
    }
}

/// CONTINUE: a job's top fork goes on where it stands, with no freeze mark. False exactly where it was forced or has run no
/// unit; nothing changes then.
pub fn go_on(top: ForkName, tree: &mut Tree) -> bool
    requires lives { IsSome (map.get tree.old.forks top) }
    ensures goes { result ≡ option_map_or can_continue (map.get tree.old.forks top) false }
    ensures tree { tree.new ≡ (if result then with_changed_of tree.old top resumed else tree.old) }
    ensures others { OthersStay top.tty tree.old.forks tree.new.forks }
{
    tree.are_trees();
    let Some(fork) = tree.fork(top) else {
        unreachable!();
    };
    if !can_continue(fork) {
        return false;
    }
    resume(top, tree);
    true
}
