// The changes that calls on pseudo-interrupts make, once they are done.
ghost use Rattle.std.specs.Prelude.{◌≡◌};
ghost use Rattle.job_forks.specs.Holding.{ComeFrom, SamePlaces};
ghost use Rattle.fork_tree.specs.Trees.{IsTree};
ghost use Rattle.plain_model.specs.Forks.{OthersStay};
ghost use Rattle.psi_calls.specs.Steps.{IsChange};
ghost use Rattle.psi_calls.specs.Turning.{Changes};

use fork_tree::Tree;
use machine_names::ForkName;
use plain_model::call::InterruptChange;
use tty_lines::Line;

/// Makes a change: of a fork, of the forks that channels reach, or of the codes of the job at the caller's terminal.
pub fn change(what: &InterruptChange, who: ForkName, tree: &mut Tree, line: &mut Line)
    requires { IsChange tree.old.forks who what.now }
    ensures told { Changes tree.old tree.new line.old line.new who.tty what.now }
    ensures input { line.new.input ≡ line.old.input }
    ensures same { SamePlaces tree.old.forks tree.new.forks }
    ensures kept { ComeFrom tree.old.forks tree.new.forks }
    ensures others { OthersStay who.tty tree.old.forks tree.new.forks }
    ensures trees { IsTree tree.new }
{
    tree.are_trees();
    match what {
        InterruptChange::Become(name, body) => tree.set_body(*name, *body),
        InterruptChange::Post(name, channels) => {
            tree.post_channels(*name, *channels);
        }
        InterruptChange::Assign(code, fork, channel) => line.assign(*code, *fork, *channel),
        InterruptChange::Unassign(_, code) => line.unassign(*code),
    }
    tree.are_trees();
}
