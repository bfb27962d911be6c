// Codes of forks that live no more.
ghost use Rattle.std.specs.Prelude.{◌≡◌, false, is_none};
ghost use Rattle.std.specs.Option.{option_map_or};
ghost use Rattle.std.specs.FinMap as map;
ghost use Rattle.plain_model.specs.InterruptCalls.{living_codes};

use fork_tree::Tree;
use machine_names::ForkName;
use plain_typing::ASSIGNABLE_CODES;
use tty_lines::Line;

// Whether a code is assigned to a fork that lives no more.
fn is_lost(assigned: Option<(ForkName, u8)>, tree: &Tree) -> bool
    ensures { result ≡ option_map_or (λ a. is_none (map.get tree.now.forks a.0)) assigned false }
{
    assigned.is_some_and(|(fork, _)| tree.fork(fork).is_none())
}

/// The codes of a line that are assigned to forks which live no more are assigned to nothing; the others stay. To be called where forks
/// were killed: behind KFORK, and behind a command that takes the job's program away.
pub fn forget_lost(line: &mut Line, tree: &Tree)
    ensures { line.new ≡ record line.old { codes = living_codes tree.now.forks line.old.codes } }
{
    for code in 0..ASSIGNABLE_CODES as u8 {
        if is_lost(line.assigned(code), tree) {
            line.unassign(code);
        }
    }
}
