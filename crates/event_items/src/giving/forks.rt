// The forks of a job, given to a taker.
ghost use Rattle.std.specs.Prelude.{◌≡◌};
ghost use Rattle.std.specs.Option.{option_map_or};
ghost use Rattle.job_forks.specs.Limits.{AreWithin};
ghost use Rattle.plain_model.specs.Forks.{fork_in, fork_line, superior_of};
ghost use Rattle.step_shown.specs.Replies.{fork_items, lines_of};
ghost use Rattle.event_items.specs.Giving.{TookItems};

use fork_tree::Tree;
use machine_names::{MOST_FORKS, Tty};
use outside::Failed;
use plain_model::Fork;
use script_texts::{ForkLine, Item, Taker};

// The serial of a fork's superior, and 0 where it has none.
fn superior_serial(tree: &Tree, fork: &Fork) -> u32
    ensures { result ≡ option_map_or (λ g. g.name.serial) (superior_of tree.now.forks fork.now) 0 }
{
    match tree.superior(fork) {
        Some(over) => over.name.serial,
        None => 0,
    }
}

// A fork as it is shown.
fn line(tree: &Tree, fork: &Fork) -> ForkLine
    ensures { result ≡ fork_line tree.now.forks fork.now }
{
    ForkLine {
        name: fork.name,
        superior: superior_serial(tree, fork),
        status: fork.body.status,
        frozen: fork.frozen,
        address: fork.body.regs.pc,
    }
}

// Gives the fork in a slot of a terminal's job, if one is there.
fn give_fork<T: Taker>(tree: &Tree, t: Tty, slot: u8, out: &mut T) -> Result<(), Failed>
    requires bodies { AreWithin tree.now.forks }
    ensures { TookItems T.fault_count T.onward T.stands T.cut out.old out.new result (λ d. lines_of tree.now.forks (fork_in tree.now.forks t slot)) }
{
    match tree.fork_at(t, slot) {
        Some(fork) => out.item(Item::ForkLine(line(tree, fork))),
        None => Ok(()),
    }
}

/// Gives the forks of a terminal's job, by slot.
#[inline(never)]
pub fn give_forks<T: Taker>(tree: &Tree, t: Tty, out: &mut T) -> Result<(), Failed>
    requires bodies { AreWithin tree.now.forks }
    ensures { TookItems T.fault_count T.onward T.stands T.cut out.old out.new result (λ d. fork_items tree.now.forks t) }
{
    for slot in 1..MOST_FORKS + 1 {
        give_fork(tree, t, slot, out)?;
    }
    Ok(())
}
