// Whom a call is about.
ghost use Rattle.std.specs.Prelude.{◌≡◌, IfOk};
ghost use Rattle.plain_model.specs.ForkCalls.{fork_named as fork_named_of, if_inferior as if_inferior_of, inferior_named as inferior_named_of, own_named as own_named_of};
ghost use Rattle.machine_names.specs.Orders.{same_fork};
ghost use Rattle.call_turns.specs.Turns.{IsRegs};
ghost use Rattle.fork_tree.specs.Trees.{Lives};
ghost use Rattle.job_forks.specs.Asking.{IsBelow, asked};

use fork_tree::Tree;
use machine_names::ForkName;
use plain_model::Fork;
use plain_model::call::{NO_HANDLE, NO_INFERIOR};
use plain_units::Regs;

// The fork that the handle in accumulator 1 names; or NO_HANDLE.
fn fork_named(regs: &Regs, who: ForkName, tree: &Tree) -> Result<Fork, u32>
    requires { IsRegs regs.now }
    ensures named { result ≡ fork_named_of (asked who regs.now tree.now) }
    ensures lives { IfOk result (Lives tree.now.forks) }
    ensures job { IfOk result (λ f. f.name.tty.0 ≡ who.tty.0) }
{
    tree.are_trees();
    match tree.fork_named(who, regs.ac[1].right()) {
        Some(fork) => Ok(*fork),
        None => Err(NO_HANDLE),
    }
}

// A fork of the caller's job, where it is an inferior of the caller; or NO_INFERIOR.
fn if_inferior(fork: Fork, regs: &Regs, who: ForkName, tree: &Tree) -> Result<Fork, u32>
    requires lives { Lives tree.now.forks fork }
    requires job { fork.name.tty.0 ≡ who.tty.0 }
    ensures named { result ≡ if_inferior_of (asked who regs.now tree.now) fork }
    ensures below { IfOk result (λ f. IsBelow tree.now.forks who f.name) }
    ensures lives { IfOk result (Lives tree.now.forks) }
    ensures job { IfOk result (λ f. f.name.tty.0 ≡ who.tty.0) }
{
    if tree.below(who, fork.name) {
        Ok(fork)
    } else {
        Err(NO_INFERIOR)
    }
}

/// The inferior that accumulator 1 names; or NO_HANDLE, or NO_INFERIOR.
#[tactic(auto, unfolding(plain_model::specs::ForkCalls::inferior_named))]
pub fn inferior_named(regs: &Regs, who: ForkName, tree: &Tree) -> Result<Fork, u32>
    requires { IsRegs regs.now }
    ensures named { result ≡ inferior_named_of (asked who regs.now tree.now) }
    ensures below { IfOk result (λ f. IsBelow tree.now.forks who f.name) }
    ensures lives { IfOk result (Lives tree.now.forks) }
{
    match fork_named(regs, who, tree) {
        Ok(fork) => if_inferior(fork, regs, who, tree),
        Err(code) => Err(code),
    }
}

/// Whether two names are one.
pub fn same_fork(a: ForkName, b: ForkName) -> bool
    ensures { result ≡ same_fork a b }
{
    a.tty.0 == b.tty.0 && a.serial == b.serial
}

/// The same fork as `inferior_named`, where it may be the caller too.
#[tactic(auto, unfolding(plain_model::specs::ForkCalls::own_named))]
pub fn own_named(regs: &Regs, who: ForkName, tree: &Tree) -> Result<Fork, u32>
    requires { IsRegs regs.now }
    ensures named { result ≡ own_named_of (asked who regs.now tree.now) }
    ensures lives { IfOk result (Lives tree.now.forks) }
    ensures job { IfOk result (λ f. f.name.tty.0 ≡ who.tty.0) }
{
    match fork_named(regs, who, tree) {
        Ok(fork) => {
            if same_fork(fork.name, who) {
                Ok(fork)
            } else {
                if_inferior(fork, regs, who, tree)
            }
        }
        Err(code) => Err(code),
    }
}
