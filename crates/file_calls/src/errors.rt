// GETER, which tells the last error of a fork.
ghost use Rattle.std.specs.Prelude.{◌≡◌};
ghost use Rattle.plain_model.specs.Calls.{with_ac as with_ac_of};
ghost use Rattle.plain_model.specs.FileCalls.{geter as geter_of};
ghost use Rattle.call_turns.specs.Turns.{IsRegs};
ghost use Rattle.job_forks.specs.Asking.{asked};
ghost use Rattle.file_calls.specs.Answering.{Answers};

use call_turns::{Answer, answer_of, returning, with_ac};
use fork_tree::Tree;
use job_forks::own_named;
use machine_names::ForkName;
use plain_units::Regs;
use word36::Word;

// The registers with an error in accumulator 2.
fn with_error(regs: Regs, error: u32) -> Regs
    requires { IsRegs regs }
    ensures with { result ≡ with_ac_of regs 2 error }
    ensures fits { IsRegs result }
{
    with_ac(regs, 2, Word::wrapped(u64::from(error)))
}

/// GETER: accumulator 2 becomes the last error of the caller or an inferior. NO_HANDLE, NO_INFERIOR.
pub fn geter(regs: &Regs, who: ForkName, tree: &Tree) -> Answer
    requires { IsRegs regs.now }
    ensures { Answers (geter_of (asked who regs.now tree.now)) result }
{
    match own_named(regs, who, tree) {
        Ok(fork) => answer_of(returning((), with_error(*regs, fork.body.error))),
        Err(code) => Answer::Refused(code),
    }
}
