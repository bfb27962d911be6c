// The fork calls by their numbers.
ghost use Rattle.std.specs.Prelude.{◌≡◌, IfOk};
ghost use Rattle.plain_model.specs.Calls.{Asked, given as given_of};
ghost use Rattle.plain_model.specs.declared.call.TheConstants.{CFORK};
ghost use Rattle.plain_model.specs.ForkCalls.{fork_call, fork_calls};
ghost use Rattle.machine_names.specs.Bounds.{IsTerminal};
ghost use Rattle.call_turns.specs.Turns.{IsRegs};
ghost use Rattle.job_forks.specs.Asking.{asked};
ghost use Rattle.job_forks.specs.Limits.{AreWithin};
ghost use Rattle.fork_calls.specs.Steps.{FitsStep, MakesOrFails, whole};

use crate::calls::{cfork, ffork, hfork, kfork, rfacs, rfork, rfsts, sfacs, sfork, wfork};
use crate::step::FirstStep;
use fork_tree::Tree;
use machine_names::ForkName;
use plain_model::call::{
    CFORK, End, FFORK, HALTF, HFORK, KFORK, RFACS, RFORK, RFSTS, SFACS, SFORK, WFORK,
};
use plain_units::Regs;
use plain_units::channel::ILLEGAL_INSTRUCTION;

// A first step, or the end of a call that is refused with the code of an error.
fn given(step: Result<FirstStep, u32>) -> FirstStep
    ensures turn { (a : Asked) → whole a result ≡ given_of step (whole a) }
    ensures fits { (a : Asked) → IfOk step (FitsStep a) → FitsStep a result }
{
    match step {
        Ok(step) => step,
        Err(code) => FirstStep::Ends(End::Refused(code)),
    }
}

/// The first step of a call by its number. A number that is none of them traps as an illegal instruction.
pub fn first(number: u32, regs: &Regs, who: ForkName, tree: &Tree) -> FirstStep
    requires regs { IsRegs regs.now }
    requires terminal { IsTerminal who.tty }
    requires within { AreWithin tree.now.forks }
    ensures turn { whole (asked who regs.now tree.now) result ≡ fork_call number (asked who regs.now tree.now) }
    ensures fits { FitsStep (asked who regs.now tree.now) result }
    ensures makes { number ≡ CFORK → MakesOrFails result }
{
    match number {
        CFORK => cfork(who, tree),
        KFORK => given(kfork(regs, who, tree)),
        FFORK => given(ffork(regs, who, tree)),
        RFORK => given(rfork(regs, who, tree)),
        RFSTS => given(rfsts(regs, who, tree)),
        SFORK => given(sfork(regs, who, tree)),
        SFACS => given(sfacs(regs, who, tree)),
        RFACS => given(rfacs(regs, who, tree)),
        HFORK => given(hfork(regs, who, tree)),
        WFORK => given(wfork(regs, who, tree)),
        HALTF => FirstStep::Ends(End::Halts),
        _ => FirstStep::Ends(End::Trap(ILLEGAL_INSTRUCTION)),
    }
}
