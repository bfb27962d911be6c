// The calls on pseudo-interrupts by their numbers.
ghost use Rattle.std.specs.Prelude.{◌≡◌, IfOk};
ghost use Rattle.plain_model.specs.Calls.{Asked, ends, given as given_of, numbered};
ghost use Rattle.plain_model.specs.InterruptCalls.{interrupt_calls};
ghost use Rattle.machine_names.specs.declared.names.ForkName.{ForkName as AForkName};
ghost use Rattle.plain_model.specs.Forks.{ForkMap};
ghost use Rattle.call_turns.specs.Turns.{FitsEnd, IsRegs};
ghost use Rattle.job_forks.specs.Asking.{asked};
ghost use Rattle.psi_calls.specs.Steps.{FitsStep, IsChange, whole};

use crate::calls::{aic, ati, debrk, dic, dir, dti, eir, iic, sir};
use crate::step::FirstStep;
use fork_tree::Tree;
use machine_names::ForkName;
use plain_model::call::{AIC, ATI, DEBRK, DIC, DIR, DTI, EIR, End, IIC, InterruptChange, SIR};
use plain_units::Regs;
use plain_units::channel::ILLEGAL_INSTRUCTION;

// The first step of a call that ends at once, or that is refused with the code of an error.
fn given(ending: Result<End<InterruptChange>, u32>) -> FirstStep
    ensures turn { (a : Asked) → whole a result ≡ given_of ending ends }
    ensures fits { (forks : ForkMap) (who : AForkName) → IfOk ending (FitsEnd (IsChange forks who)) → FitsStep forks who result }
{
    match ending {
        Ok(end) => FirstStep::Ends(end),
        Err(code) => FirstStep::Ends(End::Refused(code)),
    }
}

/// The first step of a call by its number. A number that is none of them traps as an illegal instruction.
pub fn first(number: u32, regs: &Regs, who: ForkName, tree: &Tree) -> FirstStep
    requires { IsRegs regs.now }
    ensures turn { whole (asked who regs.now tree.now) result ≡ numbered interrupt_calls number (asked who regs.now tree.now) }
    ensures fits { FitsStep tree.now.forks who result }
{
    match number {
        SIR => given(sir(regs, who, tree)),
        EIR => given(eir(regs, who, tree)),
        DIR => given(dir(regs, who, tree)),
        AIC => given(aic(regs, who, tree)),
        DIC => given(dic(regs, who, tree)),
        IIC => given(iic(regs, who, tree)),
        DEBRK => debrk(who, tree),
        ATI => given(ati(regs, who)),
        DTI => given(dti(regs, who)),
        _ => FirstStep::Ends(End::Trap(ILLEGAL_INSTRUCTION)),
    }
}
