// The first step of each fork call, by its definition; or the code of the error with which the call is refused.
ghost use Rattle.std.specs.Prelude.{◌≡◌, ◌<◌, ◌^◌, IfOk, true, false};
ghost use Rattle.plain_units.specs.declared.registers.Regs.{Regs as ARegs};
ghost use Rattle.plain_model.specs.Calls.{given};
ghost use Rattle.plain_model.specs.ForkCalls.{of_inferior, rfacs as rfacs_of, sfacs as sfacs_of, started_at as started_at_of, has_ended as has_ended_of, fork_call};
ghost use Rattle.plain_model.specs.Forks.{no_levels};
ghost use Rattle.machine_names.specs.Bounds.{IsTerminal};
ghost use Rattle.call_turns.specs.Turns.{IsRegs};
ghost use Rattle.job_forks.specs.Asking.{asked};
ghost use Rattle.job_forks.specs.Limits.{AreWithin, IsBody};
ghost use Rattle.fork_calls.specs.Steps.{FitsStep, MakesOrFails, whole};
ghost use Rattle.plain_model.specs.declared.call.TheConstants.{CFORK, RFSTS, SFORK, WFORK};

use crate::standing::{place_word, status_word};
use crate::step::FirstStep;
use crate::words::address_named;
use call_turns::{returning, with_ac};
use fork_tree::{NoFork, Tree};
use job_forks::{inferior_named, own_named};
use machine_names::ForkName;
use plain_model::call::{End, FORKS_FULL, ForkChange, SERIALS_OUT};
use plain_model::interrupt::LEVELS;
use plain_model::{Body, Psi};
use plain_units::Regs;
use script_texts::{ForkStatus, WaitOn};
use word36::{Flags, Word};

/// CFORK: makes an inferior. FORKS_FULL, SERIALS_OUT, NO_ROOM.
pub fn cfork(who: ForkName, tree: &Tree) -> FirstStep
    requires { IsTerminal who.tty }
    ensures turn { (regs : ARegs) → whole (asked who regs tree.now) result ≡ fork_call CFORK (asked who regs tree.now) }
    ensures fits { (regs : ARegs) → FitsStep (asked who regs tree.now) result }
    ensures makes { MakesOrFails result }
{
    match tree.slot_for(who.tty) {
        Ok(slot) => FirstStep::Makes(slot),
        Err(NoFork::ForksFull) => FirstStep::Ends(End::Failed(FORKS_FULL)),
        Err(NoFork::SerialsOut) => FirstStep::Ends(End::Failed(SERIALS_OUT)),
    }
}

/// KFORK: kills an inferior, and all below it. NO_HANDLE, NO_INFERIOR.
pub fn kfork(regs: &Regs, who: ForkName, tree: &Tree) -> Result<FirstStep, u32>
    requires { IsRegs regs.now }
    ensures turn { given result (whole (asked who regs.now tree.now)) ≡ of_inferior (λ f. ForkChange.Kill f.name) (asked who regs.now tree.now) }
    ensures fits { IfOk result (FitsStep (asked who regs.now tree.now)) }
{
    let fork = inferior_named(regs, who, tree)?;
    Ok(FirstStep::Ends(returning(ForkChange::Kill(fork.name), *regs)))
}

/// FFORK: freezes an inferior. NO_HANDLE, NO_INFERIOR.
pub fn ffork(regs: &Regs, who: ForkName, tree: &Tree) -> Result<FirstStep, u32>
    requires { IsRegs regs.now }
    ensures turn { given result (whole (asked who regs.now tree.now)) ≡ of_inferior (λ f. ForkChange.Freeze f.name true) (asked who regs.now tree.now) }
    ensures fits { IfOk result (FitsStep (asked who regs.now tree.now)) }
{
    let fork = inferior_named(regs, who, tree)?;
    Ok(FirstStep::Ends(returning(ForkChange::Freeze(fork.name, true), *regs)))
}

/// RFORK: resumes an inferior. NO_HANDLE, NO_INFERIOR.
pub fn rfork(regs: &Regs, who: ForkName, tree: &Tree) -> Result<FirstStep, u32>
    requires { IsRegs regs.now }
    ensures turn { given result (whole (asked who regs.now tree.now)) ≡ of_inferior (λ f. ForkChange.Freeze f.name false) (asked who regs.now tree.now) }
    ensures fits { IfOk result (FitsStep (asked who regs.now tree.now)) }
{
    let fork = inferior_named(regs, who, tree)?;
    Ok(FirstStep::Ends(returning(ForkChange::Freeze(fork.name, false), *regs)))
}

/// RFSTS: tells how the caller or an inferior stands in accumulators 1 and 2. NO_HANDLE, NO_INFERIOR.
pub fn rfsts(regs: &Regs, who: ForkName, tree: &Tree) -> Result<FirstStep, u32>
    requires regs { IsRegs regs.now }
    requires within { AreWithin tree.now.forks }
    ensures turn { given result (whole (asked who regs.now tree.now)) ≡ fork_call RFSTS (asked who regs.now tree.now) }
    ensures fits { IfOk result (FitsStep (asked who regs.now tree.now)) }
{
    let fork = own_named(regs, who, tree)?;
    let told = with_ac(*regs, 1, status_word(&fork));
    let told = with_ac(told, 2, place_word(regs, who, tree, &fork));
    Ok(FirstStep::Ends(returning(ForkChange::Nothing, told)))
}

// Interrupts with no pending channel and no level in progress.
fn cleared(psi: &Psi) -> Psi
    ensures { result ≡ record psi.now { pending = 0; levels = no_levels } }
{
    Psi {
        pending: Word::ZERO,
        levels: [false; LEVELS as usize],
        ..*psi
    }
}

// A fork that is started at an address: it has no flags, and no pending channel, level or sleep.
fn started_at(address: u32, body: &Body) -> Body
    requires { address < 2 ^ 18 }
    ensures started { result ≡ started_at_of address body.now }
    ensures within { IsBody body.now → IsBody result }
{
    Body {
        status: ForkStatus::Run,
        regs: Regs {
            pc: address,
            flags: Flags::CLEAR,
            ..body.regs
        },
        psi: cleared(&body.psi),
        sleep: None,
        ..*body
    }
}

/// SFORK: starts an inferior at the address in accumulator 2. NO_HANDLE, NO_INFERIOR.
pub fn sfork(regs: &Regs, who: ForkName, tree: &Tree) -> Result<FirstStep, u32>
    requires { IsRegs regs.now }
    ensures turn { given result (whole (asked who regs.now tree.now)) ≡ fork_call SFORK (asked who regs.now tree.now) }
    ensures fits { IfOk result (FitsStep (asked who regs.now tree.now)) }
{
    let fork = inferior_named(regs, who, tree)?;
    let body = started_at(address_named(regs), &fork.body);
    Ok(FirstStep::Ends(returning(ForkChange::Become(fork.name, body), *regs)))
}

/// SFACS: sets the accumulators of an inferior. NO_HANDLE, NO_INFERIOR.
pub fn sfacs(regs: &Regs, who: ForkName, tree: &Tree) -> Result<FirstStep, u32>
    requires { IsRegs regs.now }
    ensures turn { given result (whole (asked who regs.now tree.now)) ≡ sfacs_of (asked who regs.now tree.now) }
    ensures fits { IfOk result (FitsStep (asked who regs.now tree.now)) }
{
    let fork = inferior_named(regs, who, tree)?;
    Ok(FirstStep::Sets(fork))
}

/// RFACS: stores the accumulators of an inferior. NO_HANDLE, NO_INFERIOR.
pub fn rfacs(regs: &Regs, who: ForkName, tree: &Tree) -> Result<FirstStep, u32>
    requires { IsRegs regs.now }
    ensures turn { given result (whole (asked who regs.now tree.now)) ≡ rfacs_of (asked who regs.now tree.now) }
    ensures fits { IfOk result (FitsStep (asked who regs.now tree.now)) }
{
    let fork = inferior_named(regs, who, tree)?;
    Ok(FirstStep::Stores(fork))
}

/// HFORK: halts an inferior. NO_HANDLE, NO_INFERIOR.
pub fn hfork(regs: &Regs, who: ForkName, tree: &Tree) -> Result<FirstStep, u32>
    requires { IsRegs regs.now }
    ensures turn { given result (whole (asked who regs.now tree.now)) ≡ of_inferior (λ f. ForkChange.Halt f.name) (asked who regs.now tree.now) }
    ensures fits { IfOk result (FitsStep (asked who regs.now tree.now)) }
{
    let fork = inferior_named(regs, who, tree)?;
    Ok(FirstStep::Ends(returning(ForkChange::Halt(fork.name), *regs)))
}

// Whether a fork has ended: it is halted, or was forced.
fn has_ended(status: ForkStatus) -> bool
    ensures { result ≡ has_ended_of status }
{
    match status {
        ForkStatus::Halted => true,
        ForkStatus::Forced(_) => true,
        ForkStatus::Run => false,
        ForkStatus::Wait(_) => false,
    }
}

/// WFORK: waits until an inferior is halted or forced. NO_HANDLE, NO_INFERIOR.
pub fn wfork(regs: &Regs, who: ForkName, tree: &Tree) -> Result<FirstStep, u32>
    requires { IsRegs regs.now }
    ensures turn { given result (whole (asked who regs.now tree.now)) ≡ fork_call WFORK (asked who regs.now tree.now) }
    ensures fits { IfOk result (FitsStep (asked who regs.now tree.now)) }
{
    let fork = inferior_named(regs, who, tree)?;
    if has_ended(fork.body.status) {
        Ok(FirstStep::Ends(returning(ForkChange::Nothing, *regs)))
    } else {
        Ok(FirstStep::Ends(End::Waits(WaitOn::Fork)))
    }
}
