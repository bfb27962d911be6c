// How each call on the clock ends, by its definition; or the code of the error with which the call is refused.
ghost use Rattle.std.specs.Prelude.{◌≡◌, ◌<◌, ◌^◌, ◌%◌, ℕ, IfOk};
ghost use Rattle.plain_model.specs.Calls.{ends, given, returning as returning_of, with_ac as with_ac_of};
ghost use Rattle.plain_model.specs.declared.call.SleepChange.TheVariants.{Nothing};
ghost use Rattle.plain_model.specs.ClockCalls.{disms as disms_of, runtm as runtm_of, sleep_of as slept_to, sleeping as sleeping_of, time as time_of};
ghost use Rattle.plain_model.specs.Trees.{PlainTree};
ghost use Rattle.machine_names.specs.declared.names.ForkName.{ForkName as AForkName};
ghost use Rattle.call_turns.specs.Turns.{FitsEnd, IsRegs};
ghost use Rattle.job_forks.specs.Asking.{asked};
ghost use Rattle.clock_calls.specs.Turning.{IsChange, asked_at};

use call_turns::{returning, with_ac};
use fork_tree::Tree;
use job_forks::own_named;
use machine_names::ForkName;
use plain_model::Body;
use plain_model::call::{End, SleepChange, UNITS_A_TICK};
use plain_units::Regs;
use script_texts::WaitOn;
use word36::Word;

/// TIME: how many ticks there were, modulo 2^36, in accumulator 1, and how many of these units a tick has in accumulator 2.
pub fn time(regs: &Regs, clock: u64) -> End<SleepChange>
    requires { IsRegs regs.now }
    ensures turn { (who : AForkName) (tree : PlainTree) → ends result ≡ time_of (asked_at who regs.now tree clock) }
    ensures fits { (who : AForkName) → FitsEnd (IsChange who) result }
{
    let told = with_ac(*regs, 1, Word::wrapped(clock));
    let told = with_ac(told, 2, Word::wrapped(u64::from(UNITS_A_TICK)));
    returning(SleepChange::Nothing, told)
}

// The call is done, and returns with how many units a fork has run.
fn told_units(body: Body, regs: &Regs) -> End<SleepChange>
    requires { IsRegs regs.now }
    ensures end { result ≡ returning_of Nothing (with_ac_of regs.now 1 (body.units % 2 ^ 36)) }
    ensures fits { (who : AForkName) → FitsEnd (IsChange who) result }
{
    let told = with_ac(*regs, 1, Word::wrapped(body.units));
    returning(SleepChange::Nothing, told)
}

/// RUNTM: how many units the caller or an inferior has run, modulo 2^36, in accumulator 1. NO_HANDLE, NO_INFERIOR.
pub fn runtm(regs: &Regs, who: ForkName, tree: &Tree) -> Result<End<SleepChange>, u32>
    requires { IsRegs regs.now }
    ensures turn { (clock : ℕ) → given result ends ≡ runtm_of (asked_at who regs.now tree.now clock) }
    ensures fits { IfOk result (FitsEnd (IsChange who)) }
{
    match own_named(regs, who, tree) {
        Ok(fork) => Ok(told_units(fork.body, regs)),
        Err(code) => Err(code),
    }
}

// To which moment a fork sleeps, if it has begun to.
fn sleep_of(regs: &Regs, who: ForkName, tree: &Tree) -> Option<u64>
    ensures { result ≡ slept_to (asked who regs.now tree.now) }
{
    let fork = tree.fork(who)?;
    fork.body.sleep
}

// A sleep begins, by the ticks in accumulator 1, or goes on to its moment; it is over once the clock has reached that.
fn sleeping(regs: &Regs, who: ForkName, tree: &Tree, clock: u64) -> End<SleepChange>
    requires regs { IsRegs regs.now }
    requires early { clock < 2 ^ 63 }
    ensures turn { result ≡ sleeping_of (asked_at who regs.now tree.now clock) (slept_to (asked who regs.now tree.now)) }
    ensures fits { FitsEnd (IsChange who) result }
{
    match sleep_of(regs, who, tree) {
        None => End::Waits(WaitOn::Sleep(clock + regs.ac[1].value())),
        Some(moment) if moment <= clock => returning(SleepChange::Awakes(who), *regs),
        Some(moment) => End::Waits(WaitOn::Sleep(moment)),
    }
}

/// DISMS: the caller sleeps for as many ticks as accumulator 1 says, and then goes on; for none it goes on at once.
pub fn disms(regs: &Regs, who: ForkName, tree: &Tree, clock: u64) -> End<SleepChange>
    requires regs { IsRegs regs.now }
    requires early { clock < 2 ^ 63 }
    ensures turn { ends result ≡ disms_of (asked_at who regs.now tree.now clock) }
    ensures fits { FitsEnd (IsChange who) result }
{
    if regs.ac[1] == Word::ZERO {
        return returning(SleepChange::Nothing, *regs);
    }
    sleeping(regs, who, tree, clock)
}
