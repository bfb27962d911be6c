// One turn of a call on the clock.
ghost use Rattle.std.specs.Prelude.{◌≡◌, ◌<◌, ◌^◌, IfOk};
ghost use Rattle.std.specs.FinMap as map;
ghost use Rattle.machine_names.specs.declared.names.ForkName.{ForkName as AForkName};
ghost use Rattle.plain_model.specs.Calls.{given as given_of, numbered};
ghost use Rattle.plain_model.specs.ClockCalls.{clock_calls, clock_changed, without_moment};
ghost use Rattle.plain_model.specs.Forks.{OthersStay};
ghost use Rattle.plain_model.specs.Trees.{with_changed_of};
ghost use Rattle.call_turns.specs.Answers.{IsDone, HasRegs};
ghost use Rattle.call_turns.specs.Turns.{FitsEnd, IsRegs};
ghost use Rattle.job_forks.specs.Holding.{ComeFrom, SamePlaces};
ghost use Rattle.fork_tree.specs.Trees.{IsTree};
ghost use Rattle.clock_calls.specs.Turning.{IsChange, StaysPut, Turned, asked_at, ended};

use crate::calls::{disms, runtm, time};
use call_turns::{Answer, answer_of};
use fork_tree::Tree;
use machine_names::ForkName;
use plain_model::call::{DISMS, End, RUNTM, SleepChange, TIME};
use plain_units::Regs;
use plain_units::channel::ILLEGAL_INSTRUCTION;

// The end of a call, or that of one that is refused with the code of an error.
fn given(ending: Result<End<SleepChange>, u32>) -> End<SleepChange>
    ensures turn { ended result ≡ given_of ending ended }
    ensures fits { (who : AForkName) → IfOk ending (FitsEnd (IsChange who)) → FitsEnd (IsChange who) result }
{
    match ending {
        Ok(end) => end,
        Err(code) => End::Refused(code),
    }
}

// How a call ends, by its number. A number that is none of them traps as an illegal instruction.
fn ending_of(number: u32, regs: &Regs, who: ForkName, tree: &Tree, clock: u64) -> End<SleepChange>
    requires regs { IsRegs regs.now }
    requires early { clock < 2 ^ 63 }
    ensures turn { ended result ≡ numbered clock_calls number (asked_at who regs.now tree.now clock) }
    ensures fits { FitsEnd (IsChange who) result }
{
    match number {
        TIME => time(regs, clock),
        RUNTM => given(runtm(regs, who, tree)),
        DISMS => disms(regs, who, tree, clock),
        _ => End::Trap(ILLEGAL_INSTRUCTION),
    }
}

// A fork sleeps no more, if it lives.
fn end_sleep(name: ForkName, tree: &mut Tree)
    ensures { tree.new ≡ with_changed_of tree.old name without_moment }
{
    if let Some(body) = tree.body_mut(name) {
        body.sleep = None;
    }
}

// Makes a change of a fork's sleep.
fn change(what: SleepChange, who: ForkName, tree: &mut Tree)
    requires { IsChange who what }
    ensures told { tree.new ≡ clock_changed what tree.old }
    ensures same { SamePlaces tree.old.forks tree.new.forks }
    ensures kept { ComeFrom tree.old.forks tree.new.forks }
    ensures others { OthersStay who.tty tree.old.forks tree.new.forks }
{
    tree.are_trees();
    match what {
        SleepChange::Nothing => {}
        SleepChange::Awakes(name) => end_sleep(name, tree),
    }
}

/// One turn of a call on the clock, by its number (JSYS Manual: TIME, RUNTM, DISMS), at a moment of the clock: its answer is that of the plain
/// call, and so are the forks that it leaves, whatever pages there are. It needs nothing first. DISMS of a fork whose sleep is over alone
/// changes a fork, the caller, which sleeps no more; each other turn leaves the forks as they were. A number that is no such call traps as
/// an illegal instruction. A few looks.
pub fn call(number: u32, regs: &Regs, who: ForkName, tree: &mut Tree, clock: u64) -> Answer
    requires regs { IsRegs regs.now }
    requires early { clock < 2 ^ 63 }
    ensures told { Turned tree.old tree.new result (numbered clock_calls number (asked_at who regs.now tree.old clock)) }
    ensures done { IsDone result }
    ensures stays { StaysPut tree.old tree.new result }
    ensures same { SamePlaces tree.old.forks tree.new.forks }
    ensures kept { ComeFrom tree.old.forks tree.new.forks }
    ensures others { OthersStay who.tty tree.old.forks tree.new.forks }
    ensures trees { IsTree tree.new }
    ensures regs { HasRegs result }
{
    tree.are_trees();
    let ending = ending_of(number, regs, who, tree, clock);
    if let End::Done { change: what, .. } = &ending {
        change(*what, who, tree);
    }
    tree.are_trees();
    answer_of(ending)
}
