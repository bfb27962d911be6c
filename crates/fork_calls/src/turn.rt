// One turn of a fork call.
ghost use Rattle.std.specs.Prelude.{◌≡◌, ◌<◌, ◌^◌, IsSome, true};
ghost use Rattle.std.specs.FinMap as map;
ghost use Rattle.plain_model.specs.ForkCalls.{fork_call};
ghost use Rattle.plain_model.specs.declared.call.TheConstants.{CFORK};
ghost use Rattle.fork_tree.specs.Making.{AddsLast};
ghost use Rattle.page_contracts.specs.declared.answers.Need.{Need as ANeed};
ghost use Rattle.call_turns.specs.Answers.{AnswerNeeds, IsDone, HasRegs};
ghost use Rattle.call_turns.specs.Turns.{IsRegs};
ghost use Rattle.job_forks.specs.Asking.{asked};
ghost use Rattle.job_forks.specs.Holding.{CallLeaves, Holds, PlansOnly};
ghost use Rattle.job_forks.specs.Limits.{AreWithin};
ghost use Rattle.fork_calls.specs.Needing.{call_frames};
ghost use Rattle.fork_calls.specs.Turning.{Turned};

use crate::ending::end;
use crate::making::make;
use crate::step::FirstStep;
use crate::storing::{set_accumulators, store_accumulators};
use crate::table::first;
use call_turns::Answer;
use fork_tree::Tree;
use machine_names::ForkName;
use page_contracts::Pages;
use plain_units::Regs;

/// One turn of a fork call, by its number (JSYS Manual): its answer is that of the plain call, and so are the forks and
/// pages that it leaves. It refers first and changes then: it needs something first only where a page that it refers to,
/// a map on the way or the map of a fork that it kills is in no frame, or where what it makes finds none; and leaves all
/// as it was. CFORK alone has two returns; a number that is no fork call traps as an illegal instruction.
pub fn call<P: Pages>(
    number: u32,
    regs: &Regs,
    who: ForkName,
    tree: &mut Tree,
    pages: &mut P,
) -> Answer
    requires regs { IsRegs regs.now }
    requires lives { IsSome (map.get tree.old.forks who) }
    requires holds { Holds P.means pages.old tree.old.forks }
    requires within { AreWithin tree.old.forks }
    requires serial { P.means.serial pages.old who.tty < 2 ^ 62 }
    ensures told { Turned P.means pages.old pages.new tree.old tree.new result (fork_call number (asked who regs.now tree.old)) }
    ensures needs { AnswerNeeds P.means.store call_frames pages.new result }
    ensures core { P.means.flat ≡ true → IsDone result }
    ensures unmade { (n : ANeed) → result ≡ Answer.Need n → PlansOnly P.means who.tty pages.old pages.new }
    ensures left { (n : ANeed) → result ≡ Answer.Need n → tree.new ≡ tree.old }
    ensures leaves { CallLeaves P.means pages.old pages.new tree.old tree.new who 128 }
    ensures adds { number ≡ CFORK → AddsLast who.tty tree.old tree.new }
    ensures regs { HasRegs result }
{
    tree.are_trees();
    match first(number, regs, who, tree) {
        FirstStep::Ends(ending) => end(ending, who, tree, pages),
        FirstStep::Makes(slot) => make(slot, regs, who, tree, pages),
        FirstStep::Sets(fork) => set_accumulators(fork, regs, who, tree, pages),
        FirstStep::Stores(fork) => store_accumulators(fork, regs, who, tree, pages),
    }
}
