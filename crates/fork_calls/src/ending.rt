// How a turn of a fork call ends.
ghost use Rattle.std.specs.Prelude.{◌≡◌, ℕ, true, None};
ghost use Rattle.plain_model.specs.declared.call.End.{End as AnEnd};
ghost use Rattle.plain_model.specs.declared.call.ForkChange.{ForkChange as AForkChange};
ghost use Rattle.page_contracts.specs.declared.answers.Need.{Need as ANeed};
ghost use Rattle.plain_units.specs.declared.registers.Regs.{Regs as ARegs};
ghost use Rattle.call_turns.specs.Answers.{AnswerNeeds, IsDone, answer_of as answer_to, HasRegs};
ghost use Rattle.call_turns.specs.Turns.{IsRegs, FitsEnd};
ghost use Rattle.job_forks.specs.Holding.{CallLeaves, Holds};
ghost use Rattle.job_forks.specs.Asking.{asked};
ghost use Rattle.fork_calls.specs.Steps.{IsChangeBelow, whole};
ghost use Rattle.fork_calls.specs.Turning.{Turned};
ghost use Rattle.fork_calls.specs.declared.step.FirstStep.{FirstStep as AFirstStep};

use crate::changing::change;
use call_turns::{Answer, answer_of};
use fork_tree::Tree;
use machine_names::ForkName;
use page_contracts::Pages;
use plain_model::call::{End, ForkChange};
use plain_units::Regs;

/// A turn that is done answers its registers, whatever it has changed.
pub fn returned(regs: Regs) -> Answer
    requires { IsRegs regs }
    ensures answer { (change : AForkChange) → result ≡ answer_to (AnEnd.Done change regs None None) }
    ensures core { IsDone result }
    ensures regs { HasRegs result }
{
    let end: End<ForkChange> = End::Done {
        change: ForkChange::Nothing,
        regs,
        out: None,
        post: None,
    };
    answer_of(end)
}

/// Ends a turn that asked for no word: its change is made, if it has one, or needs something first.
pub fn end<P: Pages>(
    ending: End<ForkChange>,
    who: ForkName,
    tree: &mut Tree,
    pages: &mut P,
) -> Answer
    requires fits { FitsEnd (IsChangeBelow tree.old.forks who) ending }
    requires holds { Holds P.means pages.old tree.old.forks }
    ensures told { (regs : ARegs) → Turned P.means pages.old pages.new tree.old tree.new result (whole (asked who regs tree.old) (AFirstStep.Ends ending)) }
    ensures needs { AnswerNeeds P.means.store 1 pages.new result }
    ensures core { P.means.flat ≡ true → IsDone result }
    ensures unmade { (n : ANeed) → result ≡ Answer.Need n → pages.new ≡ pages.old }
    ensures left { (n : ANeed) → result ≡ Answer.Need n → tree.new ≡ tree.old }
    ensures leaves { CallLeaves P.means pages.old pages.new tree.old tree.new who 0 }
    ensures failed { (code : ℕ) → ending ≡ AnEnd.Failed code → tree.new ≡ tree.old }
    ensures regs { HasRegs result }
{
    match &ending {
        End::Done { change: what, .. } => match change(who, *what, tree, pages) {
            Ok(()) => answer_of(ending),
            Err(need) => Answer::Need(need),
        },
        _ => answer_of(ending),
    }
}
