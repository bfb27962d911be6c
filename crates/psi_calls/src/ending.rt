// How a turn of a call on pseudo-interrupts ends.
ghost use Rattle.std.specs.Prelude.{◌≡◌, ◌<◌, ◌^◌, true};
ghost use Rattle.plain_model.specs.declared.call.End.{End as AnEnd};
ghost use Rattle.call_turns.specs.Answers.{AnswerNeeds, IsDone, answer_of as answer_to, HasRegs};
ghost use Rattle.call_turns.specs.Turns.{FitsEnd, IsRegs};
ghost use Rattle.job_forks.specs.Asking.{asked};
ghost use Rattle.job_forks.specs.Holding.{CallLeaves, ComeFrom, Holds, SamePlaces};
ghost use Rattle.fork_tree.specs.Trees.{IsTree, Lives};
ghost use Rattle.ka10_unit.specs.Gathers.{Serves};
ghost use Rattle.plain_typing.specs.Lines.{InputLine};
ghost use Rattle.plain_model.specs.Forks.{OthersStay};
ghost use Rattle.plain_model.specs.InterruptCalls.{dismissed};
ghost use Rattle.psi_calls.specs.Steps.{IsChange, IsLevelOf, dismissed_at};
ghost use Rattle.psi_calls.specs.Turning.{EndsOver, Stays, StaysPut, Turned, psi_frames};

use crate::changing::change;
use crate::levels::{restored, without_level};
use crate::step::LevelToEnd;
use crate::stored::word_stored;
use call_turns::{Answer, answer_of, stopped};
use fork_tree::Tree;
use machine_names::ForkName;
use page_contracts::Pages;
use plain_model::call::{End, InterruptChange};
use plain_units::Regs;
use text_pointers::Reader;
use tty_lines::Line;

/// Ends a turn that reads no word: its change is made, if it is done; one that isn't leaves all as it was.
pub fn end(ending: End<InterruptChange>, who: ForkName, tree: &mut Tree, line: &mut Line) -> Answer
    requires { FitsEnd (IsChange tree.old.forks who) ending }
    ensures answer { result ≡ answer_to ending }
    ensures told { EndsOver tree.old tree.new line.old line.new who.tty ending }
    ensures stays { StaysPut tree.old tree.new line.old line.new result }
    ensures input { line.new.input ≡ line.old.input }
    ensures same { SamePlaces tree.old.forks tree.new.forks }
    ensures kept { ComeFrom tree.old.forks tree.new.forks }
    ensures others { OthersStay who.tty tree.old.forks tree.new.forks }
    ensures trees { IsTree tree.new }
    ensures regs { HasRegs result }
    ensures done { IsDone result }
{
    tree.are_trees();
    if let End::Done { change: what, .. } = &ending {
        change(what, who, tree, line);
    }
    answer_of(ending)
}

/// Ends the least level in progress of the caller, which goes on where the word that the delivery has stored has it: that word is read, the
/// pages that this makes are made, and then the fork is changed.
pub fn dismiss<P: Pages>(
    least: &LevelToEnd,
    regs: &Regs,
    who: ForkName,
    tree: &mut Tree,
    reader: &mut Reader,
    pages: &mut P,
) -> Answer
    requires regs { IsRegs regs.now }
    requires fork { Lives tree.old.forks least.now.fork }
    requires own { least.now.fork.name ≡ who }
    requires level { IsLevelOf least.now.fork least.now }
    requires serves { Serves P.means pages.old who }
    requires holds { Holds P.means pages.old tree.old.forks }
    requires serial { P.means.serial pages.old who.tty < 2 ^ 62 }
    ensures told { (line : InputLine) → Turned P.means pages.old pages.new tree.old tree.new line line who.tty result (dismissed_at (asked who regs.now tree.old) least.now) }
    ensures needs { AnswerNeeds P.means.store psi_frames pages.new result }
    ensures core { P.means.flat ≡ true → IsDone result }
    ensures stays { (line : InputLine) → Stays pages.old pages.new tree.old tree.new line line result }
    ensures leaves { CallLeaves P.means pages.old pages.new tree.old tree.new who 128 }
    ensures regs { HasRegs result }
{
    tree.are_trees();
    match word_stored(reader, regs, who, least.table, least.level, pages) {
        Err(stop) => stopped(stop),
        Ok(word) => {
            reader.make(pages);
            let body = without_level(least.fork.body, least.level);
            tree.set_body(who, body);
            tree.are_trees();
            Answer::After {
                regs: restored(*regs, word),
                out: None,
                post: None,
            }
        }
    }
}
