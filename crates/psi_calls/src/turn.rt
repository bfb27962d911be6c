// One turn of a call on pseudo-interrupts.
ghost use Rattle.std.specs.Prelude.{◌≡◌, ◌<◌, ◌^◌, IsSome, true};
ghost use Rattle.std.specs.FinMap as map;
ghost use Rattle.plain_model.specs.Calls.{numbered};
ghost use Rattle.plain_model.specs.InterruptCalls.{interrupt_calls};
ghost use Rattle.call_turns.specs.Answers.{AnswerNeeds, IsDone, HasRegs};
ghost use Rattle.call_turns.specs.Turns.{IsRegs};
ghost use Rattle.job_forks.specs.Asking.{asked};
ghost use Rattle.job_forks.specs.Holding.{CallLeaves, Holds};
ghost use Rattle.psi_calls.specs.Turning.{Stays, Turned, psi_frames};

use crate::ending::{dismiss, end};
use crate::step::FirstStep;
use crate::table::first;
use call_turns::Answer;
use fork_tree::Tree;
use machine_names::ForkName;
use page_contracts::Pages;
use plain_units::Regs;
use text_pointers::Reader;
use tty_lines::Line;

/// One turn of a call on pseudo-interrupts, by its number (JSYS Manual, "Pseudo-interrupt system"), with the line of the terminal of the job
/// that calls: its answer is that of the plain call, and so are the forks, the codes and the pages that it leaves. DEBRK alone reads words,
/// two of them: it needs something first only where the page of one, or a map on the way, is in no frame, or where what it makes finds none.
/// It reads them by the reader, whatever that has referred to before. A turn that isn't done leaves all as it was, and none changes the characters that are stored. A number that is no such call traps as an
/// illegal instruction.
pub fn call<P: Pages>(
    number: u32,
    regs: &Regs,
    who: ForkName,
    tree: &mut Tree,
    line: &mut Line,
    reader: &mut Reader,
    pages: &mut P,
) -> Answer
    requires regs { IsRegs regs.now }
    requires lives { IsSome (map.get tree.old.forks who) }
    requires holds { Holds P.means pages.old tree.old.forks }
    requires serial { P.means.serial pages.old who.tty < 2 ^ 62 }
    ensures told { Turned P.means pages.old pages.new tree.old tree.new line.old line.new who.tty result (numbered interrupt_calls number (asked who regs.now tree.old)) }
    ensures needs { AnswerNeeds P.means.store psi_frames pages.new result }
    ensures core { P.means.flat ≡ true → IsDone result }
    ensures stays { Stays pages.old pages.new tree.old tree.new line.old line.new result }
    ensures input { line.new.input ≡ line.old.input }
    ensures leaves { CallLeaves P.means pages.old pages.new tree.old tree.new who 128 }
    ensures regs { HasRegs result }
{
    tree.are_trees();
    match first(number, regs, who, tree) {
        FirstStep::Ends(ending) => end(ending, who, tree, line),
        FirstStep::Dismisses(least) => dismiss(&least, regs, who, tree, reader, pages),
    }
}
