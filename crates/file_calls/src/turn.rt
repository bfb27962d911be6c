// One turn of a call on files.
ghost use Rattle.plain_model.specs.FileCalls.{file_call, file_calls};
ghost use Rattle.call_turns.specs.Turns.{IsRegs};
ghost use Rattle.job_forks.specs.Asking.{asked};
ghost use Rattle.file_calls.specs.Answering.{Answers};

use crate::errors::geter;
use call_turns::Answer;
use fork_tree::Tree;
use machine_names::ForkName;
use plain_model::call::GETER;
use plain_units::Regs;
use plain_units::channel::ILLEGAL_INSTRUCTION;

/// One turn of a call on files, by its number (JSYS Manual): its answer is that of the plain call, whatever the pages, and it
/// needs nothing first. A number that is no call on files traps as an illegal instruction.
pub fn call(number: u32, regs: &Regs, who: ForkName, tree: &Tree) -> Answer
    requires { IsRegs regs.now }
    ensures { Answers (file_call number (asked who regs.now tree.now)) result }
{
    if number == GETER {
        return geter(regs, who, tree);
    }
    Answer::Trap(ILLEGAL_INSTRUCTION)
}
