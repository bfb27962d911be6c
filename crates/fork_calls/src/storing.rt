// Calls that go over sixteen words of their caller.
ghost use Rattle.std.specs.Prelude.{◌≡◌, ◌<◌, ◌^◌, if◌then◌else◌, slice_set, true};
ghost use Rattle.plain_model.specs.ForkCalls.{stored_low as stored_low_of};
ghost use Rattle.plain_units.specs.Steps.{is_accumulator};
ghost use Rattle.machine_names.specs.Bounds.{IsAddress};
ghost use Rattle.call_turns.specs.Turns.{IsRegs};
ghost use Rattle.page_contracts.specs.declared.answers.Need.{Need as ANeed};
ghost use Rattle.call_turns.specs.Answers.{AnswerNeeds, IsDone, HasRegs};
ghost use Rattle.ka10_unit.specs.Gathers.{Serves};
ghost use Rattle.ka10_unit.specs.Taking.{most_frames, read_frames};
ghost use Rattle.fork_tree.specs.Trees.{Lives};
ghost use Rattle.job_forks.specs.Asking.{IsBelow, asked};
ghost use Rattle.job_forks.specs.Holding.{CallLeaves, Holds, PlansOnly};
ghost use Rattle.fork_calls.specs.Steps.{whole};
ghost use Rattle.fork_calls.specs.Turning.{Turned};
ghost use Rattle.fork_calls.specs.declared.step.FirstStep.{FirstStep as AFirstStep};

use crate::changing::set_body;
use crate::ending::returned;
use crate::words::{address_named, block};
use call_turns::{Answer, behind, stopped};
use fork_tree::Tree;
use ka10_unit::store_block;
use machine_names::{ACCUMULATORS, ForkName, Kind};
use page_contracts::Pages;
use plain_model::Fork;
use plain_units::Regs;
use word36::Word;

// Accumulators with a word stored at an address, where that is an accumulator.
fn stored_one(mut ac: [Word; 16], at: u32, word: Word) -> [Word; 16]
    ensures { result ≡ (if is_accumulator at then slice_set ac at word else ac) }
{
    if at < ACCUMULATORS {
        ac[at as usize] = word;
    }
    ac
}

// Accumulators with sixteen words stored from an address on: those whose addresses are accumulators.
fn stored_low(mut ac: [Word; 16], at: u32, words: &[Word; 16]) -> [Word; 16]
    requires { IsAddress at }
    ensures { result ≡ stored_low_of ac at words.now }
{
    let mut next = at;
    for i in 0..ACCUMULATORS as usize {
        ac = stored_one(ac, next, words[i]);
        next = (next + 1) % 0o1_000_000;
    }
    ac
}

/// SFACS: an inferior's accumulators become the sixteen words that accumulator 2 of the caller names.
pub fn set_accumulators<P: Pages>(
    fork: Fork,
    regs: &Regs,
    who: ForkName,
    tree: &mut Tree,
    pages: &mut P,
) -> Answer
    requires regs { IsRegs regs.now }
    requires fork { Lives tree.old.forks fork }
    requires below { IsBelow tree.old.forks who fork.name }
    requires serves { Serves P.means pages.old who }
    requires holds { Holds P.means pages.old tree.old.forks }
    requires serial { P.means.serial pages.old who.tty < 2 ^ 62 }
    ensures told { Turned P.means pages.old pages.new tree.old tree.new result (whole (asked who regs.now tree.old) (AFirstStep.Sets fork)) }
    ensures needs { AnswerNeeds P.means.store read_frames pages.new result }
    ensures core { P.means.flat ≡ true → IsDone result }
    ensures unmade { (n : ANeed) → result ≡ Answer.Need n → PlansOnly P.means who.tty pages.old pages.new }
    ensures left { (n : ANeed) → result ≡ Answer.Need n → tree.new ≡ tree.old }
    ensures leaves { CallLeaves P.means pages.old pages.new tree.old tree.new who 128 }
    ensures regs { HasRegs result }
{
    tree.are_trees();
    match block(regs, who, address_named(regs), Kind::Read, pages) {
        Err(stop) => stopped(stop),
        Ok(words) => {
            let mut body = fork.body;
            body.regs.ac = words;
            set_body(fork.name, body, tree);
            returned(behind(*regs))
        }
    }
}

/// RFACS: an inferior's accumulators are stored at the sixteen words that accumulator 2 of the caller names.
pub fn store_accumulators<P: Pages>(
    fork: Fork,
    regs: &Regs,
    who: ForkName,
    tree: &Tree,
    pages: &mut P,
) -> Answer
    requires regs { IsRegs regs.now }
    requires fork { Lives tree.now.forks fork }
    requires serves { Serves P.means pages.old who }
    requires holds { Holds P.means pages.old tree.now.forks }
    requires serial { P.means.serial pages.old who.tty < 2 ^ 62 }
    ensures told { Turned P.means pages.old pages.new tree.now tree.now result (whole (asked who regs.now tree.now) (AFirstStep.Stores fork)) }
    ensures needs { AnswerNeeds P.means.store most_frames pages.new result }
    ensures core { P.means.flat ≡ true → IsDone result }
    ensures unmade { (n : ANeed) → result ≡ Answer.Need n → PlansOnly P.means who.tty pages.old pages.new }
    ensures leaves { CallLeaves P.means pages.old pages.new tree.now tree.now who 128 }
    ensures regs { HasRegs result }
{
    let at = address_named(regs);
    match block(regs, who, at, Kind::Write, pages) {
        Err(stop) => stopped(stop),
        Ok(_) => {
            let words = fork.body.regs.ac;
            store_block(pages, who, at, &words);
            let mut told = *regs;
            told.ac = stored_low(regs.ac, at, &words);
            returned(behind(told))
        }
    }
}
