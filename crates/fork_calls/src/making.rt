// CFORK: a fork is made.
ghost use Rattle.std.specs.Prelude.{◌≡◌, ◌<◌, ◌≤◌, ◌^◌, ◌/◌, ◌%◌, ◌==◌, ℕ, Ok, Some, IsSome, IfErr, OnErr, slice_index, true};
ghost use Rattle.std.specs.FinMap as map;
ghost use Rattle.plain_model.specs.declared.fork.Fork.{Fork as AFork};
ghost use Rattle.plain_model.specs.ForkCalls.{made_body, made_fork, map_wanted as map_wanted_of};
ghost use Rattle.machine_names.specs.Bounds.{IsForkName};
ghost use Rattle.page_contracts.specs.DrumWords.{DrumWords};
ghost use Rattle.page_contracts.specs.Pages.{MapFollowsFork};
ghost use Rattle.plain_model.specs.Forks.{first_regs};
ghost use Rattle.plain_model.specs.Trees.{PlainTree, with_changed_of, with_made};
ghost use Rattle.call_turns.specs.Turns.{IsRegs};
ghost use Rattle.ka10_unit.specs.Carrying.{Grows};
ghost use Rattle.page_contracts.specs.declared.answers.Need.{Need as ANeed};
ghost use Rattle.call_turns.specs.Answers.{AnswerNeeds, IsDone, HasRegs};
ghost use Rattle.ka10_unit.specs.Gathers.{Serves, framed};
ghost use Rattle.ka10_unit.specs.Taking.{IsTrap, StopNeeds, read_frames};
ghost use Rattle.fork_tree.specs.Making.{AddsLast, slot_for};
ghost use Rattle.job_forks.specs.Asking.{asked};
ghost use Rattle.fork_calls.specs.Blocks.{TookAccumulators};
ghost use Rattle.job_forks.specs.Holding.{CallLeaves, Holds, PlansOnly};
ghost use Rattle.fork_calls.specs.Needing.{making_frames};
ghost use Rattle.fork_calls.specs.Steps.{begun, second_regs, whole};
ghost use Rattle.fork_calls.specs.Turning.{Turned};
ghost use Rattle.fork_calls.specs.declared.step.FirstStep.{FirstStep as AFirstStep};

use crate::ending::returned;
use crate::words::{address_named, block};
use call_turns::{Answer, behind, stopped, with_ac};
use fork_tree::Tree;
use ka10_unit::Stop;
use machine_names::{ACCUMULATORS, ForkName, Kind};
use page_contracts::{Need, Pages, Room};
use plain_model::Body;
use plain_model::call::{FORK_SELF, NO_ROOM};
use plain_pages::NewMap;
use plain_units::Regs;
use script_texts::ForkStatus;
use word36::Word;

// Whether a bit of accumulator 1 is set, which has this value.
fn asks(regs: &Regs, value: u64) -> bool
    requires regs { IsRegs regs.now }
    requires value { 1 ≤ value }
    ensures { result ≡ (slice_index regs.now.ac 1 / value % 2 == 1) }
{
    regs.ac[1].value() / value % 2 == 1
}

// Bit 0 has the new fork's pages follow the caller's.
fn map_wanted(regs: &Regs, who: ForkName) -> NewMap
    requires regs { IsRegs regs.now }
    requires name { IsForkName who }
    ensures told { (tree : PlainTree) → result ≡ map_wanted_of (asked who regs.now tree) }
    ensures follows { MapFollowsFork result }
{
    if asks(regs, 1 << 35) {
        NewMap::FollowAll(who)
    } else {
        NewMap::Empty
    }
}

// Bit 3 has its accumulators read, whose pages are made; else they are 0.
fn accumulators<P: Pages>(regs: &Regs, who: ForkName, pages: &mut P) -> Result<[Word; 16], Stop>
    requires regs { IsRegs regs.now }
    requires serves { Serves P.means pages.old who }
    requires serial { P.means.serial pages.old who.tty < 2 ^ 62 }
    ensures told { (d : DrumWords) (tree : PlainTree) → P.means.fits pages.old d
        → P.means.fits pages.new d × TookAccumulators (asked who regs.now tree) (framed P.means pages.old d) (P.means.plain pages.new d) result }
    ensures core { P.means.flat ≡ true → IfErr result IsTrap }
    ensures needs { IfErr result (StopNeeds P.means.store read_frames pages.new) }
    ensures stopped { OnErr result (pages.new ≡ pages.old) }
    ensures grows { Grows P.means who.tty 128 pages.old pages.new }
{
    if asks(regs, 1 << 32) {
        block(regs, who, address_named(regs), Kind::Read, pages)
    } else {
        Ok([Word::ZERO; ACCUMULATORS as usize])
    }
}

// A new fork has these accumulators; bit 4 has it started, at the right half of accumulator 1.
fn begin(regs: &Regs, words: [Word; 16], body: &mut Body)
    requires regs { IsRegs regs.now }
    requires new { body.old.regs ≡ first_regs }
    ensures body { body.new ≡ made_body regs.now words body.old }
{
    body.regs.ac = words;
    if asks(regs, 1 << 31) {
        body.status = ForkStatus::Run;
        body.regs.pc = regs.ac[1].right();
    } else {
        body.status = ForkStatus::Halted;
        body.regs.pc = 0;
    }
}

// The registers behind the second return, with the handle of the fork in a slot.
fn with_handle(regs: &Regs, slot: u8) -> Regs
    requires { IsRegs regs.now }
    ensures regs { result ≡ second_regs regs.now slot }
    ensures fits { IsRegs result }
{
    let told = with_ac(*regs, 1, Word::join(0, FORK_SELF + u32::from(slot)));
    behind(behind(told))
}

// The fork of a name, which is new, begins so.
fn begin_in(regs: &Regs, words: [Word; 16], name: ForkName, tree: &mut Tree)
    requires regs { IsRegs regs.now }
    requires new { (f : AFork) → map.get tree.old.forks name ≡ Some f → f.body.regs ≡ first_regs }
    requires lives { IsSome (map.get tree.old.forks name) }
    ensures { tree.new ≡ with_changed_of tree.old name (begun regs.now words) }
{
    if let Some(body) = tree.body_mut(name) {
        begin(regs, words, body);
    }
}

// The tree has the fork that is made, under the caller.
fn grow(regs: &Regs, words: [Word; 16], who: ForkName, tree: &mut Tree)
    requires regs { IsRegs regs.now }
    requires lives { IsSome (map.get tree.old.forks who) }
    ensures told { (slot : ℕ) → slot_for tree.old who.tty ≡ Ok slot
        → tree.new ≡ with_made tree.old (made_fork (asked who regs.now tree.old) slot words) }
{
    let Some(caller) = tree.fork(who) else {
        return;
    };
    let slot = caller.slot;
    if let Ok(name) = tree.make(who.tty, Some(slot)) {
        tree.are_trees();
        begin_in(regs, words, name, tree);
    }
}

/// Makes an inferior of the caller in a slot: its map first, then its accumulators are read with the new map there, and
/// then the fork itself. NO_ROOM where there is no room for the map; a need where that finds no frame, or where the words
/// need something first. Where they do or trap, nothing is made.
pub fn make<P: Pages>(
    slot: u8,
    regs: &Regs,
    who: ForkName,
    tree: &mut Tree,
    pages: &mut P,
) -> Answer
    requires regs { IsRegs regs.now }
    requires lives { IsSome (map.get tree.old.forks who) }
    requires slot { slot_for tree.old who.tty ≡ Ok slot }
    requires serves { Serves P.means pages.old who }
    requires holds { Holds P.means pages.old tree.old.forks }
    requires serial { P.means.serial pages.old who.tty < 2 ^ 62 }
    ensures told { Turned P.means pages.old pages.new tree.old tree.new result (whole (asked who regs.now tree.old) (AFirstStep.Makes slot)) }
    ensures needs { AnswerNeeds P.means.store making_frames pages.new result }
    ensures core { P.means.flat ≡ true → IsDone result }
    ensures unmade { (n : ANeed) → result ≡ Answer.Need n → PlansOnly P.means who.tty pages.old pages.new }
    ensures left { (n : ANeed) → result ≡ Answer.Need n → tree.new ≡ tree.old }
    ensures leaves { CallLeaves P.means pages.old pages.new tree.old tree.new who 128 }
    ensures adds { AddsLast who.tty tree.old tree.new }
    ensures regs { HasRegs result }
{
    tree.are_trees();
    match pages.room(1) {
        Room::Full => return Answer::Failed(NO_ROOM),
        Room::NeedFrame => return Answer::Need(Need::Frame),
        Room::Enough => {}
    }
    let name = tree.next_name(who.tty);
    pages.add_fork(name, map_wanted(regs, who));
    match accumulators(regs, who, pages) {
        Err(stop) => {
            pages.drop_fork(name);
            stopped(stop)
        }
        Ok(words) => {
            grow(regs, words, who, tree);
            tree.are_trees();
            returned(with_handle(regs, slot))
        }
    }
}
