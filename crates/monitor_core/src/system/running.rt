// Units of a fork in a row, and who is told where it stops.
ghost use Rattle.std.specs.Prelude.{◌≡◌, ◌<◌, ◌≤◌, ◌^◌, IfErr, IfOk, IsOk, IsSome, if◌then◌else◌, true};
ghost use Rattle.fork_tree.specs.Trees.{IsTree};
ghost use Rattle.plain_model.specs.Forks.{OthersStay, fork_in};
ghost use Rattle.script_texts.specs.declared.event.Step.{Step as AStep};
ghost use Rattle.monitor_calls.specs.Limits.{unit_frames};
ghost use Rattle.step_shown.specs.Reaching.{Reaches};
ghost use Rattle.step_shown.specs.Replies.{line_before};
ghost use Rattle.step_shown.specs.Runners.{IsRunner, told_at};
ghost use Rattle.turn_forms.specs.Turns.{KeepSlots};
ghost use Rattle.page_contracts.specs.Pages.{MayLose};
ghost use Rattle.monitor_core.specs.Needing.{CanShow, ForkNeeds};
ghost use Rattle.monitor_core.specs.Systems.{DidAll, IsWithin, Waits};

use crate::system::System;
use fork_tree::Tree;
use machine_names::ForkName;
use monitor_calls::{seen, units_with_call};
use page_contracts::{Need, Pages};
use step_shown::{Progress, Reach, Reply, Runner};

// Whoever is to hear that a fork has ended is told, where it has stopped.
#[inline]
fn tell_where(tree: &mut Tree, who: ForkName, stops: bool)
    ensures { tree.new ≡ told_at tree.old who stops }
{
    if stops {
        tree.tell_end(who);
    }
}

// How many units a row may have: one alone, where each is shown.
#[inline]
fn row_room(line: Option<u32>, most: u32) -> u32
    requires { 0 < most }
    ensures some { 0 < result }
    ensures few { result ≤ most }
    ensures one { IsSome line → result ≡ 1 }
{
    match line {
        Some(_) => 1,
        None => most,
    }
}

// How far units reached, once it is told that their fork has ended, where it has stopped.
#[inline]
fn reach_told(reach: Reach, stops: bool) -> Reach
    ensures { result ≡ (if stops then Reach.Job else reach) }
{
    if stops { Reach::Job } else { reach }
}

impl<P: Pages> System<P> {
    // The program counter of the fork in a slot of a job before its next unit, where each unit is shown.
    #[inline]
    fn line_before(&self, who: Runner) -> Option<u32>
        ensures { result ≡ line_before self.now.panel.trace (fork_in self.now.tree.forks who.fork.tty who.slot) }
    {
        if !self.panel.trace {
            return None;
        }
        match self.tree.fork_at(who.fork.tty, who.slot) {
            Some(fork) => Some(fork.body.regs.pc),
            None => None,
        }
    }

    /// Units of a fork that can run, in a row, at least one and so many at most, and what the last shows at its
    /// terminal; where each unit is shown, one alone, behind its line. Where it stops, who waits for a fork of its job runs again, and then
    /// its superior is told by a channel. Err: the first needs this first, and nothing is done.
    #[inline]
    pub fn run_fork(&mut self, who: Runner, most: u32) -> Result<Progress, Need>
        requires can { IsRunner self.old.tree who }
        requires few { IsWithin self.old (2 ^ 52) }
        requires some { 0 < most }
        ensures did { IfOk result (λ done. DidAll self.old self.new (AStep.Unit who.fork) done.count done.reply) }
        ensures shown { IfOk result (λ done. CanShow self.new done.reply) }
        ensures waits { IfErr result (Waits unit_frames self.old self.new) }
        ensures reason { IfErr result (ForkNeeds self.old who.fork) }
        ensures loses { IfOk result (λ done. MayLose P.means self.old.pages self.new.pages) }
        ensures core { P.means.flat ≡ true → IsOk result }
        ensures reach { IfOk result (λ done. Reaches done.reach who.fork self.old.tree self.new.tree) }
        ensures slots { IfOk result (λ done. KeepSlots self.old.tree.forks self.new.tree.forks) }
        ensures others { OthersStay who.fork.tty self.old.tree.forks self.new.tree.forks }
        ensures trees { IsTree self.new.tree }
        ensures some { IfOk result (λ done. 1 ≤ done.count) }
        ensures few { IfOk result (λ done. done.count ≤ most) }
    {
        let line = self.line_before(who);
        let ran = units_with_call(
            &mut self.tree,
            &mut self.pages,
            &mut self.files,
            &self.jobs,
            &mut self.typed,
            &mut self.scratch,
            self.panel.clock,
            who,
            row_room(line, most),
        );
        self.tree.are_trees();
        match ran {
            Err(need) => Err(need),
            Ok(units) => {
                let stops = units.shown.stop.is_stop();
                tell_where(&mut self.tree, who.fork, stops);
                self.tree.are_trees();
                let shown = seen(&mut self.jobs, who.fork.tty, who.slot, units.shown);
                Ok(Progress {
                    count: units.count,
                    reply: Reply::Ran(who.fork, line, shown),
                    reach: reach_told(units.reach, stops),
                })
            }
        }
    }
}
