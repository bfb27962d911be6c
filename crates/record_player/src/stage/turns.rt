// Turns that are played: units of a fork in rows, and idle entries.
ghost use Rattle.std.specs.Prelude.{◌≡◌, ◌+◌, ◌≤◌, ◌^◌, MatchOption};
ghost use Rattle.plain_model.specs.Forks.{IsRunnable};
ghost use Rattle.step_shown.specs.Runners.{IsRunner};
ghost use Rattle.script_texts.specs.declared.event.Step.{Step as AStep};
ghost use Rattle.record_player.specs.Stages.{PlayedRow, PlayedSteps};

use crate::halt::Halt;
use crate::stage::Stage;
use event_items::give_all;
use machine_names::ForkName;
use page_contracts::Pages;
use script_texts::{Step, Taker};
use step_shown::Runner;

// How many units a row has at most.
const MOST_IN_ROW: u64 = 1_000_000_000;

impl<P: Pages> Stage<P> {
    // The fork of a name, with its slot, where it can run. None exactly where it can't.
    #[inline]
    fn runner_of(&self, fork: ForkName) -> Option<Runner>
        ensures { MatchOption result (IsRunnable self.now.system.tree.forks fork → ⊥) (λ who. IsRunner self.now.system.tree who × (who.fork ≡ fork)) }
    {
        if self.system.forks().runnable(fork) {
            Some(self.system.runner(fork))
        } else {
            None
        }
    }

    // The next units of a fork, at least one and so many at most, in a row as a run does them. Illegal, where it can't run. Says how many.
    fn row<T: Taker>(&mut self, fork: ForkName, left: u64, out: &mut T) -> Result<u32, Halt>
        requires some { 1 ≤ left }
        requires few { self.old.done + left ≤ 2 ^ 51 }
        ensures { PlayedRow T.fault_count T.onward T.stands T.cut self.old self.new out.old out.new result fork left }
    {
        let who = match self.runner_of(fork) {
            Some(who) => who,
            None => return Err(Halt::Illegal),
        };
        let row = match self.system.run_fork(who, left.min(MOST_IN_ROW) as u32) {
            Ok(row) => row,
            // Pages in memory alone need nothing first.
            Err(_) => unreachable!(),
        };
        self.done += u64::from(row.count);
        match give_all(
            &self.system,
            &Step::Unit(who.fork),
            row.count,
            row.reply,
            out,
        ) {
            Ok(()) => Ok(row.count),
            Err(_) => Err(Halt::Fault),
        }
    }

    /// So many units of a fork, up to the first that is of a fork that can't run.
    pub fn units<T: Taker>(&mut self, fork: ForkName, count: u64, out: &mut T) -> Result<(), Halt>
        requires few { self.old.done + count ≤ 2 ^ 51 }
        ensures { PlayedSteps T.fault_count T.onward T.stands T.cut self.old self.new out.old out.new result (AStep.Unit fork) count }
    {
        let mut left = count;
        while left > 0 {
            match self.row(fork, left, out) {
                Ok(done) => left -= u64::from(done),
                Err(why) => return Err(why),
            }
        }
        Ok(())
    }

    /// So many idle entries, which do nothing.
    pub fn idles<T: Taker>(&mut self, count: u64, out: &mut T) -> Result<(), Halt>
        requires some { 1 ≤ count }
        requires few { self.old.done + count ≤ 2 ^ 51 }
        ensures { PlayedSteps T.fault_count T.onward T.stands T.cut self.old self.new out.old out.new result AStep.Idle count }
    {
        self.done += count;
        match out.turns(Step::Idle, count) {
            Ok(()) => Ok(()),
            Err(_) => Err(Halt::Fault),
        }
    }
}
