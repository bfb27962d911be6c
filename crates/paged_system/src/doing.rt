// Units and deeds that are done whole, and whose lists follow; or what they need first.
ghost use Rattle.std.specs.Prelude.{◌≡◌, ◌<◌, ◌-◌, ◌≤◌, ◌^◌, IfErr, IfOk, true};
ghost use Rattle.event_deeds.specs.Deeds.{unit_of};
ghost use Rattle.fork_lists.specs.Ties.{AreTied};
ghost use Rattle.job_sched.specs.Schedules.{heads, size};
ghost use Rattle.job_sched.specs.Ties.{WaitsLess};
ghost use Rattle.job_sched.specs.Units.{IsRow, row_ran};
ghost use Rattle.monitor_core.specs.Systems.{IsWithin};
ghost use Rattle.plain_model.specs.Forks.{IsRunnable};
ghost use Rattle.plain_model.specs.Moves.{moves};
ghost use Rattle.turn_forms.specs.Turns.{moved};
ghost use Rattle.page_waits.specs.Systems.{DidUnits, Needs};
ghost use Rattle.paged_system.specs.Paging.{paged};

use crate::following::follow_reach;
use crate::paged::Paged;
use fork_lists::ForkLists;
use machine_names::ForkName;
use page_contracts::{Need, Pages};
use step_shown::Progress;
use step_wants::{homes_are_of_pages, what_is_needed_is_wanted};

impl<P: Pages> Paged<P> {
    /// Units of the head of the lists in a row, so many at most: all but the last are counted, and then the lists follow the forks. Err: the first needs this
    /// first, and nothing has changed.
    pub(crate) fn run(
        &mut self,
        lists: &mut ForkLists,
        who: ForkName,
        most: u32,
    ) -> Result<Progress, Need>
        requires can { IsRunnable self.old.system.tree.forks who }
        requires row { IsRow most lists.old.sched }
        requires some { 1 ≤ most }
        requires tied { AreTied self.old.system.tree.forks lists.old }
        requires within { IsWithin self.old.system (2 ^ 52) }
        ensures did { IfOk result (DidUnits paged who self.old self.new) }
        ensures some { IfOk result (λ done. 1 ≤ done.count) }
        ensures few { IfOk result (λ done. done.count ≤ most) }
        ensures moved { IfOk result (λ done. lists.new.sched ≡ moved (moves self.old.system.tree.forks self.new.system.tree.forks) (row_ran (done.count - 1) lists.old.sched)) }
        ensures tied { IfOk result (λ done. AreTied self.new.system.tree.forks lists.new) }
        ensures waits { IfOk result (λ done. WaitsLess lists.old.sched.waiting lists.new.sched.waiting) }
        ensures set { size lists.new.sched ≡ size lists.old.sched }
        ensures needs { IfErr result (Needs paged (unit_of who) self.old self.new) }
        ensures stays { IfErr result (λ need. lists.new ≡ lists.old) }
    {
        what_is_needed_is_wanted();
        homes_are_of_pages::<P>();
        let runner = self.system.runner(who);
        match self.system.run_fork(runner, most) {
            Ok(done) => {
                lists.sound();
                lists.count_but_last(done.count);
                follow_reach(lists, self.system.forks(), runner, done.reach);
                Ok(done)
            }
            Err(need) => Err(need),
        }
    }
}
