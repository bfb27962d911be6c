// Deeds that are done whole, and whose lists follow; or what they need first.
ghost use Rattle.std.specs.Prelude.{◌≡◌, ◌^◌, Err, IfErr, IfOk, true};
ghost use Rattle.event_deeds.specs.Deeds.{FitsDeed, IsNext, IsTold, deed_of};
ghost use Rattle.event_deeds.specs.declared.deed.Deed.{Deed as ADeed};
ghost use Rattle.fork_lists.specs.Ties.{AreTied};
ghost use Rattle.job_sched.specs.Schedules.{size};
ghost use Rattle.job_sched.specs.Ties.{WaitsLess};
ghost use Rattle.monitor_core.specs.Systems.{IsWithin};
ghost use Rattle.page_contracts.specs.declared.answers.Need.{Need as ANeed};
ghost use Rattle.page_homes.specs.declared.homes.Home.{Home as AHome};
ghost use Rattle.page_waits.specs.Seats.{has};
ghost use Rattle.page_waits.specs.Systems.{DidDeed, Needs};
ghost use Rattle.paged_system.specs.Followed.{HaveMoved};
ghost use Rattle.paged_system.specs.Paging.{paged};

use crate::following::{follow_event, follow_part};
use crate::paged::Paged;
use event_deeds::{Answer, Deed, Showing};
use fork_lists::ForkLists;
use monitor_typing::part;
use page_contracts::{Need, Pages};
use script_texts::Event;
use step_wants::{homes_are_of_pages, the_tables_tell, what_is_needed_is_wanted};

impl<P: Pages> Paged<P> {
    // An event that is one deed, and then the lists follow. Err: it needs this first, and nothing has changed.
    fn do_event(&mut self, lists: &mut ForkLists, e: &Event) -> Result<Answer, Need>
        requires fits { FitsDeed (ADeed.Outer e.now) }
        requires tied { AreTied self.old.system.tree.forks lists.old }
        requires within { IsWithin self.old.system (2 ^ 52) }
        ensures did { IfOk result (DidDeed paged (ADeed.Outer e.now) self.old self.new) }
        ensures moved { IfOk result (λ answer. HaveMoved self.old.system.tree.forks self.new.system.tree.forks lists.old lists.new) }
        ensures tied { IfOk result (λ answer. AreTied self.new.system.tree.forks lists.new) }
        ensures waits { IfOk result (λ answer. WaitsLess lists.old.sched.waiting lists.new.sched.waiting) }
        ensures set { size lists.new.sched ≡ size lists.old.sched }
        ensures needs { IfErr result (Needs paged (deed_of (ADeed.Outer e.now)) self.old self.new) }
        ensures told { (home : AHome) → IsTold (ADeed.Outer e.now) → result ≡ Err (ANeed.Page home)
            → has home.0 (paged.told self.old (ADeed.Outer e.now)) ≡ true }
        ensures stays { IfErr result (λ need. lists.new ≡ lists.old) }
    {
        what_is_needed_is_wanted();
        homes_are_of_pages::<P>();
        self.system.trees();
        match self.system.apply(e) {
            Ok(reply) => {
                follow_event(lists, self.system.forks(), e);
                Ok(Answer {
                    showing: Showing::Reply(reply),
                    next: None,
                })
            }
            Err(need) => Err(need),
        }
    }

    // A part of a character, and then the lists follow. Err: it needs this first, which is no frame, and nothing has changed.
    fn do_part(&mut self, lists: &mut ForkLists, deed: &Deed) -> Result<Answer, Need>
        requires part { IsNext deed.now }
        requires tied { AreTied self.old.system.tree.forks lists.old }
        ensures did { IfOk result (DidDeed paged deed.now self.old self.new) }
        ensures moved { IfOk result (λ answer. HaveMoved self.old.system.tree.forks self.new.system.tree.forks lists.old lists.new) }
        ensures tied { IfOk result (λ answer. AreTied self.new.system.tree.forks lists.new) }
        ensures waits { IfOk result (λ answer. WaitsLess lists.old.sched.waiting lists.new.sched.waiting) }
        ensures set { size lists.new.sched ≡ size lists.old.sched }
        ensures needs { IfErr result (Needs paged (deed_of deed.now) self.old self.new) }
        ensures told { (home : AHome) → IsTold deed.now → result ≡ Err (ANeed.Page home)
            → has home.0 (paged.told self.old deed.now) ≡ true }
        ensures unframed { result ≡ Err ANeed.Frame → ⊥ }
        ensures stays { IfErr result (λ need. lists.new ≡ lists.old) }
    {
        the_tables_tell();
        self.system.trees();
        match part(&mut self.system, deed) {
            Ok(answer) => {
                follow_part(lists, self.system.forks(), &answer.showing);
                Ok(answer)
            }
            Err(need) => Err(need),
        }
    }

    /// A deed, and then the lists follow the forks. Err: it needs this first, and nothing has changed; a part of a character needs no frame.
    pub(crate) fn do_deed(&mut self, lists: &mut ForkLists, deed: &Deed) -> Result<Answer, Need>
        requires fits { FitsDeed deed.now }
        requires tied { AreTied self.old.system.tree.forks lists.old }
        requires within { IsWithin self.old.system (2 ^ 52) }
        ensures did { IfOk result (DidDeed paged deed.now self.old self.new) }
        ensures moved { IfOk result (λ answer. HaveMoved self.old.system.tree.forks self.new.system.tree.forks lists.old lists.new) }
        ensures tied { IfOk result (λ answer. AreTied self.new.system.tree.forks lists.new) }
        ensures waits { IfOk result (λ answer. WaitsLess lists.old.sched.waiting lists.new.sched.waiting) }
        ensures set { size lists.new.sched ≡ size lists.old.sched }
        ensures needs { IfErr result (Needs paged (deed_of deed.now) self.old self.new) }
        ensures told { (home : AHome) → IsTold deed.now → result ≡ Err (ANeed.Page home)
            → has home.0 (paged.told self.old deed.now) ≡ true }
        ensures unframed { IsNext deed.now → result ≡ Err ANeed.Frame → ⊥ }
        ensures stays { IfErr result (λ need. lists.new ≡ lists.old) }
    {
        match deed {
            Deed::Outer(e) => self.do_event(lists, e),
            _ => self.do_part(lists, deed),
        }
    }
}
