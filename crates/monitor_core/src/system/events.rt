// Events that are one step.
ghost use Rattle.std.specs.Prelude.{◌≡◌, ◌^◌, IfErr, IfOk, IsOk, true};
ghost use Rattle.fork_tree.specs.Trees.{IsTree};
ghost use Rattle.script_texts.specs.Limits.{FitsStep};
ghost use Rattle.script_texts.specs.declared.event.Event.{Event as AnEvent};
ghost use Rattle.script_texts.specs.declared.event.Step.{Step as AStep};
ghost use Rattle.monitor_core.specs.Reaching.{EventReaches};
ghost use Rattle.step_shown.specs.Replies.{reply_of};
ghost use Rattle.monitor_core.specs.Systems.{CanDo, Did, IsAtOnce, IsWithin, Waits, event_frames};
ghost use Rattle.monitor_core.specs.Needing.{CanShow, EventNeeds};

use crate::job_event::JobEvent;
use crate::system::System;
use page_contracts::{Need, Pages};
use script_texts::{Event, Item, Refusal};
use step_shown::Reply;

impl<P: Pages> System<P> {
    // TICK: the clock goes on by one, and each sleeper whose moment it reaches runs again.
    fn tick(&mut self) -> Reply
        requires { IsWithin self.old (2 ^ 52) }
        ensures did { Did self.old self.new (AStep.Outer AnEvent.Tick) result }
        ensures shown { CanShow self.new result }
        ensures reach { EventReaches AnEvent.Tick self.new.panel.clock self.old.tree self.new.tree }
    {
        self.panel.clock += 1;
        self.tree.are_trees();
        self.tree.wake_sleepers(self.panel.clock);
        Reply::Nothing
    }

    // TRACE: whether each unit is shown.
    fn set_trace(&mut self, on: bool) -> Reply
        ensures did { Did self.old self.new (AStep.Outer (AnEvent.Trace on)) result }
        ensures shown { CanShow self.new result }
        ensures tree { self.new.tree ≡ self.old.tree }
    {
        self.panel.trace = on;
        Reply::Nothing
    }

    // An event that is one step, or why it is refused. Err: it needs this first, and nothing is done.
    fn outer(&mut self, e: &Event) -> Result<Result<Reply, Refusal>, Need>
        requires fits { FitsStep (AStep.Outer e.now) }
        requires once { IsAtOnce e.now }
        requires few { IsWithin self.old (2 ^ 52) }
        ensures did { IfOk result (λ done. Did self.old self.new (AStep.Outer e.now) (reply_of done)) }
        ensures shown { IfOk result (λ done. CanShow self.new (reply_of done)) }
        ensures waits { IfErr result (Waits event_frames self.old self.new) }
        ensures reason { IfErr result (EventNeeds self.new e.now) }
        ensures core { P.means.flat ≡ true → IsOk result }
        ensures reach { EventReaches e.now self.new.panel.clock self.old.tree self.new.tree }
    {
        match e {
            Event::Login(t, user) => self.login(*t, *user),
            Event::Poke(t, address, word) => self.at_job(*t, JobEvent::Poke(*address, *word)),
            Event::Start(t, address) => self.at_job(*t, JobEvent::Start(*address)),
            Event::Examine(t, serial, address) => {
                self.at_job(*t, JobEvent::Examine(*serial, *address))
            }
            Event::File(name) => Ok(self.make_file(name)),
            Event::Words(name, page, offset, row) => self.write_words(name, *page, *offset, row),
            Event::Page(name, page) => self.show_page(name, *page),
            Event::Forks(t) => self.at_job(*t, JobEvent::Forks),
            Event::Tick => Ok(Ok(self.tick())),
            Event::Trace(on) => Ok(Ok(self.set_trace(*on))),
            Event::Run(_) | Event::Evict(_) | Event::Drum(_) | Event::Auto(_) => unreachable!(),
            Event::TypeIn(..) => unreachable!(),
        }
    }

    /// Does an event that is one step; what its reply shows is in a frame then. Err: it needs this first, and nothing is done.
    pub fn apply(&mut self, e: &Event) -> Result<Reply, Need>
        requires can { CanDo self.old (AStep.Outer e.now) }
        requires once { IsAtOnce e.now }
        requires few { IsWithin self.old (2 ^ 52) }
        ensures did { IfOk result (Did self.old self.new (AStep.Outer e.now)) }
        ensures shown { IfOk result (CanShow self.new) }
        ensures waits { IfErr result (Waits event_frames self.old self.new) }
        ensures reason { IfErr result (EventNeeds self.new e.now) }
        ensures core { P.means.flat ≡ true → IsOk result }
        ensures reach { EventReaches e.now self.new.panel.clock self.old.tree self.new.tree }
        ensures trees { IsTree self.new.tree }
    {
        let done = self.outer(e);
        self.tree.are_trees();
        match done {
            Ok(Ok(reply)) => Ok(reply),
            Ok(Err(cause)) => Ok(Reply::One(Item::Refusal(cause))),
            Err(need) => Err(need),
        }
    }
}
