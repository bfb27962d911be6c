// Events that are played.
ghost use Rattle.std.specs.Prelude.{◌<◌, ◌^◌, All};
ghost use Rattle.machine_names.specs.Bounds.{IsTerminal};
ghost use Rattle.script_texts.specs.Limits.{FitsEvent, FitsStep};
ghost use Rattle.script_texts.specs.declared.event.Event.{Event as AnEvent};
ghost use Rattle.script_texts.specs.declared.event.Step.{Step as AStep};
ghost use Rattle.monitor_core.specs.Systems.{IsAtOnce};
ghost use Rattle.record_player.specs.Stages.{PlayedEvent, TypedOut};

use crate::stage::Stage;
use event_items::{give_all, give_echo};
use machine_names::{Tty, TypedText};
use monitor_typing::type_one;
use outside::Failed;
use page_contracts::Pages;
use script_texts::{Event, Item, Refusal, Step, Taker};
use step_shown::Reply;

impl<P: Pages> Stage<P> {
    // An event that is done at once, and what it shows.
    fn at_once<T: Taker>(&mut self, e: Event, out: &mut T) -> Result<(), Failed>
        requires fits { FitsStep (AStep.Outer e) }
        requires once { IsAtOnce e }
        requires few { self.old.done < 2 ^ 52 }
        ensures { PlayedEvent T.fault_count T.onward T.stands T.cut self.old self.new out.old out.new result e }
    {
        let reply = match self.system.apply(&e) {
            Ok(reply) => reply,
            // Pages in memory alone need nothing first.
            Err(_) => unreachable!(),
        };
        self.done += 1;
        give_all(&self.system, &Step::Outer(e), 1, reply, out)
    }

    // The characters of a text are typed at a terminal, each behind what the one before it shows.
    fn type_text<T: Taker>(&mut self, t: Tty, text: &[u8], out: &mut T) -> Result<(), Failed>
        requires terminal { IsTerminal t }
        requires codes { All (λ c. c < 128) text.now }
        ensures { TypedOut T.fault_count T.onward T.stands T.cut self.old self.new out.old out.new result t text.now }
    {
        for code in text {
            let shown = type_one(&mut self.system, t, *code);
            give_echo(&self.system, t, shown, out)?;
        }
        Ok(())
    }

    // TYPE: what each character shows, and the step behind all of them.
    fn type_in<T: Taker>(&mut self, t: Tty, text: TypedText, out: &mut T) -> Result<(), Failed>
        requires few { self.old.done < 2 ^ 52 }
        requires fits { FitsEvent (AnEvent.TypeIn t text) }
        ensures { PlayedEvent T.fault_count T.onward T.stands T.cut self.old self.new out.old out.new result (AnEvent.TypeIn t text) }
    {
        let step = Step::Outer(Event::TypeIn(t, text));
        if !self.system.has_job(t) {
            self.done += 1;
            let refused = Reply::One(Item::Refusal(Refusal::NoJob(t)));
            return give_all(&self.system, &step, 1, refused, out);
        }
        self.type_text(t, text.as_slice(), out)?;
        self.done += 1;
        out.step(step)
    }

    /// Plays an event that is an entry.
    pub fn event<T: Taker>(&mut self, e: Event, out: &mut T) -> Result<(), Failed>
        requires fits { FitsStep (AStep.Outer e) }
        requires few { self.old.done < 2 ^ 52 }
        ensures { PlayedEvent T.fault_count T.onward T.stands T.cut self.old self.new out.old out.new result e }
    {
        match e {
            Event::TypeIn(t, text) => self.type_in(t, text, out),
            _ => self.at_once(e, out),
        }
    }
}
