// The events of a terminal's job.
ghost use Rattle.std.specs.Prelude.{◌≡◌, ◌^◌, IfErr, IfOk, IsOk, true};
ghost use Rattle.machine_names.specs.Bounds.{IsTerminal};
ghost use Rattle.script_texts.specs.declared.event.Step.{Step as AStep};
ghost use Rattle.monitor_core.specs.JobEvents.{event_at, FitsJobEvent};
ghost use Rattle.step_shown.specs.Replies.{reply_of};
ghost use Rattle.monitor_core.specs.Needing.{CanShow, EventNeeds};
ghost use Rattle.monitor_core.specs.Systems.{Did, IsWithin, Waits, event_frames};
ghost use Rattle.monitor_core.specs.Reaching.{ChangesJob};

use crate::job_event::JobEvent;
use crate::system::System;
use console_access::{examined, poke, start};
use machine_names::Tty;
use page_contracts::{Need, Pages};
use plain_model::TerminalMode;
use script_texts::Refusal;
use step_shown::Reply;

impl<P: Pages> System<P> {
    /// An event of a terminal's job. NoJob, where the terminal has none. Err: it needs this first, and nothing is done.
    pub(crate) fn at_job(&mut self, t: Tty, e: JobEvent) -> Result<Result<Reply, Refusal>, Need>
        requires terminal { IsTerminal t }
        requires fits { FitsJobEvent e }
        requires few { IsWithin self.old (2 ^ 52) }
        ensures did { IfOk result (λ done. Did self.old self.new (AStep.Outer (event_at t e)) (reply_of done)) }
        ensures shown { IfOk result (λ done. CanShow self.new (reply_of done)) }
        ensures waits { IfErr result (Waits event_frames self.old self.new) }
        ensures reason { IfErr result (EventNeeds self.new (event_at t e)) }
        ensures core { P.means.flat ≡ true → IsOk result }
        ensures others { ChangesJob t self.old.tree.forks self.new.tree.forks }
    {
        self.tree.are_trees();
        let Some(job) = &mut self.jobs[t.0 as usize] else {
            return Ok(Err(Refusal::NoJob(t)));
        };
        match e {
            JobEvent::Poke(address, word) => {
                match poke(&mut self.tree, &mut self.pages, job.top, address, word) {
                    Ok(Ok(())) => Ok(Ok(Reply::Nothing)),
                    Ok(Err(cause)) => Ok(Err(cause)),
                    Err(need) => Err(need),
                }
            }
            JobEvent::Start(address) => {
                job.mode = TerminalMode::Program;
                start(&mut self.tree, job.top, address);
                Ok(Ok(Reply::Nothing))
            }
            JobEvent::Examine(serial, address) => {
                match examined(&self.tree, &self.pages, t, serial, address) {
                    Ok(Ok(item)) => Ok(Ok(Reply::One(item))),
                    Ok(Err(cause)) => Ok(Err(cause)),
                    Err(need) => Err(need),
                }
            }
            JobEvent::Forks => Ok(Ok(Reply::Forks(t))),
        }
    }
}
