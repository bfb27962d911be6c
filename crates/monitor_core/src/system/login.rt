// LOGIN: a job is made.
ghost use Rattle.std.specs.Prelude.{◌≡◌, ◌<◌, IfErr, IfOk, IsOk, None, Ok, true};
ghost use Rattle.machine_names.specs.Bounds.{IsTerminal};
ghost use Rattle.script_texts.specs.declared.event.Event.{Event as AnEvent};
ghost use Rattle.script_texts.specs.declared.event.Step.{Step as AStep};
ghost use Rattle.fork_tree.specs.Making.{room_for};
ghost use Rattle.monitor_calls.specs.Jobs.{job_at};
ghost use Rattle.step_shown.specs.Replies.{reply_of};
ghost use Rattle.monitor_core.specs.Needing.{CanShow, EventNeeds};
ghost use Rattle.monitor_core.specs.Systems.{Did, Waits, event_frames};
ghost use Rattle.monitor_core.specs.Reaching.{BeginsJob};

use crate::system::System;
use fork_tree::NoFork;
use machine_names::{DirName, ForkName, Tty, character};
use monitor_calls::Job;
use page_contracts::{Need, Pages, Room};
use plain_pages::NewMap;
use script_texts::{Item, Refusal};
use step_shown::Reply;

impl<P: Pages> System<P> {
    // Makes a job with its top fork, and its terminal waits for a command; what was typed there before is lost.
    fn add_job(&mut self, t: Tty, user: DirName) -> Reply
        requires terminal { IsTerminal t }
        requires free { job_at self.old.jobs.items t.0 ≡ None }
        requires unused { room_for self.old.tree t ≡ Ok tt }
        requires room { P.means.count self.old.pages < P.means.most self.old.pages }
        requires frame { 0 < (P.means.scene self.old.pages).free_frames }
        ensures did { Did self.old self.new (AStep.Outer (AnEvent.Login t user)) result }
        ensures shown { CanShow self.new result }
        ensures others { BeginsJob t self.old.tree.forks self.new.tree.forks }
    {
        self.tree.are_trees();
        match self.tree.make(t, None) {
            Ok(fork) => {
                self.tree.are_trees();
                self.pages.add_fork(fork, NewMap::Empty);
                self.typed[t.0 as usize].clear();
                self.jobs[t.0 as usize] = Some(Job::new(user, fork));
                Reply::One(Item::Char(t, character::PROMPT))
            }
            Err(_) => unreachable!(),
        }
    }

    // Makes a job where the drum has room for its fork. Full, where it has none. Err: its map finds no frame, and nothing is done.
    fn add_where_room(&mut self, t: Tty, user: DirName) -> Result<Result<Reply, Refusal>, Need>
        requires terminal { IsTerminal t }
        requires free { job_at self.old.jobs.items t.0 ≡ None }
        requires unused { room_for self.old.tree t ≡ Ok tt }
        ensures did { IfOk result (λ done. Did self.old self.new (AStep.Outer (AnEvent.Login t user)) (reply_of done)) }
        ensures shown { IfOk result (λ done. CanShow self.new (reply_of done)) }
        ensures waits { IfErr result (Waits event_frames self.old self.new) }
        ensures reason { IfErr result (EventNeeds self.new (AnEvent.Login t user)) }
        ensures core { P.means.flat ≡ true → IsOk result }
        ensures others { BeginsJob t self.old.tree.forks self.new.tree.forks }
    {
        self.tree.are_trees();
        match self.pages.room(1) {
            Room::Enough => Ok(Ok(self.add_job(t, user))),
            Room::Full => Ok(Err(Refusal::Full(t))),
            Room::NeedFrame => Err(Need::Frame),
        }
    }

    /// LOGIN: a user gets a job. Busy, where the terminal has one; SerialsOut, where its serials are used up;
    /// Full, where the drum is. Err: its map finds no frame, and nothing is done.
    pub(crate) fn login(&mut self, t: Tty, user: DirName) -> Result<Result<Reply, Refusal>, Need>
        requires terminal { IsTerminal t }
        ensures did { IfOk result (λ done. Did self.old self.new (AStep.Outer (AnEvent.Login t user)) (reply_of done)) }
        ensures shown { IfOk result (λ done. CanShow self.new (reply_of done)) }
        ensures waits { IfErr result (Waits event_frames self.old self.new) }
        ensures reason { IfErr result (EventNeeds self.new (AnEvent.Login t user)) }
        ensures core { P.means.flat ≡ true → IsOk result }
        ensures others { BeginsJob t self.old.tree.forks self.new.tree.forks }
    {
        if self.jobs[t.0 as usize].is_some() {
            return Ok(Err(Refusal::Busy(t)));
        }
        self.tree.are_trees();
        match self.tree.can_make(t) {
            Ok(()) => self.add_where_room(t, user),
            Err(NoFork::SerialsOut) => Ok(Err(Refusal::SerialsOut(t))),
            // Where no job is, no slot is in use.
            Err(NoFork::ForksFull) => unreachable!(),
        }
    }
}
