// Deeds of the console: what they need is brought into core, whatever AUTO says.
ghost use Rattle.std.specs.Prelude.{◌≡◌, ◌⊎◌, ◌+◌, ◌<◌, ◌≤◌, ◌^◌, ℕ, IfOk, IfSome, IsOkAnd, IsSome, OnErr, Option as AnOption, Ok, Err, Some, None};
ghost use Rattle.event_deeds.specs.Deeds.{FitsDeed, IsTold, entries_of};
ghost use Rattle.event_deeds.specs.declared.deed.Deed.{Deed as ADeed};
ghost use Rattle.outside.specs.Faults.{Rose};
ghost use Rattle.page_contracts.specs.DrumWords.{DrumWords};
ghost use Rattle.page_contracts.specs.declared.answers.Need.{Need as ANeed};
ghost use Rattle.plain_model.specs.Moves.{moves};
ghost use Rattle.turn_forms.specs.Turns.{moved};
ghost use Rattle.page_waits.specs.Acts.{DidOver, DidThere, Quiet, Spent, Still, told_work};
ghost use Rattle.page_waits.specs.Calm.{IsRoomy};
ghost use Rattle.page_waits.specs.Holders.{AreReleased};
ghost use Rattle.page_waits.specs.InCore.{IsInCore};
ghost use Rattle.page_waits.specs.Machines.{IsBare, KeepsMarks, auto, frames, limit};
ghost use Rattle.page_waits.specs.Systems.{StaysTold};
ghost use Rattle.event_deeds.specs.Deeds.{IsNext};
ghost use Rattle.page_waits.specs.Told.{AllTold, MovesSilently, TookDeed};
ghost use Rattle.page_waits.specs.Transfers.{MovesAtMost, most_transfers};
ghost use Rattle.page_waits.specs.Waits.{AreAwaited, the_lists, waits_with, woken};
ghost use Rattle.event_deeds.specs.declared.answer.Answer.{Answer as AnAnswer};

use crate::System;
use crate::completing::complete;
use crate::holders::{held_members, release_left, still_holding};
use crate::machine::Machine;
use crate::machine::looking::MOST_TRANSFERS;
use crate::waking::tell;
use event_deeds::{Answer, Deed};
use outside::{Drum, Failed};
use page_contracts::{CONSOLE_HOLDER, Completed, Need};

// What a wait comes to, once something is told.
fn after(done: Need, need: Need) -> Option<Need>
    ensures { result ≡ woken done (Some need) }
{
    match need {
        Need::Frame => None,
        Need::Page(other) => match done {
            Need::Frame => Some(need),
            Need::Page(home) => { if home.0 == other.0 { None } else { Some(need) } }
        },
    }
}

impl<S: System> Machine<S> {
    // Does a deed; or asks for what it needs first, and answers what it waits for.
    fn ask(&mut self, deed: &Deed) -> Result<Answer, Need>
        requires fits { FitsDeed deed.now }
        requires within { S.means.within self.old.system (2 ^ 52) }
        ensures did { IfOk result (λ answer. DidThere S.means the_lists deed.now answer self.old.system self.new.system) }
        ensures next { IfOk result (λ answer. IfSome answer.next IsNext) }
        ensures lists { IfOk result (λ answer. AllTold (moved (moves (S.means.tree self.old.system).forks (S.means.tree self.new.system).forks) self.old.lists.sched) self.new.lists.sched) }
        ensures released { IfOk result (λ answer. AreReleased (the_lists.member self.old.lists) (the_lists.member self.new.lists) (S.means.store.holds self.new.system)) }
        ensures bare { IfOk result (λ answer. IsBare self.new) }
        ensures still { (n : ANeed) → result ≡ Err n → Still S.means the_lists (Some deed.now) None (Some n) self.old.system self.new.system self.old.lists self.new.lists }
        ensures limit { limit self.new ≡ limit self.old }
        ensures frames { frames self.new ≡ frames self.old }
        ensures stays { (n : ANeed) → result ≡ Err n → self.new.lists ≡ self.old.lists }
        ensures fewer { (n : ANeed) → IsTold deed.now → result ≡ Err n → told_work S.means the_lists deed.now (Some n) self.new.system self.new.lists ≤ told_work S.means the_lists deed.now None self.old.system self.old.lists }
        ensures awaited { (n : ANeed) → result ≡ Err n → AreAwaited S.means (waits_with (Some n) (the_lists.waiting self.new.lists)) self.new.system }
        ensures mark { auto self.new ≡ auto self.old }
        ensures calm { (frames : ℕ) (d : DrumWords) → S.means.fits self.old.system d → IsInCore S.means frames self.old.system self.old.lists → IsNext deed.now ⊎ IsRoomy frames (S.means.plain self.old.system d) → IsOkAnd result (λ answer. IsInCore S.means frames self.new.system self.new.lists) }
    {
        self.lists.sound();
        let holders = held_members(&self.system, &self.lists, self.holding);
        match self.system.deed(&mut self.lists, deed) {
            Ok(answer) => {
                self.system.let_go(CONSOLE_HOLDER);
                tell(&mut self.system, &mut self.lists);
                release_left(&mut self.system, &self.lists, &holders);
                self.holding = still_holding(&self.system, &self.lists, &holders);
                Ok(answer)
            }
            Err(need) => Err(self.system.fetch(need)),
        }
    }

    // Ends the oldest transfer for a deed that waits, and answers what it waits for then.
    fn complete_for<D: Drum>(&mut self, need: Need, drum: &mut D) -> Result<Option<Need>, Failed>
        requires drum { limit self.old ≤ D.size drum.old }
        requires awaited { AreAwaited S.means (waits_with (Some need) (the_lists.waiting self.old.lists)) self.old.system }
        ensures later { D.fault_count drum.old ≤ D.fault_count drum.new }
        ensures cause { OnErr result (Rose (D.fault_count drum.old) (D.fault_count drum.new)) }
        ensures size { D.size drum.new ≡ D.size drum.old }
        ensures reads { D.read_count drum.old ≤ D.read_count drum.new }
        ensures writes { D.write_count drum.old ≤ D.write_count drum.new }
        ensures bounded { MovesAtMost (record { reads = D.read_count; writes = D.write_count }) 1 drum.old drum.new }
        ensures quiet { (w : AnOption ANeed) (x : AnOption ADeed) → result ≡ Ok w → Quiet S.means the_lists D.held x (Some need) w 1 self.old.system self.new.system self.old.lists self.new.lists drum.old drum.new }
        ensures fewer { (w : AnOption ANeed) (x : ADeed) → result ≡ Ok w → told_work S.means the_lists x w self.new.system self.new.lists + 1 ≤ told_work S.means the_lists x (Some need) self.old.system self.old.lists }
        ensures silent { (w : AnOption ANeed) → result ≡ Ok w → MovesSilently self.old.lists.sched self.new.lists.sched }
        ensures awaited { (w : AnOption ANeed) → result ≡ Ok w → AreAwaited S.means (waits_with w (the_lists.waiting self.new.lists)) self.new.system }
        ensures marks { KeepsMarks self.old self.new }
    {
        self.holding = true;
        match complete(&mut self.system, &mut self.lists, Some(need), drum) {
            Completed::Done(done) => Ok(after(done, need)),
            // Who waits is awaited.
            Completed::Nothing => unreachable!(),
            Completed::DrumFault => Err(Failed),
        }
    }

    // Nothing is held for the console any more.
    fn release(&mut self)
        ensures none { IsBare self.new }
        ensures lists { self.new.lists ≡ self.old.lists }
        ensures told { StaysTold S.means self.old.system self.new.system }
        ensures marks { KeepsMarks self.old self.new }
    {
        self.system.let_go(CONSOLE_HOLDER);
    }

    /// Does a deed once all that it needs is in core. None, where so many transfers have ended for it: that never is, over what a drum tells. Where all is in core, and
    /// few pages live or the deed is a part of a character (`calm`), it is done at once, and all is in core behind it.
    pub fn bring<D: Drum>(&mut self, deed: &Deed, drum: &mut D) -> Result<Option<Answer>, Failed>
        requires drum { limit self.old ≤ D.size drum.old }
        requires fits { FitsDeed deed.now }
        requires within { S.means.within self.old.system (2 ^ 52) }
        ensures later { D.fault_count drum.old ≤ D.fault_count drum.new }
        ensures cause { OnErr result (Rose (D.fault_count drum.old) (D.fault_count drum.new)) }
        ensures size { D.size drum.new ≡ D.size drum.old }
        ensures reads { D.read_count drum.old ≤ D.read_count drum.new }
        ensures writes { D.write_count drum.old ≤ D.write_count drum.new }
        ensures bounded { MovesAtMost (record { reads = D.read_count; writes = D.write_count }) most_transfers drum.old drum.new }
        ensures did { (answer : AnAnswer) → result ≡ Ok (Some answer) → DidOver S.means the_lists D.held deed.now answer self.old.system self.new.system drum.old drum.new }
        ensures next { (answer : AnAnswer) → result ≡ Ok (Some answer) → IfSome answer.next IsNext }
        ensures within { (answer : AnAnswer) (n : ℕ) → result ≡ Ok (Some answer) → S.means.within self.old.system n → S.means.within self.new.system (n + entries_of deed.now) }
        ensures took { (answer : AnAnswer) → result ≡ Ok (Some answer) → TookDeed (S.means.tree self.old.system).forks (S.means.tree self.new.system).forks self.old.lists.sched self.new.lists.sched }
        ensures silent { result ≡ Ok None → MovesSilently self.old.lists.sched self.new.lists.sched }
        ensures kept { result ≡ Ok None → StaysTold S.means self.old.system self.new.system }
        ensures spent { result ≡ Ok None → Spent S.means the_lists D.held self.old.system drum.old }
        ensures bare { IfOk result (λ came. IsBare self.new) }
        ensures limit { limit self.new ≡ limit self.old }
        ensures frames { frames self.new ≡ frames self.old }
        ensures mark { auto self.new ≡ auto self.old }
        ensures calm { (frames : ℕ) (d : DrumWords) → S.means.fits self.old.system d → IsInCore S.means frames self.old.system self.old.lists → IsNext deed.now ⊎ IsRoomy frames (S.means.plain self.old.system d) → IsOkAnd result (λ came. IsInCore S.means frames self.new.system self.new.lists) }
        ensures answers { (frames : ℕ) (d : DrumWords) → S.means.fits self.old.system d → IsInCore S.means frames self.old.system self.old.lists → IsNext deed.now ⊎ IsRoomy frames (S.means.plain self.old.system d) → IfOk result IsSome }
    {
        let mut left = MOST_TRANSFERS;
        let mut waits: Option<Need> = None;
        loop {
            match waits {
                None => match self.ask(deed) {
                    Ok(answer) => return Ok(Some(answer)),
                    Err(need) => waits = Some(need),
                },
                Some(need) => {
                    if left == 0 {
                        self.release();
                        return Ok(None);
                    }
                    match self.complete_for(need, drum) {
                        Ok(after) => {
                            left -= 1;
                            waits = after;
                        }
                        Err(_) => return Err(Failed),
                    }
                }
            }
        }
    }

    /// Does a deed of which the tables alone tell to what it refers, once all of it is in core. As many transfers end as it needs, whatever the drum holds. Where all is
    /// in core, and few pages live or the deed is a part of a character (`calm`), it is done at once, and all is in core behind it.
    pub fn bring_told<D: Drum>(&mut self, deed: &Deed, drum: &mut D) -> Result<Answer, Failed>
        requires drum { limit self.old ≤ D.size drum.old }
        requires fits { FitsDeed deed.now }
        requires told { IsTold deed.now }
        requires within { S.means.within self.old.system (2 ^ 52) }
        ensures later { D.fault_count drum.old ≤ D.fault_count drum.new }
        ensures cause { OnErr result (Rose (D.fault_count drum.old) (D.fault_count drum.new)) }
        ensures size { D.size drum.new ≡ D.size drum.old }
        ensures reads { D.read_count drum.old ≤ D.read_count drum.new }
        ensures writes { D.write_count drum.old ≤ D.write_count drum.new }
        ensures did { IfOk result (λ answer. DidOver S.means the_lists D.held deed.now answer self.old.system self.new.system drum.old drum.new) }
        ensures next { IfOk result (λ answer. IfSome answer.next IsNext) }
        ensures within { IfOk result (λ answer. (n : ℕ) → S.means.within self.old.system n → S.means.within self.new.system (n + entries_of deed.now)) }
        ensures took { IfOk result (λ answer. TookDeed (S.means.tree self.old.system).forks (S.means.tree self.new.system).forks self.old.lists.sched self.new.lists.sched) }
        ensures bare { IfOk result (λ answer. IsBare self.new) }
        ensures limit { limit self.new ≡ limit self.old }
        ensures frames { frames self.new ≡ frames self.old }
        ensures mark { auto self.new ≡ auto self.old }
        ensures calm { (frames : ℕ) (d : DrumWords) → S.means.fits self.old.system d → IsInCore S.means frames self.old.system self.old.lists → IsNext deed.now ⊎ IsRoomy frames (S.means.plain self.old.system d) → IsOkAnd result (λ answer. IsInCore S.means frames self.new.system self.new.lists) }
    {
        let mut waits: Option<Need> = None;
        loop {
            match waits {
                None => match self.ask(deed) {
                    Ok(answer) => return Ok(answer),
                    Err(need) => waits = Some(need),
                },
                Some(need) => match self.complete_for(need, drum) {
                    Ok(after) => waits = after,
                    Err(_) => return Err(Failed),
                },
            }
        }
    }
}
