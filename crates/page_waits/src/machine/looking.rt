// The look for units: heads of the ready list are planned, and transfers end.
ghost use Rattle.std.specs.Prelude.{◌≡◌, ◌≢◌, ◌+◌, ◌-◌, ◌<◌, ◌≤◌, ◌^◌, [], ℕ, false, true, None, Ok, IfSome, IfOk, IsOkAnd, IsSomeAnd, MatchOption, OnErr, length, drop, map, min, ◌∷◌};
ghost use Rattle.fork_lists.specs.Following.{last_counted};
ghost use Rattle.fork_lists.specs.Ties.{AreTied};
ghost use Rattle.job_sched.specs.Schedules.{arrived, heads};
ghost use Rattle.job_sched.specs.Units.{IsAlone, IsRow, row_ran};
ghost use Rattle.machine_names.specs.declared.names.ForkName.{ForkName as AForkName};
ghost use Rattle.machine_names.specs.declared.names.TheConstants.{QUANTUM};
ghost use Rattle.outside.specs.Faults.{Rose};
ghost use Rattle.page_contracts.specs.DrumWords.{DrumWords};
ghost use Rattle.page_contracts.specs.Stores.{need_of};
ghost use Rattle.page_contracts.specs.declared.answers.Need.{Need as ANeed};
ghost use Rattle.page_contracts.specs.declared.store.TheConstants.{CONSOLE_HOLDER};
ghost use Rattle.plain_model.specs.Forks.{ForkMap as AForkMap, IsRunnable};
ghost use Rattle.plain_model.specs.Moves.{moves};
ghost use Rattle.turn_forms.specs.Turns.{moved};
ghost use Rattle.page_waits.specs.Acts.{IdledOver, Quiet, Ran, RanOver, Still, Turned, turns_of};
ghost use Rattle.page_waits.specs.Calm.{IsRoomy};
ghost use Rattle.page_waits.specs.Holders.{AreAll, AreReleased, holder_at};
ghost use Rattle.page_waits.specs.Idling.{IsIdle};
ghost use Rattle.page_waits.specs.InCore.{IdledCalmly, IsInCore, RanCalmly, TookCalmly};
ghost use Rattle.page_waits.specs.Machines.{IsBare, KeepsMarks, auto, frames, limit};
ghost use Rattle.page_waits.specs.Systems.{StaysState};
ghost use Rattle.page_waits.specs.Told.{LastCounted, MovesSilently, TookRow, ends_quantum};
ghost use Rattle.page_waits.specs.Transfers.{EndsWhole, Moved, MovesAtMost, most_transfers};
ghost use Rattle.page_waits.specs.Waits.{AreAwaited, AreStanding, IsHead, the_lists};
ghost use Rattle.page_waits.specs.declared.turn.Done.{Done as ADone};

use crate::System;
use crate::completing::complete;
use crate::head::{Head, next_head, wait};
use crate::holders::{Holders, held_members, release_left, still_holding};
use crate::machine::Machine;
use crate::turn::{Done, Turn};
use crate::waking::tell;
use fork_lists::ForkLists;
use machine_names::ForkName;
use outside::{Drum, Failed};
use page_contracts::Completed;

/// So many transfers at most end before an entry of a run is a unit or idle, and before a POKE or an EXAMINE is answered.
pub(crate) const MOST_TRANSFERS: u64 = 4_294_967_296;

// How many units the head may run in a row, where so many are left of a RUN: while a transfer is queued no more than are left of its quantum, since one
// may end with it.
fn most_units<S: System>(system: &S, lists: &ForkLists, left: u32) -> u32
    requires head { 0 < length lists.now.sched.ready }
    requires some { 1 ≤ left }
    ensures moving { S.means.store.queue system.now ≢ [] → lists.now.sched.used + result ≤ QUANTUM }
    ensures queued { S.means.store.queue system.now ≢ [] → result ≡ min left (QUANTUM - lists.now.sched.used) }
    ensures alone { S.means.store.queue system.now ≡ [] → IsAlone lists.now.sched → result ≡ left }
    ensures quantum { S.means.store.queue system.now ≡ [] → (IsAlone lists.now.sched → ⊥) → result ≡ min left (QUANTUM - lists.now.sched.used) }
    ensures row { IsRow result lists.now.sched }
    ensures most { result ≤ left }
    ensures some { 1 ≤ result }
{
    if system.is_moving() {
        lists.most_in_quantum(left)
    } else {
        lists.most_in_row(left)
    }
}

// The last unit of a fork is counted, where it still is the head. Whether its quantum ends by it.
fn count_last(lists: &mut ForkLists, fork: ForkName) -> bool
    ensures schedule { lists.new.sched ≡ last_counted fork lists.old.sched }
    ensures ended { result ≡ ends_quantum fork lists.old.sched }
    ensures waiting { the_lists.waiting lists.new ≡ the_lists.waiting lists.old }
    ensures set { the_lists.set lists.new ≡ the_lists.set lists.old }
    ensures tied { (forks : AForkMap) → AreTied forks lists.old → AreTied forks lists.new }
{
    if !lists.is_head(fork) {
        return false;
    }
    lists.sound();
    lists.ran_row(1) > 0
}

// Units were done: what was taken from the queue is told, and then the last of them is counted; nothing is held for the seat of their fork any more, nor for a
// seat that its member has left. Whether the quantum of the fork ends.
fn finish<S: System>(system: &mut S, lists: &mut ForkLists, head: Head, holders: &Holders) -> bool
    requires tied { AreTied (S.means.tree system.old).forks lists.old }
    requires awaited { AreAwaited S.means (the_lists.waiting lists.old) system.old }
    requires members { the_lists.set lists.old ≤ S.means.store.members system.old }
    requires below { (k : ℕ) (f : AForkName) → holder_at holders.now k ≡ Some f → k < the_lists.set lists.old }
    requires all { AreAll holders.now (S.means.store.holds system.old) }
    ensures counted { LastCounted head.fork result lists.old.sched lists.new.sched }
    ensures standing { AreStanding S.means the_lists system.new lists.new }
    ensures tied { AreTied (S.means.tree system.new).forks lists.new }
    ensures own { S.means.store.holds system.new head.seat ≡ [] }
    ensures released { AreReleased (holder_at holders.now) (the_lists.member lists.new) (S.means.store.holds system.new) }
    ensures all { AreAll holders.now (S.means.store.holds system.new) }
    ensures state { StaysState S.means system.old system.new }
    ensures frames { S.means.store.frames system.new ≡ S.means.store.frames system.old }
    ensures bare { S.means.store.holds system.old CONSOLE_HOLDER ≡ [] → S.means.store.holds system.new CONSOLE_HOLDER ≡ [] }
    ensures calm { (frames : ℕ) → IsInCore S.means frames system.old lists.old → lists.new.sched ≡ last_counted head.fork lists.old.sched }
    ensures core { (frames : ℕ) → IsInCore S.means frames system.old lists.old → IsInCore S.means frames system.new lists.new }
{
    system.let_go(head.seat);
    tell(system, lists);
    let ended = count_last(lists, head.fork);
    release_left(system, lists, holders);
    ended
}

// Whether pages may be held for members, once a transfer was to end: it may be for one that a page came.
fn holding_after(before: bool, ended: Completed) -> bool
    ensures { result ≡ false → (before ≡ false) × (ended ≡ Completed.Nothing) }
{
    match ended {
        Completed::Nothing => before,
        Completed::Done(_) | Completed::DrumFault => true,
    }
}

impl<S: System> Machine<S> {
    // Plans units of the fork whose turn is next, so many at most: they are done, and show this; or the fork waits.
    fn plan(&mut self, head: Head, left: u32) -> Option<Done>
        requires head { IsHead the_lists self.old.lists head }
        requires heads { heads head.fork self.old.lists.sched.ready ≡ true }
        requires runs { IsRunnable (S.means.tree self.old.system).forks head.fork }
        requires bare { IsBare self.old }
        requires some { 1 ≤ left }
        requires within { S.means.within self.old.system (2 ^ 52) }
        ensures did { IfSome result (λ u. Ran S.means the_lists u.fork u.progress self.old.system self.new.system) }
        ensures row { IfSome result (λ u. TookRow u.fork u.progress.count u.ended (S.means.tree self.old.system).forks (S.means.tree self.new.system).forks self.old.lists.sched self.new.lists.sched) }
        ensures released { IfSome result (λ u. AreReleased (the_lists.member self.old.lists) (the_lists.member self.new.lists) (S.means.store.holds self.new.system)) }
        ensures some { IfSome result (λ u. 1 ≤ u.progress.count) }
        ensures few { IfSome result (λ u. u.progress.count ≤ left) }
        ensures still { result ≡ None → Still S.means the_lists None None None self.old.system self.new.system self.old.lists self.new.lists }
        ensures silent { result ≡ None → MovesSilently self.old.lists.sched self.new.lists.sched }
        ensures seated { result ≡ None → the_lists.member self.new.lists ≡ the_lists.member self.old.lists }
        ensures fewer { result ≡ None → length (the_lists.ready self.new.lists) < length (the_lists.ready self.old.lists) }
        ensures bare { IsBare self.new }
        ensures limit { limit self.new ≡ limit self.old }
        ensures frames { frames self.new ≡ frames self.old }
        ensures mark { auto self.new ≡ auto self.old }
        ensures calm { (frames : ℕ) (d : DrumWords) → S.means.fits self.old.system d → IsInCore S.means frames self.old.system self.old.lists → IsRoomy frames (S.means.plain self.old.system d) → IsSomeAnd result (λ u. RanCalmly S.means frames u self.old.system self.new.system self.old.lists self.new.lists) }
    {
        self.lists.sound();
        let holders = held_members(&self.system, &self.lists, self.holding);
        let most = most_units(&self.system, &self.lists, left);
        match self.system.units(&mut self.lists, head.fork, most) {
            Ok(progress) => {
                let ended = finish(&mut self.system, &mut self.lists, head, &holders);
                self.holding = still_holding(&self.system, &self.lists, &holders);
                Some(Done {
                    fork: head.fork,
                    progress,
                    ended,
                })
            }
            Err(need) => {
                let awaited = self.system.fetch(need);
                wait(&mut self.lists, head, awaited);
                None
            }
        }
    }

    // Plans who is ready, one after another, until units are done. None, where nobody is ready any more.
    fn first_units(&mut self, left: u32) -> Option<Done>
        requires bare { IsBare self.old }
        requires some { 1 ≤ left }
        requires within { S.means.within self.old.system (2 ^ 52) }
        ensures did { IfSome result (λ u. Ran S.means the_lists u.fork u.progress self.old.system self.new.system) }
        ensures row { IfSome result (λ u. TookRow u.fork u.progress.count u.ended (S.means.tree self.old.system).forks (S.means.tree self.new.system).forks self.old.lists.sched self.new.lists.sched) }
        ensures released { IfSome result (λ u. AreReleased (the_lists.member self.old.lists) (the_lists.member self.new.lists) (S.means.store.holds self.new.system)) }
        ensures some { IfSome result (λ u. 1 ≤ u.progress.count) }
        ensures few { IfSome result (λ u. u.progress.count ≤ left) }
        ensures still { result ≡ None → Still S.means the_lists None None None self.old.system self.new.system self.old.lists self.new.lists }
        ensures silent { result ≡ None → MovesSilently self.old.lists.sched self.new.lists.sched }
        ensures seated { result ≡ None → the_lists.member self.new.lists ≡ the_lists.member self.old.lists }
        ensures none { result ≡ None → the_lists.ready self.new.lists ≡ [] }
        ensures nobody { result ≡ None → self.new.lists.sched.waiting ≡ [] → (f : AForkName) → IsRunnable (S.means.tree self.new.system).forks f → ⊥ }
        ensures bare { IsBare self.new }
        ensures limit { limit self.new ≡ limit self.old }
        ensures frames { frames self.new ≡ frames self.old }
        ensures mark { auto self.new ≡ auto self.old }
        ensures calm { (frames : ℕ) (d : DrumWords) → S.means.fits self.old.system d → IsInCore S.means frames self.old.system self.old.lists → IsRoomy frames (S.means.plain self.old.system d) → MatchOption result (IdledCalmly S.means self.old.system self.new.system self.old.lists self.new.lists) (λ u. RanCalmly S.means frames u self.old.system self.new.system self.old.lists self.new.lists) }
    {
        while let Some(head) = next_head(&self.lists, self.system.forks()) {
            if let Some(u) = self.plan(head, left) {
                return Some(u);
            }
        }
        None
    }

    // Ends the oldest transfer, and wakes who waits for it.
    pub(crate) fn complete<D: Drum>(&mut self, drum: &mut D) -> Completed
        requires { limit self.old ≤ D.size drum.old }
        ensures later { D.fault_count drum.old ≤ D.fault_count drum.new }
        ensures cause { result ≡ Completed.DrumFault → Rose (D.fault_count drum.old) (D.fault_count drum.new) }
        ensures size { D.size drum.new ≡ D.size drum.old }
        ensures reads { D.read_count drum.old ≤ D.read_count drum.new }
        ensures writes { D.write_count drum.old ≤ D.write_count drum.new }
        ensures bounded { MovesAtMost (record { reads = D.read_count; writes = D.write_count }) 1 drum.old drum.new }
        ensures done { (n : ANeed) → result ≡ Completed.Done n → Quiet S.means the_lists D.held None None None 1 self.old.system self.new.system self.old.lists self.new.lists drum.old drum.new }
        ensures moved { (n : ANeed) → result ≡ Completed.Done n → Moved (record { reads = D.read_count; writes = D.write_count }) 1 drum.old drum.new }
        ensures told { (n : ANeed) → result ≡ Completed.Done n → self.new.lists.sched ≡ arrived self.old.lists.sched n }
        ensures oldest { (n : ANeed) → result ≡ Completed.Done n → S.means.store.queue self.new.system ≡ drop 1 (S.means.store.queue self.old.system) }
        ensures seated { the_lists.member self.new.lists ≡ the_lists.member self.old.lists }
        ensures nothing { result ≡ Completed.Nothing → S.means.store.queue self.old.system ≡ [] }
        ensures empty { S.means.store.queue self.old.system ≡ [] → result ≡ Completed.Nothing }
        ensures system { result ≡ Completed.Nothing → self.new.system ≡ self.old.system }
        ensures lists { result ≡ Completed.Nothing → self.new.lists ≡ self.old.lists }
        ensures stays { result ≡ Completed.Nothing → drum.new ≡ drum.old }
        ensures bare { IsBare self.old → IsBare self.new }
        ensures marks { KeepsMarks self.old self.new }
        ensures tells { (n : ANeed) → result ≡ Completed.Done n → map need_of (S.means.store.queue self.old.system) ≡ n ∷ map need_of (S.means.store.queue self.new.system) }
    {
        let ended = complete(&mut self.system, &mut self.lists, None, drum);
        self.holding = holding_after(self.holding, ended);
        ended
    }

    // Looks for units of a fork that is ready, so many at most; under AUTO ON transfers end until there is one, so many at most. None, where nobody is ready then.
    fn look<D: Drum>(&mut self, most: u32, drum: &mut D) -> Result<Option<Done>, Failed>
        requires drum { limit self.old ≤ D.size drum.old }
        requires bare { IsBare self.old }
        requires some { 1 ≤ most }
        requires within { S.means.within self.old.system (2 ^ 52) }
        ensures later { D.fault_count drum.old ≤ D.fault_count drum.new }
        ensures cause { OnErr result (Rose (D.fault_count drum.old) (D.fault_count drum.new)) }
        ensures size { D.size drum.new ≡ D.size drum.old }
        ensures reads { D.read_count drum.old ≤ D.read_count drum.new }
        ensures writes { D.write_count drum.old ≤ D.write_count drum.new }
        ensures bounded { MovesAtMost (record { reads = D.read_count; writes = D.write_count }) most_transfers drum.old drum.new }
        ensures idle { result ≡ Ok None → IsIdle S.means the_lists (record { reads = D.read_count; writes = D.write_count }) (auto self.old) self.new.system self.new.lists drum.old drum.new }
        ensures idled { (count : ℕ) → result ≡ Ok None → IdledOver S.means the_lists D.held (auto self.old) count self.old.system self.new.system drum.old drum.new }
        ensures did { IfOk result (λ came. IfSome came (λ u. RanOver S.means the_lists D.held u.fork u.progress self.old.system self.new.system drum.old drum.new)) }
        ensures row { IfOk result (λ came. IfSome came (λ u. TookRow u.fork u.progress.count u.ended (S.means.tree self.old.system).forks (S.means.tree self.new.system).forks self.old.lists.sched self.new.lists.sched)) }
        ensures released { IfOk result (λ came. IfSome came (λ u. AreReleased (the_lists.member self.old.lists) (the_lists.member self.new.lists) (S.means.store.holds self.new.system))) }
        ensures silent { result ≡ Ok None → MovesSilently self.old.lists.sched self.new.lists.sched }
        ensures some { IfOk result (λ came. IfSome came (λ u. 1 ≤ u.progress.count)) }
        ensures few { IfOk result (λ came. IfSome came (λ u. u.progress.count ≤ most)) }
        ensures whole { IfOk result (λ came. IfSome came (λ u. EndsWhole (record { reads = D.read_count; writes = D.write_count }) u.ended u.progress.count drum.old drum.new)) }
        ensures off { auto self.old ≡ false → drum.new ≡ drum.old }
        ensures bare { IsBare self.new }
        ensures limit { limit self.new ≡ limit self.old }
        ensures frames { frames self.new ≡ frames self.old }
        ensures mark { auto self.new ≡ auto self.old }
        ensures calm { (frames : ℕ) (d : DrumWords) → S.means.fits self.old.system d → IsInCore S.means frames self.old.system self.old.lists → IsRoomy frames (S.means.plain self.old.system d) → IsOkAnd result (λ came. MatchOption came (IdledCalmly S.means self.old.system self.new.system self.old.lists self.new.lists) (λ u. RanCalmly S.means frames u self.old.system self.new.system self.old.lists self.new.lists)) }
    {
        let mut left = MOST_TRANSFERS;
        loop {
            if let Some(u) = self.first_units(most) {
                return Ok(Some(u));
            }
            self.lists.sound();
            if !self.auto || left == 0 {
                return Ok(None);
            }
            match self.complete(drum) {
                Completed::Done(_) => left -= 1,
                Completed::Nothing => return Ok(None),
                Completed::DrumFault => return Err(Failed),
            }
        }
    }

    // How many idle entries stand where nobody is ready: all that are left, where no transfer ends before the next.
    fn idle_turns(&self, most: u32) -> u32
        requires { 1 ≤ most }
        ensures most { result ≤ most }
        ensures some { 1 ≤ result }
        ensures off { auto self.now ≡ false → result ≡ most }
        ensures still { S.means.store.queue self.now.system ≡ [] → result ≡ most }
        ensures moving { auto self.now ≡ true → S.means.store.queue self.now.system ≢ [] → result ≡ 1 }
    {
        if self.auto && self.system.is_moving() {
            1
        } else {
            most
        }
    }

    /// The next turns of a run, so many at most: units of a fork that is ready; under AUTO ON transfers end until there is one, so many at most. Where nobody is
    /// ready then, all that are left are idle entries; only one is, where so many transfers have ended for it. Where all is in core and few pages live (`calm`), no
    /// fork waits and no transfer ends, so this never fails.
    pub fn turns<D: Drum>(&mut self, most: u32, drum: &mut D) -> Result<Turn, Failed>
        requires drum { limit self.old ≤ D.size drum.old }
        requires bare { IsBare self.old }
        requires some { 1 ≤ most }
        requires within { S.means.within self.old.system (2 ^ 52) }
        ensures later { D.fault_count drum.old ≤ D.fault_count drum.new }
        ensures cause { OnErr result (Rose (D.fault_count drum.old) (D.fault_count drum.new)) }
        ensures size { D.size drum.new ≡ D.size drum.old }
        ensures reads { D.read_count drum.old ≤ D.read_count drum.new }
        ensures writes { D.write_count drum.old ≤ D.write_count drum.new }
        ensures bounded { MovesAtMost (record { reads = D.read_count; writes = D.write_count }) most_transfers drum.old drum.new }
        ensures turned { IfOk result (Turned S.means the_lists D.held (auto self.old) self.old.system self.new.system drum.old drum.new) }
        ensures row { (u : ADone) → result ≡ Ok (Turn.Ran u) → TookRow u.fork u.progress.count u.ended (S.means.tree self.old.system).forks (S.means.tree self.new.system).forks self.old.lists.sched self.new.lists.sched }
        ensures released { (u : ADone) → result ≡ Ok (Turn.Ran u) → AreReleased (the_lists.member self.old.lists) (the_lists.member self.new.lists) (S.means.store.holds self.new.system) }
        ensures idle { (n : ℕ) → result ≡ Ok (Turn.Idle n) → IsIdle S.means the_lists (record { reads = D.read_count; writes = D.write_count }) (auto self.old) self.new.system self.new.lists drum.old drum.new }
        ensures silent { (n : ℕ) → result ≡ Ok (Turn.Idle n) → MovesSilently self.old.lists.sched self.new.lists.sched }
        ensures some { IfOk result (λ turn. 1 ≤ turns_of turn) }
        ensures most { IfOk result (λ turn. turns_of turn ≤ most) }
        ensures whole { (u : ADone) → result ≡ Ok (Turn.Ran u) → EndsWhole (record { reads = D.read_count; writes = D.write_count }) u.ended u.progress.count drum.old drum.new }
        ensures off { auto self.old ≡ false → drum.new ≡ drum.old }
        ensures bare { IsBare self.new }
        ensures limit { limit self.new ≡ limit self.old }
        ensures frames { frames self.new ≡ frames self.old }
        ensures mark { auto self.new ≡ auto self.old }
        ensures calm { (frames : ℕ) (d : DrumWords) → S.means.fits self.old.system d → IsInCore S.means frames self.old.system self.old.lists → IsRoomy frames (S.means.plain self.old.system d) → IsOkAnd result (λ turn. TookCalmly S.means frames turn self.old.system self.new.system self.old.lists self.new.lists) }
        ensures all_off { (n : ℕ) → result ≡ Ok (Turn.Idle n) → auto self.old ≡ false → n ≡ most }
        ensures all_still { (n : ℕ) → result ≡ Ok (Turn.Idle n) → S.means.store.queue self.new.system ≡ [] → n ≡ most }
        ensures one_moving { (n : ℕ) → result ≡ Ok (Turn.Idle n) → auto self.old ≡ true → S.means.store.queue self.new.system ≢ [] → n ≡ 1 }
    {
        match self.look(most, drum)? {
            Some(u) => Ok(Turn::Ran(u)),
            None => Ok(Turn::Idle(self.idle_turns(most))),
        }
    }
}
