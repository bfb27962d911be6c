// The machine over pages of which a part is in core.
ghost use Rattle.std.specs.Prelude.{◌≡◌, ◌<◌, ◌^◌, ◌≤◌, ◌↔◌, ℕ, IfOk, OnOk, drop, false, true};
ghost use Rattle.outside.specs.Faults.{Rose};
ghost use Rattle.page_contracts.specs.Stores.{Evicts};
ghost use Rattle.page_waits.specs.Machines.{IsBare, auto as mark_of, frames as frames_of, limit as limit_of};
ghost use Rattle.page_waits.specs.Transfers.{MovesAtMost, most_transfers};
ghost use Rattle.script_texts.specs.Follows.{auto_after};
ghost use Rattle.script_texts.specs.Limits.{FitsEvent};
ghost use Rattle.script_texts.specs.Taker.{StaysOnward};
ghost use Rattle.script_texts.specs.declared.event.Event.{Event as AnEvent};
ghost use Rattle.paged_events.specs.Budgets.{IsLook, most_in_turns};
ghost use Rattle.paged_events.specs.Events.{Went};
ghost use Rattle.paged_events.specs.Given.{Acted, IsWithin};
ghost use Rattle.event_items.specs.Outcome.{CutOff, DrumStays, Stopped};
ghost use Rattle.paged_events.specs.Outside.{UsesOutside};
ghost use Rattle.paged_events.specs.Rows.{TookRows};

use crate::acting::{end_transfers, evict, look, set_auto, step};
use crate::fault::Fault;
use crate::running::run;
use crate::typing::type_in;
use event_items::Ended;
use outside::Drum;
use page_waits::{Machine as Waits, System};
use script_texts::{Event, Refusal, Taker};

/// A system with whose turn is next and who waits for what.
#[derive(Drop)]
pub struct Machine<S: System> {
    waits: Waits<S>,
    /// How many events and entries of runs are done.
    done: u64,
    /// No fault has stopped it.
    live: bool,
}

// Does an event, and gives its steps. How many they are.
fn act<S: System, D: Drum, T: Taker>(
    waits: &mut Waits<S>,
    e: Event,
    drum: &mut D,
    out: &mut T,
) -> Result<u32, Fault>
    requires drum { limit_of waits.old ≤ D.size drum.old }
    requires bare { IsBare waits.old }
    requires within { IsWithin S.means waits.old.system (2 ^ 50) }
    requires fits { FitsEvent e }
    ensures acted { Acted S.means D.held T.stands T.cut (mark_of waits.old) e result waits.old.system waits.new.system waits.old.lists waits.new.lists drum.old drum.new out.old out.new }
    ensures outside { UsesOutside T.onward T.fault_count D.fault_count D.read_count D.write_count D.size result out.old out.new drum.old drum.new }
    ensures rows { (n : ℕ) → e ≡ AnEvent.Run n → OnOk result (TookRows S.means (record { reads = D.read_count; writes = D.write_count }) (mark_of waits.old) n waits.old.system waits.new.system waits.old.lists waits.new.lists drum.old drum.new) }
    ensures off { (n : ℕ) → e ≡ AnEvent.Run n → mark_of waits.old ≡ false → drum.new ≡ drum.old }
    ensures evicts { (n : ℕ) → e ≡ AnEvent.Evict n → Evicts S.means.store n waits.old.system waits.new.system }
    ensures ends { (n : ℕ) → e ≡ AnEvent.Drum n → OnOk result (S.means.store.queue waits.new.system ≡ drop n (S.means.store.queue waits.old.system)) }
    ensures run_moves { (n : ℕ) → e ≡ AnEvent.Run n → MovesAtMost (record { reads = D.read_count; writes = D.write_count }) (most_in_turns n) drum.old drum.new }
    ensures look_moves { IsLook e → MovesAtMost (record { reads = D.read_count; writes = D.write_count }) most_transfers drum.old drum.new }
    ensures drum_moves { (n : ℕ) → e ≡ AnEvent.Drum n → MovesAtMost (record { reads = D.read_count; writes = D.write_count }) n drum.old drum.new }
    ensures bare { IfOk result (λ n. IsBare waits.new) }
    ensures auto { mark_of waits.new ≡ auto_after (mark_of waits.old) e }
    ensures limit { limit_of waits.new ≡ limit_of waits.old }
    ensures frames { frames_of waits.new ≡ frames_of waits.old }
{
    match e {
        Event::Run(n) => run(waits, n, drum, out),
        Event::TypeIn(t, text) => type_in(waits, t, text, drum, out),
        Event::Evict(frame) => evict(waits, frame),
        Event::Drum(n) => end_transfers(waits, n, drum),
        Event::Auto(on) => set_auto(waits, on),
        Event::Poke(t, _, _) => look(waits, &e, Refusal::Denied(t), drum, out),
        Event::Examine(t, _, _) => look(waits, &e, Refusal::NoPage(t), drum, out),
        _ => step(waits, &e, drum, out),
    }
}

impl<S: System> Machine<S> {
    /// A machine that has done nothing yet.
    pub fn new(waits: Waits<S>) -> Machine<S>
        ensures waits { result.waits ≡ waits }
        ensures none { result.done ≡ 0 }
        ensures live { result.live ≡ true }
    {
        Machine {
            waits,
            done: 0,
            live: true,
        }
    }

    /// One event (CACM paper, "The executive"). Went, where its steps were given: a taker that stood for some items and steps stands for these with the
    /// event's behind them, over what the drum told and tells. DrumFault, only where the drum's count of faults rose, and TakerFault only where the taker's
    /// did: of the event the steps so far were given, or the taker is cut within these and the one at hand. After a fault the machine is no longer live.
    pub fn event<D: Drum, T: Taker>(&mut self, e: Event, drum: &mut D, out: &mut T) -> Ended
        requires live { self.old.live ≡ true }
        requires drum { limit_of self.old.waits ≤ D.size drum.old }
        requires few { self.old.done < 2 ^ 50 }
        requires fits { FitsEvent e }
        requires bare { IsBare self.old.waits }
        requires within { IsWithin S.means self.old.waits.system self.old.done }
        ensures later { T.fault_count out.old ≤ T.fault_count out.new }
        ensures cause { result ≡ Ended.TakerFault → Rose (T.fault_count out.old) (T.fault_count out.new) }
        ensures onward { StaysOnward T.onward out.old out.new }

        ensures drum_cause { result ≡ Ended.DrumFault → Rose (D.fault_count drum.old) (D.fault_count drum.new) }
        ensures drum { DrumStays D.fault_count D.read_count D.write_count D.size drum.old drum.new }

        ensures went { result ≡ Ended.Went → Went S.means D.held T.stands T.cut (mark_of self.old.waits) e self.old.done self.new.done self.old.waits.system self.new.waits.system self.old.waits.lists self.new.waits.lists drum.old drum.new out.old out.new }
        ensures stopped { result ≡ Ended.DrumFault → Stopped S.means.store.flat S.means.fits S.means.plain D.held T.stands self.old.waits.system drum.old out.old out.new (mark_of self.old.waits) e }
        ensures cutoff { result ≡ Ended.TakerFault → CutOff S.means.store.flat S.means.fits S.means.plain D.held T.stands T.cut self.old.waits.system drum.old out.old out.new (mark_of self.old.waits) e }

        ensures rows { (n : ℕ) → e ≡ AnEvent.Run n → result ≡ Ended.Went → TookRows S.means (record { reads = D.read_count; writes = D.write_count }) (mark_of self.old.waits) n self.old.waits.system self.new.waits.system self.old.waits.lists self.new.waits.lists drum.old drum.new }
        ensures off { (n : ℕ) → e ≡ AnEvent.Run n → mark_of self.old.waits ≡ false → drum.new ≡ drum.old }
        ensures evicts { (n : ℕ) → e ≡ AnEvent.Evict n → Evicts S.means.store n self.old.waits.system self.new.waits.system }
        ensures ends { (n : ℕ) → e ≡ AnEvent.Drum n → result ≡ Ended.Went → S.means.store.queue self.new.waits.system ≡ drop n (S.means.store.queue self.old.waits.system) }

        // However it ends, so many transfers end at most: with all turns of a RUN, with a POKE or an EXAMINE, and with a DRUM.
        ensures run_moves { (n : ℕ) → e ≡ AnEvent.Run n → MovesAtMost (record { reads = D.read_count; writes = D.write_count }) (most_in_turns n) drum.old drum.new }
        ensures look_moves { IsLook e → MovesAtMost (record { reads = D.read_count; writes = D.write_count }) most_transfers drum.old drum.new }
        ensures drum_moves { (n : ℕ) → e ≡ AnEvent.Drum n → MovesAtMost (record { reads = D.read_count; writes = D.write_count }) n drum.old drum.new }

        ensures auto { mark_of self.new.waits ≡ auto_after (mark_of self.old.waits) e }
        ensures live { (self.new.live ≡ true) ↔ (result ≡ Ended.Went) }
        ensures limit { limit_of self.new.waits ≡ limit_of self.old.waits }
        ensures frames { frames_of self.new.waits ≡ frames_of self.old.waits }
        ensures bare { result ≡ Ended.Went → IsBare self.new.waits }
        ensures within { result ≡ Ended.Went → IsWithin S.means self.new.waits.system self.new.done }
    {
        match act(&mut self.waits, e, drum, out) {
            Ok(count) => {
                self.done += u64::from(count) + 1;
                Ended::Went
            }
            Err(fault) => {
                self.live = false;
                fault.ended()
            }
        }
    }

    /// Whether the machine goes on: false exactly after a fault.
    pub fn is_live(&self) -> bool
        ensures { result ≡ self.now.live }
    {
        self.live
    }
}
