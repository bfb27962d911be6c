// Events that are one deed, and those that are no entry.
ghost use Rattle.std.specs.Prelude.{◌≡◌, ◌≤◌, ◌^◌, ℕ, Err, IfOk, None, Ok, OnErr, OnOk, drop};
ghost use Rattle.event_deeds.specs.Deeds.{FitsDeed, IsTold};
ghost use Rattle.event_deeds.specs.declared.deed.Deed.{Deed as ADeed};
ghost use Rattle.outside.specs.Faults.{Rose};
ghost use Rattle.page_contracts.specs.Stores.{Evicts};
ghost use Rattle.page_waits.specs.Acts.{Quiet};
ghost use Rattle.page_waits.specs.InCore.{IsInCore};
ghost use Rattle.page_waits.specs.Systems.{StaysState};
ghost use Rattle.page_waits.specs.Waits.{the_lists};
ghost use Rattle.page_waits.specs.Machines.{IsBare, KeepsMarks, auto, limit};
ghost use Rattle.page_waits.specs.Told.{MovesSilently, TookDeed};
ghost use Rattle.page_waits.specs.Transfers.{MovesAtMost, most_transfers};
ghost use Rattle.script_texts.specs.Limits.{FitsCause};
ghost use Rattle.paged_events.specs.Given.{Acted, IsWithin};
ghost use Rattle.paged_events.specs.Outside.{UsesOutside};

use crate::fault::Fault;
use crate::giving::{give_refused, give_row};
use event_deeds::Deed;
use outside::Drum;
use page_waits::{Machine as Waits, System};
use script_texts::{Event, Refusal, Step, Taker};

/// An event that is one deed, of which the tables alone tell to what it refers: it is done once all of that is in core, and given behind what it shows.
pub fn step<S: System, D: Drum, T: Taker>(
    waits: &mut Waits<S>,
    e: &Event,
    drum: &mut D,
    out: &mut T,
) -> Result<u32, Fault>
    requires drum { limit waits.old ≤ D.size drum.old }
    requires bare { IsBare waits.old }
    requires within { IsWithin S.means waits.old.system (2 ^ 50) }
    requires deed { FitsDeed (ADeed.Outer e.now) }
    requires told { IsTold (ADeed.Outer e.now) }
    ensures acted { Acted S.means D.held T.stands T.cut (auto waits.old) e.now result waits.old.system waits.new.system waits.old.lists waits.new.lists drum.old drum.new out.old out.new }
    ensures outside { UsesOutside T.onward T.fault_count D.fault_count D.read_count D.write_count D.size result out.old out.new drum.old drum.new }
    ensures bare { IfOk result (λ n. IsBare waits.new) }
    ensures marks { KeepsMarks waits.old waits.new }
    ensures took { IfOk result (λ n. TookDeed (S.means.tree waits.old.system).forks (S.means.tree waits.new.system).forks waits.old.lists.sched waits.new.lists.sched) }
{
    waits.lists_are_sound();
    match waits.bring_told(&Deed::Outer(*e), drum) {
        Ok(answer) => match give_row(waits, &Step::Outer(*e), 1, &answer.showing, out) {
            Ok(()) => Ok(1),
            Err(_) => Err(Fault::Taker),
        },
        Err(_) => Err(Fault::Drum),
    }
}

/// An event that is one deed, which goes through the map of a fork: it is refused so where too many transfers have ended for it, which never is over
/// what a drum tells.
pub fn look<S: System, D: Drum, T: Taker>(
    waits: &mut Waits<S>,
    e: &Event,
    cause: Refusal,
    drum: &mut D,
    out: &mut T,
) -> Result<u32, Fault>
    requires drum { limit waits.old ≤ D.size drum.old }
    requires bare { IsBare waits.old }
    requires within { IsWithin S.means waits.old.system (2 ^ 50) }
    requires deed { FitsDeed (ADeed.Outer e.now) }
    requires cause { FitsCause cause }
    ensures acted { Acted S.means D.held T.stands T.cut (auto waits.old) e.now result waits.old.system waits.new.system waits.old.lists waits.new.lists drum.old drum.new out.old out.new }
    ensures outside { UsesOutside T.onward T.fault_count D.fault_count D.read_count D.write_count D.size result out.old out.new drum.old drum.new }
    ensures bounded { MovesAtMost (record { reads = D.read_count; writes = D.write_count }) most_transfers drum.old drum.new }
    ensures bare { IfOk result (λ n. IsBare waits.new) }
    ensures marks { KeepsMarks waits.old waits.new }
    ensures took { IfOk result (λ n. TookDeed (S.means.tree waits.old.system).forks (S.means.tree waits.new.system).forks waits.old.lists.sched waits.new.lists.sched) }
{
    waits.lists_are_sound();
    match waits.bring(&Deed::Outer(*e), drum) {
        Ok(came) => match came {
            Some(answer) => match give_row(waits, &Step::Outer(*e), 1, &answer.showing, out) {
                Ok(()) => Ok(1),
                Err(_) => Err(Fault::Taker),
            },
            None => match give_refused(cause, &Step::Outer(*e), out) {
                Ok(()) => Ok(1),
                Err(_) => Err(Fault::Taker),
            },
        },
        Err(_) => Err(Fault::Drum),
    }
}

/// EVICT: the page of a frame begins to leave it, where there is such a frame and the page may. It is no entry.
pub fn evict<S: System>(waits: &mut Waits<S>, frame: u32) -> Result<u32, Fault>
    ensures none { result ≡ Ok 0 }
    ensures evicts { Evicts S.means.store frame waits.old.system waits.new.system }
    ensures state { StaysState S.means waits.old.system waits.new.system }
    ensures lists { waits.new.lists ≡ waits.old.lists }
    ensures bare { IsBare waits.old → IsBare waits.new }
    ensures marks { KeepsMarks waits.old waits.new }
{
    waits.evict(frame);
    Ok(0)
}

/// DRUM: the oldest transfers end, so many at most; all, where fewer are queued. It is no entry.
pub fn end_transfers<S: System, D: Drum>(
    waits: &mut Waits<S>,
    n: u32,
    drum: &mut D,
) -> Result<u32, Fault>
    requires drum { limit waits.old ≤ D.size drum.old }
    requires bare { IsBare waits.old }
    ensures later { D.fault_count drum.old ≤ D.fault_count drum.new }
    ensures cause { OnErr result (Rose (D.fault_count drum.old) (D.fault_count drum.new)) }
    ensures size { D.size drum.new ≡ D.size drum.old }
    ensures reads { D.read_count drum.old ≤ D.read_count drum.new }
    ensures writes { D.write_count drum.old ≤ D.write_count drum.new }
    ensures bounded { MovesAtMost (record { reads = D.read_count; writes = D.write_count }) n drum.old drum.new }
    ensures none { IfOk result (λ k. k ≡ 0) }
    ensures fails { result ≡ Err Fault.Taker → ⊥ }
    ensures quiet { OnOk result (Quiet S.means the_lists D.held None None None 0 waits.old.system waits.new.system waits.old.lists waits.new.lists drum.old drum.new) }
    ensures oldest { OnOk result (S.means.store.queue waits.new.system ≡ drop n (S.means.store.queue waits.old.system)) }
    ensures silent { OnOk result (MovesSilently waits.old.lists.sched waits.new.lists.sched) }
    ensures core { (frames : ℕ) → IsInCore S.means frames waits.old.system waits.old.lists → OnOk result (IsInCore S.means frames waits.new.system waits.new.lists) }
    ensures bare { IsBare waits.new }
    ensures marks { KeepsMarks waits.old waits.new }
{
    match waits.transfers(n, drum) {
        Ok(()) => Ok(0),
        Err(_) => Err(Fault::Drum),
    }
}

/// AUTO: whether a run ends transfers by itself. It is no entry.
pub fn set_auto<S: System>(waits: &mut Waits<S>, on: bool) -> Result<u32, Fault>
    ensures none { result ≡ Ok 0 }
    ensures mark { auto waits.new ≡ on }
    ensures system { waits.new.system ≡ waits.old.system }
    ensures lists { waits.new.lists ≡ waits.old.lists }
{
    waits.set_auto(on);
    Ok(0)
}
