// TYPE: the characters of a text, each in its deeds, and the step behind them.
ghost use Rattle.std.specs.Prelude.{◌≡◌, ◌<◌, ◌≤◌, ◌-◌, ◌^◌, All, Err, IfOk, IfSome, OnOk, drop, length};
ghost use Rattle.event_deeds.specs.Deeds.{deeds as deeds_of, most_deeds};
ghost use Rattle.event_deeds.specs.declared.deed.Deed.{Deed as ADeed};
ghost use Rattle.machine_names.specs.Bounds.{IsTerminal};
ghost use Rattle.plain_model.specs.TypeEvents.{typed_all, typed_at};
ghost use Rattle.script_texts.specs.Limits.{FitsEvent};
ghost use Rattle.script_texts.specs.declared.event.Event.{Event as AnEvent};
ghost use Rattle.page_waits.specs.Machines.{IsBare, KeepsMarks, auto, limit};
ghost use Rattle.event_deeds.specs.Deeds.{IsNext};
ghost use Rattle.page_waits.specs.Told.{TookDeed};
ghost use Rattle.paged_events.specs.Calmly.{StaysInCore};
ghost use Rattle.paged_events.specs.Given.{Acted, IsWithin, StaysWithin};
ghost use Rattle.paged_events.specs.Outside.{UsesOutside};
ghost use Rattle.paged_events.specs.Turns.{TookDeeds, TookText, WhereTold};
ghost use Rattle.paged_events.specs.Typing.{CutPart, DidPart, Typed};

use crate::fault::Fault;
use crate::giving::give_refused;
use event_deeds::Deed;
use machine_names::{Tty, TypedText};
use outside::Drum;
use page_waits::{Machine as Waits, System};
use script_texts::{Event, Refusal, Step, Taker};

// As many deeds as one character may have.
const MOST_DEEDS: u8 = 34;

// Does a deed that is part of a character, once all of what it refers to is in core, and gives what it shows. Which comes next, if one does.
fn part<S: System, D: Drum, T: Taker>(
    waits: &mut Waits<S>,
    deed: &Deed,
    drum: &mut D,
    out: &mut T,
) -> Result<Option<Deed>, Fault>
    requires drum { limit waits.old ≤ D.size drum.old }
    requires within { IsWithin S.means waits.old.system (2 ^ 50) }
    requires part { IsNext deed.now }
    ensures did { IfOk result (λ next. DidPart S.means D.held T.stands T.cut deed.now next waits.old.system waits.new.system drum.old drum.new out.old out.new) }
    ensures cutoff { result ≡ Err Fault.Taker → CutPart S.means D.held T.stands T.cut deed.now waits.old.system drum.old out.old out.new }
    ensures still { result ≡ Err Fault.Drum → out.new ≡ out.old }
    ensures next { IfOk result (λ next. IfSome next IsNext) }
    ensures outside { UsesOutside T.onward T.fault_count D.fault_count D.read_count D.write_count D.size result out.old out.new drum.old drum.new }
    ensures within { IfOk result (λ next. StaysWithin S.means waits.old.system waits.new.system) }
    ensures took { IfOk result (λ next. TookDeed (S.means.tree waits.old.system).forks (S.means.tree waits.new.system).forks waits.old.lists.sched waits.new.lists.sched) }
    ensures core { IfOk result (λ next. StaysInCore S.means D.held waits.old.system waits.new.system waits.old.lists waits.new.lists drum.old) }
    ensures bare { IfOk result (λ next. IsBare waits.new) }
    ensures marks { KeepsMarks waits.old waits.new }
{
    match waits.bring_told(deed, drum) {
        Ok(answer) => match waits.give(&answer.showing, out) {
            Ok(()) => Ok(answer.next),
            Err(_) => Err(Fault::Taker),
        },
        Err(_) => Err(Fault::Drum),
    }
}

// Does a deed that is part of a character and those that come behind it, so many at most, and gives what they show.
fn deeds<S: System, D: Drum, T: Taker>(
    waits: &mut Waits<S>,
    deed: &Deed,
    left: u8,
    drum: &mut D,
    out: &mut T,
) -> Result<(), Fault>
    requires drum { limit waits.old ≤ D.size drum.old }
    requires within { IsWithin S.means waits.old.system (2 ^ 50) }
    requires bare { IsBare waits.old }
    requires part { IsNext deed.now }
    ensures typed { Typed S.means D.held T.stands T.cut (λ s. deeds_of left s deed.now) result waits.old.system waits.new.system drum.old drum.new out.old out.new }
    ensures outside { UsesOutside T.onward T.fault_count D.fault_count D.read_count D.write_count D.size result out.old out.new drum.old drum.new }
    ensures within { OnOk result (StaysWithin S.means waits.old.system waits.new.system) }
    ensures lists { OnOk result (WhereTold S.means D.held waits.old.system drum.old (λ p. TookDeeds left p deed.now waits.old.lists.sched waits.new.lists.sched)) }
    ensures core { OnOk result (StaysInCore S.means D.held waits.old.system waits.new.system waits.old.lists waits.new.lists drum.old) }
    ensures bare { OnOk result (IsBare waits.new) }
    ensures marks { KeepsMarks waits.old waits.new }
{
    if left == 0 {
        return Ok(());
    }
    match part(waits, deed, drum, out) {
        Ok(came) => match came {
            Some(next) => deeds(waits, &next, left - 1, drum, out),
            None => Ok(()),
        },
        Err(fault) => Err(fault),
    }
}

// A character is typed at a terminal, and what it shows is given.
fn type_one<S: System, D: Drum, T: Taker>(
    waits: &mut Waits<S>,
    t: Tty,
    code: u8,
    drum: &mut D,
    out: &mut T,
) -> Result<(), Fault>
    requires drum { limit waits.old ≤ D.size drum.old }
    requires within { IsWithin S.means waits.old.system (2 ^ 50) }
    requires bare { IsBare waits.old }
    requires terminal { IsTerminal t }
    requires code { code < 128 }
    ensures typed { Typed S.means D.held T.stands T.cut (λ s. typed_at s t code) result waits.old.system waits.new.system drum.old drum.new out.old out.new }
    ensures outside { UsesOutside T.onward T.fault_count D.fault_count D.read_count D.write_count D.size result out.old out.new drum.old drum.new }
    ensures within { OnOk result (StaysWithin S.means waits.old.system waits.new.system) }
    ensures lists { OnOk result (WhereTold S.means D.held waits.old.system drum.old (λ p. TookDeeds most_deeds p (ADeed.Typed t code) waits.old.lists.sched waits.new.lists.sched)) }
    ensures core { OnOk result (StaysInCore S.means D.held waits.old.system waits.new.system waits.old.lists waits.new.lists drum.old) }
    ensures bare { OnOk result (IsBare waits.new) }
    ensures marks { KeepsMarks waits.old waits.new }
{
    waits.trees();
    deeds(waits, &Deed::Typed(t, code), MOST_DEEDS, drum, out)
}

// The last characters of a text, so many, are typed at a terminal, and what each shows is given before the next.
fn type_text<S: System, D: Drum, T: Taker>(
    waits: &mut Waits<S>,
    t: Tty,
    text: &[u8],
    left: usize,
    drum: &mut D,
    out: &mut T,
) -> Result<(), Fault>
    requires drum { limit waits.old ≤ D.size drum.old }
    requires within { IsWithin S.means waits.old.system (2 ^ 50) }
    requires bare { IsBare waits.old }
    requires terminal { IsTerminal t }
    requires codes { All (λ c. c < 128) text.now }
    requires left { left ≤ length text.now }
    ensures typed { Typed S.means D.held T.stands T.cut (λ s. typed_all s t (drop (length text.now - left) text.now)) result waits.old.system waits.new.system drum.old drum.new out.old out.new }
    ensures outside { UsesOutside T.onward T.fault_count D.fault_count D.read_count D.write_count D.size result out.old out.new drum.old drum.new }
    ensures within { OnOk result (StaysWithin S.means waits.old.system waits.new.system) }
    ensures lists { OnOk result (WhereTold S.means D.held waits.old.system drum.old (λ p. TookText p t (drop (length text.now - left) text.now) waits.old.lists.sched waits.new.lists.sched)) }
    ensures core { OnOk result (StaysInCore S.means D.held waits.old.system waits.new.system waits.old.lists waits.new.lists drum.old) }
    ensures bare { OnOk result (IsBare waits.new) }
    ensures marks { KeepsMarks waits.old waits.new }
{
    if left == 0 {
        return Ok(());
    }
    let at = text.len() - left;
    match type_one(waits, t, text[at], drum, out) {
        Ok(()) => type_text(waits, t, text, left - 1, drum, out),
        Err(fault) => Err(fault),
    }
}

/// TYPE: what each character shows is given when it is typed, and the step behind all of them. NoJob, where the terminal has no job.
pub fn type_in<S: System, D: Drum, T: Taker>(
    waits: &mut Waits<S>,
    t: Tty,
    text: TypedText,
    drum: &mut D,
    out: &mut T,
) -> Result<u32, Fault>
    requires drum { limit waits.old ≤ D.size drum.old }
    requires within { IsWithin S.means waits.old.system (2 ^ 50) }
    requires bare { IsBare waits.old }
    requires fits { FitsEvent (AnEvent.TypeIn t text) }
    ensures acted { Acted S.means D.held T.stands T.cut (auto waits.old) (AnEvent.TypeIn t text) result waits.old.system waits.new.system waits.old.lists waits.new.lists drum.old drum.new out.old out.new }
    ensures outside { UsesOutside T.onward T.fault_count D.fault_count D.read_count D.write_count D.size result out.old out.new drum.old drum.new }
    ensures bare { IfOk result (λ n. IsBare waits.new) }
    ensures marks { KeepsMarks waits.old waits.new }
{
    waits.lists_are_sound();
    let step = Step::Outer(Event::TypeIn(t, text));
    if waits.has_job(t) {
        let codes = text.as_slice();
        match type_text(waits, t, codes, codes.len(), drum, out) {
            Ok(()) => match out.step(step) {
                Ok(()) => Ok(1),
                Err(_) => Err(Fault::Taker),
            },
            Err(fault) => Err(fault),
        }
    } else {
        match give_refused(Refusal::NoJob(t), &step, out) {
            Ok(()) => Ok(1),
            Err(_) => Err(Fault::Taker),
        }
    }
}
