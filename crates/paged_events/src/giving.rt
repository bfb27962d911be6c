// Steps, given to a taker behind what the last of them shows.
ghost use Rattle.std.specs.Prelude.{◌≡◌, ◌<◌, ◌≤◌, ◌∷◌, [], OnErr, OnOk, replicate};
ghost use Rattle.machine_names.specs.Bounds.{IsForkName};
ghost use Rattle.outside.specs.Faults.{Rose};
ghost use Rattle.page_contracts.specs.DrumWords.{DrumWords};
ghost use Rattle.page_waits.specs.Systems.{FitsShowing, row_of};
ghost use Rattle.event_deeds.specs.declared.answer.Showing.{Showing as AShowing};
ghost use Rattle.script_texts.specs.Follows.{IsTurn};
ghost use Rattle.script_texts.specs.Limits.{FitsCause, FitsStep};
ghost use Rattle.script_texts.specs.Taker.{GoesOn, IsCut, StaysOnward};
ghost use Rattle.script_texts.specs.declared.event.Item.{Item as AnItem};

use event_deeds::Showing;
use outside::Failed;
use page_waits::{Done, Machine as Waits, System};
use script_texts::{Item, Refusal, Step, Taker};

// Gives so many equal steps that show nothing: more than one are turns of a run.
fn give_steps<T: Taker>(step: &Step, count: u32, out: &mut T) -> Result<(), Failed>
    requires fits { FitsStep step.now }
    requires turn { 1 < count → IsTurn step.now }
    ensures later { T.fault_count out.old ≤ T.fault_count out.new }
    ensures cause { OnErr result (Rose (T.fault_count out.old) (T.fault_count out.new)) }
    ensures onward { StaysOnward T.onward out.old out.new }
    ensures ok { OnOk result (GoesOn T.stands out.old out.new [] (replicate count step.now)) }
    ensures err { OnErr result (IsCut T.stands T.cut out.old out.new [] (replicate count step.now)) }
{
    match count {
        0 => Ok(()),
        1 => out.step(*step),
        _ => out.turns(*step, u64::from(count)),
    }
}

/// Gives so many equal steps, the last of them behind what it shows, over each drum over which that can be given.
pub fn give_row<S: System, T: Taker>(
    waits: &Waits<S>,
    step: &Step,
    count: u32,
    what: &Showing,
    out: &mut T,
) -> Result<(), Failed>
    requires fits { FitsStep step.now }
    requires some { 1 ≤ count }
    requires turn { 1 < count → IsTurn step.now }
    requires shown { FitsShowing what.now }
    ensures later { T.fault_count out.old ≤ T.fault_count out.new }
    ensures cause { OnErr result (Rose (T.fault_count out.old) (T.fault_count out.new)) }
    ensures onward { StaysOnward T.onward out.old out.new }
    ensures ok { OnOk result ((d : DrumWords) → S.means.fits waits.now.system d → S.means.gives waits.now.system d what.now → GoesOn T.stands out.old out.new (S.means.items (S.means.plain waits.now.system d) what.now) (replicate count step.now)) }
    ensures err { OnErr result ((d : DrumWords) → S.means.fits waits.now.system d → S.means.gives waits.now.system d what.now → IsCut T.stands T.cut out.old out.new (S.means.items (S.means.plain waits.now.system d) what.now) (replicate count step.now)) }
{
    give_steps(step, count - 1, out)?;
    waits.give(what, out)?;
    out.step(*step)
}

/// Gives units of a fork in a row, the last of them behind what it shows, over each drum over which that can be given.
pub fn give_units<S: System, T: Taker>(
    waits: &Waits<S>,
    row: &Done,
    out: &mut T,
) -> Result<(), Failed>
    requires named { IsForkName row.now.fork }
    requires some { 1 ≤ row.now.progress.count }
    requires shown { FitsShowing (AShowing.Reply row.now.progress.reply) }
    ensures later { T.fault_count out.old ≤ T.fault_count out.new }
    ensures cause { OnErr result (Rose (T.fault_count out.old) (T.fault_count out.new)) }
    ensures onward { StaysOnward T.onward out.old out.new }
    ensures ok { OnOk result ((d : DrumWords) → S.means.fits waits.now.system d → S.means.gives waits.now.system d (AShowing.Reply row.now.progress.reply) → GoesOn T.stands out.old out.new (S.means.items (S.means.plain waits.now.system d) (AShowing.Reply row.now.progress.reply)) (row_of row.now.fork row.now.progress.count)) }
    ensures err { OnErr result ((d : DrumWords) → S.means.fits waits.now.system d → S.means.gives waits.now.system d (AShowing.Reply row.now.progress.reply) → IsCut T.stands T.cut out.old out.new (S.means.items (S.means.plain waits.now.system d) (AShowing.Reply row.now.progress.reply)) (row_of row.now.fork row.now.progress.count)) }
{
    let step = Step::Unit(row.fork);
    let what = Showing::Reply(row.progress.reply);
    give_row(waits, &step, row.progress.count, &what, out)
}

/// Gives so many idle entries.
pub fn give_idle<T: Taker>(count: u32, out: &mut T) -> Result<(), Failed>
    requires some { 1 ≤ count }
    ensures later { T.fault_count out.old ≤ T.fault_count out.new }
    ensures cause { OnErr result (Rose (T.fault_count out.old) (T.fault_count out.new)) }
    ensures onward { StaysOnward T.onward out.old out.new }
    ensures ok { OnOk result (GoesOn T.stands out.old out.new [] (replicate count Step.Idle)) }
    ensures err { OnErr result (IsCut T.stands T.cut out.old out.new [] (replicate count Step.Idle)) }
{
    give_steps(&Step::Idle, count, out)
}

/// Gives a step that is refused, behind the refusal.
pub fn give_refused<T: Taker>(cause: Refusal, step: &Step, out: &mut T) -> Result<(), Failed>
    requires fits { FitsStep step.now }
    requires cause { FitsCause cause }
    ensures later { T.fault_count out.old ≤ T.fault_count out.new }
    ensures cause { OnErr result (Rose (T.fault_count out.old) (T.fault_count out.new)) }
    ensures onward { StaysOnward T.onward out.old out.new }
    ensures ok { OnOk result (GoesOn T.stands out.old out.new (AnItem.Refusal cause ∷ []) (step.now ∷ [])) }
    ensures err { OnErr result (IsCut T.stands T.cut out.old out.new (AnItem.Refusal cause ∷ []) (step.now ∷ [])) }
{
    out.item(Item::Refusal(cause))?;
    out.step(*step)
}
