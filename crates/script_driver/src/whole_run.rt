// A run of events on a new machine, and its two texts.
ghost use Rattle.std.specs.Prelude.{◌≡◌, ◌⊎◌, ◌≤◌, ℕ, List, Some, OnOk, OnErr, false};
ghost use Rattle.outside.specs.Faults.{Rose};
ghost use Rattle.script_texts.specs.Taker.{StaysOnward};
ghost use Rattle.event_items.specs.Outcome.{DrumStays};
ghost use Rattle.texts.specs.Writer.{FailsAtEnd, Finishes, HandsOn, IsHandedOn, IsOnward};
ghost use Rattle.script_driver.specs.Driving.{IsBooted};
ghost use Rattle.script_driver.specs.Machines.{frames, limit};
ghost use Rattle.script_driver.specs.Observed.{HandedOn, IsCaused, faults, seen};
ghost use Rattle.script_driver.specs.Statuses.{IsOfRun, Judges, RanWith};

use crate::driver::drive;
use command_words::EventSource;
use outside::{Drum, Failed, Sink, Source};
use page_waits::System;
use paged_events::Machine;
use texts::{Last, Status, Writer};

/// Runs the events that are asked for on a new machine: the lines of the script as they are read, or those of a generated
/// script, and then the source stays as it is. `out` takes the transcript and `rec` the record, and both are handed on before each
/// read of the script and at the end. The status is that of the driving, or WriteFault where a last line couldn't be written.
pub fn run<M: System, S: Source, T: Sink, R: Sink, D: Drum>(
    machine: &mut Machine<M>,
    events: EventSource,
    script: &mut S,
    out: &mut T,
    rec: &mut R,
    drum: &mut D,
) -> Status
    requires framed { M.means.store.flat ≡ false }
    requires booted { IsBooted (frames machine.old) (limit machine.old) machine.old }
    requires size { limit machine.old ≤ D.size drum.old }
    ensures began { IsOfRun result }
    ensures ran { RanWith events (frames machine.old) (limit machine.old) (seen S.left T.taken R.taken D.held D.read_count D.write_count script.old script.new out.old out.new rec.old rec.new drum.old drum.new) result }
    ensures judged { (bytes : List ℕ) → events ≡ EventSource.Script → S.left script.old ≡ Some bytes → Judges result bytes }
    ensures generated { (seed : ℕ) → events ≡ EventSource.Generated seed → (result ≡ Status.Script → ⊥) × (result ≡ Status.LongScript → ⊥) }
    ensures unread { (seed : ℕ) → events ≡ EventSource.Generated seed → script.new ≡ script.old }
    ensures caused { IsCaused result (faults S.fault_count T.fault_count R.fault_count D.fault_count script.old script.new out.old out.new rec.old rec.new drum.old drum.new) }
    ensures drum { DrumStays D.fault_count D.read_count D.write_count D.size drum.old drum.new }
    ensures handed { HandedOn T.handed_on R.handed_on T.fault_count R.fault_count out.old out.new rec.old rec.new result }
{
    let reads = drum.reads();
    let writes = drum.writes();
    let mut writer = Writer::new(out, rec);
    let driven = drive(machine, events, script, drum, &mut writer);
    let Some(last) = driven.last(events, drum.reads() - reads, drum.writes() - writes) else {
        writer.give_up();
        return Status::WriteFault;
    };
    match close(&mut writer, last) {
        Ok(()) => driven.status(),
        Err(_) => Status::WriteFault,
    }
}

/// Closes both texts with their last lines. Where that fails, what the sinks still keep is handed on.
pub fn close<T: Sink, R: Sink>(writer: &mut Writer<T, R>, last: Last) -> Result<(), Failed>
    ensures cause { OnErr result (Rose writer.old.faults writer.new.faults) }
    ensures later { writer.old.faults ≤ writer.new.faults }
    ensures onward { StaysOnward (IsOnward T.fault_count R.fault_count) writer.old writer.new }
    ensures handed { OnOk result (IsHandedOn T.handed_on R.handed_on writer.new) }
    ensures tried { HandsOn T.handed_on R.handed_on T.fault_count R.fault_count writer.old writer.new }
    ensures ok { OnOk result (Finishes T.taken R.taken last writer.old writer.new) }
    ensures err { OnErr result (FailsAtEnd T.taken R.taken last writer.old writer.new) }
{
    if let Err(failed) = writer.finish(last) {
        writer.give_up();
        return Err(failed);
    }
    Ok(())
}
