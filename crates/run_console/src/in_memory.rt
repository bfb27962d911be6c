// A run in memory, where all is told.
ghost use Rattle.std.specs.Prelude.{◌≡◌, ◌⊎◌, Some};
ghost use Rattle.outside.specs.Faults.{Rose};
ghost use Rattle.script_driver.specs.Statuses.{Judges};
ghost use Rattle.run_console.specs.Command.{IsRight, IsUsage, ReadsScript};
ghost use Rattle.run_console.specs.Memory.{HeadlineInBytes};
ghost use Rattle.run_console.specs.Statuses.{IsFaultless, IsUsageOrBefore};

use crate::run_command;
use outside::{Drum, MemSink, Sink, SureDrum, SureSource};
use std::alloc::Global;
use texts::Status;

/// Runs what is asked for as `run_command` does, on a script in memory and to sinks in memory. Where the status is Done, the
/// script was lines of events, `out` took exactly the transcript of their entries behind what it had, and
/// `rec` exactly their record. The status is Done, Usage, Script, LongScript or Memory, or it is WriteFault, only
/// where a sink's count of faults rose; for right words and a right script it is Done, Memory or WriteFault.
pub fn run_in_memory(
    alloc: Global,
    words: &[String],
    script: Vec<u8>,
    out: &mut MemSink,
    rec: &mut MemSink,
    drum: &mut SureDrum,
) -> Status
    ensures headline { result ≡ Status.Done → HeadlineInBytes words.now script.items out.old out.new rec.old rec.new drum.old drum.new }
    ensures judged { ReadsScript words.now → Judges result script.items }
    ensures usage { result ≡ Status.Usage → IsUsage words.now (⟦<SureDrum as Drum>⟧.size drum.old) }
    ensures always_usage { IsUsage words.now (⟦<SureDrum as Drum>⟧.size drum.old) → IsUsageOrBefore result }
    ensures faultless { IsFaultless result ⊎ (result ≡ Status.WriteFault) }
    ensures write_cause { result ≡ Status.WriteFault → Rose (⟦<MemSink as Sink>⟧.fault_count out.old) (⟦<MemSink as Sink>⟧.fault_count out.new) ⊎ Rose (⟦<MemSink as Sink>⟧.fault_count rec.old) (⟦<MemSink as Sink>⟧.fault_count rec.new) }
    ensures complete { IsRight words.now (⟦<SureDrum as Drum>⟧.size drum.old) (Some script.items) → IsFaultless result → (result ≡ Status.Done) ⊎ (result ≡ Status.Memory) }
{
    let mut script = SureSource::new(script);
    run_command(alloc, words, &mut script, out, rec, drum)
}
