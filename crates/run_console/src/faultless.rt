// A run where nothing fails.
ghost use Rattle.std.specs.Prelude.{◌≡◌, ◌⊎◌, Some};
ghost use Rattle.script_driver.specs.Statuses.{Judges};
ghost use Rattle.run_console.specs.Command.{IsRight, IsUsage, ReadsScript};
ghost use Rattle.run_console.specs.Statuses.{IsFaultless};

use crate::run_command;
use outside::{Drum, SureDrum, SureSink, SureSource};
use std::alloc::Global;
use texts::Status;

/// Runs what is asked for as `run_command` does, over a source, sinks and a drum that never fail, and keeps neither
/// text. The status is Done, Usage, Script, LongScript or Memory; for right words and a right script it is
/// Done or Memory.
pub fn run_faultless(
    alloc: Global,
    words: &[String],
    script: Vec<u8>,
    drum: &mut SureDrum,
) -> Status
    ensures faultless { IsFaultless result }
    ensures judged { ReadsScript words.now → Judges result script.items }
    ensures usage { result ≡ Status.Usage → IsUsage words.now (⟦<SureDrum as Drum>⟧.size drum.old) }
    ensures always_usage { IsUsage words.now (⟦<SureDrum as Drum>⟧.size drum.old) → (result ≡ Status.Usage) ⊎ (result ≡ Status.Memory) }
    ensures complete { IsRight words.now (⟦<SureDrum as Drum>⟧.size drum.old) (Some script.items) → (result ≡ Status.Done) ⊎ (result ≡ Status.Memory) }
{
    let mut script = SureSource::new(script);
    let mut out = SureSink::new();
    let mut rec = SureSink::new();
    run_command(alloc, words, &mut script, &mut out, &mut rec, drum)
}
