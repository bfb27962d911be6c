// The console of a run.
ghost use Rattle.std.specs.Prelude.{◌≡◌, ◌⊎◌, ◌≤◌};
ghost use Rattle.outside.specs.Faults.{Rose};
ghost use Rattle.event_items.specs.Outcome.{DrumStays};
ghost use Rattle.script_driver.specs.Observed.{HandedOn, faults, seen};
ghost use Rattle.run_console.specs.Headline.{Stops};
ghost use Rattle.run_console.specs.Runs.{Runs};

use crate::asked::{Unbegun, asked_machine};
use outside::{Drum, Sink, Source};
use script_driver::{close, run};
use std::alloc::Global;
use texts::{Last, Status, Writer};

/// Runs what the words of a command ask for: they, those behind the program's name, must be `run`, or `big` and a seed, with options
/// that ask for sizes. On `run` the script is read and run line by line; on `big` the generated script of the seed
/// is run, and the script is not read. `out` takes the transcript and `rec` the record, and both are flushed before
/// each read of the script and at the end; on `big` a line of counts stands behind the transcript. The status tells
/// how it ended, and but for Done and WriteFault a last line of `out` says so too.
///
/// Usage comes where the words are others, or the drum has fewer pages than they ask for; Memory, where
/// there is none for the words or the machine; Script, where a line of the script is bad; LongScript, where
/// the script is too long; ReadFault, WriteFault and DrumFault, only where the count of faults of the
/// script, of a sink or of the drum rose. Where a last line can't be written the status is WriteFault.
pub fn run_command<S: Source, T: Sink, R: Sink, D: Drum>(
    alloc: Global,
    words: &[String],
    script: &mut S,
    out: &mut T,
    rec: &mut R,
    drum: &mut D,
) -> Status
    // The headline where it is done, what is told on each status, and its causes.
    ensures runs { Runs words.now (D.size drum.old) (seen S.left T.taken R.taken D.held D.read_count D.write_count script.old script.new out.old out.new rec.old rec.new drum.old drum.new) (faults S.fault_count T.fault_count R.fault_count D.fault_count script.old script.new out.old out.new rec.old rec.new drum.old drum.new) script.old script.new drum.old drum.new result }

    // The drum's size stays, and no count of it falls.
    ensures drum { DrumStays D.fault_count D.read_count D.write_count D.size drum.old drum.new }

    // Neither sink keeps back anything, unless it failed.
    ensures handed { HandedOn T.handed_on R.handed_on T.fault_count R.fault_count out.old out.new rec.old rec.new result }
{
    match asked_machine(alloc, words, drum.pages()) {
        Ok((events, mut machine)) => run(&mut machine, events, script, out, rec, drum),
        Err(why) => stop(why, out, rec),
    }
}

// Ends before anything is run.
fn stop<T: Sink, R: Sink>(why: Unbegun, out: &mut T, rec: &mut R) -> Status
    ensures stops { Stops why (T.taken out.old) (T.taken out.new) (R.taken rec.old) (R.taken rec.new) result }
    ensures handed { HandedOn T.handed_on R.handed_on T.fault_count R.fault_count out.old out.new rec.old rec.new result }
    ensures out_later { T.fault_count out.old ≤ T.fault_count out.new }
    ensures rec_later { R.fault_count rec.old ≤ R.fault_count rec.new }
    ensures write_cause { result ≡ Status.WriteFault → Rose (T.fault_count out.old) (T.fault_count out.new) ⊎ Rose (R.fault_count rec.old) (R.fault_count rec.new) }
{
    let mut writer = Writer::new(out, rec);
    match close(&mut writer, Last::Stopped(why.status(), 0)) {
        Ok(()) => why.status(),
        Err(_) => Status::WriteFault,
    }
}
