// The events that are asked for, driven through a machine.
ghost use Rattle.std.specs.Prelude.{◌≡◌, ◌≢◌, ◌<◌, ◌≤◌, ◌^◌, ℕ};
ghost use Rattle.outside.specs.Faults.{Rose};
ghost use Rattle.script_texts.specs.Taker.{StaysOnward};
ghost use Rattle.event_items.specs.Outcome.{DrumStays};
ghost use Rattle.script_driver.specs.Driving.{Drove, IsNew};
ghost use Rattle.script_driver.specs.RunTexts.{last_after, last_done};
ghost use Rattle.script_driver.specs.Machines.{limit};
ghost use Rattle.script_driver.specs.Statuses.{status_after};
ghost use Rattle.script_driver.specs.Verdicts.{AreRun};

use crate::generated::drive_generated;
use crate::lines::drive_lines;
use command_words::EventSource;
use outside::{Drum, Source};
use page_waits::System;
use paged_events::Machine;
use script_texts::Taker;
use texts::{Last, Status};

/// How the driving of events ended.
#[derive(Clone, Copy, PartialEq, Eq)]
pub enum Driven {
    /// All events were run.
    Done,
    /// The line of this number, counted from 1, is bad.
    Bad(u64),
    /// The script is too long.
    Long,
    /// The source failed.
    ReadFault,
    /// The drum failed.
    DrumFault,
    /// The taker failed, within an event or between two.
    TakerFault,
}

impl Driven {
    /// The last lines of the texts, after so many reads and writes of the drum: a generated script has a line of
    /// counts besides. None, where a text couldn't be written.
    pub fn last(self, events: EventSource, reads: u64, writes: u64) -> Option<Last>
        ensures last { result ≡ last_after self events reads writes }
        ensures few { (reads < 2 ^ 64) × (writes < 2 ^ 64) }
    {
        match self {
            Driven::Done => Some(last_done(events, reads, writes)),
            Driven::Bad(number) => Some(Last::Stopped(Status::Script, number)),
            Driven::Long => Some(Last::Stopped(Status::LongScript, 0)),
            Driven::ReadFault => Some(Last::Stopped(Status::ReadFault, 0)),
            Driven::DrumFault => Some(Last::Stopped(Status::DrumFault, 0)),
            Driven::TakerFault => None,
        }
    }

    /// The status of the run, where its texts could be closed.
    pub fn status(self) -> Status
        ensures { result ≡ status_after self }
    {
        match self {
            Driven::Done => Status::Done,
            Driven::Bad(_) => Status::Script,
            Driven::Long => Status::LongScript,
            Driven::ReadFault => Status::ReadFault,
            Driven::DrumFault => Status::DrumFault,
            Driven::TakerFault => Status::WriteFault,
        }
    }
}

// The last lines of a run that is done.
fn last_done(events: EventSource, reads: u64, writes: u64) -> Last
    ensures { result ≡ last_done events reads writes }
{
    match events {
        EventSource::Script => Last::Done { reads, writes },
        EventSource::Generated(_) => Last::Summary { reads, writes },
    }
}

/// Runs the events that are asked for, from a new machine on, and gives their steps to a taker: the lines of
/// the script as they are read, or those of a generated script, and then the source stays as it is.
pub fn drive<M: System, S: Source, D: Drum, K: Taker>(
    machine: &mut Machine<M>,
    events: EventSource,
    script: &mut S,
    drum: &mut D,
    taker: &mut K,
) -> Driven
    requires new { IsNew machine.old }
    requires size { limit machine.old ≤ D.size drum.old }
    ensures read_later { S.fault_count script.old ≤ S.fault_count script.new }
    ensures read_cause { result ≡ Driven.ReadFault → Rose (S.fault_count script.old) (S.fault_count script.new) }
    ensures unfaulted { result ≢ Driven.ReadFault → S.fault_count script.new ≡ S.fault_count script.old }
    ensures unread { (seed : ℕ) → events ≡ EventSource.Generated seed → script.new ≡ script.old }
    ensures later { K.fault_count taker.old ≤ K.fault_count taker.new }
    ensures cause { result ≡ Driven.TakerFault → Rose (K.fault_count taker.old) (K.fault_count taker.new) }
    ensures onward { StaysOnward K.onward taker.old taker.new }
    ensures drum { DrumStays D.fault_count D.read_count D.write_count D.size drum.old drum.new }
    ensures drum_cause { result ≡ Driven.DrumFault → Rose (D.fault_count drum.old) (D.fault_count drum.new) }

    // Before a read of the source that failed the taker had handed on all that it was given.
    ensures handed { result ≡ Driven.ReadFault → K.handed_on taker.new }

    // What the taker was given, and which events they were.
    ensures drove { Drove D.held K.stands K.cut machine.old drum.old drum.new (AreRun events (S.left script.old) (S.left script.new) result) taker.old taker.new result }
{
    match events {
        EventSource::Script => drive_lines(machine, script, drum, taker),
        EventSource::Generated(seed) => drive_generated(machine, seed, drum, taker),
    }
}
