// The generated script, driven through a machine.
ghost use Rattle.std.specs.Prelude.{◌≡◌, ◌≢◌, ◌≤◌};
ghost use Rattle.outside.specs.Faults.{Rose};
ghost use Rattle.script_texts.specs.Taker.{StaysOnward};
ghost use Rattle.event_items.specs.Outcome.{DrumStays};
ghost use Rattle.script_driver.specs.Driving.{Drove, IsNew};
ghost use Rattle.script_driver.specs.Machines.{limit};
ghost use Rattle.script_driver.specs.Verdicts.{AreGenerated};

use crate::driver::Driven;
use event_items::Ended;
use outside::Drum;
use page_waits::System;
use paged_events::Machine;
use script_lang::big_from;
use script_texts::Taker;

/// Runs the events of the generated script of a seed, from a new machine on, and gives their steps to a taker.
pub fn drive_generated<M: System, D: Drum, K: Taker>(
    machine: &mut Machine<M>,
    seed: u32,
    drum: &mut D,
    taker: &mut K,
) -> Driven
    requires new { IsNew machine.old }
    requires size { limit machine.old ≤ D.size drum.old }
    ensures unread { result ≢ Driven.ReadFault }
    ensures later { K.fault_count taker.old ≤ K.fault_count taker.new }
    ensures cause { result ≡ Driven.TakerFault → Rose (K.fault_count taker.old) (K.fault_count taker.new) }
    ensures onward { StaysOnward K.onward taker.old taker.new }
    ensures drum { DrumStays D.fault_count D.read_count D.write_count D.size drum.old drum.new }
    ensures drum_cause { result ≡ Driven.DrumFault → Rose (D.fault_count drum.old) (D.fault_count drum.new) }

    // What the taker was given: the steps of the generated script's events.
    ensures drove { Drove D.held K.stands K.cut machine.old drum.old drum.new (AreGenerated seed result) taker.old taker.new result }
{
    let mut big = big_from(seed);
    while let Some(event) = big.next() {
        match machine.event(event, drum, taker) {
            Ended::Went => {}
            Ended::DrumFault => return Driven::DrumFault,
            Ended::TakerFault => return Driven::TakerFault,
        }
    }
    Driven::Done
}
