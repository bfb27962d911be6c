// The lines of a script, driven through a machine.
ghost use Rattle.std.specs.Prelude.{◌≡◌, ◌≢◌, ◌≤◌, OnOk, OnErr, []};
ghost use Rattle.outside.specs.Faults.{Rose};
ghost use Rattle.script_texts.specs.Taker.{GoesOn, IsCut, StaysOnward};
ghost use Rattle.script_lang.specs.Lines.{Skips, NeedsRead};
ghost use Rattle.event_items.specs.Outcome.{DrumStays};
ghost use Rattle.script_driver.specs.Driving.{Drove, IsNew};
ghost use Rattle.script_driver.specs.Machines.{limit};
ghost use Rattle.script_driver.specs.Verdicts.{Found, Verdict};

use crate::driver::Driven;
use event_items::Ended;
use outside::{Drum, Failed, Source};
use page_waits::System;
use paged_events::Machine;
use script_lang::{Lines, Next};
use script_texts::{Event, Taker};

/// After more turns than these the taker hands on what it keeps before the next line, so that a run that is stopped leaves
/// what was done before that line.
const MOST_KEPT: u64 = 100_000;

/// Runs each line's event as it is read, from a new machine on, and gives its steps to a taker, which hands
/// on what it keeps before each read of the source, and behind each 100,000 turns before the next line.
pub fn drive_lines<M: System, S: Source, D: Drum, K: Taker>(
    machine: &mut Machine<M>,
    script: &mut S,
    drum: &mut D,
    taker: &mut K,
) -> Driven
    requires new { IsNew machine.old }
    requires size { limit machine.old ≤ D.size drum.old }
    ensures read_later { S.fault_count script.old ≤ S.fault_count script.new }
    ensures read_cause { result ≡ Driven.ReadFault → Rose (S.fault_count script.old) (S.fault_count script.new) }
    ensures unfaulted { result ≢ Driven.ReadFault → S.fault_count script.new ≡ S.fault_count script.old }
    ensures later { K.fault_count taker.old ≤ K.fault_count taker.new }
    ensures cause { result ≡ Driven.TakerFault → Rose (K.fault_count taker.old) (K.fault_count taker.new) }
    ensures onward { StaysOnward K.onward taker.old taker.new }
    ensures drum { DrumStays D.fault_count D.read_count D.write_count D.size drum.old drum.new }
    ensures drum_cause { result ≡ Driven.DrumFault → Rose (D.fault_count drum.old) (D.fault_count drum.new) }

    // Before a read of the source that failed the taker had handed on all that it was given.
    ensures handed { result ≡ Driven.ReadFault → K.handed_on taker.new }

    // What the taker was given, and what the script is found to be.
    ensures drove { Drove D.held K.stands K.cut machine.old drum.old drum.new (λ events. Found (S.left script.old) (S.left script.new) (Verdict result events)) taker.old taker.new result }
{
    let mut lines = Lines::new();
    let mut kept = 0;
    loop {
        let Ok(()) = hand_on(&mut lines, &mut kept, taker) else {
            return Driven::TakerFault;
        };
        match lines.next(script) {
            Next::One(event) => {
                kept = kept.saturating_add(turns_of(&event));
                match machine.event(event, drum, taker) {
                    Ended::Went => {}
                    Ended::DrumFault => return Driven::DrumFault,
                    Ended::TakerFault => return Driven::TakerFault,
                }
            }
            Next::End => return Driven::Done,
            Next::Bad(number) => return Driven::Bad(number),
            Next::ReadFault => return Driven::ReadFault,
            Next::Long => return Driven::Long,
        }
    }
}

// How many turns an event has.
fn turns_of(event: &Event) -> u64 {
    match event {
        Event::Run(turns) => u64::from(*turns),
        _ => 0,
    }
}

// Has the taker hand on what it keeps where the next line has to be read, so that who types the script sees
// what the lines before did; and where it keeps what many turns did.
fn hand_on<K: Taker>(lines: &mut Lines, kept: &mut u64, taker: &mut K) -> Result<(), Failed>
    ensures skips { Skips lines.old lines.new }
    ensures later { K.fault_count taker.old ≤ K.fault_count taker.new }
    ensures cause { OnErr result (Rose (K.fault_count taker.old) (K.fault_count taker.new)) }
    ensures onward { StaysOnward K.onward taker.old taker.new }
    ensures handed { NeedsRead lines.new → OnOk result (K.handed_on taker.new) }
    ensures ok { OnOk result (GoesOn K.stands taker.old taker.new [] []) }
    ensures err { OnErr result (IsCut K.stands K.cut taker.old taker.new [] []) }
{
    if lines.needs_read() || *kept > MOST_KEPT {
        *kept = 0;
        taker.flush()
    } else {
        Ok(())
    }
}
