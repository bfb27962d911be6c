// A record is played to its end, or to what stops it.
ghost use Rattle.std.specs.Prelude.{◌≡◌, ◌≢◌, ◌≤◌, ℕ, List, [], Option, Some, IfOk, IfErr};
ghost use Rattle.std.specs.Option.{unwrap_or};
ghost use Rattle.outside.specs.Faults.{Rose};
ghost use Rattle.outside.specs.declared.TheConstants.{MOST_DRUM_PAGES};
ghost use Rattle.script_texts.specs.RecordLines.{RecordLine};
ghost use Rattle.script_texts.specs.Taker.{StaysOnward};
ghost use Rattle.record_reader.specs.Order.{FitsLine};
ghost use Rattle.record_reader.specs.Reader.{line_given};
ghost use Rattle.record_player.specs.Plays.{Played, end_of};
ghost use Rattle.record_player.specs.Hearing.{FaultsSo, Heard, TextHeard, size_given};
ghost use Rattle.record_player.specs.Stages.{PlayedOn};

use crate::replay_end::ReplayEnd;
use crate::stage::{Stage, boot};
use flat_pages::{FlatSlots, FlatStore};
use monitor_core::System;
use outside::Source;
use page_contracts::Pages;
use record_reader::{NextStep, RecordReader};
use script_texts::Taker;
use std::alloc::Global;

// How many pages the drum has of a record that begins so: as many as it tells, and else those that are asked for.
fn drum_pages(first: &NextStep, asked: u32) -> u32
    requires fits { (l : RecordLine) → line_given first.now ≡ Some l → FitsLine l }
    requires most { asked ≤ MOST_DRUM_PAGES }
    ensures pages { result ≡ unwrap_or (size_given first.now) asked }
    ensures few { result ≤ MOST_DRUM_PAGES }
{
    match first {
        NextStep::Size(pages) => *pages,
        _ => asked,
    }
}

// Plays a record on a new stage, from what it has first on.
fn play_on<P: Pages, S: Source, T: Taker>(
    stage: &mut Stage<P>,
    first: NextStep,
    reader: &mut RecordReader,
    input: &mut S,
    out: &mut T,
) -> ReplayEnd
    requires new { stage.old.done ≡ 0 }
    requires heard { Heard reader.old [] first }
    ensures faults { (base : ℕ) → FaultsSo base (S.fault_count input.old) (first ≡ NextStep.ReadFault) → FaultsSo base (S.fault_count input.new) (result ≡ ReplayEnd.ReadFault) }
    ensures later { T.fault_count out.old ≤ T.fault_count out.new }
    ensures cause { result ≡ ReplayEnd.WriteFault → Rose (T.fault_count out.old) (T.fault_count out.new) }
    ensures onward { StaysOnward T.onward out.old out.new }
    ensures ends { result ≢ ReplayEnd.Memory }
    ensures played { (told : Option (List ℕ)) → TextHeard S.left told reader.old input.old [] first → PlayedOn T.stands T.cut stage.old.system stage.new.system out.old out.new told first result }
{
    let mut next = first;
    'lines: loop {
        match stage.line(next, out) {
            Some(end) => return end,
            None => next = reader.next(input),
        }
    }
}

/// Plays a record from the opening state, and gives what takes them the items and the steps of its entries. The drum has as many pages as the
/// record's first line tells, and else as many as are asked for, 256 to 16,384.
///
/// Ok exactly where the record was read to its end and each of its units is of a fork that can run there: the system is then in the
/// last state of the plain run of its entries. Else what comes first in the order of the record: Bad and Long, as its reader finds
/// them; Illegal, where a unit is of a fork that can't run there; ReadFault and WriteFault, only where the count of the source's
/// faults, or of the taker's, rose; Memory, where there was none for the system. Before any but WriteFault the taker took the
/// items and steps of the entries before.
pub fn play<S: Source, T: Taker>(
    alloc: Global,
    pages: u32,
    input: &mut S,
    out: &mut T,
) -> Result<System<FlatSlots<FlatStore>>, ReplayEnd>
    requires least { 256 ≤ pages }
    requires most { pages ≤ MOST_DRUM_PAGES }
    ensures played { Played pages (S.left input.old) T.stands T.cut out.old out.new result }
    ensures stops { IfErr result (λ end. end ≢ ReplayEnd.Done) }

    // A fault comes only where a count rose, and no read is tried again behind one that failed.
    ensures read_later { S.fault_count input.old ≤ S.fault_count input.new }
    ensures read_cause { end_of result ≡ ReplayEnd.ReadFault → Rose (S.fault_count input.old) (S.fault_count input.new) }
    ensures unfaulted { end_of result ≢ ReplayEnd.ReadFault → end_of result ≢ ReplayEnd.Memory → S.fault_count input.new ≡ S.fault_count input.old }
    ensures later { T.fault_count out.old ≤ T.fault_count out.new }
    ensures write_cause { end_of result ≡ ReplayEnd.WriteFault → Rose (T.fault_count out.old) (T.fault_count out.new) }
    ensures onward { StaysOnward T.onward out.old out.new }
{
    let mut reader = RecordReader::new();
    let first = reader.next(input);
    let Ok(mut stage) = boot(alloc, drum_pages(&first, pages)) else {
        return Err(ReplayEnd::Memory);
    };
    match play_on(&mut stage, first, &mut reader, input, out) {
        ReplayEnd::Done => {
            let Stage { system, done: _ } = stage;
            Ok(system)
        }
        end => Err(end),
    }
}
