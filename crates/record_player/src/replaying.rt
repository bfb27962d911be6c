// The replay of a record, as a transcript.
ghost use Rattle.std.specs.Prelude.{◌≡◌, ◌≢◌, ◌⊎◌, ◌≤◌};
ghost use Rattle.outside.specs.Faults.{Rose};
ghost use Rattle.outside.specs.declared.TheConstants.{MOST_DRUM_PAGES};
ghost use Rattle.record_player.specs.Plays.{PlayedOut};
ghost use Rattle.record_player.specs.Replays.{Replayed, last_of};

use crate::playing::play;
use crate::replay_end::ReplayEnd;
use outside::{Sink, Source, SureSink};
use script_texts::Taker;
use std::alloc::Global;
use texts::{Last, Status, Writer};

// The last line of a transcript that ends so. None, where it couldn't be written.
fn last_line(end: ReplayEnd) -> Option<Last>
    ensures { result ≡ last_of end }
{
    match end {
        ReplayEnd::Done => Some(Last::Done {
            reads: 0,
            writes: 0,
        }),
        ReplayEnd::Bad(line) => Some(Last::Stopped(Status::Script, line)),
        ReplayEnd::Illegal(entry) => Some(Last::Stopped(Status::Illegal, entry)),
        ReplayEnd::Long => Some(Last::Stopped(Status::LongScript, 0)),
        ReplayEnd::ReadFault => Some(Last::Stopped(Status::ReadFault, 0)),
        ReplayEnd::WriteFault => None,
        ReplayEnd::Memory => Some(Last::Stopped(Status::Memory, 0)),
    }
}

// Plays a record, and keeps nothing of the system.
fn played<S: Source, T: Taker>(alloc: Global, pages: u32, input: &mut S, out: &mut T) -> ReplayEnd
    requires least { 256 ≤ pages }
    requires most { pages ≤ MOST_DRUM_PAGES }
    ensures { PlayedOut pages S.fault_count S.left T.fault_count T.onward T.stands T.cut input.old input.new out.old out.new result }
{
    match play(alloc, pages, input, out) {
        Ok(_system) => ReplayEnd::Done,
        Err(end) => end,
    }
}

/// Replays a record: writes the transcript of its entries, and behind it the line that tells why the replay ended, where that is not at the record's
/// end. The drum has as many pages as the record's first line tells, and else as many as are asked for, 256 to 16,384. It ends
/// as `play` does; where a last line can't be written, by WriteFault.
pub fn replay<S: Source, T: Sink>(
    alloc: Global,
    pages: u32,
    input: &mut S,
    out: &mut T,
) -> ReplayEnd
    requires least { 256 ≤ pages }
    requires most { pages ≤ MOST_DRUM_PAGES }
    ensures replayed { Replayed pages (S.left input.old) result (T.taken out.old) (T.taken out.new) }

    // A fault comes only where a count rose.
    ensures read_later { S.fault_count input.old ≤ S.fault_count input.new }
    ensures read_cause { result ≡ ReplayEnd.ReadFault → Rose (S.fault_count input.old) (S.fault_count input.new) }
    ensures unfaulted { result ≢ ReplayEnd.ReadFault → result ≢ ReplayEnd.WriteFault → result ≢ ReplayEnd.Memory → S.fault_count input.new ≡ S.fault_count input.old }
    ensures later { T.fault_count out.old ≤ T.fault_count out.new }
    ensures write_cause { result ≡ ReplayEnd.WriteFault → Rose (T.fault_count out.old) (T.fault_count out.new) }

    // The sink keeps nothing back, unless it failed.
    ensures handed { T.handed_on out.new ⊎ Rose (T.fault_count out.old) (T.fault_count out.new) }
{
    let mut nowhere = SureSink::new();
    let mut writer = Writer::new(out, &mut nowhere);
    let end = played(alloc, pages, input, &mut writer);
    let Some(last) = last_line(end) else {
        writer.give_up();
        return ReplayEnd::WriteFault;
    };
    match writer.finish(last) {
        Ok(()) => end,
        Err(_) => {
            writer.give_up();
            ReplayEnd::WriteFault
        }
    }
}
