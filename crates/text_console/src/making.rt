// What is made of a text.
ghost use Rattle.std.specs.Prelude.{◌≡◌, ◌≢◌, ◌⊎◌, ◌≤◌};
ghost use Rattle.outside.specs.Faults.{Rose};
ghost use Rattle.outside.specs.declared.TheConstants.{MOST_DRUM_PAGES as DRUM_PAGES};
ghost use Rattle.text_console.specs.Made.{CanBeMade, Makes, MakesOfRecord, status_of};
ghost use Rattle.texts.specs.declared.last.Status.TheVariants.{Memory as NoMemory, ReadFault, WriteFault};

use crate::text_end::TextEnd;
use asm_console::asm;
use command_words::{RecordCommand, RecordRequest, TextRequest};
use outside::{Sink, Source};
use record_image::image;
use record_player::{ReplayEnd, replay};
use std::alloc::Global;

/// Makes of a text what is asked for.
pub(crate) fn make<S: Source, T: Sink>(
    alloc: Global,
    request: TextRequest,
    text: &mut S,
    out: &mut T,
) -> TextEnd
    requires { CanBeMade request }
    ensures made { Makes request (S.left text.old) (S.left text.new) result (T.taken out.old) (T.taken out.new) }
    ensures read_later { S.fault_count text.old ≤ S.fault_count text.new }
    ensures read_cause { status_of result ≡ ReadFault → Rose (S.fault_count text.old) (S.fault_count text.new) }
    ensures unfaulted { status_of result ≢ ReadFault → status_of result ≢ WriteFault → status_of result ≢ NoMemory → S.fault_count text.new ≡ S.fault_count text.old }
    ensures later { T.fault_count out.old ≤ T.fault_count out.new }
    ensures write_cause { status_of result ≡ WriteFault → Rose (T.fault_count out.old) (T.fault_count out.new) }
    ensures handed { T.handed_on out.new ⊎ Rose (T.fault_count out.old) (T.fault_count out.new) }
{
    match request {
        TextRequest::Record(request) => TextEnd::Played(make_of_record(alloc, request, text, out)),
        TextRequest::Assemble(terminal) => TextEnd::Assembled(asm(alloc, terminal, text, out)),
    }
}

// Makes of a record what is asked for.
fn make_of_record<S: Source, T: Sink>(
    alloc: Global,
    request: RecordRequest,
    record: &mut S,
    out: &mut T,
) -> ReplayEnd
    requires least { 256 ≤ request.drum }
    requires most { request.drum ≤ DRUM_PAGES }
    ensures made { MakesOfRecord request.command request.drum (S.left record.old) result (T.taken out.old) (T.taken out.new) }
    ensures read_later { S.fault_count record.old ≤ S.fault_count record.new }
    ensures read_cause { result ≡ ReplayEnd.ReadFault → Rose (S.fault_count record.old) (S.fault_count record.new) }
    ensures unfaulted { result ≢ ReplayEnd.ReadFault → result ≢ ReplayEnd.WriteFault → result ≢ ReplayEnd.Memory → S.fault_count record.new ≡ S.fault_count record.old }
    ensures later { T.fault_count out.old ≤ T.fault_count out.new }
    ensures write_cause { result ≡ ReplayEnd.WriteFault → Rose (T.fault_count out.old) (T.fault_count out.new) }
    ensures handed { T.handed_on out.new ⊎ Rose (T.fault_count out.old) (T.fault_count out.new) }
{
    match request.command {
        RecordCommand::Replay => replay(alloc, request.drum, record, out),
        RecordCommand::Image => image(alloc, request.drum, record, out),
    }
}
