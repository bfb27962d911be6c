// The commands that read a text.
ghost use Rattle.std.specs.Prelude.{◌≡◌, ◌≢◌, ◌⊎◌, ◌≤◌};
ghost use Rattle.outside.specs.Faults.{Rose};
ghost use Rattle.command_words.specs.TextWords.{AskText};
ghost use Rattle.command_words.specs.declared.request.TextRequest.{TextRequest as ATextRequest};
ghost use Rattle.text_console.specs.Made.{Makes, done_of};
ghost use Rattle.text_console.specs.Statuses.{AskForNoText, Ends, Refuses, Stops};

use crate::making::make;
use command_words::asked_text;
use outside::{Failed, Memory, Sink, Source};
use std::alloc::Global;
use texts::{Status, write_closing};

/// Makes of a text what a command's words, those behind the program's name, ask for. `replay` plays a record and writes the
/// transcript of its entries to `out`; `image` plays it and writes the image of the files that it leaves. These may set the
/// drum's size, which has an effect only where the record doesn't tell it. `asm` reads a program, and writes the lines of a
/// script that put its words. The status tells how it ended, and but for Done and WriteFault a last line of `out` says so too.
///
/// Usage comes exactly where the words are others, and then nothing is read; Memory, where there is none for the words or
/// for what is made; Script, where a line of a record is bad; Illegal, where a unit of it is of a fork that can't run there;
/// Assembly, where a program has a fault; LongScript, where the text is too long; ReadFault and WriteFault, only where the
/// count of faults of the source or of `out` rose. Where a last line can't be written the status is WriteFault.
pub fn text_command<S: Source, T: Sink>(
    alloc: Global,
    words: &[String],
    text: &mut S,
    out: &mut T,
) -> Status
    // What was made of the text that the words ask for, on each status; and where it is done, of a text that is right and whole.
    ensures ends { (q : ATextRequest) → AskText words.now q → Ends q (S.left text.old) (S.left text.new) (T.taken out.old) (T.taken out.new) result }
    ensures done { (q : ATextRequest) → AskText words.now q → result ≡ Status.Done → Makes q (S.left text.old) (S.left text.new) (done_of q) (T.taken out.old) (T.taken out.new) }

    // Other words are Usage, and nothing else is; then nothing is read.
    ensures refused { AskForNoText words.now → Refuses (T.taken out.old) (T.taken out.new) result }
    ensures usage { result ≡ Status.Usage → AskForNoText words.now }
    ensures unread { AskForNoText words.now → text.new ≡ text.old }

    // A fault comes only where a count rose, and no count falls. No drum is used.
    ensures read_cause { result ≡ Status.ReadFault → Rose (S.fault_count text.old) (S.fault_count text.new) }
    ensures write_cause { result ≡ Status.WriteFault → Rose (T.fault_count out.old) (T.fault_count out.new) }
    ensures undrummed { result ≢ Status.DrumFault }
    ensures unfaulted { result ≢ Status.ReadFault → result ≢ Status.WriteFault → result ≢ Status.Memory → S.fault_count text.new ≡ S.fault_count text.old }
    ensures later { (S.fault_count text.old ≤ S.fault_count text.new) × (T.fault_count out.old ≤ T.fault_count out.new) }

    // The sink keeps back nothing, unless it failed.
    ensures handed { T.handed_on out.new ⊎ Rose (T.fault_count out.old) (T.fault_count out.new) }
{
    match asked_text(alloc, words) {
        Ok(Some(request)) => make(alloc, request, text, out).status(),
        Ok(None) => stop(Status::Usage, out),
        Err(Memory) => stop(Status::Memory, out),
    }
}

// Ends before anything is read.
fn stop<T: Sink>(status: Status, out: &mut T) -> Status
    ensures stops { Stops status (T.taken out.old) (T.taken out.new) result }
    ensures later { T.fault_count out.old ≤ T.fault_count out.new }
    ensures cause { (result ≡ status) ⊎ Rose (T.fault_count out.old) (T.fault_count out.new) }
    ensures handed { T.handed_on out.new ⊎ Rose (T.fault_count out.old) (T.fault_count out.new) }
{
    match write_closing(status, 0, out) {
        Ok(()) => status,
        Err(Failed) => Status::WriteFault,
    }
}
