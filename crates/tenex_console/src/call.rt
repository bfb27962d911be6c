// The top call.
ghost use Rattle.std.specs.Prelude.{◌≡◌, ◌≢◌, ◌⊎◌};
ghost use Rattle.outside.specs.Faults.{Rose};
ghost use Rattle.outside.specs.Told.{Stays};
ghost use Rattle.event_items.specs.Outcome.{DrumStays};
ghost use Rattle.command_words.specs.TextWords.{AskText};
ghost use Rattle.command_words.specs.Words.{Ask};
ghost use Rattle.command_words.specs.declared.request.Request.{Request as ARequest};
ghost use Rattle.command_words.specs.declared.request.TextRequest.{TextRequest as ATextRequest};
ghost use Rattle.script_driver.specs.Observed.{HandedOn, NoneFell, faults, seen};
ghost use Rattle.run_console.specs.Headline.{HasFrames, HasHeadline};
ghost use Rattle.run_console.specs.Isolation.{HasIsolation};
ghost use Rattle.run_console.specs.Runs.{Runs};
ghost use Rattle.run_console.specs.Statuses.{Tells};
ghost use Rattle.text_console.specs.Made.{Makes, done_of};
ghost use Rattle.text_console.specs.Statuses.{Ends, Refuses};
ghost use Rattle.tenex_console.specs.Nothing.{AskForNothing};

use command_words::TextCommand;
use outside::{Drum, Sink, Source};
use run_console::run_command;
use std::alloc::Global;
use text_console::text_command;
use texts::Status;

/// Does what the words of a command ask for, those behind the program's name.
///
/// On `run` the script is read and run line by line; on `big` and a seed the generated script of the seed is run, and the
/// script is not read. Options ask for sizes. `out` takes the transcript and `rec` the record, as `run_command` has it.
///
/// On `replay` and `image` the script is a record, and on `asm` a program; `out` takes what the command makes of it, as
/// `text_command` has it, and neither `rec` nor the drum is touched or asked.
///
/// The status tells how it ended, and but for Done and WriteFault a last line of `out` says so too. Usage comes where the
/// words are others, or the drum has fewer pages than a run asks for; Memory, where there is none for the words or for what
/// is done; Script, where a line is bad; Illegal, where a unit of a record is of a fork that can't run there; Assembly, where
/// a program has a fault; LongScript, where the script is too long; ReadFault, WriteFault and DrumFault, only where the
/// count of faults of the script, of a sink or of the drum rose. Where a last line can't be written the status is WriteFault.
pub fn tenex<S: Source, T: Sink, R: Sink, D: Drum>(
    alloc: Global,
    words: &[String],
    script: &mut S,
    out: &mut T,
    rec: &mut R,
    drum: &mut D,
) -> Status
    // Where the words ask for a run, it is done and the drum tells its pages: the transcript is that of the plain machine over
    // the entries that the record has, and the events are those that are asked for.
    ensures headline { (r : ARequest) → Ask words.now r → result ≡ Status.Done → HasHeadline words.now (seen S.left T.taken R.taken D.held D.read_count D.write_count script.old script.new out.old out.new rec.old rec.new drum.old drum.new) }

    // And over the frames that are asked for the entries take their turns, calm ones pass nobody over for long, and all pages of
    // the last plain state but as many as there are frames stand on the drum.
    ensures framed { (r : ARequest) → Ask words.now r → result ≡ Status.Done → HasFrames words.now (seen S.left T.taken R.taken D.held D.read_count D.write_count script.old script.new out.old out.new rec.old rec.new drum.old drum.new) }

    // And a terminal that is apart in that run sees its own work alone.
    ensures alone { (r : ARequest) → Ask words.now r → result ≡ Status.Done → HasIsolation words.now (seen S.left T.taken R.taken D.held D.read_count D.write_count script.old script.new out.old out.new rec.old rec.new drum.old drum.new) }

    // On each status of a run: what was read of the script, and what both sinks took; of one that began, where the drum tells its
    // pages. And all else that is said of a run: what a status says of the script and of the words, and what is left alone.
    ensures tells { (r : ARequest) → Ask words.now r → Tells words.now (D.size drum.old) (seen S.left T.taken R.taken D.held D.read_count D.write_count script.old script.new out.old out.new rec.old rec.new drum.old drum.new) result }
    ensures runs { (r : ARequest) → Ask words.now r → Runs words.now (D.size drum.old) (seen S.left T.taken R.taken D.held D.read_count D.write_count script.old script.new out.old out.new rec.old rec.new drum.old drum.new) (faults S.fault_count T.fault_count R.fault_count D.fault_count script.old script.new out.old out.new rec.old rec.new drum.old drum.new) script.old script.new drum.old drum.new result }
    ensures both_handed { (r : ARequest) → Ask words.now r → HandedOn T.handed_on R.handed_on T.fault_count R.fault_count out.old out.new rec.old rec.new result }

    // Where the words ask for something to be made of a text: what was made of it on each status; where it is done, of one that
    // is right and whole; and the sink of the record and the drum are as they were.
    ensures ends { (q : ATextRequest) → AskText words.now q → Ends q (S.left script.old) (S.left script.new) (T.taken out.old) (T.taken out.new) result }
    ensures made { (q : ATextRequest) → AskText words.now q → result ≡ Status.Done → Makes q (S.left script.old) (S.left script.new) (done_of q) (T.taken out.old) (T.taken out.new) }
    ensures kept { (q : ATextRequest) → AskText words.now q → (rec.new ≡ rec.old) × (drum.new ≡ drum.old) }

    // Where they ask for neither, or for more pages than the drum has, the line that says so is written, or one that there was no
    // memory to read them, `rec` takes nothing and nothing is read; and Usage comes only there.
    ensures refused { AskForNothing words.now (D.size drum.old) → Refuses (T.taken out.old) (T.taken out.new) result }
    ensures unwritten { AskForNothing words.now (D.size drum.old) → Stays (R.taken rec.old) (R.taken rec.new) }
    ensures unread { AskForNothing words.now (D.size drum.old) → (script.new ≡ script.old) × (drum.new ≡ drum.old) }
    ensures usage { result ≡ Status.Usage → AskForNothing words.now (D.size drum.old) }

    // A fault comes only where a count rose, and no count falls. The drum's size stays.
    ensures read_cause { result ≡ Status.ReadFault → Rose (S.fault_count script.old) (S.fault_count script.new) }
    ensures write_cause { result ≡ Status.WriteFault → Rose (T.fault_count out.old) (T.fault_count out.new) ⊎ Rose (R.fault_count rec.old) (R.fault_count rec.new) }
    ensures drum_cause { result ≡ Status.DrumFault → Rose (D.fault_count drum.old) (D.fault_count drum.new) }
    ensures unfaulted { result ≢ Status.ReadFault → result ≢ Status.WriteFault → result ≢ Status.Memory → S.fault_count script.new ≡ S.fault_count script.old }
    ensures later { NoneFell (faults S.fault_count T.fault_count R.fault_count D.fault_count script.old script.new out.old out.new rec.old rec.new drum.old drum.new) }
    ensures drum { DrumStays D.fault_count D.read_count D.write_count D.size drum.old drum.new }

    // `out` keeps back nothing, unless it failed.
    ensures handed { T.handed_on out.new ⊎ Rose (T.fault_count out.old) (T.fault_count out.new) }
{
    match TextCommand::begun_by(words) {
        Some(_) => text_command(alloc, words, script, out),
        None => run_command(alloc, words, script, out, rec, drum),
    }
}
