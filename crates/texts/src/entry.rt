// The entries of the record.
ghost use Rattle.std.specs.Prelude.{◌≡◌, ◌≤◌, ◌++◌, length};
ghost use Rattle.script_texts.specs.Limits.{FitsEvent};
ghost use Rattle.script_texts.specs.Texts.{counts_line, ended, line_of};
ghost use Rattle.texts.specs.Ends.{record_end};
ghost use Rattle.texts.specs.OpenRun.{run_end};
ghost use Rattle.texts.specs.Turns.{open_run};

use crate::Last;
use crate::line::{EVENT_ROOM, Line, RUN_ROOM};
use crate::turns::{Turns, run_line};
use script_lang::write_line;
use script_texts::Event;

/// The line of the run that is open, and behind it the canonical line of an event.
pub fn entry_line(run: Option<Turns>, e: &Event) -> Line
    requires { FitsEvent e.now }
    ensures { result ≡ run_end (open_run run) ++ ended (line_of e.now) }
{
    let mut line = run_line(run);
    push_event(&mut line, e);
    line
}

/// The line of the run that is open, and behind it the last line of a record.
pub fn record_end(run: Option<Turns>, last: Last) -> Line
    ensures { result ≡ run_end (open_run run) ++ record_end last }
{
    let mut line = run_line(run);
    match last {
        Last::Done { reads, writes } => push_counts(&mut line, reads, writes),
        Last::Summary { reads, writes } => push_counts(&mut line, reads, writes),
        Last::Stopped(_, _) => {}
    }
    line
}

// Puts the canonical line of an event behind a line.
fn push_event(line: &mut Line, e: &Event)
    requires fits { FitsEvent e.now }
    requires room { length line.old ≤ RUN_ROOM }
    ensures { line.new ≡ line.old ++ ended (line_of e.now) }
{
    let mut room = [0; EVENT_ROOM];
    let length = write_line(e, &mut room);
    line.push(&room[..length]);
    line.push(b"\n");
}

// Puts how often the drum was read and written in a run that is done behind a line.
fn push_counts(line: &mut Line, reads: u64, writes: u64)
    requires { length line.old ≤ RUN_ROOM }
    ensures { line.new ≡ line.old ++ counts_line reads writes }
{
    line.push(b"E ");
    line.push_decimal(reads);
    line.push(b" ");
    line.push_decimal(writes);
    line.push(b"\n");
}
