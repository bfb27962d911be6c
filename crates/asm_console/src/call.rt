// The assembly of a text.
ghost use Rattle.std.specs.Prelude.{◌≡◌, ◌≢◌, ◌<◌, ◌≤◌, ◌^◌, ℕ, All, List, Some, OnOk, OnErr};
ghost use Rattle.outside.specs.Faults.{Rose};
ghost use Rattle.outside.specs.Told.{Grows};
ghost use Rattle.machine_names.specs.Bounds.{IsTerminal};
ghost use Rattle.script_texts.specs.Limits.{FitsEvent};
ghost use Rattle.texts.specs.Wrote.{GrowsPartly};
ghost use Rattle.asm_console.specs.Endings.{Assembled, Judges, end_behind, stopped_line};
ghost use Rattle.asm_console.specs.Lines.{events_of, lines_text};

use crate::asm_end::{AsmEnd, Stopped};
use crate::closing::write_why;
use crate::lines::write_lines;
use crate::program::read_program;
use asm_core::Placed;
use machine_names::Tty;
use outside::{Failed, Sink, Source};
use std::alloc::Global;

/// Assembles a program: its text is read to its end; where it has no fault, `out` takes a line `POKE t address word` for each
/// of its words, in their order, with the number of this terminal, and else one line that tells the first fault.
///
/// It is stopped by want of memory, where there is none for the text, its symbols or its words; by LongText, where the text
/// has more bytes than a program has; by a fault, where it is no program; by ReadFault, only where the count of faults of the
/// source rose. WriteFault comes only where that of `out` did. Where it is stopped `out` has one line that tells why, and no
/// line of a script.
pub fn asm<S: Source, T: Sink>(alloc: Global, terminal: Tty, source: &mut S, out: &mut T) -> AsmEnd
    requires { IsTerminal terminal }

    // On each end: what was read, and what was written.
    ensures assembled { Assembled terminal (S.left source.old) (S.left source.new) result (T.taken out.old) (T.taken out.new) }

    // An end that judges the text is true of it.
    ensures judged { (bytes : List ℕ) → S.left source.old ≡ Some bytes → Judges bytes result }

    // A fault comes only where a count rose, and no count falls.
    ensures read_cause { result ≡ AsmEnd.Stopped Stopped.ReadFault → Rose (S.fault_count source.old) (S.fault_count source.new) }
    ensures write_cause { result ≡ AsmEnd.WriteFault → Rose (T.fault_count out.old) (T.fault_count out.new) }
    ensures unfaulted { result ≢ AsmEnd.Stopped Stopped.ReadFault → result ≢ AsmEnd.WriteFault → S.fault_count source.new ≡ S.fault_count source.old }
    ensures later { (S.fault_count source.old ≤ S.fault_count source.new) × (T.fault_count out.old ≤ T.fault_count out.new) }

    // The sink keeps back nothing, unless it failed.
    ensures handed { result ≢ AsmEnd.WriteFault → T.handed_on out.new }
{
    match read_program(alloc, source) {
        Ok(program) => end_behind(
            write_program(terminal, program.as_slice(), out),
            AsmEnd::Done,
        ),
        Err(why) => end_behind(write_stopped(&why, out), AsmEnd::Stopped(why)),
    }
}

// How it ends where it was to end so, and something was written.
fn end_behind(written: Result<(), Failed>, end: AsmEnd) -> AsmEnd
    ensures { result ≡ end_behind written end }
{
    match written {
        Ok(()) => end,
        Err(Failed) => AsmEnd::WriteFault,
    }
}

// Writes the lines of a program, and hands them on.
fn write_program<T: Sink>(terminal: Tty, program: &[Placed], out: &mut T) -> Result<(), Failed>
    requires terminal { IsTerminal terminal }
    requires below { All (λ p. p.address < 2 ^ 18) program.now }
    ensures later { T.fault_count out.old ≤ T.fault_count out.new }
    ensures cause { OnErr result (Rose (T.fault_count out.old) (T.fault_count out.new)) }
    ensures handed { OnOk result (T.handed_on out.new) }
    ensures fits { OnOk result (All FitsEvent (events_of terminal program.now)) }
    ensures ok { OnOk result (Grows (T.taken out.old) (T.taken out.new) (lines_text terminal program.now)) }
    ensures err { OnErr result (GrowsPartly (T.taken out.old) (T.taken out.new) (lines_text terminal program.now)) }
{
    write_lines(terminal, program, out)?;
    out.flush()
}

// Writes the line that tells why there is no program, and hands it on.
fn write_stopped<T: Sink>(why: &Stopped, out: &mut T) -> Result<(), Failed>
    ensures later { T.fault_count out.old ≤ T.fault_count out.new }
    ensures cause { OnErr result (Rose (T.fault_count out.old) (T.fault_count out.new)) }
    ensures handed { OnOk result (T.handed_on out.new) }
    ensures ok { OnOk result (Grows (T.taken out.old) (T.taken out.new) (stopped_line why.now)) }
    ensures err { OnErr result (GrowsPartly (T.taken out.old) (T.taken out.new) (stopped_line why.now)) }
{
    write_why(why, out)?;
    out.flush()
}
