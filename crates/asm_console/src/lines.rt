// The lines of a script that put the words of a program.
ghost use Rattle.std.specs.Prelude.{◌≡◌, ◌<◌, ◌≤◌, ◌^◌, All, OnOk, OnErr};
ghost use Rattle.outside.specs.Faults.{Rose};
ghost use Rattle.outside.specs.Told.{Grows};
ghost use Rattle.machine_names.specs.Bounds.{IsTerminal};
ghost use Rattle.script_texts.specs.Limits.{FitsEvent};
ghost use Rattle.texts.specs.Wrote.{GrowsPartly};
ghost use Rattle.asm_console.specs.Lines.{events_of, lines_text, placed_line};

use crate::put::put_line;
use asm_core::Placed;
use machine_names::Tty;
use outside::{Failed, Sink};
use script_lang::write_line;
use script_texts::Event;

/// Writes the lines that put these words, in their order. Where it fails, a front of them is written.
pub fn write_lines<T: Sink>(t: Tty, program: &[Placed], out: &mut T) -> Result<(), Failed>
    requires terminal { IsTerminal t }
    requires below { All (λ p. p.address < 2 ^ 18) program.now }
    ensures later { T.fault_count out.old ≤ T.fault_count out.new }
    ensures cause { OnErr result (Rose (T.fault_count out.old) (T.fault_count out.new)) }
    ensures unfaulted { OnOk result (T.fault_count out.new ≡ T.fault_count out.old) }
    ensures fits { OnOk result (All FitsEvent (events_of t program.now)) }
    ensures ok { OnOk result (Grows (T.taken out.old) (T.taken out.new) (lines_text t program.now)) }
    ensures err { OnErr result (GrowsPartly (T.taken out.old) (T.taken out.new) (lines_text t program.now)) }
{
    for placed in program {
        write_placed(t, *placed, out)?;
    }
    Ok(())
}

// Writes the line that puts a word.
fn write_placed<T: Sink>(t: Tty, placed: Placed, out: &mut T) -> Result<(), Failed>
    requires terminal { IsTerminal t }
    requires below { placed.address < 2 ^ 18 }
    ensures later { T.fault_count out.old ≤ T.fault_count out.new }
    ensures cause { OnErr result (Rose (T.fault_count out.old) (T.fault_count out.new)) }
    ensures unfaulted { OnOk result (T.fault_count out.new ≡ T.fault_count out.old) }
    ensures small { placed.word < 2 ^ 36 }
    ensures ok { OnOk result (Grows (T.taken out.old) (T.taken out.new) (placed_line t placed)) }
    ensures err { OnErr result (GrowsPartly (T.taken out.old) (T.taken out.new) (placed_line t placed)) }
{
    let mut room = [0; 256];
    let count = write_line(&Event::Poke(t, placed.address, placed.word), &mut room);
    put_line(out, &room[..count])
}
