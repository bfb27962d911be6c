// The line that tells how a command stopped, where nothing else is written.
ghost use Rattle.std.specs.Prelude.{◌≡◌, ◌≤◌, OnOk, OnErr};
ghost use Rattle.outside.specs.Faults.{Rose};
ghost use Rattle.outside.specs.Told.{Grows};
ghost use Rattle.texts.specs.Ends.{closing_line};
ghost use Rattle.texts.specs.Wrote.{WrotePartly};

use crate::end_line::end_line;
use crate::put::put;
use crate::{Last, Status, Tally};
use outside::{Failed, Sink};

/// Writes the line that tells how a command stopped, with the number that it shows, and hands it on. For `Done` and
/// `WriteFault` there is none, nor for `Assembly`, whose lines are the assembler's. Where it fails, a front of the line is written.
pub fn write_closing<T: Sink>(status: Status, n: u64, out: &mut T) -> Result<(), Failed>
    ensures later { T.fault_count out.old ≤ T.fault_count out.new }
    ensures cause { OnErr result (Rose (T.fault_count out.old) (T.fault_count out.new)) }
    ensures handed { OnOk result (T.handed_on out.new) }
    ensures ok { OnOk result (Grows (T.taken out.old) (T.taken out.new) (closing_line status n)) }
    ensures err { OnErr result (WrotePartly (T.taken out.old) (T.taken out.new) (closing_line status n)) }
{
    let line = end_line(None, Last::Stopped(status, n), &Tally::NONE);
    put(out, &line)?;
    out.flush()
}
