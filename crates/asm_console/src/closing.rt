// The line that tells why there are no words.
ghost use Rattle.std.specs.Prelude.{◌≡◌, ◌≤◌, ◌++◌, OnOk, OnErr};
ghost use Rattle.outside.specs.Faults.{Rose};
ghost use Rattle.outside.specs.Told.{Grows};
ghost use Rattle.script_texts.specs.Texts.{ended};
ghost use Rattle.texts.specs.Wrote.{GrowsPartly};
ghost use Rattle.asm_console.specs.Endings.{fault_line, stopped_line};

use crate::asm_end::Stopped;
use crate::put::{put, put_line};
use asm_core::AsmFault;
use outside::{Failed, Sink};
use script_lang::digits::decimal;

/// Writes the line that tells why there are no words. Where it fails, a front of it is written.
pub fn write_why<T: Sink>(why: &Stopped, out: &mut T) -> Result<(), Failed>
    ensures later { T.fault_count out.old ≤ T.fault_count out.new }
    ensures cause { OnErr result (Rose (T.fault_count out.old) (T.fault_count out.new)) }
    ensures ok { OnOk result (Grows (T.taken out.old) (T.taken out.new) (stopped_line why.now)) }
    ensures err { OnErr result (GrowsPartly (T.taken out.old) (T.taken out.new) (stopped_line why.now)) }
{
    match why {
        Stopped::ReadFault => put_line(out, b"?READ"),
        Stopped::LongText => put_line(out, b"?LONG SCRIPT"),
        Stopped::Fault(fault) => write_fault(fault, out),
    }
}

// Writes the line that tells a fault.
fn write_fault<T: Sink>(fault: &AsmFault, out: &mut T) -> Result<(), Failed>
    ensures later { T.fault_count out.old ≤ T.fault_count out.new }
    ensures cause { OnErr result (Rose (T.fault_count out.old) (T.fault_count out.new)) }
    ensures ok { OnOk result (Grows (T.taken out.old) (T.taken out.new) (fault_line fault.now)) }
    ensures err { OnErr result (GrowsPartly (T.taken out.old) (T.taken out.new) (fault_line fault.now)) }
{
    match fault {
        AsmFault::Memory => put_line(out, b"?MEMORY"),
        AsmFault::Line(n) => put_both(out, b"?LINE ", decimal(*n).as_slice()),
        AsmFault::Overrun(n) => put_both(out, b"?OVERRUN ", decimal(*n).as_slice()),
        AsmFault::Doubled(symbol) => put_both(out, b"?DOUBLED ", symbol.as_slice()),
        AsmFault::Undefined(symbol) => put_both(out, b"?UNDEFINED ", symbol.as_slice()),
    }
}

// Writes a line of two texts.
fn put_both<T: Sink>(out: &mut T, front: &[u8], rest: &[u8]) -> Result<(), Failed>
    ensures later { T.fault_count out.old ≤ T.fault_count out.new }
    ensures cause { OnErr result (Rose (T.fault_count out.old) (T.fault_count out.new)) }
    ensures ok { OnOk result (Grows (T.taken out.old) (T.taken out.new) (ended (front.now ++ rest.now))) }
    ensures err { OnErr result (GrowsPartly (T.taken out.old) (T.taken out.new) (ended (front.now ++ rest.now))) }
{
    put(out, front)?;
    put_line(out, rest)
}
