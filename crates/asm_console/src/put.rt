// Bytes, written to a sink.
ghost use Rattle.std.specs.Prelude.{◌≡◌, ◌≤◌, OnOk, OnErr};
ghost use Rattle.outside.specs.Faults.{Rose};
ghost use Rattle.outside.specs.Told.{Grows};
ghost use Rattle.script_texts.specs.Texts.{ended};
ghost use Rattle.texts.specs.Wrote.{GrowsPartly};

use outside::{Failed, Sink};

/// Writes all these bytes. Where it fails, a front of them is written.
pub fn put<T: Sink>(out: &mut T, bytes: &[u8]) -> Result<(), Failed>
    ensures later { T.fault_count out.old ≤ T.fault_count out.new }
    ensures cause { OnErr result (Rose (T.fault_count out.old) (T.fault_count out.new)) }
    ensures unfaulted { OnOk result (T.fault_count out.new ≡ T.fault_count out.old) }
    ensures ok { OnOk result (Grows (T.taken out.old) (T.taken out.new) bytes.now) }
    ensures err { OnErr result (GrowsPartly (T.taken out.old) (T.taken out.new) bytes.now) }
{
    let mut at = 0;
    while at < bytes.len() {
        at += out.write(&bytes[at..])?;
    }
    Ok(())
}

/// Writes a line of these bytes. Where it fails, a front of it is written.
pub fn put_line<T: Sink>(out: &mut T, text: &[u8]) -> Result<(), Failed>
    ensures later { T.fault_count out.old ≤ T.fault_count out.new }
    ensures cause { OnErr result (Rose (T.fault_count out.old) (T.fault_count out.new)) }
    ensures unfaulted { OnOk result (T.fault_count out.new ≡ T.fault_count out.old) }
    ensures ok { OnOk result (Grows (T.taken out.old) (T.taken out.new) (ended text.now)) }
    ensures err { OnErr result (GrowsPartly (T.taken out.old) (T.taken out.new) (ended text.now)) }
{
    put(out, text)?;
    put(out, b"\n")
}
