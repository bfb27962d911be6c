// Bytes, written to a sink.
ghost use Rattle.std.specs.Prelude.{◌≡◌, ◌≤◌, flat_map, OnOk, OnErr};
ghost use Rattle.outside.specs.Faults.{Rose};
ghost use Rattle.outside.specs.Told.{Grows};
ghost use Rattle.texts.specs.Wrote.{GrowsPartly};

use outside::{Failed, Sink};

/// Writes all these bytes. Where it fails, a front of them is written.
pub fn put<T: Sink>(out: &mut T, bytes: &[u8]) -> Result<(), Failed>
    ensures later { T.fault_count out.old ≤ T.fault_count out.new }
    ensures cause { OnErr result (Rose (T.fault_count out.old) (T.fault_count out.new)) }
    ensures unfaulted { OnOk result (T.fault_count out.new ≡ T.fault_count out.old) }
    ensures ok { OnOk result (Grows (T.taken out.old) (T.taken out.new) bytes.now) }
    ensures err { OnErr result (GrowsPartly (T.taken out.old) (T.taken out.new) bytes.now) }
{
    let mut at = 0;
    while at < bytes.len() {
        at += out.write(&bytes[at..])?;
    }
    Ok(())
}

/// Writes these pieces, one behind the other. Where it fails, a front of them is written.
pub fn put_all<T: Sink>(out: &mut T, pieces: &[&[u8]]) -> Result<(), Failed>
    ensures later { T.fault_count out.old ≤ T.fault_count out.new }
    ensures cause { OnErr result (Rose (T.fault_count out.old) (T.fault_count out.new)) }
    ensures unfaulted { OnOk result (T.fault_count out.new ≡ T.fault_count out.old) }
    ensures ok { OnOk result (Grows (T.taken out.old) (T.taken out.new) (flat_map (λ p. p.now) pieces.now)) }
    ensures err { OnErr result (GrowsPartly (T.taken out.old) (T.taken out.new) (flat_map (λ p. p.now) pieces.now)) }
{
    for piece in pieces {
        put(out, piece)?;
    }
    Ok(())
}
