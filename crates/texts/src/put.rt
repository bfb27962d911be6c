// Bytes, written to a sink.
ghost use Rattle.std.specs.Prelude.{◌≡◌, ◌≤◌, OnOk, OnErr};
ghost use Rattle.outside.specs.Faults.{Rose};
ghost use Rattle.outside.specs.Told.{Grows};
ghost use Rattle.script_texts.specs.Limits.{FitsItem};
ghost use Rattle.texts.specs.OpenLine.{item_text};
ghost use Rattle.texts.specs.Wrote.{GrowsPartly};

use crate::item_line::{goes_on, item_line};
use crate::line::Line;
use outside::{Failed, Sink};
use script_lang::digits::escaped;
use script_texts::Item;

// Writes bytes, all of them. Where it fails, a front of them is written.
fn put_bytes<S: Sink>(sink: &mut S, bytes: &[u8]) -> Result<(), Failed>
    ensures later { S.fault_count sink.old ≤ S.fault_count sink.new }
    ensures cause { OnErr result (Rose (S.fault_count sink.old) (S.fault_count sink.new)) }
    ensures unfaulted { OnOk result (S.fault_count sink.new ≡ S.fault_count sink.old) }
    ensures ok { OnOk result (Grows (S.taken sink.old) (S.taken sink.new) bytes.now) }
    ensures err { OnErr result (GrowsPartly (S.taken sink.old) (S.taken sink.new) bytes.now) }
{
    let mut at = 0;
    while at < bytes.len() {
        at += sink.write(&bytes[at..])?;
    }
    Ok(())
}

/// Writes a whole line. Where it fails, a front of it is written.
pub fn put<S: Sink>(sink: &mut S, line: &Line) -> Result<(), Failed>
    ensures later { S.fault_count sink.old ≤ S.fault_count sink.new }
    ensures cause { OnErr result (Rose (S.fault_count sink.old) (S.fault_count sink.new)) }
    ensures unfaulted { OnOk result (S.fault_count sink.new ≡ S.fault_count sink.old) }
    ensures ok { OnOk result (Grows (S.taken sink.old) (S.taken sink.new) line.now) }
    ensures err { OnErr result (GrowsPartly (S.taken sink.old) (S.taken sink.new) line.now) }
{
    put_bytes(sink, line.as_slice())
}

// Writes an item whose line is made whole first. A call of its own, as most items go on in the line that is open, and a line has room for the longest.
#[inline(never)]
fn put_made<S: Sink>(sink: &mut S, before: Option<u8>, i: &Item) -> Result<(), Failed>
    requires { FitsItem i.now }
    ensures later { S.fault_count sink.old ≤ S.fault_count sink.new }
    ensures cause { OnErr result (Rose (S.fault_count sink.old) (S.fault_count sink.new)) }
    ensures unfaulted { OnOk result (S.fault_count sink.new ≡ S.fault_count sink.old) }
    ensures ok { OnOk result (Grows (S.taken sink.old) (S.taken sink.new) (item_text before i.now)) }
    ensures err { OnErr result (GrowsPartly (S.taken sink.old) (S.taken sink.new) (item_text before i.now)) }
{
    let line = item_line(before, i);
    put(sink, &line)
}

/// Writes an item behind the line before, which is open where it is a terminal's of this number. Where it fails, a front of its bytes is written.
pub fn put_item<S: Sink>(sink: &mut S, before: Option<u8>, i: &Item) -> Result<(), Failed>
    requires { FitsItem i.now }
    ensures later { S.fault_count sink.old ≤ S.fault_count sink.new }
    ensures cause { OnErr result (Rose (S.fault_count sink.old) (S.fault_count sink.new)) }
    ensures unfaulted { OnOk result (S.fault_count sink.new ≡ S.fault_count sink.old) }
    ensures ok { OnOk result (Grows (S.taken sink.old) (S.taken sink.new) (item_text before i.now)) }
    ensures err { OnErr result (GrowsPartly (S.taken sink.old) (S.taken sink.new) (item_text before i.now)) }
{
    if let Item::Char(t, c) = i {
        if goes_on(before, *t, *c) {
            let text = escaped(*c);
            return put_bytes(sink, text.as_slice());
        }
    }
    put_made(sink, before, i)
}
