// Generated scripts.
ghost use Rattle.script_texts.specs.Limits.{FitsEvent};

use script_lang::{LineRoom, big_from, write_line};
use script_texts::Event;
use std::io::{self, Write};

/// As many events as the longest generated script has at most, and more.
const MOST_EVENTS: usize = 1000;

/// Prints the canonical line of an event.
fn show_event<W: Write>(event: &Event, out: &mut W) -> io::Result<()>
    requires { FitsEvent event.now }
{
    let mut room: LineRoom = [0; 256];
    let length = write_line(event, &mut room);
    out.write_all(&room[..length])
}

/// Prints the event that comes behind so many of the script of a seed.
pub(crate) fn show_later<W: Write>(seed: u32, events: usize, out: &mut W) -> io::Result<()> {
    let mut big = big_from(seed);
    for _ in 0..events {
        let _ = big.next();
    }
    match big.next() {
        Some(event) => show_event(&event, out),
        None => out.write_all(b"END"),
    }
}

/// Prints the script of a seed, event by event, and that there is none behind the last, nor behind that.
pub(crate) fn show_generated<W: Write>(seed: u32, out: &mut W) -> io::Result<()> {
    let mut big = big_from(seed);
    for _ in 0..MOST_EVENTS {
        let Some(event) = big.next() else {
            break;
        };
        out.write_all(b"\n")?;
        show_event(&event, out)?;
    }
    out.write_all(b"\nEND")?;
    if big.next().is_none() {
        out.write_all(b" END")?;
    }
    Ok(())
}
