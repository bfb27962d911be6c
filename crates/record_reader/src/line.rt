// One line of a record.
ghost use Rattle.std.specs.Prelude.{◌≡◌, ◌↔◌, ◌++◌, IsTrue, MatchOption, codes};
ghost use Rattle.script_texts.specs.Limits.{FitsEvent, IsOuter};
ghost use Rattle.script_texts.specs.Texts.{line_of, same_turn};
ghost use Rattle.script_texts.specs.declared.event.Event.{Event as AnEvent};
ghost use Rattle.record_reader.specs.Order.{MayFollow, turns_on};
ghost use Rattle.record_reader.specs.OneLine.{IsEventLine, IsLineOf, IsNoLine, told, told_last};

use crate::number::number;
use line_buffer::MOST_LINE;
use machine_names::{ForkName, LAST_SERIAL, TERMINALS, Tty};
use outside::MOST_DRUM_PAGES;
use script_lang::{LineRoom, MOST_TURNS, Read, cut, read_line, write_line};
use script_texts::{Event, Step};

// The sizes that a drum may have.
const FEWEST_PAGES: u64 = 256;

const MOST_PAGES: u64 = MOST_DRUM_PAGES as u64;

/// What a line of a record says.
#[derive(Clone, Copy)]
pub enum Said {
    /// The record is of version 2, and this is the size of the drum.
    Version(u32),
    /// So many equal turns; or an event, once.
    Run(Step, u64),
    /// How often the drum was read and written.
    Counts(u64, u64),
}

/// What a line without its line feed says. None exactly where it is no line of a record.
pub(crate) fn read(text: &[u8]) -> Option<Said>
    ensures { MatchOption result (IsNoLine text.now) (λ s. IsLineOf text.now (told s)) }
{
    if let Some(rest) = text.strip_prefix(b"U ") {
        return units(rest);
    }
    if let Some(rest) = text.strip_prefix(b"I ") {
        return idles(rest);
    }
    if let Some(rest) = text.strip_prefix(b"V ") {
        return version(rest);
    }
    if let Some(rest) = text.strip_prefix(b"E ") {
        return counts(rest);
    }
    match event(text) {
        Some(event) => Some(Said::Run(Step::Outer(event), 1)),
        None => None,
    }
}

/// How many turns a line has.
pub(crate) fn turns_of(said: &Said) -> u64
    ensures { result ≡ turns_on (told said.now) }
{
    match said {
        Said::Run(Step::Outer(_), _) => 0,
        Said::Run(_, n) => *n,
        _ => 0,
    }
}

/// Whether a line may stand behind the one that came last, if one did.
pub(crate) fn may_follow(last: &Option<Said>, said: &Said) -> bool
    ensures { IsTrue result ↔ MayFollow (told_last last.now) (told said.now) }
{
    match last {
        None => true,
        Some(Said::Counts(_, _)) => false,
        Some(Said::Version(_)) => !matches!(said, Said::Version(_)),
        Some(Said::Run(s, _)) => match said {
            Said::Version(_) => false,
            Said::Run(t, _) => !same_turn(s, t),
            Said::Counts(_, _) => true,
        },
    }
}

// Whether two steps are equal turns.
fn same_turn(s: &Step, t: &Step) -> bool
    ensures { result ≡ same_turn s.now t.now }
{
    match (s, t) {
        (Step::Unit(f), Step::Unit(g)) => f.tty.0 == g.tty.0 && f.serial == g.serial,
        (Step::Idle, Step::Idle) => true,
        _ => false,
    }
}

// The version, and the size of the drum, that stand behind the letter.
fn version(rest: &[u8]) -> Option<Said>
    ensures { MatchOption result (IsNoLine (codes "V " ++ rest.now)) (λ s. IsLineOf (codes "V " ++ rest.now) (told s)) }
{
    let pages = number(rest.strip_prefix(b"2 ")?)?;
    if pages < FEWEST_PAGES || pages > MOST_PAGES {
        return None;
    }
    Some(Said::Version(pages as u32))
}

// The fork, and how many units of it, that stand behind the letter.
fn units(rest: &[u8]) -> Option<Said>
    ensures { MatchOption result (IsNoLine (codes "U " ++ rest.now)) (λ s. IsLineOf (codes "U " ++ rest.now) (told s)) }
{
    let (terminal, rest) = cut(rest, b' ')?;
    let (serial, count) = cut(rest, b' ')?;
    let terminal = number(terminal)?;
    let serial = number(serial)?;
    let count = number(count)?;
    if terminal >= TERMINALS as u64 || serial < 1 || serial > LAST_SERIAL as u64 {
        return None;
    }
    if count < 1 || count > MOST_TURNS {
        return None;
    }
    let name = ForkName {
        tty: Tty(terminal as u8),
        serial: serial as u32,
    };
    Some(Said::Run(Step::Unit(name), count))
}

// How many idle entries, which stands behind the letter.
fn idles(rest: &[u8]) -> Option<Said>
    ensures { MatchOption result (IsNoLine (codes "I " ++ rest.now)) (λ s. IsLineOf (codes "I " ++ rest.now) (told s)) }
{
    let count = number(rest)?;
    if count < 1 || count > MOST_TURNS {
        return None;
    }
    Some(Said::Run(Step::Idle, count))
}

// How often the drum was read and written, which stands behind the letter.
fn counts(rest: &[u8]) -> Option<Said>
    ensures { MatchOption result (IsNoLine (codes "E " ++ rest.now)) (λ s. IsLineOf (codes "E " ++ rest.now) (told s)) }
{
    let (reads, writes) = cut(rest, b' ')?;
    Some(Said::Counts(number(reads)?, number(writes)?))
}

// The event whose canonical line this is, if a record has it as a line.
fn event(text: &[u8]) -> Option<Event>
    ensures { MatchOption result ((e : AnEvent) → IsEventLine text.now e → ⊥) (IsEventLine text.now) }
{
    match read_line(text) {
        Read::One(event) => {
            if is_recorded(&event) && is_canonical(&event, text) {
                Some(event)
            } else {
                None
            }
        }
        _ => None,
    }
}

// Whether an event is an entry of its own.
fn is_recorded(event: &Event) -> bool
    ensures { IsTrue result ↔ IsOuter event.now }
{
    !matches!(
        event,
        Event::Run(_) | Event::Evict(_) | Event::Drum(_) | Event::Auto(_)
    )
}

// Whether a text is the canonical line of an event.
fn is_canonical(event: &Event, text: &[u8]) -> bool
    requires { FitsEvent event.now }
    ensures { IsTrue result ↔ text.now ≡ line_of event.now }
{
    let mut room: LineRoom = [0; MOST_LINE];
    let count = write_line(event, &mut room);
    &room[..count] == text
}
