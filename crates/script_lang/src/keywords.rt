// The events of lines, told apart by their keywords.
ghost use Rattle.std.specs.Prelude.{MatchOption};
ghost use Rattle.script_texts.specs.Script.{Spells};
ghost use Rattle.script_lang.specs.Grammar.{IsOfFile, IsOfMachine, IsOfTerminal, SpellsNone, SpellsNoneOf};

use crate::events::{
    auto, drum, evict, examine, file, forks, login, poke, run, show_page, start, trace, type_in,
    words,
};
use script_texts::Event;

/// The event that a line spells. None exactly where it spells none.
pub(crate) fn event(line: &[u8]) -> Option<Event>
    ensures { MatchOption result (SpellsNone line.now) (Spells line.now) }
{
    if let Some(event) = terminal_event(line) {
        return Some(event);
    }
    if let Some(event) = machine_event(line) {
        return Some(event);
    }
    file_event(line)
}

// The event at a terminal that a line spells. POKE is by far the most frequent line of long scripts.
fn terminal_event(line: &[u8]) -> Option<Event>
    ensures { MatchOption result (SpellsNoneOf IsOfTerminal line.now) (Spells line.now) }
{
    if let Some(rest) = line.strip_prefix(b"POKE ") {
        return poke(rest);
    }
    if let Some(rest) = line.strip_prefix(b"TYPE ") {
        return type_in(rest);
    }
    if let Some(rest) = line.strip_prefix(b"LOGIN ") {
        return login(rest);
    }
    if let Some(rest) = line.strip_prefix(b"START ") {
        return start(rest);
    }
    if let Some(rest) = line.strip_prefix(b"EXAMINE ") {
        return examine(rest);
    }
    if let Some(rest) = line.strip_prefix(b"FORKS ") {
        return forks(rest);
    }
    None
}

// The event of the whole machine that a line spells.
fn machine_event(line: &[u8]) -> Option<Event>
    ensures { MatchOption result (SpellsNoneOf IsOfMachine line.now) (Spells line.now) }
{
    if let Some(rest) = line.strip_prefix(b"RUN ") {
        return run(rest);
    }
    if line == b"TICK".as_slice() {
        return Some(Event::Tick);
    }
    if let Some(rest) = line.strip_prefix(b"EVICT ") {
        return evict(rest);
    }
    if let Some(rest) = line.strip_prefix(b"DRUM ") {
        return drum(rest);
    }
    if let Some(rest) = line.strip_prefix(b"AUTO ") {
        return auto(rest);
    }
    if let Some(rest) = line.strip_prefix(b"TRACE ") {
        return trace(rest);
    }
    None
}

// The event of a file that a line spells.
fn file_event(line: &[u8]) -> Option<Event>
    ensures { MatchOption result (SpellsNoneOf IsOfFile line.now) (Spells line.now) }
{
    if let Some(rest) = line.strip_prefix(b"FILE ") {
        return file(rest);
    }
    if let Some(rest) = line.strip_prefix(b"WORDS ") {
        return words(rest);
    }
    if let Some(rest) = line.strip_prefix(b"PAGE ") {
        return show_page(rest);
    }
    None
}
