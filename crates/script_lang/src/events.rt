// The events of lines, read from what stands behind their keywords.
ghost use Rattle.std.specs.Prelude.{codes};
ghost use Rattle.script_lang.specs.Grammar.{IsRead};

use crate::fields::{
    address, address_field, cut, head, page, page_field, read_decimal, serial_field, switch, tty,
    tty_field, word,
};
use crate::names::{dir_name, file_name};
use crate::rows::row;
use crate::typed::typed;
use outside::PAGE_WORDS;
use script_texts::Event;

// How many decimal digits a number of units, of a frame or of transfers has at most.
const COUNT_DIGITS: usize = 7;

// How many units one line runs at most.
const MOST_UNITS: u32 = 1_000_000;

// How many bytes stand behind TYPE at most.
const MOST_BEHIND_TYPE: usize = 251;

/// A terminal, and a user.
pub(crate) fn login(rest: &[u8]) -> Option<Event>
    ensures { IsRead (codes "LOGIN ") rest.now result }
{
    let (tty, user) = tty_field(rest)?;
    Some(Event::Login(tty, dir_name(user)?))
}

/// A terminal, and 1 to 100 characters.
pub(crate) fn type_in(rest: &[u8]) -> Option<Event>
    ensures { IsRead (codes "TYPE ") rest.now result }
{
    if rest.len() > MOST_BEHIND_TYPE {
        return None;
    }
    let (tty, text) = tty_field(rest)?;
    let text = typed(text)?;
    if text.as_slice().is_empty() {
        return None;
    }
    Some(Event::TypeIn(tty, text))
}

/// A file's name.
pub(crate) fn file(rest: &[u8]) -> Option<Event>
    ensures { IsRead (codes "FILE ") rest.now result }
{
    Some(Event::File(file_name(rest)?))
}

/// A file's name, a page, an offset in it, and 1 to 8 words that lie within the page from there on.
pub(crate) fn words(rest: &[u8]) -> Option<Event>
    ensures { IsRead (codes "WORDS ") rest.now result }
{
    let (front, rest) = cut(rest, b' ')?;
    let name = file_name(front)?;
    let (number, rest) = page_field(rest)?;
    let (front, fields) = head(rest);
    let offset = page(front)?;
    let row = row(fields)?;
    if row.count == 0 || usize::from(offset) + usize::from(row.count) > PAGE_WORDS {
        return None;
    }
    Some(Event::Words(name, number, offset, row))
}

/// A terminal, an address and a word.
pub(crate) fn poke(rest: &[u8]) -> Option<Event>
    ensures { IsRead (codes "POKE ") rest.now result }
{
    let (tty, rest) = tty_field(rest)?;
    let (address, field) = address_field(rest)?;
    Some(Event::Poke(tty, address, word(field)?))
}

/// A terminal and an address.
pub(crate) fn start(rest: &[u8]) -> Option<Event>
    ensures { IsRead (codes "START ") rest.now result }
{
    let (tty, field) = tty_field(rest)?;
    Some(Event::Start(tty, address(field)?))
}

/// How many units are run: 1 to 1,000,000.
pub(crate) fn run(rest: &[u8]) -> Option<Event>
    ensures { IsRead (codes "RUN ") rest.now result }
{
    let n = read_decimal(rest, COUNT_DIGITS)?;
    if n == 0 || n > MOST_UNITS {
        return None;
    }
    Some(Event::Run(n))
}

/// The number of a frame.
pub(crate) fn evict(rest: &[u8]) -> Option<Event>
    ensures { IsRead (codes "EVICT ") rest.now result }
{
    Some(Event::Evict(read_decimal(rest, COUNT_DIGITS)?))
}

/// How many transfers are completed.
pub(crate) fn drum(rest: &[u8]) -> Option<Event>
    ensures { IsRead (codes "DRUM ") rest.now result }
{
    Some(Event::Drum(read_decimal(rest, COUNT_DIGITS)?))
}

/// ON or OFF.
pub(crate) fn auto(rest: &[u8]) -> Option<Event>
    ensures { IsRead (codes "AUTO ") rest.now result }
{
    Some(Event::Auto(switch(rest)?))
}

/// A terminal, a fork's serial and an address.
pub(crate) fn examine(rest: &[u8]) -> Option<Event>
    ensures { IsRead (codes "EXAMINE ") rest.now result }
{
    let (tty, rest) = tty_field(rest)?;
    let (serial, field) = serial_field(rest)?;
    Some(Event::Examine(tty, serial, address(field)?))
}

/// A terminal.
pub(crate) fn forks(rest: &[u8]) -> Option<Event>
    ensures { IsRead (codes "FORKS ") rest.now result }
{
    Some(Event::Forks(tty(rest)?))
}

/// A file's name and a page.
pub(crate) fn show_page(rest: &[u8]) -> Option<Event>
    ensures { IsRead (codes "PAGE ") rest.now result }
{
    let (front, field) = cut(rest, b' ')?;
    Some(Event::Page(file_name(front)?, page(field)?))
}

/// ON or OFF.
pub(crate) fn trace(rest: &[u8]) -> Option<Event>
    ensures { IsRead (codes "TRACE ") rest.now result }
{
    Some(Event::Trace(switch(rest)?))
}
