// Events as they are compared.
use script_lang::{Read, read_line};
use script_texts::Event;

// Both are the same event.
pub fn is_event(got: &Event, want: &Event) -> bool {
    match (got, want) {
        (Event::Login(t, user), Event::Login(tty, name)) => t == tty && user == name,
        (Event::TypeIn(t, text), Event::TypeIn(tty, typed)) => t == tty && text == typed,
        (Event::File(file), Event::File(name)) => file == name,
        (Event::Words(file, page, offset, row), Event::Words(name, number, place, words)) => {
            file == name
                && (*page, *offset) == (*number, *place)
                && (row.count, row.words) == (words.count, words.words)
        }
        (Event::Poke(t, address, word), Event::Poke(tty, place, number)) => {
            (*t, *address, *word) == (*tty, *place, *number)
        }
        (Event::Start(t, address), Event::Start(tty, place)) => (*t, *address) == (*tty, *place),
        (Event::Run(n), Event::Run(units)) => n == units,
        (Event::Tick, Event::Tick) => true,
        (Event::Evict(n), Event::Evict(frame)) => n == frame,
        (Event::Drum(n), Event::Drum(transfers)) => n == transfers,
        (Event::Auto(on), Event::Auto(is_on)) => on == is_on,
        (Event::Examine(t, serial, address), Event::Examine(tty, fork, place)) => {
            (*t, *serial, *address) == (*tty, *fork, *place)
        }
        (Event::Forks(t), Event::Forks(tty)) => t == tty,
        (Event::Page(file, page), Event::Page(name, number)) => file == name && page == number,
        (Event::Trace(on), Event::Trace(is_on)) => on == is_on,
        _ => false,
    }
}

// A line spells this event.
pub fn spells(line: &[u8], event: &Event) -> bool {
    match read_line(line) {
        Read::One(read) => is_event(&read, event),
        Read::Nothing | Read::Bad => false,
    }
}
