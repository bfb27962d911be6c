// Each kind of event with its canonical line. What other lines are, rows of script_line_rows say.
use crate::events::is_event;
use crate::same::same_for;
use machine_names::{DirName, FileName, Tty, TypedText};
use script_lang::{LineRoom, Read, read_line, write_line};
use script_texts::{Event, WordRow};
use std::process::Abort;
use word36::Word;

// Whether a line spells this event, and is the canonical line of it.
fn is_line_of(room: &mut LineRoom, line: &[u8], want: &Event) -> bool {
    match read_line(line) {
        Read::One(event) => {
            let length = write_line(&event, room);
            is_event(&event, want) && &room[..length] == line
        }
        Read::Nothing | Read::Bad => false,
    }
}

// This is the canonical line of an event.
fn writes(rt: &impl Abort, event: Event, line: &[u8]) {
    same_for(rt, line, is_line_of(&mut [0; 256], line, &event), true);
}

#[test]
fn writes_lines_of_terminals(rt: HostRuntime) {
    let word = Word::join(0o000350, 0o000007);
    writes(
        &rt,
        Event::Login(Tty(15), DirName::new(b"A-Z09")),
        b"LOGIN 15 A-Z09",
    );
    writes(
        &rt,
        Event::Poke(Tty(0), 0o100, word),
        b"POKE 0 100 350000007",
    );
    writes(&rt, Event::Start(Tty(10), 0o777777), b"START 10 777777");
    writes(
        &rt,
        Event::Examine(Tty(3), 999_999, 0o17),
        b"EXAMINE 3 999999 17",
    );
    writes(&rt, Event::Forks(Tty(12)), b"FORKS 12");
    writes(
        &rt,
        Event::TypeIn(Tty(1), TypedText::new(b" A\\~\x7f\r\n\0")),
        b"TYPE 1  A\\134~\\177\\015\\012\\000",
    );
}

#[test]
fn writes_lines_of_counts(rt: HostRuntime) {
    writes(&rt, Event::Run(1_000_000), b"RUN 1000000");
    writes(&rt, Event::Tick, b"TICK");
    writes(&rt, Event::Evict(9_999_999), b"EVICT 9999999");
    writes(&rt, Event::Drum(0), b"DRUM 0");
    writes(&rt, Event::Auto(true), b"AUTO ON");
    writes(&rt, Event::Trace(true), b"TRACE ON");
}

#[test]
fn writes_lines_of_files(rt: HostRuntime) {
    let name = FileName::new(b"<SYS>A-1.");
    let mut words = [Word::ZERO; 8];
    words[0] = Word::join(0o777777, 0o777777);
    let row = WordRow { count: 2, words };
    writes(&rt, Event::File(name), b"FILE <SYS>A-1.");
    writes(
        &rt,
        Event::Words(name, 0o20, 0o776, row),
        b"WORDS <SYS>A-1. 20 776 777777777777 0",
    );
    writes(&rt, Event::Page(name, 0o777), b"PAGE <SYS>A-1. 777");
}
