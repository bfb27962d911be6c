// The entries of maps as words.
ghost use Rattle.share_table.specs.Pointers.{IsPointer};

use crate::same::{same, same_at};
use machine_names::Access;
use page_homes::Home;
use share_table::{Pointer, Share, decode, encode};
use std::process::Abort;
use word36::Word;

// What the letters say.
fn access(text: &str) -> Access {
    Access {
        r: text.contains('R'),
        w: text.contains('W'),
        x: text.contains('X'),
        c: text.contains('C'),
    }
}

// An entry has this word, and no other entry has it.
fn has(rt: &impl Abort, pointer: Pointer, word: u64)
    requires { IsPointer pointer }
{
    same_at(rt, word, encode(pointer).value(), word);
    same_at(rt, word, decode(Word::wrapped(word)), Some(pointer));
}

#[test]
fn entries_and_their_words(rt: HostRuntime) {
    has(&rt, Pointer::Empty, 0o000000000000);
    has(&rt, Pointer::Private(Home(0), access("")), 0o200000000000);
    has(
        &rt,
        Pointer::Private(Home(0o1234), access("RW")),
        0o340000001234,
    );
    has(
        &rt,
        Pointer::Private(Home(0o37777), access("RWXC")),
        0o370000037777,
    );
    has(&rt, Pointer::Shared(Share(5), access("R")), 0o500000000005);
    has(
        &rt,
        Pointer::Shared(Share(0o37777), access("XC")),
        0o430000037777,
    );
    has(&rt, Pointer::Indirect(1, 0, access("W")), 0o640000000001);
    has(
        &rt,
        Pointer::Indirect(0o777777, 0o777, access("RXC")),
        0o730777777777,
    );
    has(
        &rt,
        Pointer::Indirect(0o17, 0o5, access("C")),
        0o610005000017,
    );
}

#[test]
fn words_of_no_entry(rt: HostRuntime) {
    for word in [
        0o000000000001,
        0o100000000000,
        0o010000000000,
        0o000001000000,
        0o204000001234,
        0o201000001234,
        0o200001001234,
        0o200000040000,
        0o500000400005,
        0o500001000005,
        0o500000040000,
        0o640000000000,
        0o644000000001,
        0o601000000001,
    ] {
        same_at(&rt, word, decode(Word::wrapped(word)), None);
    }
}
