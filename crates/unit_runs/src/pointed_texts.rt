// Texts at byte pointers, read in the space of a fork.
ghost use Rattle.std.specs.Prelude.{◌≡◌, ◌≤◌, ◌<◌, ◌+◌, ◌^◌, true, length};
ghost use Rattle.plain_pages.specs.References.{slot_at};
ghost use Rattle.page_homes.specs.declared.homes.TheConstants.{MOST_HOMES};
ghost use Rattle.ka10_unit.specs.Gathers.{Serves};

use crate::same::same_at;
use crate::top::{TOP, add_top};
use flat_pages::{FlatSlots, FlatStore};
use ka10_unit::Stop;
use machine_names::{Access, Kind, Place, Slot};
use outside::Memory;
use page_contracts::{Pages, Seen, Touch};
use plain_pages::NewEntry;
use plain_units::Regs;
use std::alloc::Global;
use std::process::Abort;
use text_pointers::{Scratch, Text, text_at};
use word36::{Flags, Word};

// Five characters of seven bits, and two.
const HELLO: u64 = 0o442131446236;

const WO: u64 = 0o536360000000;

// The words of the space, in six pages. Page 5 can't be read, and page 8 isn't there.
const WORDS: [(u32, u64); 22] = [
    // a text, and where it is
    (0o1000, HELLO),
    (0o1001, WO),
    (0o1100, 0o000000001000),
    // an indirect word that names itself
    (0o1101, 0o000020001101),
    // bytes of 36 bits, of six, and of nine
    (0o1200, 1),
    (0o1201, 0o777777777777),
    (0o1210, 0o010203040506),
    (0o1220, 0o401377007000),
    // a text over a page's end
    (0o1777, HELLO),
    (0o2000, WO),
    // a text of 39 characters
    (0o2100, HELLO),
    (0o2101, HELLO),
    (0o2102, HELLO),
    (0o2103, HELLO),
    (0o2104, HELLO),
    (0o2105, HELLO),
    (0o2106, HELLO),
    (0o2107, 0o442131446000),
    // texts before a page that can't be read, and before one that isn't there
    (0o4777, HELLO),
    (0o5000, WO),
    (0o7777, HELLO),
    // a text over the end of the space
    (0o777777, HELLO),
];

/// What is read.
#[derive(Clone, Copy)]
enum Read {
    Text(&'static [u64]),
    NoText,
    Trap(u8),
}

/// A pointer, what is read there, and how many pages and forks there are when its pages are made.
type Row = (u64, Read, u32);

// A page of the fork's space, by an address in it.
fn page_of(at: u32) -> Place
    requires { at < 2 ^ 18 }
    ensures { result ≡ Place.Fork (slot_at TOP at) }
{
    Place::Fork(Slot {
        fork: TOP,
        page: (at / 512) as u16,
    })
}

// A word is put at an address.
fn put<P: Pages>(pages: &mut P, at: u32, word: u64)
    requires address { at < 2 ^ 18 }
    requires lives { P.means.lives pages.old TOP ≡ true }
    requires serial { P.means.serial pages.old TOP.tty < 1000 }
    ensures lives { P.means.lives pages.new TOP ≡ true }
    ensures serial { P.means.serial pages.new TOP.tty ≤ P.means.serial pages.old TOP.tty + 1 }
{
    let place = page_of(at);
    if let Touch::Zero = pages.touch(place, Kind::Write) {
        pages.settle(place, Kind::Write, TOP.tty);
    }
    if let Touch::Ready = pages.touch(place, Kind::Write) {
        pages.put(place, (at % 512) as u16, Word::wrapped(word));
    }
}

// The words are put into the space.
fn put_words<P: Pages>(pages: &mut P, words: &[(u32, u64)])
    requires few { length words.now < 100 }
    requires lives { P.means.lives pages.old TOP ≡ true }
    requires serial { P.means.serial pages.old TOP.tty ≤ 1 }
    ensures lives { P.means.lives pages.new TOP ≡ true }
    ensures serial { P.means.serial pages.new TOP.tty ≤ 101 }
{
    for number in 0..words.len() {
        let (at, word) = words[number];
        put(pages, at % 0o1_000_000, word);
    }
}

// A page can't be read any more.
fn deny<P: Pages>(pages: &mut P, page: u16)
    requires page { page < 512 }
    requires lives { P.means.lives pages.old TOP ≡ true }
    ensures lives { P.means.lives pages.new TOP ≡ true }
    ensures serials { P.means.serial pages.new ≡ P.means.serial pages.old }
{
    let slot = Slot { fork: TOP, page };
    let none = Access {
        r: false,
        w: false,
        x: false,
        c: false,
    };
    if let Seen::Is(_) = pages.entry(slot) {
        pages.set_entry(slot, NewEntry::Narrow(none));
    }
}

// The bytes are those that are wanted.
fn are_bytes(bytes: &[Word], wanted: &[u64]) -> bool {
    if bytes.len() != wanted.len() {
        return false;
    }
    for at in 0..wanted.len() {
        if bytes[at].value() != wanted[at] {
            return false;
        }
    }
    true
}

// What was read is what was wanted.
fn is_text(text: &Option<Text>, wanted: Read) -> bool {
    match (text, wanted) {
        (Some(bytes), Read::Text(wanted)) => are_bytes(bytes.as_slice(), wanted),
        (None, Read::NoText) => true,
        _ => false,
    }
}

// The text at a pointer is read, its pages are made, and it is what was wanted.
fn reads<P: Pages>(pages: &mut P, regs: &Regs, pointer: u64, wanted: Read) -> bool
    requires serves { Serves P.means pages.old TOP }
    requires serial { P.means.serial pages.old TOP.tty < 1000 }
{
    let mut scratch = Scratch::new();
    match text_at(&mut scratch, regs, pages, TOP, Word::wrapped(pointer)) {
        Ok(text) => {
            scratch.reader.make(pages);
            is_text(&text, wanted)
        }
        Err(Stop::Trap(channel)) => match wanted {
            Read::Trap(wanted) => channel == wanted,
            _ => false,
        },
        Err(Stop::Need(_)) => false,
    }
}

// Accumulator 5 has 123,,000002; a text stands in 6 and 7, and forty characters in 10 to 17.
fn registers() -> Regs {
    let mut ac = [Word::wrapped(HELLO); 16];
    ac[0] = Word::ZERO;
    ac[5] = Word::wrapped(0o123000000002);
    ac[7] = Word::wrapped(WO);
    Regs {
        ac,
        pc: 0o100,
        flags: Flags::CLEAR,
    }
}

// Whether it is read so in a new space with so many pages at most, and how many there are then.
fn come_out(alloc: Global, limit: u32, pointer: u64, wanted: Read) -> Result<(bool, u32), Memory>
    requires some { 1 ≤ limit }
    requires limit { limit ≤ MOST_HOMES }
{
    let store = FlatStore::boot(alloc, limit)?;
    let mut pages = FlatSlots::boot(alloc, store, limit)?;
    add_top(&mut pages);
    put_words(&mut pages, &WORDS);
    deny(&mut pages, 5);
    let is_so = reads(&mut pages, &registers(), pointer, wanted);
    Ok((is_so, pages.live()))
}

const HELLO_WO: [u64; 7] = [0o110, 0o105, 0o114, 0o114, 0o117, 0o127, 0o117];

const ELLO_WO: [u64; 6] = [0o105, 0o114, 0o114, 0o117, 0o127, 0o117];

const ONLY_HELLO: [u64; 5] = [0o110, 0o105, 0o114, 0o114, 0o117];

const LONG: [u64; 39] = [
    0o110, 0o105, 0o114, 0o114, 0o117, 0o110, 0o105, 0o114, 0o114, 0o117, 0o110, 0o105, 0o114,
    0o114, 0o117, 0o110, 0o105, 0o114, 0o114, 0o117, 0o110, 0o105, 0o114, 0o114, 0o117, 0o110,
    0o105, 0o114, 0o114, 0o117, 0o110, 0o105, 0o114, 0o114, 0o117, 0o110, 0o105, 0o114, 0o114,
];

const TEXTS: [Row; 20] = [
    // written out, in short, and with the next byte elsewhere in a word
    (0o440700001000, Read::Text(&HELLO_WO), 7),
    (0o777777001000, Read::Text(&HELLO_WO), 7),
    (0o350700001000, Read::Text(&ELLO_WO), 7),
    (0o010700000777, Read::Text(&HELLO_WO), 7),
    // indexed, indirect, and both
    (0o440705000776, Read::Text(&HELLO_WO), 7),
    (0o440720001100, Read::Text(&HELLO_WO), 7),
    (0o440725001076, Read::Text(&HELLO_WO), 7),
    (0o440720001101, Read::Trap(15), 7),
    // over a page's end, into a page that isn't there, into one that can't be read, and over the space's end
    (0o440700001777, Read::Text(&HELLO_WO), 7),
    (0o440700007777, Read::Text(&ONLY_HELLO), 8),
    (0o440700004777, Read::Trap(16), 7),
    (0o440700777777, Read::Text(&ONLY_HELLO), 7),
    // 39 characters, and forty with no zero among them
    (0o440700002100, Read::Text(&LONG), 7),
    (0o440700000010, Read::NoText, 7),
    // in accumulators
    (0o440700000006, Read::Text(&HELLO_WO), 7),
    // bytes of other sizes
    (0o444400001200, Read::Text(&[1, 0o777777777777]), 7),
    (0o440600001210, Read::Text(&[1, 2, 3, 4, 5, 6]), 7),
    (0o441100001220, Read::Text(&[0o401, 0o377, 7]), 7),
    (0o440000001000, Read::Text(&[]), 7),
    (0o440700000777, Read::Text(&[]), 8),
];

#[test]
fn texts_at_pointers(rt: HostRuntime) {
    for &(pointer, wanted, live) in &TEXTS {
        let Ok((is_so, found)) = come_out(rt.alloc(), 8, pointer, wanted) else {
            rt.panic("no memory")
        };
        same_at(&rt, pointer, is_so, true);
        same_at(&rt, pointer, found, live);
    }
}

#[test]
fn a_page_that_a_text_wants_on_a_full_drum(rt: HostRuntime) {
    let Ok((is_so, found)) = come_out(rt.alloc(), 7, 0o440700007777, Read::Trap(20)) else {
        rt.panic("no memory")
    };
    same_at(&rt, "full", is_so, true);
    same_at(&rt, "full", found, 7);
}
