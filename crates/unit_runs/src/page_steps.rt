// What becomes of the pages of two forks, step by step.
ghost use Rattle.std.specs.Prelude.{◌≡◌, ◌≤◌, ◌<◌, ◌+◌, true, false, length};
ghost use Rattle.page_contracts.specs.Pages.{IsPlace, is_entry};

use crate::same::same_at;
use flat_pages::{FlatSlots, FlatStore};
use machine_names::{Access, ForkName, Kind, LAST_SERIAL, Place, SPACE_PAGES, Slot, Tty};
use outside::Memory;
use page_contracts::{Pages, Room, Seen, Touch};
use plain_pages::{NewEntry, NewMap};
use std::alloc::Global;
use std::process::Abort;
use word36::Word;

const TOP: ForkName = ForkName {
    tty: Tty(3),
    serial: 7,
};

const SON: ForkName = ForkName {
    tty: Tty(3),
    serial: 8,
};

// The offset whose word the steps read and write.
const OFFSET: u16 = 5;

/// What is done at a page of a fork.
#[derive(Clone, Copy)]
enum Step {
    /// A word is read, by a touch, or by a look of a kind.
    Read,
    Look(Kind),
    /// A word is written, by touches; or a look is asked that reads and writes.
    Write(u64),
    Change,
    /// The entry follows that of a page of a fork.
    Follow(u32, u16, Access),
    Narrow(Access),
    Empty,
    /// How many entries name the page, and how many pages and forks there are.
    Names,
    Live,
}

/// What comes of it.
#[derive(Clone, Copy)]
enum Came {
    Word(u64),
    /// A look finds the page, or not.
    Found(bool),
    /// The first touch.
    Touched(Touch),
    Set,
    Names(Option<u32>),
    Live(u32),
    NoFork,
}

/// A step at a page of a fork, and what is to come of it.
type Row = (ForkName, u16, Step, Came);

// The touch is the one that was wanted.
fn is_touch(touch: Touch, wanted: Touch) -> bool {
    match (touch, wanted) {
        (Touch::Ready, Touch::Ready) => true,
        (Touch::Zero, Touch::Zero) => true,
        (Touch::Full, Touch::Full) => true,
        (Touch::Copy { sole }, Touch::Copy { sole: wanted }) => sole == wanted,
        (Touch::Denied(kind), Touch::Denied(wanted)) => kind == wanted,
        _ => false,
    }
}

// It came as was wanted.
fn is_wanted(came: Came, wanted: Came) -> bool {
    match (came, wanted) {
        (Came::Word(word), Came::Word(wanted)) => word == wanted,
        (Came::Found(found), Came::Found(wanted)) => found == wanted,
        (Came::Touched(touch), Came::Touched(wanted)) => is_touch(touch, wanted),
        (Came::Names(names), Came::Names(wanted)) => names == wanted,
        (Came::Live(live), Came::Live(wanted)) => live == wanted,
        (Came::Set, Came::Set) => true,
        (Came::NoFork, Came::NoFork) => true,
        _ => false,
    }
}

// The page is made that a touch announces.
fn touched<P: Pages>(pages: &mut P, at: Place, kind: Kind) -> Touch
    requires place { IsPlace (P.means.lives pages.old) at }
    requires serial { P.means.serial pages.old Tty.CONSOLE < 1000 }
    ensures place { IsPlace (P.means.lives pages.new) at }
    ensures serial { P.means.serial pages.new Tty.CONSOLE ≤ P.means.serial pages.old Tty.CONSOLE + 1 }
{
    let touch = pages.touch(at, kind);
    match touch {
        Touch::Zero | Touch::Copy { .. } => pages.settle(at, kind, Tty::CONSOLE),
        _ => {}
    }
    touch
}

// A zero page may have to be copied too.
fn write<P: Pages>(pages: &mut P, at: Place, word: u64) -> Came
    requires place { IsPlace (P.means.lives pages.old) at }
    requires serial { P.means.serial pages.old Tty.CONSOLE < 900 }
    ensures serial { P.means.serial pages.new Tty.CONSOLE ≤ P.means.serial pages.old Tty.CONSOLE + 2 }
{
    let first = touched(pages, at, Kind::Write);
    let _second = touched(pages, at, Kind::Write);
    if let Touch::Ready = pages.touch(at, Kind::Write) {
        pages.put(at, OFFSET, Word::wrapped(word));
    }
    Came::Touched(first)
}

fn read<P: Pages>(pages: &P, at: Place) -> Came
    requires { IsPlace (P.means.lives pages.now) at }
{
    match pages.touch(at, Kind::Read) {
        Touch::Ready => Came::Word(pages.word(at, OFFSET).value()),
        touch => Came::Touched(touch),
    }
}

// The word that a look finds, if it finds one.
fn look<P: Pages>(pages: &mut P, slot: Slot, kind: Kind) -> Came
    requires lives { P.means.lives pages.old slot.fork ≡ true }
    requires page { slot.page < SPACE_PAGES }
    ensures { P.means.serial pages.new ≡ P.means.serial pages.old }
{
    let space = pages.space(slot.fork);
    match pages.find(space, slot.page, kind) {
        Some(found) => {
            let address = u32::from(slot.page) * 512 + u32::from(OFFSET);
            Came::Word(pages.load(space, found, address).value())
        }
        None => Came::Found(false),
    }
}

fn change<P: Pages>(pages: &P, slot: Slot) -> Came
    requires lives { P.means.lives pages.now slot.fork ≡ true }
    requires page { slot.page < SPACE_PAGES }
{
    let space = pages.space(slot.fork);
    Came::Found(pages.find_to_change(space, slot.page).is_some())
}

// What is done at an entry that there is.
fn done_at<P: Pages>(pages: &mut P, slot: Slot, step: Step) -> Came
    requires lives { P.means.lives pages.old slot.fork ≡ true }
    requires page { slot.page < SPACE_PAGES }
    requires seen { is_entry (P.means.seen pages.old slot) ≡ true }
    requires serial { P.means.serial pages.old Tty.CONSOLE < 900 }
    ensures serial { P.means.serial pages.new Tty.CONSOLE ≤ P.means.serial pages.old Tty.CONSOLE + 2 }
{
    let at = Place::Fork(slot);
    match step {
        Step::Read => read(pages, at),
        Step::Look(kind) => look(pages, slot, kind),
        Step::Write(word) => write(pages, at, word),
        Step::Change => change(pages, slot),
        Step::Follow(serial, page, access) => {
            let serial = serial.max(1).min(LAST_SERIAL);
            pages.set_entry(slot, NewEntry::Follows(serial, page % 512, access));
            Came::Set
        }
        Step::Narrow(access) => {
            pages.set_entry(slot, NewEntry::Narrow(access));
            Came::Set
        }
        Step::Empty => {
            pages.set_entry(slot, NewEntry::Empty);
            Came::Set
        }
        Step::Names => match pages.page_at(at) {
            Some((_, names)) => Came::Names(Some(names)),
            None => Came::Names(None),
        },
        Step::Live => Came::Live(pages.live()),
    }
}

fn done<P: Pages>(pages: &mut P, slot: Slot, step: Step) -> Came
    requires page { slot.page < SPACE_PAGES }
    requires serial { P.means.serial pages.old Tty.CONSOLE < 900 }
    ensures serial { P.means.serial pages.new Tty.CONSOLE ≤ P.means.serial pages.old Tty.CONSOLE + 2 }
{
    match pages.entry(slot) {
        Seen::Is(_) => done_at(pages, slot, step),
        _ => Came::NoFork,
    }
}

// Two forks begin, and each entry of the second follows the same of the first.
fn begin<P: Pages>(pages: &mut P)
    requires top { P.means.lives pages.old TOP ≡ false }
    requires son { P.means.lives pages.old SON ≡ false }
    requires few { P.means.forks_of pages.old (TOP).tty + 1 < P.means.most_forks }
    ensures { P.means.serial pages.new ≡ P.means.serial pages.old }
{
    if let Room::Enough = pages.room(1) {
        pages.add_fork(TOP, NewMap::Empty);
        if let Room::Enough = pages.room(1) {
            pages.add_fork(SON, NewMap::FollowAll(TOP));
        }
    }
}

/// The number of the first step that comes out otherwise.
fn first_wrong<P: Pages>(pages: &mut P, rows: &[Row]) -> Option<usize>
    requires top { P.means.lives pages.old TOP ≡ false }
    requires son { P.means.lives pages.old SON ≡ false }
    requires few { P.means.forks_of pages.old (TOP).tty + 1 < P.means.most_forks }
    requires serial { P.means.serial pages.old Tty.CONSOLE ≤ 1 }
    requires rows { length rows.now < 100 }
{
    begin(pages);
    for number in 0..rows.len() {
        let (fork, page, what, wanted) = rows[number];
        let came = done(
            pages,
            Slot {
                fork,
                page: page % 512,
            },
            what,
        );
        if !is_wanted(came, wanted) {
            return Some(number);
        }
    }
    None
}

const FULL: Access = Access {
    r: true,
    w: true,
    x: true,
    c: false,
};

// To be copied before it is written.
const MARKED: Access = Access {
    r: true,
    w: false,
    x: true,
    c: true,
};

const READ: Access = Access {
    r: true,
    w: false,
    x: false,
    c: false,
};

const CHAINS: [Row; 25] = [
    // four entries
    (TOP, 4, Step::Write(0o11), Came::Touched(Touch::Zero)),
    (TOP, 3, Step::Follow(7, 4, FULL), Came::Set),
    (TOP, 2, Step::Follow(7, 3, FULL), Came::Set),
    (TOP, 1, Step::Follow(7, 2, FULL), Came::Set),
    (TOP, 1, Step::Read, Came::Word(0o11)),
    (TOP, 1, Step::Look(Kind::Read), Came::Word(0o11)),
    (TOP, 1, Step::Write(0o22), Came::Touched(Touch::Ready)),
    (TOP, 4, Step::Read, Came::Word(0o22)),
    (TOP, 1, Step::Change, Came::Found(true)),
    (SON, 2, Step::Look(Kind::Execute), Came::Word(0o22)),
    // five
    (TOP, 0, Step::Follow(7, 1, FULL), Came::Set),
    (TOP, 0, Step::Read, Came::Touched(Touch::Denied(Kind::Read))),
    (TOP, 0, Step::Look(Kind::Read), Came::Found(false)),
    (
        SON,
        1,
        Step::Write(1),
        Came::Touched(Touch::Denied(Kind::Write)),
    ),
    (SON, 1, Step::Change, Came::Found(false)),
    // an entry that follows itself
    (TOP, 9, Step::Follow(7, 9, FULL), Came::Set),
    (
        TOP,
        9,
        Step::Write(1),
        Came::Touched(Touch::Denied(Kind::Write)),
    ),
    (TOP, 9, Step::Look(Kind::Write), Came::Found(false)),
    // one that follows that of a fork that isn't there
    (TOP, 10, Step::Follow(9, 4, FULL), Came::Set),
    (
        TOP,
        10,
        Step::Read,
        Came::Touched(Touch::Denied(Kind::Read)),
    ),
    (TOP, 10, Step::Look(Kind::Read), Came::Found(false)),
    // a page that is made at the end of a chain
    (SON, 6, Step::Write(0o33), Came::Touched(Touch::Zero)),
    (TOP, 6, Step::Look(Kind::Read), Came::Word(0o33)),
    (SON, 6, Step::Live, Came::Live(4)),
    (
        ForkName {
            tty: Tty(4),
            serial: 7,
        },
        6,
        Step::Read,
        Came::NoFork,
    ),
];

const COPIES: [Row; 28] = [
    // the mark of an entry that follows another
    (TOP, 4, Step::Write(0o11), Came::Touched(Touch::Zero)),
    (TOP, 3, Step::Follow(7, 4, MARKED), Came::Set),
    (TOP, 3, Step::Look(Kind::Read), Came::Word(0o11)),
    (TOP, 3, Step::Look(Kind::Write), Came::Found(false)),
    (TOP, 3, Step::Change, Came::Found(false)),
    (
        TOP,
        3,
        Step::Write(0o22),
        Came::Touched(Touch::Copy { sole: false }),
    ),
    (TOP, 3, Step::Look(Kind::Read), Came::Word(0o22)),
    (TOP, 4, Step::Read, Came::Word(0o11)),
    (TOP, 3, Step::Change, Came::Found(true)),
    (TOP, 3, Step::Live, Came::Live(4)),
    // the mark of the only entry that names the page
    (TOP, 4, Step::Narrow(Access { c: true, ..FULL }), Came::Set),
    (TOP, 4, Step::Look(Kind::Write), Came::Found(false)),
    (
        TOP,
        4,
        Step::Write(0o33),
        Came::Touched(Touch::Copy { sole: true }),
    ),
    (TOP, 4, Step::Look(Kind::Write), Came::Word(0o33)),
    (TOP, 4, Step::Live, Came::Live(4)),
    // the first mark of a chain is where the copy comes
    (TOP, 5, Step::Write(0o44), Came::Touched(Touch::Zero)),
    (TOP, 5, Step::Narrow(MARKED), Came::Set),
    (
        SON,
        5,
        Step::Write(0o55),
        Came::Touched(Touch::Copy { sole: true }),
    ),
    (TOP, 5, Step::Read, Came::Word(0o55)),
    (SON, 4, Step::Narrow(MARKED), Came::Set),
    (
        SON,
        4,
        Step::Write(0o66),
        Came::Touched(Touch::Copy { sole: false }),
    ),
    (TOP, 4, Step::Read, Came::Word(0o33)),
    (SON, 4, Step::Look(Kind::Execute), Came::Word(0o66)),
    // a page that isn't made is made first
    (TOP, 7, Step::Follow(7, 8, MARKED), Came::Set),
    (TOP, 7, Step::Write(0o77), Came::Touched(Touch::Zero)),
    (TOP, 7, Step::Read, Came::Word(0o77)),
    (TOP, 8, Step::Read, Came::Word(0)),
    (TOP, 8, Step::Live, Came::Live(8)),
];

// Of three pages and forks at most.
const NO_ROOM: [Row; 13] = [
    (TOP, 4, Step::Write(0o11), Came::Touched(Touch::Zero)),
    (TOP, 3, Step::Follow(7, 4, MARKED), Came::Set),
    (TOP, 3, Step::Write(0o22), Came::Touched(Touch::Full)),
    (TOP, 3, Step::Look(Kind::Read), Came::Word(0o11)),
    (TOP, 8, Step::Write(1), Came::Touched(Touch::Full)),
    (TOP, 8, Step::Read, Came::Touched(Touch::Full)),
    (TOP, 4, Step::Live, Came::Live(3)),
    (TOP, 4, Step::Narrow(MARKED), Came::Set),
    (
        TOP,
        4,
        Step::Write(0o33),
        Came::Touched(Touch::Copy { sole: true }),
    ),
    (TOP, 4, Step::Read, Came::Word(0o33)),
    (TOP, 4, Step::Empty, Came::Set),
    (TOP, 4, Step::Live, Came::Live(2)),
    (TOP, 8, Step::Write(1), Came::Touched(Touch::Zero)),
];

const NAMES: [Row; 12] = [
    (TOP, 4, Step::Names, Came::Names(None)),
    (TOP, 4, Step::Write(0o11), Came::Touched(Touch::Zero)),
    (TOP, 3, Step::Follow(7, 4, READ), Came::Set),
    (TOP, 3, Step::Names, Came::Names(Some(1))),
    (TOP, 4, Step::Empty, Came::Set),
    (TOP, 4, Step::Live, Came::Live(2)),
    (TOP, 3, Step::Names, Came::Names(None)),
    (TOP, 3, Step::Look(Kind::Read), Came::Found(false)),
    (SON, 4, Step::Read, Came::Touched(Touch::Zero)),
    (TOP, 5, Step::Write(0o22), Came::Touched(Touch::Zero)),
    (TOP, 5, Step::Follow(7, 3, FULL), Came::Set),
    (TOP, 5, Step::Live, Came::Live(2)),
];

const NARROWED: [Row; 11] = [
    (TOP, 4, Step::Write(0o11), Came::Touched(Touch::Zero)),
    (TOP, 4, Step::Look(Kind::Execute), Came::Word(0o11)),
    (TOP, 4, Step::Narrow(READ), Came::Set),
    (TOP, 4, Step::Look(Kind::Read), Came::Word(0o11)),
    (TOP, 4, Step::Look(Kind::Execute), Came::Found(false)),
    (
        TOP,
        4,
        Step::Write(1),
        Came::Touched(Touch::Denied(Kind::Write)),
    ),
    (TOP, 4, Step::Narrow(FULL), Came::Set),
    (TOP, 4, Step::Change, Came::Found(false)),
    (
        SON,
        4,
        Step::Write(1),
        Came::Touched(Touch::Denied(Kind::Write)),
    ),
    (SON, 4, Step::Look(Kind::Read), Came::Word(0o11)),
    (TOP, 4, Step::Read, Came::Word(0o11)),
];

// The number of the first step that comes out otherwise, over so many pages and forks at most.
fn first_wrong_over(alloc: Global, limit: u32, rows: &[Row]) -> Result<Option<usize>, Memory>
    requires limit { limit ≤ 16 }
    requires rows { length rows.now < 100 }
{
    let store = FlatStore::boot(alloc, limit)?;
    let mut pages = FlatSlots::boot(alloc, store, limit)?;
    Ok(first_wrong(&mut pages, rows))
}

// The steps come out so.
fn come_so(rt: &impl Abort, alloc: Global, limit: u32, rows: &[Row]) {
    assert!(rt; limit <= 16 && rows.len() < 100);
    let Ok(wrong) = first_wrong_over(alloc, limit, rows) else {
        rt.panic("no memory")
    };
    same_at(rt, wrong, wrong, None);
}

#[test]
fn chains(rt: HostRuntime) {
    come_so(&rt, rt.alloc(), 16, &CHAINS);
}

#[test]
fn copies(rt: HostRuntime) {
    come_so(&rt, rt.alloc(), 16, &COPIES);
}

#[test]
fn no_room(rt: HostRuntime) {
    come_so(&rt, rt.alloc(), 3, &NO_ROOM);
}

#[test]
fn names(rt: HostRuntime) {
    come_so(&rt, rt.alloc(), 16, &NAMES);
}

#[test]
fn narrowed(rt: HostRuntime) {
    come_so(&rt, rt.alloc(), 16, &NARROWED);
}
