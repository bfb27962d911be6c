// Calls of pages, each made where its condition holds.
ghost use Rattle.std.specs.Prelude.{◌≡◌};
ghost use Rattle.map_tests.specs.Counted.{AreCounted};

use crate::made::made;
use crate::same::same;
use known_slots::KnownSlots;
use machine_names::{Access, FileNo, ForkName, Kind, PageName, Place, Slot, Tty};
use outside::Drum;
use page_contracts::{Completed, Need, Pages, Peeked, Room, Seen, Store, Touch};
use page_homes::FrameId;
use paged_store::PagedStore;
use plain_pages::{NewEntry, NewMap};
use slot_paged::SlotPaged;
use std::alloc::AllocGlobal;
use std::process::Abort;
use word36::Word;

/// The file whose pages are named.
pub const FILE: FileNo = FileNo(3);

/// What becomes of a reference.
#[derive(Clone, Copy, PartialEq)]
pub enum Came {
    /// The page may be referenced.
    Ready,
    /// A page was made.
    Made,
    /// A map, a page or a frame is waited for.
    Waits,
    /// There is no such chain, or no room for a page.
    Not,
}

/// Pages of which is told whether a fork lives.
pub trait ForkPages: Pages {
    /// Whether a fork lives.
    fn lives(&self, fork: ForkName) -> bool
        ensures { result ≡ Self.means.lives self.now fork };
}

impl<S: Store> ForkPages for KnownSlots<S> {
    fn lives(&self, fork: ForkName) -> bool {
        KnownSlots::lives(self, fork)
    }
}

/// Pages, with how many forks of terminal 1 there are, and how often a page was settled.
#[derive(Drop)]
pub struct PagedCalls<P: ForkPages> {
    pages: P,
    forks: u32,
    made: u64,
    ghost counted: { AreCounted P.means pages forks made },
}

/// Over maps that are pages, in frames and on a drum.
pub type OverDrum = PagedCalls<KnownSlots<PagedStore>>;

/// The fork of terminal 1 with a serial.
pub fn first(serial: u32) -> ForkName
    ensures { result ≡ record { tty = record { 0 = 1 }; serial = serial } }
{
    ForkName {
        tty: Tty(1),
        serial,
    }
}

/// No fork and no page, over so many frames.
pub fn begun<R: Abort + AllocGlobal>(rt: &R, frames: u32, limit: u32) -> OverDrum {
    if limit > 16384 {
        panic!(rt; "too many pages");
    }
    let store = made(rt, PagedStore::boot(rt.alloc(), frames, limit));
    let pages = made(rt, SlotPaged::boot(rt.alloc(), store, limit));
    let known = made(rt, KnownSlots::over(rt.alloc(), pages));
    PagedCalls {
        pages: known,
        forks: 0,
        made: 0,
    }
}

/// A page of zeros is made at a slot that has none.
pub fn make_zeros<P: ForkPages>(rt: &impl Abort, pages: &mut PagedCalls<P>, slot: Slot) {
    let touch = pages.touch(slot, Kind::Write);
    same(rt, matches!(touch, Touch::Zero), true);
    same(rt, pages.refer(slot, Kind::Write), Came::Made);
}

/// The pages are let go. What they are made of is taken apart here alone, for all tests.
pub fn let_go(_pages: OverDrum) {}

impl<P: ForkPages> PagedCalls<P> {
    /// The fork of terminal 1 with a serial begins to live with an empty map, where there is room.
    pub fn add_empty(&mut self, serial: u32) -> bool {
        let fork = first(serial);
        if self.forks >= 30 || self.pages.lives(fork) {
            return false;
        }
        let Room::Enough = self.pages.room(1) else {
            return false;
        };
        self.pages.add_fork(fork, NewMap::Empty);
        self.forks += 1;
        true
    }

    /// The same, with a map that follows that of a fork that lives.
    pub fn add_following(&mut self, serial: u32, leader: u32) -> bool {
        let fork = first(serial);
        if self.forks >= 30 || self.pages.lives(fork) {
            return false;
        }
        if leader < 1 || leader > 262143 || !self.pages.lives(first(leader)) {
            return false;
        }
        let Room::Enough = self.pages.room(1) else {
            return false;
        };
        self.pages.add_fork(fork, NewMap::FollowAll(first(leader)));
        self.forks += 1;
        true
    }

    /// The fork of terminal 1 with a serial ends, where its map is in a frame.
    pub fn end(&mut self, serial: u32) -> bool {
        let fork = first(serial);
        if self.forks == 0 || !self.pages.lives(fork) {
            return false;
        }
        let Seen::Is(_) = self.pages.entry(Slot { fork, page: 0 }) else {
            return false;
        };
        self.pages.drop_fork(fork);
        self.forks -= 1;
        true
    }

    /// One step of a reference: what it waits for is asked for, or a page is made, or it is ready.
    pub fn refer(&mut self, slot: Slot, kind: Kind) -> Came {
        if !self.pages.lives(slot.fork) || slot.page >= 512 || self.made >= 1_000_000 {
            return Came::Not;
        }
        let at = Place::Fork(slot);
        match self.pages.touch(at, kind) {
            Touch::Ready => Came::Ready,
            Touch::Zero | Touch::Copy { .. } => {
                self.pages.settle(at, kind, Tty(1));
                self.made += 1;
                Came::Made
            }
            Touch::Absent(home) => {
                let _awaited = self.pages.fetch(Need::Page(home));
                Came::Waits
            }
            Touch::NeedFrame => {
                let _awaited = self.pages.fetch(Need::Frame);
                Came::Waits
            }
            Touch::Denied(_) | Touch::Full => Came::Not,
        }
    }

    /// What a reference finds. Denied, where there is no such page.
    pub fn touch(&self, slot: Slot, kind: Kind) -> Touch {
        if !self.pages.lives(slot.fork) || slot.page >= 512 {
            return Touch::Denied(kind);
        }
        self.pages.touch(Place::Fork(slot), kind)
    }

    /// What a reference to read waits for is asked for. False, where it waits for no map and no page.
    pub fn ask(&mut self, slot: Slot) -> bool {
        if !self.pages.lives(slot.fork) || slot.page >= 512 {
            return false;
        }
        let Touch::Absent(home) = self.pages.touch(Place::Fork(slot), Kind::Read) else {
            return false;
        };
        let _awaited = self.pages.fetch(Need::Page(home));
        true
    }

    /// Puts a word at an offset of a page of a fork's space that may be written, as it was found.
    pub fn store(&mut self, slot: Slot, offset: u16, word: u64) -> bool {
        if !self.pages.lives(slot.fork) || slot.page >= 512 || offset >= 512 {
            return false;
        }
        let space = self.pages.space(slot.fork);
        let Some(found) = self.pages.find_to_change(space, slot.page) else {
            return false;
        };
        let address = u32::from(slot.page) * 512 + u32::from(offset);
        self.pages.store(space, found, address, Word::wrapped(word));
        true
    }

    /// The word at an offset of a page of a fork's space that may be read, as it was found.
    pub fn load(&mut self, slot: Slot, offset: u16) -> Option<u64> {
        if !self.pages.lives(slot.fork) || slot.page >= 512 || offset >= 512 {
            return None;
        }
        let space = self.pages.space(slot.fork);
        let found = self.pages.find(space, slot.page, Kind::Read)?;
        let address = u32::from(slot.page) * 512 + u32::from(offset);
        Some(self.pages.load(space, found, address).value())
    }

    /// Puts a word at an offset of the page of a slot that a touch to write finds ready.
    pub fn put(&mut self, slot: Slot, offset: u16, word: u64) -> bool {
        if !self.pages.lives(slot.fork) || slot.page >= 512 || offset >= 512 {
            return false;
        }
        let Touch::Ready = self.pages.touch(Place::Fork(slot), Kind::Write) else {
            return false;
        };
        self.pages
            .put(Place::Fork(slot), offset, Word::wrapped(word));
        true
    }

    /// What a look at the word at an offset of a slot's page finds.
    pub fn peek(&self, slot: Slot, offset: u16) -> Peeked {
        if !self.pages.lives(slot.fork) || slot.page >= 512 || offset >= 512 {
            return Peeked::NoPage;
        }
        self.pages.peek(Place::Fork(slot), offset)
    }

    /// The page of a slot, with the number of its names.
    pub fn page_at(&self, slot: Slot) -> Option<(PageName, u32)> {
        if !self.pages.lives(slot.fork) || slot.page >= 512 {
            return None;
        }
        self.pages.page_at(Place::Fork(slot))
    }

    /// Empties an entry that is found.
    pub fn empty(&mut self, slot: Slot) -> bool {
        if slot.page >= 512 {
            return false;
        }
        let Seen::Is(_) = self.pages.entry(slot) else {
            return false;
        };
        self.pages.set_entry(slot, NewEntry::Empty);
        true
    }

    /// Has an entry that is found follow a page of another fork, with every right.
    pub fn follow(&mut self, slot: Slot, other: Slot) -> bool {
        if slot.page >= 512 || other.page >= 512 {
            return false;
        }
        if other.fork.serial < 1 || other.fork.serial > 262143 {
            return false;
        }
        let Seen::Is(_) = self.pages.entry(slot) else {
            return false;
        };
        let new = NewEntry::Follows(other.fork.serial, other.page, every(false));
        self.pages.set_entry(slot, new);
        true
    }

    /// Has an entry that is found name a page that the file has.
    pub fn name(&mut self, slot: Slot, page: u16, copies: bool) -> bool {
        if slot.page >= 512 || page >= 512 {
            return false;
        }
        let Seen::Is(_) = self.pages.entry(slot) else {
            return false;
        };
        let Some(_) = self.pages.page_of(FILE, page) else {
            return false;
        };
        let new = NewEntry::FilePage(FILE, page, every(copies));
        self.pages.set_entry(slot, new);
        true
    }

    /// The file names the page of a slot that may be read.
    pub fn file(&mut self, page: u16, slot: Slot) -> bool {
        if page >= 512 || !self.pages.lives(slot.fork) || slot.page >= 512 {
            return false;
        }
        let Touch::Ready = self.pages.touch(Place::Fork(slot), Kind::Read) else {
            return false;
        };
        self.pages.set_file(FILE, page, Some(slot));
        true
    }

    /// The file names no page there any more.
    pub fn unfile(&mut self, page: u16) {
        if page < 512 {
            self.pages.set_file(FILE, page, None);
        }
    }

    /// The file names no page any more.
    pub fn unfile_all(&mut self) {
        self.pages.drop_file(FILE);
    }

    /// The page that the file names at one of its pages.
    pub fn filed(&self, page: u16) -> Option<PageName> {
        if page >= 512 {
            return None;
        }
        self.pages.page_of(FILE, page)
    }

    /// How many pages and forks there are.
    pub fn live(&self) -> u32 {
        self.pages.live()
    }

    /// The page of a frame begins to leave it, if it may.
    pub fn evict(&mut self, frame: u32) {
        self.pages.evict(FrameId(frame));
    }

    /// The oldest transfer ends, over a drum that has a page for each home.
    pub fn complete<D: Drum>(&mut self, drum: &mut D) -> bool {
        if self.pages.limit() > drum.pages() {
            return false;
        }
        let Completed::Done(_) = self.pages.complete(drum) else {
            return false;
        };
        true
    }

    /// What transfers would have told that were taken from the queue is told.
    pub fn tell(&mut self) {
        let _told = self.pages.cancelled();
    }
}

// Every right, and whether a page is copied when it is first written.
fn every(copies: bool) -> Access {
    Access {
        r: true,
        w: true,
        x: true,
        c: copies,
    }
}
