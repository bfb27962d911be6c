// Calls by chance over maps that are pages, of which few are in frames, against plain lists.
use crate::made::made;
use crate::paged_calls::{Came, ForkPages, PagedCalls, begun, first, let_go};
use crate::plain_maps::{FILED, FORKS, Plain, PlainMaps, SPACE, agrees, number};
use crate::same::same_at;
use machine_names::{Kind, Slot};
use outside::{Drum, SureDrum};
use page_contracts::Peeked;
use page_homes::MOST_HOMES;
use std::process::Abort;

// How many frames there are, and how many pages and forks there may be.
const FRAMES: u32 = 7;

const LIMIT: u32 = 16;

// The number behind a number of a row that looks like chance (Knuth, volume 2, section 3.3.4).
fn next(number: u64) -> u64 {
    number
        .wrapping_mul(6364136223846793005)
        .wrapping_add(1442695040888963407)
}

// A number below another, of some digits of chance.
fn below(chance: u64, digits: u32, most: usize) -> usize {
    if most == 0 || digits >= 64 {
        return 0;
    }
    (chance >> digits) as usize % most
}

// A number of a page.
fn small(number: usize) -> u16 {
    (number % FILED) as u16
}

// The serial of the fork with a number.
fn serial(number: usize) -> u32 {
    (number % FORKS) as u32 + 1
}

// The slot of the entry with a number.
fn slot(at: usize) -> Slot {
    Slot {
        fork: first(serial(at / SPACE)),
        page: (at % SPACE) as u16,
    }
}

// The pages, and the lists that tell what they are.
#[derive(Drop)]
struct Both<P: ForkPages> {
    pages: PagedCalls<P>,
    plain: PlainMaps,
}

impl<P: ForkPages> Both<P> {
    // A fork begins to live.
    fn add(&mut self, number: usize, leader: Option<usize>) {
        let added = match leader {
            Some(leader) => self.pages.add_following(serial(number), serial(leader)),
            None => self.pages.add_empty(serial(number)),
        };
        if added {
            self.plain.add(number, leader);
        }
    }

    // A fork ends.
    fn end(&mut self, number: usize) {
        if self.pages.end(serial(number)) {
            self.plain.end(number);
        }
    }

    // A step of a reference, of which the lists say what it comes to where nothing is in its way.
    fn refer(&mut self, rt: &impl Abort, call: u64, at: usize, kind: Kind) -> bool {
        let came = self.pages.refer(slot(at), kind);
        if came == Came::Made {
            self.plain.make(at);
        }
        if came == Came::Not {
            let room = self.plain.last(at).is_some() && self.plain.live() < LIMIT;
            same_at(rt, call, room, false);
        }
        came == Came::Ready
    }

    // A word is put, in one way or another, where the page may be written.
    fn write(&mut self, rt: &impl Abort, call: u64, at: usize, word: u64) {
        if !self.refer(rt, call, at, Kind::Write) {
            return;
        }
        let put = if word & 1 == 0 {
            self.pages.put(slot(at), 0, word)
        } else {
            self.pages.store(slot(at), 0, word)
        };
        same_at(rt, call, put, true);
        if let Some(page) = self.plain.page(at) {
            self.plain.put(page, word);
        }
    }

    // A word is read where the page may be read. Whether it was.
    fn read(&mut self, rt: &impl Abort, call: u64, at: usize) -> bool {
        if !self.refer(rt, call, at, Kind::Read) {
            return false;
        }
        let word = self.pages.load(slot(at), 0);
        same_at(rt, call, word, self.plain.peek(at));
        true
    }

    // An entry is set to follow another, or to none.
    fn link(&mut self, at: usize, other: Option<usize>) {
        match other {
            Some(other) => {
                if self.pages.follow(slot(at), slot(other)) {
                    self.plain.set(at, Plain::Follows(other));
                }
            }
            None => {
                if self.pages.empty(slot(at)) {
                    self.plain.set(at, Plain::Empty);
                }
            }
        }
    }

    // An entry is set to a page of the file.
    fn name(&mut self, at: usize, filed: usize, copies: bool) {
        if self.pages.name(slot(at), small(filed), copies) {
            if let Some(page) = self.plain.filed(filed) {
                self.plain.set(at, Plain::Page(page, copies));
            }
        }
    }

    // The file names the page of a slot.
    fn file(&mut self, filed: usize, at: usize) {
        if self.pages.file(small(filed), slot(at)) {
            let page = self.plain.page(at);
            self.plain.file(filed, page);
        }
    }

    // The file names no page at one of its pages, or at any.
    fn unfile(&mut self, filed: usize, all: bool) {
        if !all {
            self.pages.unfile(small(filed));
            self.plain.file(filed, None);
            return;
        }
        self.pages.unfile_all();
        for page in 0..FILED {
            self.plain.file(page, None);
        }
    }

    // A call by chance that changes maps or the file.
    fn change(&mut self, chance: u64) {
        let at = below(chance, 8, FORKS * SPACE);
        let other = below(chance, 16, FORKS * SPACE);
        let filed = below(chance, 24, FILED);
        let fork = below(chance, 32, FORKS);
        match below(chance, 56, 8) {
            0 => self.add(fork, None),
            1 => self.add(fork, Some(at / SPACE)),
            2 => {
                if below(chance, 40, 4) == 0 {
                    self.end(fork);
                }
            }
            3 => self.link(at, Some(other)),
            4 => self.link(at, None),
            5 => self.name(at, filed, other % 2 == 0),
            6 => self.file(filed, at),
            _ => self.unfile(filed, other % 4 == 0),
        }
    }

    // A call by chance.
    fn step<D: Drum>(&mut self, rt: &impl Abort, drum: &mut D, call: u64, chance: u64) {
        let at = below(chance, 8, FORKS * SPACE);
        match below(chance, 60, 16) {
            0 | 1 | 2 => self.change(chance),
            3 | 4 | 5 | 6 => self.write(rt, call, at, chance >> 40 & 0o7777),
            7 | 8 | 9 => {
                self.read(rt, call, at);
            }
            10 => self.pages.evict((chance >> 32 & 7) as u32),
            11 => self.pages.tell(),
            _ => {
                self.pages.complete(drum);
            }
        }
    }

    // The word of an entry's page, and how many names that has, are those of the lists.
    fn compare(&self, rt: &impl Abort, call: u64, at: usize) {
        let peeked = self.pages.peek(slot(at), 0);
        same_at(rt, call, agrees(&peeked, self.plain.peek(at)), true);
        if let Peeked::Is(_) = &peeked {
            let names = match self.pages.page_at(slot(at)) {
                Some((_, names)) => names,
                None => 0,
            };
            let page = self.plain.page(at).unwrap_or(0);
            same_at(rt, call, names, self.plain.names(page));
        }
    }

    // A page that is found, or is known, has the word of the lists.
    fn look(&mut self, rt: &impl Abort, call: u64, at: usize) {
        let word = self.pages.load(slot(at), 0);
        if word.is_some() {
            same_at(rt, call, word, self.plain.peek(at));
        }
    }

    // Two entries whose pages are in frames have one page exactly where the lists say so.
    fn compare_both(&self, rt: &impl Abort, call: u64, at: usize, other: usize) {
        let Peeked::Is(_) = self.pages.peek(slot(at), 0) else {
            return;
        };
        let Peeked::Is(_) = self.pages.peek(slot(other), 0) else {
            return;
        };
        let Some((one, _)) = self.pages.page_at(slot(at)) else {
            return;
        };
        let Some((two, _)) = self.pages.page_at(slot(other)) else {
            return;
        };
        same_at(
            rt,
            call,
            one == two,
            self.plain.page(at) == self.plain.page(other),
        );
    }

    // What there is at all is what the lists have.
    fn count(&self, rt: &impl Abort, call: u64) {
        same_at(rt, call, self.pages.live(), self.plain.live());
        for page in 0..FILED {
            let filed = self.pages.filed(small(page)).is_some();
            same_at(rt, call, filed, self.plain.filed(page).is_some());
        }
    }

    // Two entries by chance, and what there is at all, are as the lists say.
    fn agree(&mut self, rt: &impl Abort, call: u64, chance: u64) {
        let at = below(chance, 20, FORKS * SPACE);
        let other = below(chance, 28, FORKS * SPACE);
        self.look(rt, call, at);
        self.look(rt, call, other);
        self.compare(rt, call, at);
        self.compare_both(rt, call, at, other);
        self.count(rt, call);
    }

    // A page is brought in, with the maps on its way, and read.
    fn bring<D: Drum>(&mut self, rt: &impl Abort, drum: &mut D, at: usize) {
        if self.plain.page(at).is_none() {
            return;
        }
        for _transfer in 0..32 {
            if self.read(rt, at as u64, at) {
                return;
            }
            self.pages.complete(drum);
            self.pages.tell();
        }
        same_at(rt, at as u64, false, true);
    }
}

// Calls by chance, behind each of which all is as the lists say.
fn goes_on<P: ForkPages, D: Drum>(rt: &impl Abort, both: &mut Both<P>, drum: &mut D) {
    let mut chance = 1972;
    for call in 0..10000 {
        chance = next(chance);
        both.step(rt, drum, call, chance);
        both.agree(rt, call, chance);
    }
}

// Each page that the lists have comes in.
fn all_come<P: ForkPages, D: Drum>(rt: &impl Abort, both: &mut Both<P>, drum: &mut D) {
    for at in 0..FORKS * SPACE {
        both.bring(rt, drum, at);
    }
}

// Pages on which nothing was called yet are as the lists say, behind each call and at the end.
fn are_plain_lists<P: ForkPages, D: Drum>(
    rt: &impl Abort,
    pages: PagedCalls<P>,
    drum: &mut D,
) -> PagedCalls<P> {
    let mut both = Both {
        pages,
        plain: PlainMaps::new(),
    };
    goes_on(rt, &mut both, drum);
    all_come(rt, &mut both, drum);
    let Both {
        pages,
        plain: _plain,
    } = both;
    pages
}

#[test]
fn maps_that_are_pages_are_plain_lists(rt: HostRuntime) {
    let mut drum = made(&rt, SureDrum::new(rt.alloc(), MOST_HOMES));
    let pages = begun(&rt, FRAMES, LIMIT);
    let_go(are_plain_lists(&rt, pages, &mut drum));
}
