// Maps of forks that are pages, in frames and on a drum.
use crate::made::made;
use crate::paged_calls::{ForkPages, PagedCalls, begun, first, let_go, make_zeros};
use crate::same::same;
use machine_names::{Kind, Slot};
use outside::{Drum, SureDrum};
use page_contracts::{Peeked, Touch};
use page_homes::MOST_HOMES;
use std::process::Abort;

// How many frames there are.
const FRAMES: u32 = 6;

// Page 5 of the fork with a serial.
fn fifth(serial: u32) -> Slot {
    Slot {
        fork: first(serial),
        page: 5,
    }
}

// A fork, and one whose map follows it, in which a page of zeros is made and written.
fn begins_with_a_page<P: ForkPages>(rt: &impl Abort, pages: &mut PagedCalls<P>) {
    same(rt, pages.add_empty(1), true);
    same(rt, pages.add_following(2, 1), true);
    same(rt, pages.live(), 2);
    make_zeros(rt, pages, fifth(2));
    same(rt, pages.live(), 3);
    same(rt, pages.put(fifth(2), 7, 0o1234), true);
}

// All frames are emptied.
fn emptied<P: ForkPages, D: Drum>(pages: &mut PagedCalls<P>, drum: &mut D) {
    for frame in 0..FRAMES {
        pages.evict(frame);
    }
    for _frame in 0..FRAMES {
        pages.complete(drum);
    }
}

// Whether a page may be read, once what stood in its way was brought in: four maps and a page at most.
fn brought<P: ForkPages, D: Drum>(pages: &mut PagedCalls<P>, drum: &mut D, at: Slot) -> bool {
    for _way in 0..5 {
        if !pages.ask(at) {
            break;
        }
        pages.complete(drum);
    }
    matches!(pages.touch(at, Kind::Read), Touch::Ready)
}

// The page of both has its word, and one name.
fn is_of_both<P: ForkPages>(rt: &impl Abort, pages: &PagedCalls<P>) {
    let word = match pages.peek(fifth(1), 7) {
        Peeked::Is(word) => Some(word.value()),
        _ => None,
    };
    same(rt, word, Some(0o1234));
    let named = match pages.page_at(fifth(1)) {
        Some((name, names)) => Some((name.serial, names)),
        None => None,
    };
    same(rt, named, Some((1, 1)));
}

// The page and its maps leave their frames, and come back.
fn go_and_come<P: ForkPages, D: Drum>(rt: &impl Abort, pages: &mut PagedCalls<P>, drum: &mut D) {
    begins_with_a_page(rt, pages);
    emptied(pages, drum);
    same(rt, brought(pages, drum, fifth(2)), true);
    is_of_both(rt, pages);
}

#[test]
fn maps_go_to_the_drum_and_come_back(rt: HostRuntime) {
    let mut drum = made(&rt, SureDrum::new(rt.alloc(), MOST_HOMES));
    let mut pages = begun(&rt, FRAMES, 16);
    go_and_come(&rt, &mut pages, &mut drum);
    let_go(pages);
}
