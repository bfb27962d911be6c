// Pages that come and go, step by step, over a drum in memory.
use crate::calls::{
    Told, ask, cancelled, complete, copy, end_store, evict, free, is_away, is_here, keep, load,
    make, put, used, word_at,
};
use crate::made::made;
use crate::same::same;
use outside::{Drum, SureDrum};
use page_contracts::{CONSOLE_HOLDER, Room, Store};
use page_homes::{Home, MOST_HOMES};
use paged_store::PagedStore;
use std::alloc::Global;
use std::process::Abort;

// Two pages take both frames, of four homes.
fn fills_its_frames(rt: &impl Abort, store: &mut PagedStore) {
    same(
        rt,
        (make(store), make(store)),
        (Some(Home(0)), Some(Home(1))),
    );
    same(rt, store.room(1) == Room::NeedFrame, true);
    same(rt, store.room(3) == Room::Full, true);
    same(rt, (make(store), copy(store, Home(0))), (None, None));
    same(rt, put(store, Home(0), 0, 7), true);
    same(rt, put(store, Home(1), 511, 9), true);
}

// A page that leaves has its words until it is gone. Its frame is free then.
fn leaves<D: Drum>(rt: &impl Abort, store: &mut PagedStore, drum: &mut D) {
    evict(store, 0);
    same(rt, word_at(store, Home(0), 0), Some(7));
    same(rt, complete(store, drum), Told::Frame);
    same(rt, is_away(store, Home(0)), true);
    same(rt, word_at(store, Home(0), 0), None);
    same(rt, put(store, Home(0), 0, 8), false);
    same(rt, copy(store, Home(1)), Some(Home(2)));
    same(rt, word_at(store, Home(2), 511), Some(9));
}

// No frame is free: the oldest page begins to leave, and is used again before it has. So the copy is the oldest then.
fn stays_once_used<D: Drum>(rt: &impl Abort, store: &mut PagedStore, drum: &mut D) {
    same(rt, ask(store, Home(0)), Told::Frame);
    same(rt, put(store, Home(1), 511, 10), true);
    same(
        rt,
        (cancelled(store), cancelled(store)),
        (Told::Frame, Told::Nothing),
    );
    same(rt, complete(store, drum), Told::Nothing);
    same(rt, ask(store, Home(0)), Told::Frame);
    same(rt, complete(store, drum), Told::Frame);
    same(
        rt,
        (is_away(store, Home(2)), is_here(store, Home(1))),
        (true, true),
    );
}

// A page that is asked for twice comes once, with its words.
fn comes_back<D: Drum>(rt: &impl Abort, store: &mut PagedStore, drum: &mut D) {
    same(rt, ask(store, Home(0)), Told::Page(Home(0)));
    same(rt, ask(store, Home(0)), Told::Page(Home(0)));
    same(rt, is_here(store, Home(0)), false);
    same(rt, complete(store, drum), Told::Page(Home(0)));
    same(
        rt,
        (load(store, Home(0), 0), load(store, Home(0), 1)),
        (Some(7), Some(0)),
    );
    same(rt, (drum.reads(), drum.writes()), (1, 2));
}

// A page that is given up takes its transfer with it, which is told.
fn is_given_up<D: Drum>(rt: &impl Abort, store: &mut PagedStore, drum: &mut D) {
    same(rt, ask(store, Home(2)), Told::Frame);
    free(store, Home(1));
    same(rt, cancelled(store), Told::Frame);
    same(rt, ask(store, Home(2)), Told::Page(Home(2)));
    free(store, Home(2));
    same(rt, cancelled(store), Told::Page(Home(2)));
    same(rt, complete(store, drum), Told::Nothing);
    same(rt, make(store), Some(Home(1)));
    same(rt, word_at(store, Home(1), 511), Some(0));
}

#[test]
fn pages_come_and_go(rt: HostRuntime) {
    let mut drum = made(&rt, SureDrum::new(rt.alloc(), MOST_HOMES));
    let mut store = made(&rt, PagedStore::boot(rt.alloc(), 2, 4));
    fills_its_frames(&rt, &mut store);
    leaves(&rt, &mut store, &mut drum);
    stays_once_used(&rt, &mut store, &mut drum);
    comes_back(&rt, &mut store, &mut drum);
    is_given_up(&rt, &mut store, &mut drum);
    end_store(store);
}

// The first of three pages is held for the console. Of no fork can pages be held here.
fn holds_one(rt: &impl Abort, store: &mut PagedStore) {
    for home in 0..3 {
        same(rt, make(store), Some(Home(home)));
    }
    same(rt, store.members(), 0);
    same(rt, keep(store, 0, Home(0)), false);
    same(rt, keep(store, CONSOLE_HOLDER, Home(0)), true);
    same(rt, keep(store, CONSOLE_HOLDER, Home(0)), true);
    same(rt, store.held(CONSOLE_HOLDER), 1);
    used(store, Home(1));
    used(store, Home(2));
}

// It doesn't leave; another does, once. There is no frame 7.
fn others_leave<D: Drum>(rt: &impl Abort, store: &mut PagedStore, drum: &mut D) {
    evict(store, 0);
    same(rt, complete(store, drum), Told::Nothing);
    evict(store, 1);
    evict(store, 1);
    evict(store, 7);
    same(rt, complete(store, drum), Told::Frame);
    same(rt, complete(store, drum), Told::Nothing);
    same(
        rt,
        (is_here(store, Home(0)), is_away(store, Home(1))),
        (true, true),
    );
}

// Once it is held no more, it leaves.
fn leaves_too<D: Drum>(rt: &impl Abort, store: &mut PagedStore, drum: &mut D) {
    store.let_go(CONSOLE_HOLDER);
    same(rt, store.held(CONSOLE_HOLDER), 0);
    evict(store, 0);
    same(rt, complete(store, drum), Told::Frame);
    same(rt, is_away(store, Home(0)), true);
}

#[test]
fn what_is_held_stays(rt: HostRuntime) {
    let mut drum = made(&rt, SureDrum::new(rt.alloc(), MOST_HOMES));
    let mut store = made(&rt, PagedStore::boot(rt.alloc(), 3, 8));
    holds_one(&rt, &mut store);
    others_leave(&rt, &mut store, &mut drum);
    leaves_too(&rt, &mut store, &mut drum);
    end_store(store);
}

// So many forks may have their pages in so many frames.
fn has_members(rt: &impl Abort, alloc: Global, frames: u32, members: u32) {
    let store = made(rt, PagedStore::boot(alloc, frames, 1));
    same(rt, store.members(), members);
    end_store(store);
}

// For a fork 128 pages can be held, for the console 16.
fn holds_many(rt: &impl Abort, store: &mut PagedStore) {
    for home in 0..129 {
        same(rt, make(store), Some(Home(home)));
        same(rt, keep(store, 0, Home(home)), home < 128);
        same(rt, keep(store, CONSOLE_HOLDER, Home(home)), home < 16);
    }
    same(rt, (store.held(0), store.held(CONSOLE_HOLDER)), (128, 16));
    same(rt, store.held(1), 0);
}

#[test]
fn forks_that_may_have_pages_in_core(rt: HostRuntime) {
    has_members(&rt, rt.alloc(), 8, 0);
    has_members(&rt, rt.alloc(), 159, 0);
    has_members(&rt, rt.alloc(), 160, 1);
    has_members(&rt, rt.alloc(), 287, 1);
    has_members(&rt, rt.alloc(), 288, 2);
    let mut store = made(&rt, PagedStore::boot(rt.alloc(), 160, 200));
    holds_many(&rt, &mut store);
    free(&mut store, Home(3));
    same(&rt, (store.held(0), store.held(CONSOLE_HOLDER)), (127, 15));
    end_store(store);
}
