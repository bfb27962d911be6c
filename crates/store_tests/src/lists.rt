// Calls by chance, against a plain list of words.
use crate::calls::{
    ask, bring, cancelled, complete, copy, end_store, evict, free, keep, load, make, put, used,
    word_at,
};
use crate::made::made;
use crate::same::same_at;
use outside::{Drum, SureDrum};
use page_contracts::{CONSOLE_HOLDER, Store};
use page_homes::{Home, MOST_HOMES};
use paged_store::PagedStore;
use std::process::Abort;

// How many homes there are.
const HOMES: usize = 12;

// The number behind a number of a row that looks like chance (Knuth, volume 2, section 3.3.4).
fn next(number: u64) -> u64 {
    number
        .wrapping_mul(6364136223846793005)
        .wrapping_add(1442695040888963407)
}

// One call by chance, and the same on a list that has the first word of each page.
fn step<D: Drum>(
    store: &mut PagedStore,
    drum: &mut D,
    words: &mut [Option<u64>; HOMES],
    chance: u64,
) {
    let home = Home((chance >> 40) as u32 % HOMES as u32);
    let value = chance >> 33 & 0o777;
    match (chance >> 56) % 16 {
        0 | 1 => {
            if let Some(made) = make(store) {
                set(words, made, Some(0));
            }
        }
        2 => {
            if let Some(made) = copy(store, home) {
                set(words, made, get(words, home));
            }
        }
        3 | 4 => {
            if put(store, home, 0, value) {
                set(words, home, Some(value));
            }
        }
        5 => {
            free(store, home);
            set(words, home, None);
        }
        6 | 7 => {
            ask(store, home);
        }
        8 | 9 | 10 => {
            complete(store, drum);
        }
        11 => evict(store, value as u32 % 6),
        12 => used(store, home),
        13 => {
            keep(store, CONSOLE_HOLDER, home);
        }
        14 => store.let_go(CONSOLE_HOLDER),
        _ => {
            cancelled(store);
        }
    }
}

// The word of a home in a list.
fn get(words: &[Option<u64>; HOMES], home: Home) -> Option<u64> {
    if (home.0 as usize) < HOMES {
        words[home.0 as usize]
    } else {
        None
    }
}

// Sets the word of a home in a list.
fn set(words: &mut [Option<u64>; HOMES], home: Home, word: Option<u64>) {
    if (home.0 as usize) < HOMES {
        words[home.0 as usize] = word;
    }
}

// The taken homes are those that have a word in the list, and each page that is in a frame has that word.
fn agrees(rt: &impl Abort, call: u64, store: &PagedStore, words: &[Option<u64>; HOMES]) {
    for home in 0..HOMES as u32 {
        let is = get(words, Home(home));
        same_at(rt, call, store.taken(Home(home)), is.is_some());
        if let Some(word) = word_at(store, Home(home), 0) {
            same_at(rt, call, Some(word), is);
        }
    }
}

// Calls by chance, behind each of which the store has what the list has.
fn goes_on<D: Drum>(
    rt: &impl Abort,
    store: &mut PagedStore,
    drum: &mut D,
    words: &mut [Option<u64>; HOMES],
) {
    let mut chance = 1966;
    for call in 0..20000 {
        chance = next(chance);
        step(store, drum, words, chance);
        agrees(rt, call, store, words);
    }
}

// Each page that is taken comes into a frame, and has the word of the list.
fn all_come<D: Drum>(
    rt: &impl Abort,
    store: &mut PagedStore,
    drum: &mut D,
    words: &[Option<u64>; HOMES],
) {
    for home in 0..HOMES as u32 {
        if store.taken(Home(home)) {
            bring(store, drum, Home(home));
        }
        let word = load(store, Home(home), 0);
        same_at(rt, u64::from(home), word, get(words, Home(home)));
    }
}

#[test]
fn a_store_is_a_list_of_pages(rt: HostRuntime) {
    let mut drum = made(&rt, SureDrum::new(rt.alloc(), MOST_HOMES));
    let mut store = made(&rt, PagedStore::boot(rt.alloc(), 5, HOMES as u32));
    let mut words = [None; HOMES];
    goes_on(&rt, &mut store, &mut drum, &mut words);
    store.let_go(CONSOLE_HOLDER);
    all_come(&rt, &mut store, &mut drum, &words);
    end_store(store);
}
