// Calls of a store, each made where its condition holds.
ghost use Rattle.std.specs.Prelude.{◌≡◌, ◌⊎◌, ◌<◌, length, true};
ghost use Rattle.page_contracts.specs.Stores.{away, is_here, most_held, place};
ghost use Rattle.paged_store.specs.StoreMeaning.{paged_meaning};

use outside::Drum;
use page_contracts::{
    CONSOLE_HOLDER, Completed, MOST_HELD, MOST_HELD_FOR_CONSOLE, MOST_HOLDERS, Need, Room, Store,
};
use page_homes::{FrameId, Home, MOST_HOMES};
use paged_store::PagedStore;
use word36::Word;

/// What the end of a transfer tells: a page, a frame, that there was none, or that the drum failed.
#[derive(Clone, Copy, PartialEq)]
pub enum Told {
    Page(Home),
    Frame,
    Nothing,
    Fault,
}

// What a need says.
fn told_of(need: Need) -> Told {
    match need {
        Need::Page(home) => Told::Page(home),
        Need::Frame => Told::Frame,
    }
}

/// Whether a home's page is in a frame.
pub fn is_here(store: &PagedStore, home: Home) -> bool
    ensures { result ≡ true → is_here (place (paged_meaning.homes store.now) home.0) ≡ true }
{
    store.taken(home) && store.find(home).is_some()
}

/// Whether a home's page is on the drum alone.
pub fn is_away(store: &PagedStore, home: Home) -> bool
    ensures { result ≡ true → place (paged_meaning.homes store.now) home.0 ≡ away }
{
    store.taken(home) && store.find(home).is_none()
}

/// A page of zero words, where there is room for one.
pub fn make(store: &mut PagedStore) -> Option<Home> {
    match store.room(1) {
        Room::Enough => Some(store.make()),
        _ => None,
    }
}

/// A page with the words of another that is in a frame, where there is room for one.
pub fn copy(store: &mut PagedStore, from: Home) -> Option<Home> {
    if !is_here(store, from) {
        return None;
    }
    match store.room(1) {
        Room::Enough => Some(store.copy(from)),
        _ => None,
    }
}

/// Puts a word into a page, where it is in a frame.
pub fn put(store: &mut PagedStore, home: Home, at: u16, word: u64) -> bool {
    store.taken(home) && at < 512 && store.put(home, at, Word::wrapped(word))
}

/// A word of a page that is in a frame, with no use of it.
pub fn word_at(store: &PagedStore, home: Home, at: u16) -> Option<u64> {
    if store.taken(home) && at < 512 {
        store.word(home, at).map(|word| word.value())
    } else {
        None
    }
}

/// A use of a page that is in a frame.
pub fn used(store: &mut PagedStore, home: Home) {
    if is_here(store, home) {
        store.used(home);
    }
}

/// A word of a page that is in a frame, and a use of it.
pub fn load(store: &mut PagedStore, home: Home, at: u16) -> Option<u64> {
    if !store.taken(home) || at >= 512 {
        return None;
    }
    match store.find(home) {
        Some(found) => Some(store.load(found, at).value()),
        None => None,
    }
}

/// Gives a home up, if it is taken.
pub fn free(store: &mut PagedStore, home: Home) {
    if store.taken(home) {
        store.free(home);
    }
}

/// Asks for a page. Nothing where it is in a frame, or there is no such page.
pub fn ask(store: &mut PagedStore, home: Home) -> Told {
    if is_away(store, home) {
        told_of(store.fetch(Need::Page(home)))
    } else {
        Told::Nothing
    }
}

/// Ends the oldest transfer, over a drum that has a page for each home.
pub fn complete<D: Drum>(store: &mut PagedStore, drum: &mut D) -> Told {
    if drum.pages() < MOST_HOMES {
        return Told::Fault;
    }
    match store.complete(drum) {
        Completed::Done(need) => told_of(need),
        Completed::Nothing => Told::Nothing,
        Completed::DrumFault => Told::Fault,
    }
}

/// What a transfer would have told that was taken from the queue.
pub fn cancelled(store: &mut PagedStore) -> Told {
    match store.cancelled() {
        Some(need) => told_of(need),
        None => Told::Nothing,
    }
}

/// Brings a page into a frame: transfers are ended until it is there, so many at most. How often the drum failed.
pub fn bring<D: Drum>(store: &mut PagedStore, drum: &mut D, home: Home) -> u64 {
    let mut faults: u64 = 0;
    for _transfer in 0..64 {
        if is_here(store, home) {
            break;
        }
        ask(store, home);
        if complete(store, drum) == Told::Fault {
            faults = faults.saturating_add(1);
        }
    }
    faults
}

// Whether pages may be held for a holder.
fn is_member(store: &PagedStore, holder: u16) -> bool
    ensures member { result ≡ true → (holder < paged_meaning.members store.now) ⊎ (holder ≡ CONSOLE_HOLDER) }
    ensures holder { result ≡ true → holder < MOST_HOLDERS }
{
    if holder == CONSOLE_HOLDER {
        return true;
    }
    holder < MOST_HOLDERS && u32::from(holder) < store.members()
}

// Whether one page more may be held for a holder.
fn has_room(store: &PagedStore, holder: u16) -> bool
    ensures { result ≡ true → length (paged_meaning.holds store.now holder) < most_held holder }
{
    if holder == CONSOLE_HOLDER {
        return store.held(holder) < MOST_HELD_FOR_CONSOLE;
    }
    store.held(holder) < MOST_HELD
}

/// Holds the page of a home, which is used first, for a holder that may hold one more. False where that can't be.
pub fn keep(store: &mut PagedStore, holder: u16, home: Home) -> bool {
    if !is_member(store, holder) {
        return false;
    }
    if !has_room(store, holder) {
        return false;
    }
    if !is_here(store, home) {
        return false;
    }
    store.used(home);
    store.keep(holder, home);
    true
}

/// The page of a frame begins to leave it, if it may.
pub fn evict(store: &mut PagedStore, frame: u32) {
    store.evict(FrameId(frame));
}

/// A store is dropped. What it is made of is taken apart here alone, for all tests.
pub fn end_store(_store: PagedStore) {}
