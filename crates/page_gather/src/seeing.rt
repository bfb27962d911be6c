// What stands at places after the changes to come.
ghost use Rattle.std.specs.Prelude.{◌≡◌, ◌<◌, ℕ, List, Some, true, is_some, slice_index};
ghost use Rattle.outside.specs.declared.TheConstants.{PAGE_WORDS};
ghost use Rattle.machine_names.specs.declared.names.Tty.{Tty as ATty};
ghost use Rattle.machine_names.specs.declared.names.Slot.{Slot as ASlot};
ghost use Rattle.machine_names.specs.declared.names.TheConstants.{SPACE_PAGES};
ghost use Rattle.page_contracts.specs.DrumWords.{DrumWords};
ghost use Rattle.plain_pages.specs.PlainPages.{NumberedPages};
ghost use Rattle.plain_pages.specs.References.{in_map, page_at, word_at};
ghost use Rattle.page_gather.specs.declared.reference.PageReference.{PageReference as APageReference};
ghost use Rattle.page_gather.specs.Changes.{are_in_space, change_of, is_in_space, source_words};
ghost use Rattle.page_gather.specs.Seen.{word_of};
ghost use Rattle.page_gather.specs.Gathering.{AreGathered, HasWalked, IsNear, IsSourceNear, after_all, are_same};

use crate::chains::{MOST_LINKS, Way, is_same, is_same_page, last_change, source_of, walk};
use crate::change::Change;
use crate::walk::Walked;
use machine_names::{Place, Slot};
use page_contracts::{Pages, Peeked, Seen};
use word36::Word;

// Whether a slot was changed.
fn is_new(changes: &[Change], slot: Slot) -> bool
    ensures { result ≡ is_some (change_of changes.now slot) }
{
    match last_change(changes, slot) {
        None => false,
        Some(_) => true,
    }
}

// Whether two chains end at one page, after the changes.
fn end_together<P: Pages>(pages: &P, changes: &[Change], x: Walked, y: Walked) -> bool
    requires lives { P.means.lives pages.now x.end.fork ≡ true }
    requires page { x.end.page < SPACE_PAGES }
    requires others_lives { P.means.lives pages.now y.end.fork ≡ true }
    requires others_page { y.end.page < SPACE_PAGES }
    ensures told { (d : DrumWords) (q : NumberedPages) (owner : ATty) (homes : ℕ) (a b : ASlot) → P.means.fits pages.now d
        → HasWalked (P.means.plain pages.now d) q (P.means.scene pages.now) owner changes.now homes a x → HasWalked (P.means.plain pages.now d) q (P.means.scene pages.now) owner changes.now homes b y
        → result ≡ are_same (page_at q (in_map a)) (page_at q (in_map b)) }
{
    if x.empty || y.empty {
        return false;
    }
    if is_same(x.end, y.end) {
        return true;
    }
    // A new page has no other name.
    if is_new(changes, x.end) || is_new(changes, y.end) {
        return false;
    }
    let Some((n, _)) = pages.page_at(Place::Fork(x.end)) else {
        return false;
    };
    let Some((m, _)) = pages.page_at(Place::Fork(y.end)) else {
        return false;
    };
    is_same_page(n, m)
}

/// Whether two slots that are in frames name one page, after the changes.
pub fn are_together<P: Pages>(pages: &P, changes: &[Change], a: Slot, b: Slot) -> bool
    requires page { a.page < SPACE_PAGES }
    requires other { b.page < SPACE_PAGES }
    ensures told { (d : DrumWords) (owner : ATty) (homes : ℕ) (rs : List APageReference) → P.means.fits pages.now d → AreGathered (P.means.plain pages.now d) (P.means.scene pages.now) owner rs changes.now homes
        → IsNear (after_all (P.means.plain pages.now d) owner rs) (P.means.scene pages.now) a → IsNear (after_all (P.means.plain pages.now d) owner rs) (P.means.scene pages.now) b
        → result ≡ are_same (page_at (after_all (P.means.plain pages.now d) owner rs) (in_map a)) (page_at (after_all (P.means.plain pages.now d) owner rs) (in_map b)) }
{
    let Way::Found(x) = walk(pages, changes, MOST_LINKS, a) else {
        return false;
    };
    let Way::Found(y) = walk(pages, changes, MOST_LINKS, b) else {
        return false;
    };
    end_together(pages, changes, x, y)
}

// The word that a look found, and 0 where it found none.
fn found_word(peeked: Peeked) -> Word
    ensures { result ≡ word_of peeked }
{
    match peeked {
        Peeked::Is(word) => word,
        Peeked::Absent(_) => Word::ZERO,
        Peeked::NoPage => Word::ZERO,
    }
}

// The word at an offset of the page that a source names, which is in a frame; 0 where there is no source.
fn source_word<P: Pages>(pages: &P, source: Option<Slot>, offset: u16) -> Word
    requires page { is_in_space source ≡ true }
    requires offset { offset < PAGE_WORDS }
    ensures told { (d : DrumWords) → P.means.fits pages.now d → IsSourceNear (P.means.plain pages.now d) (P.means.scene pages.now) source → result ≡ slice_index (source_words (P.means.plain pages.now d) source) offset }
{
    let Some(slot) = source else {
        return Word::ZERO;
    };
    let Seen::Is(_) = pages.entry(slot) else {
        return Word::ZERO;
    };
    found_word(pages.peek(Place::Fork(slot), offset))
}

/// The word at an offset of the page of a slot that is in frames, after the changes.
pub fn word_after<P: Pages>(pages: &P, changes: &[Change], slot: Slot, offset: u16) -> Word
    requires page { slot.page < SPACE_PAGES }
    requires offset { offset < PAGE_WORDS }
    requires sources { are_in_space changes.now ≡ true }
    ensures told { (d : DrumWords) (owner : ATty) (homes : ℕ) (rs : List APageReference) → P.means.fits pages.now d → AreGathered (P.means.plain pages.now d) (P.means.scene pages.now) owner rs changes.now homes
        → IsNear (after_all (P.means.plain pages.now d) owner rs) (P.means.scene pages.now) slot → result ≡ word_at (after_all (P.means.plain pages.now d) owner rs) (in_map slot) offset }
{
    let Way::Found(w) = walk(pages, changes, MOST_LINKS, slot) else {
        return Word::ZERO;
    };
    if w.empty {
        return Word::ZERO;
    }
    source_word(pages, source_of(changes, w.end), offset)
}
