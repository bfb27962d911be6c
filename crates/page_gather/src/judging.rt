// What a reference makes and what it is answered, from what a walk found.
ghost use Rattle.std.specs.Prelude.{◌≡◌, ◌≤◌, ◌<◌, ◌+◌, ℕ, List, length, true, false, None, Some, IfSome};
ghost use Rattle.std.specs.Option.{option_map};
ghost use Rattle.machine_names.specs.declared.names.Tty.{Tty as ATty};
ghost use Rattle.machine_names.specs.declared.names.Slot.{Slot as ASlot};
ghost use Rattle.machine_names.specs.declared.names.TheConstants.{SPACE_PAGES};
ghost use Rattle.page_contracts.specs.DrumWords.{DrumWords};
ghost use Rattle.plain_pages.specs.PlainPages.{NumberedPages};
ghost use Rattle.plain_pages.specs.References.{in_map, page_at};
ghost use Rattle.page_contracts.specs.Pages.{page_away as the_page_away};
ghost use Rattle.page_gather.specs.Walks.{copied_walked};
ghost use Rattle.page_gather.specs.Changes.{are_in_space};
ghost use Rattle.page_gather.specs.declared.reference.PageReference.{PageReference as APageReference};
ghost use Rattle.page_gather.specs.Making.{JudgesOver, MakesAlong};
ghost use Rattle.page_contracts.specs.Stores.{IsNeeded};
ghost use Rattle.page_gather.specs.Gathering.{AnswerNeeds, AreGathered, HasWalked, Judges, after_all, changes_of, changes_with, concluded, homes_of, is_needless, most_made, page_or};

use crate::chains::{MOST_LINKS, Way, is_same, last_change, names_taken, source_of, walk};
use crate::change::{Change, FULL_ACCESS};
use crate::makings::Makings;
use crate::reference::{Added, PageReference};
use crate::walk::Walked;
use machine_names::{Access, PageName, Place, Slot};
use page_contracts::{Need, Pages, Peeked, Room};
use page_homes::Home;

// A zero page in a slot.
fn zero_page(slot: Slot) -> Change
    ensures { result ≡ (record { slot = slot; access = FULL_ACCESS; source = None; old = None }) }
{
    Change {
        slot,
        access: FULL_ACCESS,
        source: None,
        old: None,
    }
}

// A private copy in a slot: it may be executed where the whole chain may.
fn private_copy(slot: Slot, w: Walked, source: Option<Slot>, old: Option<PageName>) -> Change
    ensures { result ≡ (record { slot = slot; access = record { r = true; w = true; x = w.executes; c = false }; source = source; old = old }) }
{
    Change {
        slot,
        access: Access {
            r: true,
            w: true,
            x: w.executes,
            c: false,
        },
        source,
        old,
    }
}

// The copy of a page into a slot of the chain. It is sole where its slot has the only name that the page has left.
fn copy_page<P: Pages>(
    pages: &P,
    changes: &[Change],
    r: PageReference,
    w: Walked,
    slot: Slot,
) -> Makings
    requires lives { P.means.lives pages.now w.end.fork ≡ true }
    requires page { w.end.page < SPACE_PAGES }
    requires few { length changes.now ≤ 128 }
    requires sources { are_in_space changes.now ≡ true }
    requires full { w.empty ≡ false }
    requires marked { copied_walked r.kind w ≡ Some slot }
    ensures told { MakesAlong P.means pages.now changes.now r w result }
    ensures one { changes_of result ≡ 1 }
    ensures sources { are_in_space (changes_with changes.now result) ≡ true }
{
    let source = source_of(changes, w.end);
    if !is_same(slot, w.end) {
        return Makings::Copy {
            change: private_copy(slot, w, source, None),
            sole: false,
        };
    }
    match pages.page_at(Place::Fork(w.end)) {
        None => Makings::Copy {
            change: private_copy(slot, w, source, None),
            sole: false,
        },
        Some((name, names)) => Makings::Copy {
            change: private_copy(slot, w, source, Some(name)),
            sole: names == names_taken(changes, name) + 1,
        },
    }
}

// What a reference makes that its chain permits.
fn makings_of<P: Pages>(pages: &P, changes: &[Change], r: PageReference, w: Walked) -> Makings
    requires lives { P.means.lives pages.now w.end.fork ≡ true }
    requires page { w.end.page < SPACE_PAGES }
    requires few { length changes.now ≤ 128 }
    requires sources { are_in_space changes.now ≡ true }
    ensures told { MakesAlong P.means pages.now changes.now r w result }
    ensures few { changes_of result ≤ 2 }
    ensures homes { homes_of result ≤ changes_of result }
    ensures made { homes_of result ≤ most_made r.kind }
    ensures sources { are_in_space (changes_with changes.now result) ≡ true }
{
    match w.copied(r.kind) {
        None => {
            if w.empty {
                Makings::Zero(zero_page(w.end))
            } else {
                Makings::Nothing
            }
        }
        Some(slot) => {
            if w.empty {
                Makings::Both(zero_page(w.end), private_copy(slot, w, None, None))
            } else {
                copy_page(pages, changes, r, w, slot)
            }
        }
    }
}

// The home of the page of a chain, after the changes, where that is in no frame.
fn page_away<P: Pages>(pages: &P, changes: &[Change], w: Walked) -> Option<Home>
    requires lives { P.means.lives pages.now w.end.fork ≡ true }
    requires page { w.end.page < SPACE_PAGES }
    ensures told { (d : DrumWords) (q : NumberedPages) (owner : ATty) (homes : ℕ) (s : ASlot) → P.means.fits pages.now d → HasWalked (P.means.plain pages.now d) q (P.means.scene pages.now) owner changes.now homes s w
        → option_map (λ home. home.0) result ≡ the_page_away q (P.means.scene pages.now) (in_map s) }
    ensures needs { IfSome result (λ home. IsNeeded P.means.store 1 pages.now (Need.Page home)) }
    ensures core { P.means.flat ≡ true → result ≡ None }
{
    if w.empty {
        return None;
    }
    match last_change(changes, w.end) {
        Some(_) => None,
        None => match pages.peek(Place::Fork(w.end), 0) {
            Peeked::Absent(home) => Some(home),
            Peeked::Is(_) => None,
            Peeked::NoPage => None,
        },
    }
}

// What is answered by the room for all that is made so far, and by the page where that is in no frame.
fn conclude(room: Room, away: Option<Home>) -> Added
    ensures answer { result ≡ concluded room (option_map (λ home. home.0) away) }
    ensures core { away ≡ None → (room ≡ Room.NeedFrame → ⊥) → is_needless result ≡ true }
{
    match room {
        Room::Full => Added::Full,
        Room::Enough => page_first(away, Added::Went),
        Room::NeedFrame => page_first(away, Added::Need(Need::Frame)),
    }
}

// What is answered where a page is in no frame, and else this.
fn page_first(away: Option<Home>, answer: Added) -> Added
    ensures { result ≡ page_or (option_map (λ home. home.0) away) answer }
{
    match away {
        None => answer,
        Some(home) => Added::Need(Need::Page(home)),
    }
}

/// What is answered to a reference; where it goes through, what it makes, and how many homes are taken in all.
#[derive(Clone, Copy)]
pub struct Judged {
    pub answer: Added,
    pub makings: Makings,
    pub homes: u32,
}

// Judges a reference whose chain was walked.
fn judge_found<P: Pages>(
    pages: &P,
    changes: &[Change],
    homes: u32,
    r: PageReference,
    w: Walked,
) -> Judged
    requires lives { P.means.lives pages.now w.end.fork ≡ true }
    requires page { w.end.page < SPACE_PAGES }
    requires few { length changes.now ≤ 128 }
    requires sources { are_in_space changes.now ≡ true }
    requires homes { homes ≤ length changes.now }
    ensures few { changes_of result.makings ≤ 2 }
    ensures homes { result.homes ≤ homes + changes_of result.makings }
    ensures made { result.homes ≤ homes + most_made r.kind }
    ensures needs { AnswerNeeds P.means.store (homes + most_made r.kind) pages.now result.answer }
    ensures sources { are_in_space (changes_with changes.now result.makings) ≡ true }
    ensures core { P.means.flat ≡ true → is_needless result.answer ≡ true }
    ensures told { (d : DrumWords) (owner : ATty) (rs : List APageReference) → P.means.fits pages.now d → AreGathered (P.means.plain pages.now d) (P.means.scene pages.now) owner rs changes.now homes
        → HasWalked (P.means.plain pages.now d) (after_all (P.means.plain pages.now d) owner rs) (P.means.scene pages.now) owner changes.now homes r.slot w
        → Judges (P.means.plain pages.now d) (P.means.scene pages.now) owner rs changes.now r result.answer result.makings result.homes }
{
    if !w.permits(r.kind) {
        return refused(Added::Denied(r.kind), homes);
    }
    let makings = makings_of(pages, changes, r, w);
    let homes = homes + makings.homes();
    let answer = conclude(pages.room(homes), page_away(pages, changes, w));
    Judged {
        answer,
        makings,
        homes,
    }
}

// What makes nothing.
fn refused(answer: Added, homes: u32) -> Judged
    ensures { result ≡ (record { answer = answer; makings = Makings.Nothing; homes = homes }) }
{
    Judged {
        answer,
        makings: Makings::Nothing,
        homes,
    }
}

/// Judges a reference on the pages that those before it leave, which are to make these changes in so
/// many homes.
pub fn judge<P: Pages>(pages: &P, changes: &[Change], homes: u32, r: PageReference) -> Judged
    requires page { r.slot.page < SPACE_PAGES }
    requires few { length changes.now ≤ 128 }
    requires sources { are_in_space changes.now ≡ true }
    requires homes { homes ≤ length changes.now }
    ensures few { changes_of result.makings ≤ 2 }
    ensures homes { result.homes ≤ homes + changes_of result.makings }
    ensures made { result.homes ≤ homes + most_made r.kind }
    ensures needs { AnswerNeeds P.means.store (homes + most_made r.kind) pages.now result.answer }
    ensures sources { are_in_space (changes_with changes.now result.makings) ≡ true }
    ensures core { P.means.flat ≡ true → is_needless result.answer ≡ true }
    ensures told { JudgesOver P.means pages.now changes.now homes r result }
{
    match walk(pages, changes, MOST_LINKS, r.slot) {
        Way::Absent(home) => refused(Added::Need(Need::Page(home)), homes),
        Way::Nowhere => refused(Added::Denied(r.kind), homes),
        Way::Found(w) => judge_found(pages, changes, homes, r, w),
    }
}
