// The references of one unit, and what they are to make.
ghost use Rattle.std.specs.Prelude.{◌≡◌, ◌≢◌, ◌<◌, ◌≤◌, ◌+◌, ◌^◌, ◌∷◌, ◌++◌, [], length, true};
ghost use Rattle.outside.specs.declared.TheConstants.{PAGE_WORDS};
ghost use Rattle.page_contracts.specs.DrumWords.{DrumWords};
ghost use Rattle.plain_pages.specs.PlainPages.{NumberedPages};
ghost use Rattle.machine_names.specs.Bounds.{IsOwner};
ghost use Rattle.page_contracts.specs.Pages.{IsForkPlace, Scene, spot_of};
ghost use Rattle.plain_pages.specs.References.{page_at, word_at};
ghost use Rattle.page_gather.specs.Changes.{are_in_space};
ghost use Rattle.page_gather.specs.Gathering.{Adds, AnswerNeeds, ArePlaces, AreSound, Gathers, IsPlaceNear, PlaceAdds, are_same, changes_of, changes_with, is_needless, left_of, most_made};
ghost use Rattle.machine_names.specs.declared.names.Slot.{Slot as ASlot};
ghost use Rattle.machine_names.specs.declared.names.TheConstants.{SPACE_PAGES};
ghost use Rattle.page_gather.specs.Making.{Grows};

use crate::change::Change;
use crate::judging::judge;
use crate::making::make_all;
use crate::makings::{MOST_CHANGES, Makings};
use crate::reference::{Added, PageReference};
use crate::seeing::{are_together, word_after};
use arrayvec::ArrayVec;
use machine_names::{Kind, Place, Slot, Tty};
use page_contracts::{Pages, Touch};
use std::marker::Model;
use word36::Word;

/// How many references a gather has at most.
pub const MOST_GATHERED: usize = 64;

/// The references of one unit, each judged on the pages that those before it leave.
#[derive(Drop)]
pub struct Gather {
    owner: Tty,
    references: ArrayVec<PageReference, MOST_GATHERED>,
    // The entries that the references will change, in order, and how many homes that takes.
    changes: ArrayVec<Change, MOST_CHANGES>,
    homes: u32,
}

impl Model for Gather {
    ghost use Rattle.page_gather.specs.Gathering.{Gathering, IsKept};

    ghost Value = { Gathering };

    ghost view = { λ g. record { owner = g.owner; references = g.references.items; changes = g.changes.items; homes = g.homes } };

    ghost invariant = { λ g. IsKept g.owner g.references.items g.changes.items g.homes };
}

// The slot of a place in a fork's space.
fn slot_of<P: Pages>(pages: &P, at: Place) -> Slot
    requires { IsForkPlace (P.means.lives pages.now) at }
    ensures is { Place.Fork result ≡ at }
    ensures page { result.page < SPACE_PAGES }
{
    match at {
        Place::Fork(slot) => slot,
        Place::File(_, _) => unreachable!(),
    }
}

// A vector has the items of another.
fn copy_items<T: Copy + Default, const MOST: usize>(
    to: &mut ArrayVec<T, MOST>,
    from: &ArrayVec<T, MOST>,
)
    ensures { to.new ≡ from.now }
{
    to.clear();
    if to.try_extend_from_slice(from.as_slice()).is_err() {
        unreachable!();
    }
}

impl Gather {
    /// No reference, of an owner of what will be made.
    pub fn new(owner: Tty) -> Gather
        requires { IsOwner owner }
        ensures owner { result.owner ≡ owner }
        ensures none { result.references ≡ [] }
        ensures unmade { result.homes ≡ 0 }
        ensures told { (p : NumberedPages) (scene : Scene) → AreSound p scene → Gathers p scene result }
    {
        Gather {
            owner,
            references: ArrayVec::new(),
            changes: ArrayVec::new(),
            homes: 0,
        }
    }

    /// No reference again, of this owner.
    pub fn restart(&mut self, owner: Tty)
        requires { IsOwner owner }
        ensures owner { self.new.owner ≡ owner }
        ensures none { self.new.references ≡ [] }
        ensures unmade { self.new.homes ≡ 0 }
        ensures told { (p : NumberedPages) (scene : Scene) → AreSound p scene → Gathers p scene self.new }
    {
        self.owner = owner;
        self.references.clear();
        self.changes.clear();
        self.homes = 0;
    }

    /// The references of another. It costs as much as there are of them.
    pub fn copy_from(&mut self, other: &Gather)
        ensures { self.new ≡ other.now }
    {
        self.owner = other.owner;
        copy_items(&mut self.references, &other.references);
        copy_items(&mut self.changes, &other.changes);
        self.homes = other.homes;
    }

    // One reference more, with what it makes.
    fn push(&mut self, r: PageReference, makings: Makings, homes: u32)
        requires slot { r.slot.page < SPACE_PAGES }
        requires room { length self.old.references < MOST_GATHERED }
        requires few { changes_of makings ≤ 2 }
        requires homes { homes ≤ self.old.homes + changes_of makings }
        requires sources { are_in_space (changes_with self.old.changes makings) ≡ true }
        ensures { self.new ≡ (record { owner = self.old.owner; references = self.old.references ++ r ∷ []; changes = changes_with self.old.changes makings; homes = homes }) }
    {
        makings.push_to(&mut self.changes);
        self.homes = homes;
        self.references.push(r);
    }

    // One reference more, by a walk along its chain.
    fn add_judged<P: Pages>(&mut self, pages: &P, r: PageReference) -> Added
        requires page { r.slot.page < SPACE_PAGES }
        requires room { length self.old.references < MOST_GATHERED }
        ensures owner { self.new.owner ≡ self.old.owner }
        ensures went { result ≡ Added.Went → self.new.references ≡ self.old.references ++ r ∷ [] }
        ensures stopped { result ≢ Added.Went → self.new ≡ self.old }
        ensures made { self.new.homes ≤ self.old.homes + most_made r.kind }
        ensures needs { AnswerNeeds P.means.store (self.old.homes + most_made r.kind) pages.now result }
        ensures core { P.means.flat ≡ true → is_needless result ≡ true }
        ensures told { (d : DrumWords) → P.means.fits pages.now d → Gathers (P.means.plain pages.now d) (P.means.scene pages.now) self.old
            → Adds (P.means.plain pages.now d) (P.means.scene pages.now) self.old self.new r result }
    {
        let judged = judge(pages, self.changes.as_slice(), self.homes, r);
        if let Added::Went = judged.answer {
            self.push(r, judged.makings, judged.homes);
        }
        judged.answer
    }

    /// Adds one reference, to a page of a living fork's space, on the pages that the references added before leave.
    /// Need comes only of a map on the way or a page that is in no frame, or where the pages to be made so far find
    /// no frame, which are at most two for a write and one for another reference; Denied and Full exactly as it comes to there. Where the answer isn't Went, nothing is added. A
    /// reference that finds its page ready, while none before it makes one, costs a look at the page.
    pub fn add<P: Pages>(&mut self, pages: &P, at: Place, kind: Kind) -> Added
        requires place { IsForkPlace (P.means.lives pages.now) at }
        requires room { length self.old.references < MOST_GATHERED }
        ensures owner { self.new.owner ≡ self.old.owner }
        ensures went { result ≡ Added.Went → PlaceAdds self.old.references self.new.references at kind }
        ensures stopped { result ≢ Added.Went → self.new ≡ self.old }
        ensures made { self.new.homes ≤ self.old.homes + most_made kind }
        ensures needs { AnswerNeeds P.means.store (self.old.homes + most_made kind) pages.now result }
        ensures core { P.means.flat ≡ true → is_needless result ≡ true }
        ensures told { (d : DrumWords) → P.means.fits pages.now d → Gathers (P.means.plain pages.now d) (P.means.scene pages.now) self.old
            → (slot : ASlot) → at ≡ Place.Fork slot → Adds (P.means.plain pages.now d) (P.means.scene pages.now) self.old self.new (record { slot = slot; kind = kind }) result }
    {
        let r = PageReference {
            slot: slot_of(pages, at),
            kind,
        };
        if self.changes.is_empty() {
            if let Touch::Ready = pages.touch(at, kind) {
                self.push(r, Makings::Nothing, self.homes);
                return Added::Went;
            }
        }
        self.add_judged(pages, r)
    }

    /// Whether both places, which are in frames, name one page after the references.
    pub fn same<P: Pages>(&self, pages: &P, a: Place, b: Place) -> bool
        requires place { IsForkPlace (P.means.lives pages.now) a }
        requires other { IsForkPlace (P.means.lives pages.now) b }
        ensures told { (d : DrumWords) → P.means.fits pages.now d → Gathers (P.means.plain pages.now d) (P.means.scene pages.now) self.now → IsPlaceNear (left_of (P.means.plain pages.now d) self.now) (P.means.scene pages.now) a → IsPlaceNear (left_of (P.means.plain pages.now d) self.now) (P.means.scene pages.now) b
            → result ≡ are_same (page_at (left_of (P.means.plain pages.now d) self.now) (spot_of a)) (page_at (left_of (P.means.plain pages.now d) self.now) (spot_of b)) }
    {
        are_together(
            pages,
            self.changes.as_slice(),
            slot_of(pages, a),
            slot_of(pages, b),
        )
    }

    /// The word at an offset of a place that is in frames, after the references. A copy that they make has the words
    /// of its page already, also where it ends a chain that was too long before.
    pub fn word<P: Pages>(&self, pages: &P, at: Place, offset: u16) -> Word
        requires place { IsForkPlace (P.means.lives pages.now) at }
        requires offset { offset < PAGE_WORDS }
        ensures told { (d : DrumWords) → P.means.fits pages.now d → Gathers (P.means.plain pages.now d) (P.means.scene pages.now) self.now → IsPlaceNear (left_of (P.means.plain pages.now d) self.now) (P.means.scene pages.now) at
            → result ≡ word_at (left_of (P.means.plain pages.now d) self.now) (spot_of at) offset }
    {
        word_after(pages, self.changes.as_slice(), slot_of(pages, at), offset)
    }

    /// How many pages the references make that take a home of their own.
    pub fn homes(&self) -> u32
        ensures { result ≡ self.now.homes }
    {
        self.homes
    }

    /// Makes the pages and copies of the references added, in order, and uses the pages that are ready.
    pub fn make<P: Pages>(&self, pages: &mut P)
        requires places { ArePlaces (P.means.lives pages.old) self.now.references }
        requires serial { P.means.serial pages.old self.now.owner < 2 ^ 62 }
        ensures grows { Grows P.means self.now.owner 128 pages.old pages.new }
        ensures fits { (d : DrumWords) → P.means.fits pages.old d → P.means.fits pages.new d }
        ensures told { (d : DrumWords) → P.means.fits pages.old d → Gathers (P.means.plain pages.old d) (P.means.scene pages.old) self.now
            → P.means.plain pages.new d ≡ left_of (P.means.plain pages.old d) self.now }
    {
        make_all(pages, self.owner, self.references.as_slice());
    }
}
