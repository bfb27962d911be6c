// Making what references ask for, in order.
ghost use Rattle.std.specs.Prelude.{◌≡◌, ◌<◌, ◌+◌, ◌*◌, ◌^◌, ℕ, List, ◌∷◌, length, Some};
ghost use Rattle.page_contracts.specs.DrumWords.{DrumWords};
ghost use Rattle.machine_names.specs.Bounds.{IsOwner};
ghost use Rattle.page_contracts.specs.Pages.{IsPlace};
ghost use Rattle.plain_pages.specs.References.{Making, Spot, blank, in_map, makings};
ghost use Rattle.plain_pages.specs.PlainPages.{NumberedPages};
ghost use Rattle.page_gather.specs.Gathering.{AllWent, ArePlaces, after_all, most_framed};
ghost use Rattle.page_gather.specs.Making.{CanMake, Grows};

use crate::reference::PageReference;
use machine_names::{Place, Tty};
use page_contracts::{Pages, Touch};

// Makes what is left of a reference that makes no zero page, or uses its page.
fn make_rest<P: Pages>(pages: &mut P, owner: Tty, r: PageReference)
    requires place { IsPlace (P.means.lives pages.old) (Place.Fork r.slot) }
    requires owner { IsOwner owner }
    requires serial { P.means.serial pages.old owner < 2 ^ 63 }
    ensures grows { Grows P.means owner 1 pages.old pages.new }
    ensures fits { (d : DrumWords) → P.means.fits pages.old d → P.means.fits pages.new d }
    ensures told { (d : DrumWords) (left : NumberedPages) → P.means.fits pages.old d → CanMake (P.means.plain pages.old d) (P.means.scene pages.old) owner r left
        → ((at : Spot ℕ) (ms : List (Making ℕ)) → makings (P.means.plain pages.old d) (in_map r.slot) r.kind ≡ Some (blank at ∷ ms) → ⊥) → P.means.plain pages.new d ≡ left }
{
    let at = Place::Fork(r.slot);
    match pages.touch(at, r.kind) {
        Touch::Ready => pages.settle(at, r.kind, owner),
        Touch::Copy { sole: _ } => pages.settle(at, r.kind, owner),
        Touch::Zero => {}
        Touch::Absent(_) => {}
        Touch::NeedFrame => {}
        Touch::Denied(_) => {}
        Touch::Full => {}
    }
}

// Makes what one reference asks for, or uses its page.
fn make_one<P: Pages>(pages: &mut P, owner: Tty, r: PageReference)
    requires place { IsPlace (P.means.lives pages.old) (Place.Fork r.slot) }
    requires owner { IsOwner owner }
    requires serial { P.means.serial pages.old owner + 1 < 2 ^ 63 }
    ensures grows { Grows P.means owner 2 pages.old pages.new }
    ensures fits { (d : DrumWords) → P.means.fits pages.old d → P.means.fits pages.new d }
    ensures told { (d : DrumWords) (left : NumberedPages) → P.means.fits pages.old d → CanMake (P.means.plain pages.old d) (P.means.scene pages.old) owner r left → P.means.plain pages.new d ≡ left }
{
    let at = Place::Fork(r.slot);
    match pages.touch(at, r.kind) {
        Touch::Ready => pages.settle(at, r.kind, owner),
        Touch::Copy { sole: _ } => pages.settle(at, r.kind, owner),
        Touch::Zero => {
            pages.settle(at, r.kind, owner);
            make_rest(pages, owner, r);
        }
        Touch::Absent(_) => {}
        Touch::NeedFrame => {}
        Touch::Denied(_) => {}
        Touch::Full => {}
    }
}

/// Makes the pages that references ask for, in order, and uses those that are there.
pub fn make_all<P: Pages>(pages: &mut P, owner: Tty, references: &[PageReference])
    requires places { ArePlaces (P.means.lives pages.old) references.now }
    requires owner { IsOwner owner }
    requires serial { P.means.serial pages.old owner + 2 * length references.now < 2 ^ 63 }
    ensures grows { Grows P.means owner (2 * length references.now) pages.old pages.new }
    ensures fits { (d : DrumWords) → P.means.fits pages.old d → P.means.fits pages.new d }
    ensures told { (d : DrumWords) → P.means.fits pages.old d → AllWent (P.means.plain pages.old d) (P.means.scene pages.old) (most_framed (P.means.plain pages.old d) (P.means.scene pages.old)) owner references.now
        → P.means.plain pages.new d ≡ after_all (P.means.plain pages.old d) owner references.now }
{
    for r in references {
        make_one(pages, owner, *r);
    }
}
