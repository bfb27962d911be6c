// Pages that are made ready for a write, where nothing is needed first.
ghost use Rattle.std.specs.Prelude.{◌≡◌, ◌<◌, ◌^◌, IfErr, IfOk, IsOk, OnOk, true};
ghost use Rattle.machine_names.specs.Bounds.{IsFilePage, IsOwner};
ghost use Rattle.monitor_calls.specs.Makings.{Makes};
ghost use Rattle.page_contracts.specs.DrumWords.{DrumWords};
ghost use Rattle.page_contracts.specs.Pages.{IsPlace, MayLose, spot_of, touch_of};
ghost use Rattle.page_gather.specs.Making.{CanMake, Grows};
ghost use Rattle.plain_pages.specs.PlainPages.{NumberedPages};
ghost use Rattle.plain_pages.specs.References.{in_map};
ghost use Rattle.console_access.specs.Needing.{Lacks, OpensOver};
ghost use Rattle.console_access.specs.Writing.{IsReadied};

use crate::writing::Barred;
use machine_names::{FileNo, Kind, Place, Slot, Tty};
use page_contracts::{Need, Pages, Touch};
use page_gather::{Added, Gather};

// Makes the copy that a write of a page of a space wants, where one is wanted. No zero page is.
fn make_copy<P: Pages>(pages: &mut P, slot: Slot, owner: Tty)
    requires place { IsPlace (P.means.lives pages.old) (Place.Fork slot) }
    requires owner { IsOwner owner }
    requires serial { P.means.serial pages.old owner < 2 ^ 62 }
    ensures grows { Grows P.means owner 1 pages.old pages.new }
    ensures fits { (d : DrumWords) → P.means.fits pages.old d → P.means.fits pages.new d }
    ensures told { (d : DrumWords) (left : NumberedPages) → P.means.fits pages.old d → CanMake (P.means.plain pages.old d) (P.means.scene pages.old) owner (record { slot = slot; kind = Kind.Write }) left
        → (touch_of (P.means.plain pages.old d) (P.means.scene pages.old) (in_map slot) Kind.Write owner ≡ Touch.Zero → ⊥) → P.means.plain pages.new d ≡ left }
{
    let at = Place::Fork(slot);
    if let Touch::Copy { .. } = pages.touch(at, Kind::Write) {
        pages.settle(at, Kind::Write, owner);
    }
}

// Makes what a write of a page of a space wants, where all that can be made: a zero page, a private copy, or the one and then the other.
fn make<P: Pages>(pages: &mut P, slot: Slot, owner: Tty)
    requires place { IsPlace (P.means.lives pages.old) (Place.Fork slot) }
    requires owner { IsOwner owner }
    requires serial { P.means.serial pages.old owner < 2 ^ 61 }
    ensures grows { Grows P.means owner 2 pages.old pages.new }
    ensures fits { (d : DrumWords) → P.means.fits pages.old d → P.means.fits pages.new d }
    ensures told { (d : DrumWords) (left : NumberedPages) → P.means.fits pages.old d → CanMake (P.means.plain pages.old d) (P.means.scene pages.old) owner (record { slot = slot; kind = Kind.Write }) left → P.means.plain pages.new d ≡ left }
{
    let at = Place::Fork(slot);
    match pages.touch(at, Kind::Write) {
        Touch::Zero => {
            pages.settle(at, Kind::Write, owner);
            make_copy(pages, slot, owner);
        }
        _ => make_copy(pages, slot, owner),
    }
}

// Makes what a write of a page of a space wants. Both pages that it may want are asked for before the first is made.
fn ready_slot<P: Pages>(pages: &mut P, slot: Slot, owner: Tty) -> Result<Result<(), Barred>, Need>
    requires place { IsPlace (P.means.lives pages.old) (Place.Fork slot) }
    requires owner { IsOwner owner }
    requires serial { P.means.serial pages.old owner < 2 ^ 61 }
    ensures told { (d : DrumWords) → P.means.fits pages.old d → P.means.fits pages.new d × IfOk result (λ done. IsReadied (P.means.plain pages.old d) (P.means.plain pages.new d) (in_map slot) owner done) }
    ensures open { (d : DrumWords) → P.means.fits pages.old d → IfOk result (λ done. OnOk done (OpensOver P.means pages.new d (Place.Fork slot) owner)) }
    ensures made { Makes P.means pages.old pages.new owner 2 }
    ensures loses { MayLose P.means pages.old pages.new }
    ensures waits { IfErr result (Lacks P.means pages.old pages.new (Place.Fork slot)) }
    ensures core { P.means.flat ≡ true → IsOk result }
{
    let mut gather = Gather::new(owner);
    match gather.add(pages, Place::Fork(slot), Kind::Write) {
        Added::Went => {
            make(pages, slot, owner);
            Ok(Ok(()))
        }
        Added::Need(need) => Err(need),
        Added::Denied(_) => Ok(Err(Barred::ByMap)),
        Added::Full => Ok(Err(Barred::ByDrum)),
    }
}

// Makes the page of a file that a write wants, where it isn't there.
fn ready_file<P: Pages>(
    pages: &mut P,
    file: FileNo,
    page: u16,
    owner: Tty,
) -> Result<Result<(), Barred>, Need>
    requires place { IsFilePage file page }
    requires owner { IsOwner owner }
    requires serial { P.means.serial pages.old owner < 2 ^ 61 }
    ensures told { (d : DrumWords) → P.means.fits pages.old d → P.means.fits pages.new d × IfOk result (λ done. IsReadied (P.means.plain pages.old d) (P.means.plain pages.new d) (spot_of (Place.File file page)) owner done) }
    ensures open { (d : DrumWords) → P.means.fits pages.old d → IfOk result (λ done. OnOk done (OpensOver P.means pages.new d (Place.File file page) owner)) }
    ensures made { Makes P.means pages.old pages.new owner 2 }
    ensures loses { MayLose P.means pages.old pages.new }
    ensures waits { IfErr result (Lacks P.means pages.old pages.new (Place.File file page)) }
    ensures core { P.means.flat ≡ true → IsOk result }
{
    let at = Place::File(file, page);
    match pages.touch(at, Kind::Write) {
        Touch::Ready => Ok(Ok(())),
        Touch::Zero => {
            pages.settle(at, Kind::Write, owner);
            Ok(Ok(()))
        }
        Touch::Copy { .. } => {
            pages.settle(at, Kind::Write, owner);
            Ok(Ok(()))
        }
        Touch::Denied(_) => Ok(Err(Barred::ByMap)),
        Touch::Full => Ok(Err(Barred::ByDrum)),
        Touch::Absent(home) => Err(Need::Page(home)),
        Touch::NeedFrame => Err(Need::Frame),
    }
}

/// Makes what a write of a page wants, for an owner: a zero page, a private copy, or the one and then the other. Where the write
/// is barred nothing changes. Err: this is needed first, and nothing has changed.
pub fn readied<P: Pages>(pages: &mut P, at: Place, owner: Tty) -> Result<Result<(), Barred>, Need>
    requires place { IsPlace (P.means.lives pages.old) at }
    requires owner { IsOwner owner }
    requires serial { P.means.serial pages.old owner < 2 ^ 61 }
    ensures told { (d : DrumWords) → P.means.fits pages.old d → P.means.fits pages.new d × IfOk result (λ done. IsReadied (P.means.plain pages.old d) (P.means.plain pages.new d) (spot_of at) owner done) }
    ensures open { (d : DrumWords) → P.means.fits pages.old d → IfOk result (λ done. OnOk done (OpensOver P.means pages.new d at owner)) }
    ensures made { Makes P.means pages.old pages.new owner 2 }
    ensures loses { MayLose P.means pages.old pages.new }
    ensures waits { IfErr result (Lacks P.means pages.old pages.new at) }
    ensures core { P.means.flat ≡ true → IsOk result }
{
    match at {
        Place::Fork(slot) => ready_slot(pages, slot, owner),
        Place::File(file, page) => ready_file(pages, file, page, owner),
    }
}
