// The page to which a turn refers as its last step. None is made.
ghost use Rattle.std.specs.Prelude.{◌≡◌, ◌<◌, true, is_some, None, IfErr, IfOk, IsOk, List, ℕ};
ghost use Rattle.machine_names.specs.Bounds.{IsFilePage, IsOwner};
ghost use Rattle.machine_names.specs.Orders.{file_page};
ghost use Rattle.machine_names.specs.declared.names.Tty.{Tty as ATty};
ghost use Rattle.machine_names.specs.declared.names.TheConstants.{SPACE_PAGES};
ghost use Rattle.page_contracts.specs.DrumWords.{DrumWords};
ghost use Rattle.page_contracts.specs.Pages.{TouchNeeds};
ghost use Rattle.page_contracts.specs.Stores.{IsNeeded};
ghost use Rattle.plain_pages.specs.References.{in_map, page_at as named_at};
ghost use Rattle.plain_model.specs.Calls.{Sight};
ghost use Rattle.call_turns.specs.Granting.{GrantsOr, IsGranted, filled_by as filled_by_touch, read_by as read_by_touch};
ghost use Rattle.call_turns.specs.Needing.{DrivenTo};
ghost use Rattle.call_turns.specs.Numbers.{by_number};
ghost use Rattle.call_turns.specs.Telling.{way_need};
ghost use Rattle.call_turns.specs.Turns.{filling, reading, touching};
ghost use Rattle.call_turns.specs.declared.turn.WhenFull.{WhenFull as AWhenFull};

use crate::asking::page_at;
use crate::{Grant, Outcome, WhenFull};
use machine_names::{FileNo, Kind, Place, Slot};
use page_contracts::{Need, Pages, Seen, Touch};
use plain_model::call::{End, NO_PAGE};

// How a turn comes out by what a touch answers that is to read a page of a slot.
fn read_by<C: Copy>(touch: Touch, slot: Slot, end: End<C>) -> Result<Outcome<C>, Need>
    ensures { result ≡ read_by_touch touch slot end }
{
    match touch {
        Touch::Ready => Ok(Outcome {
            grant: Grant::Read(slot),
            end,
        }),
        Touch::Absent(home) => Err(Need::Page(home)),
        Touch::NeedFrame => Err(Need::Frame),
        Touch::Zero => Ok(Outcome::refused(NO_PAGE)),
        Touch::Copy { sole: _ } => Ok(Outcome::refused(NO_PAGE)),
        Touch::Denied(_) => Ok(Outcome::refused(NO_PAGE)),
        Touch::Full => Ok(Outcome::refused(NO_PAGE)),
    }
}

// How one comes out that is to read a page of a slot, which is there.
fn read_there<C: Copy, P: Pages>(pages: &P, slot: Slot, end: End<C>) -> Result<Outcome<C>, Need>
    requires { slot.page < SPACE_PAGES }
    ensures told { (d : DrumWords) (owner : ATty) (seen : Sight (List ℕ) ℕ) → P.means.fits pages.now d → IsOwner owner
        → way_need 4 (P.means.scene pages.now) (P.means.plain pages.now d) slot ≡ None → is_some (named_at (P.means.plain pages.now d) (in_map slot)) ≡ true
        → DrivenTo (by_number seen) (P.means.scene pages.now) (P.means.plain pages.now d) owner (touching owner (in_map slot) Kind.Read end AWhenFull.Refused) result }
    ensures grants { IfOk result (GrantsOr (Grant.Read slot) end AWhenFull.Refused) }
    ensures granted { IfOk result (λ o. IsGranted P.means pages.now o.grant) }
    ensures needs { IfErr result (IsNeeded P.means.store 1 pages.now) }
    ensures core { P.means.flat ≡ true → IsOk result }
{
    match pages.entry(slot) {
        Seen::Is(_) => read_by(pages.touch(Place::Fork(slot), Kind::Read), slot, end),
        Seen::Missing => Ok(Outcome::refused(NO_PAGE)),
        Seen::Absent(home) => Err(Need::Page(home)),
    }
}

/// How a turn comes out that reads the page at the end of a slot's chain as its last step, and ends so where that may be; or what it
/// needs first: a map on the way, or the page.
pub fn read<C: Copy, P: Pages>(pages: &P, slot: Slot, end: End<C>) -> Result<Outcome<C>, Need>
    requires { slot.page < SPACE_PAGES }
    ensures told { (d : DrumWords) (owner : ATty) (seen : Sight (List ℕ) ℕ) → P.means.fits pages.now d → IsOwner owner
        → DrivenTo (by_number seen) (P.means.scene pages.now) (P.means.plain pages.now d) owner (reading owner slot end) result }
    ensures grants { IfOk result (GrantsOr (Grant.Read slot) end AWhenFull.Refused) }
    ensures granted { IfOk result (λ o. IsGranted P.means pages.now o.grant) }
    ensures needs { IfErr result (IsNeeded P.means.store 1 pages.now) }
    ensures core { P.means.flat ≡ true → IsOk result }
{
    match page_at(pages, slot) {
        Ok(Some(_)) => read_there(pages, slot, end),
        Ok(None) => Ok(Outcome::refused(NO_PAGE)),
        Err(need) => Err(need),
    }
}

// How a turn comes out by what a touch answers that is to write a page of a file.
fn filled_by<C: Copy>(
    touch: Touch,
    grant: Grant,
    end: End<C>,
    full: WhenFull,
) -> Result<Outcome<C>, Need>
    ensures { result ≡ filled_by_touch touch grant end full }
{
    match touch {
        Touch::Absent(home) => Err(Need::Page(home)),
        Touch::NeedFrame => Err(Need::Frame),
        Touch::Denied(_) => Ok(Outcome::refused(NO_PAGE)),
        Touch::Full => Ok(Outcome {
            grant: Grant::Nothing,
            end: full.end(),
        }),
        Touch::Ready => Ok(Outcome { grant, end }),
        Touch::Zero => Ok(Outcome { grant, end }),
        Touch::Copy { sole: _ } => Ok(Outcome { grant, end }),
    }
}

/// How a turn comes out that writes a page of a file as its last step, and ends so where that may be; or what it needs first: the page,
/// or a frame for one.
pub fn fill<C: Copy, P: Pages>(
    pages: &P,
    file: FileNo,
    page: u16,
    end: End<C>,
    full: WhenFull,
) -> Result<Outcome<C>, Need>
    requires { IsFilePage file page }
    ensures told { (d : DrumWords) (owner : ATty) (seen : Sight (List ℕ) ℕ) → P.means.fits pages.now d → IsOwner owner
        → DrivenTo (by_number seen) (P.means.scene pages.now) (P.means.plain pages.now d) owner (filling owner (file_page file.0 page) end full) result }
    ensures grants { IfOk result (GrantsOr (Grant.Fill file page) end full) }
    ensures granted { IfOk result (λ o. IsGranted P.means pages.now o.grant) }
    ensures needs { IfErr result (IsNeeded P.means.store 1 pages.now) }
    ensures core { P.means.flat ≡ true → IsOk result }
{
    filled_by(
        pages.touch(Place::File(file, page), Kind::Write),
        Grant::Fill(file, page),
        end,
        full,
    )
}
