// How an instruction is done in place behind its effective address, by the words that it refers to.
ghost use Rattle.std.specs.Prelude.{◌≡◌, ◌^◌, ◌<◌, Some, None, true};
ghost use Rattle.plain_units.specs.Deeds.{in_ac};
ghost use Rattle.machine_names.specs.Bounds.{IsAddress};
ghost use Rattle.machine_names.specs.declared.names.ForkName.{ForkName as AForkName};
ghost use Rattle.page_contracts.specs.DrumWords.{DrumWords};
ghost use Rattle.page_contracts.specs.Pages.{HasSpace};
ghost use Rattle.ka10_spots.specs.Glide.{is_ready};
ghost use Rattle.ka10_spots.specs.Spots.{IsFetched, IsSpot};
ghost use Rattle.ka10_in_place.specs.InPlace.{Addressee, Finish, InPlace, IsDone, IsOwnRow, deed_in, is_deed, taken_in};
ghost use Rattle.ka10_in_place.specs.Stores.{GoesTo, IsNowhere};
ghost use Rattle.ka10_in_place.specs.Targets.{unstored, operand, place_of, target_of};

use crate::ending::{Quick, ended};
use crate::instruction::Instruction;
use ka10_deeds::HasDeed;
use ka10_spots::{Spot, load_led, spot_to, spot_to_change, store, take_led, use_lead};
use machine_names::Kind;
use page_contracts::{Pages, SpaceHandle};
use plain_units::Regs;
use word36::Word;

/// A deed that stores no word.
#[inline(always)]
fn finish<D: HasDeed, P: Pages>(
    deed: D,
    it: Instruction,
    regs: &mut Regs,
    pages: &P,
    space: SpaceHandle,
    m: Word,
) -> Quick
    requires valid { D.is_valid deed }
    requires nowhere { IsNowhere (deed_in (D.instruction deed) regs.old it.ac it.e it.last m).store }
    requires pc { regs.old.pc < 2 ^ 18 }
    ensures unit { InPlace P.means space (Finish regs.old it.ac (deed_in (D.instruction deed) regs.old it.ac it.e it.last m)) pages.now pages.now regs.old regs.new result }
    ensures done { IsDone result }
{
    let told = deed.do_deed(regs, it.ac, it.e, it.last, m);
    ended(told.post)
}

/// A deed that stores at an address whose spot was found, if it stores.
#[inline(always)]
fn finish_at<D: HasDeed, P: Pages>(
    deed: D,
    it: Instruction,
    regs: &mut Regs,
    pages: &mut P,
    space: SpaceHandle,
    m: Word,
    spot: Spot,
    to: u32,
) -> Quick
    requires valid { D.is_valid deed }
    requires space { HasSpace P.means pages.old space }
    requires to { GoesTo to (deed_in (D.instruction deed) regs.old it.ac it.e it.last m).store }
    requires address { IsAddress to }
    requires spot { IsSpot P.means space to pages.old spot }
    requires ready { (d : DrumWords) (f : AForkName) → P.means.fits pages.old d → P.means.space pages.old f ≡ Some space → is_ready f (P.means.plain pages.old d) to Kind.Write ≡ true }
    requires pc { regs.old.pc < 2 ^ 18 }
    ensures unit { InPlace P.means space (Finish regs.old it.ac (deed_in (D.instruction deed) regs.old it.ac it.e it.last m)) pages.old pages.new regs.old regs.new result }
    ensures done { IsDone result }
{
    let told = deed.do_deed(regs, it.ac, it.e, it.last, m);
    store(regs, pages, space, spot, to, told.stored);
    ended(told.post)
}

/// The operand is 0,,E, and no word is stored.
#[inline(always)]
pub fn bare<D: HasDeed, P: Pages>(
    deed: D,
    it: Instruction,
    regs: &mut Regs,
    pages: &mut P,
    space: SpaceHandle,
) -> Quick
    requires valid { D.is_valid deed }
    requires row { IsOwnRow (D.instruction deed) }
    requires deed { is_deed (D.instruction deed).row.family it.ac ≡ true }
    requires fetched { IsFetched P.means space pages.old regs.old it.lead.fetched }
    requires taken { taken_in (D.instruction deed) regs.old it.ac it.e ≡ None }
    requires nowhere { target_of (D.instruction deed).row ≡ unstored }
    ensures { InPlace P.means space (Addressee (D.instruction deed).op regs.old it.ac it.e it.last) pages.old pages.new regs.old regs.new result }
{
    use_lead(it.lead, regs, pages, space);
    finish(deed, it, regs, pages, space, Word::join(0, it.e))
}

/// The word at an address is taken, and none is stored.
#[inline(always)]
pub fn read<D: HasDeed, P: Pages>(
    deed: D,
    it: Instruction,
    regs: &mut Regs,
    pages: &mut P,
    space: SpaceHandle,
    from: u32,
) -> Quick
    requires valid { D.is_valid deed }
    requires row { IsOwnRow (D.instruction deed) }
    requires deed { is_deed (D.instruction deed).row.family it.ac ≡ true }
    requires fetched { IsFetched P.means space pages.old regs.old it.lead.fetched }
    requires taken { taken_in (D.instruction deed) regs.old it.ac it.e ≡ Some from }
    requires nowhere { target_of (D.instruction deed).row ≡ unstored }
    requires from { IsAddress from }
    ensures { InPlace P.means space (Addressee (D.instruction deed).op regs.old it.ac it.e it.last) pages.old pages.new regs.old regs.new result }
{
    match take_led(it.lead, regs, pages, space, from) {
        None => Quick::Slow,
        Some(m) => finish(deed, it, regs, pages, space, m),
    }
}

/// The operand is 0,,E, and a word is stored at an address.
#[inline(always)]
pub fn write<D: HasDeed, P: Pages>(
    deed: D,
    it: Instruction,
    regs: &mut Regs,
    pages: &mut P,
    space: SpaceHandle,
    to: u32,
) -> Quick
    requires valid { D.is_valid deed }
    requires row { IsOwnRow (D.instruction deed) }
    requires deed { is_deed (D.instruction deed).row.family it.ac ≡ true }
    requires fetched { IsFetched P.means space pages.old regs.old it.lead.fetched }
    requires taken { taken_in (D.instruction deed) regs.old it.ac it.e ≡ None }
    requires to { place_of (target_of (D.instruction deed).row) (in_ac regs.old it.ac) it.e ≡ Some to }
    requires address { IsAddress to }
    ensures { InPlace P.means space (Addressee (D.instruction deed).op regs.old it.ac it.e it.last) pages.old pages.new regs.old regs.new result }
{
    match spot_to(pages, space, to, Kind::Write) {
        None => Quick::Slow,
        Some(spot) => {
            use_lead(it.lead, regs, pages, space);
            finish_at(deed, it, regs, pages, space, Word::join(0, it.e), spot, to)
        }
    }
}

/// The word at an address is taken, and one is stored at another.
#[inline(always)]
pub fn transfer<D: HasDeed, P: Pages>(
    deed: D,
    it: Instruction,
    regs: &mut Regs,
    pages: &mut P,
    space: SpaceHandle,
    from: u32,
    to: u32,
) -> Quick
    requires valid { D.is_valid deed }
    requires row { IsOwnRow (D.instruction deed) }
    requires deed { is_deed (D.instruction deed).row.family it.ac ≡ true }
    requires fetched { IsFetched P.means space pages.old regs.old it.lead.fetched }
    requires taken { taken_in (D.instruction deed) regs.old it.ac it.e ≡ Some from }
    requires to { place_of (target_of (D.instruction deed).row) (in_ac regs.old it.ac) it.e ≡ Some to }
    requires from { IsAddress from }
    requires address { IsAddress to }
    ensures { InPlace P.means space (Addressee (D.instruction deed).op regs.old it.ac it.e it.last) pages.old pages.new regs.old regs.new result }
{
    match spot_to(pages, space, to, Kind::Write) {
        None => Quick::Slow,
        Some(spot) => match take_led(it.lead, regs, pages, space, from) {
            None => Quick::Slow,
            Some(m) => finish_at(deed, it, regs, pages, space, m, spot, to),
        },
    }
}

/// The word at E is taken, and one is stored there, if the operation is done.
#[inline(always)]
pub fn replace<D: HasDeed, P: Pages>(
    deed: D,
    it: Instruction,
    regs: &mut Regs,
    pages: &mut P,
    space: SpaceHandle,
) -> Quick
    requires valid { D.is_valid deed }
    requires row { IsOwnRow (D.instruction deed) }
    requires deed { is_deed (D.instruction deed).row.family it.ac ≡ true }
    requires fetched { IsFetched P.means space pages.old regs.old it.lead.fetched }
    requires taken { taken_in (D.instruction deed) regs.old it.ac it.e ≡ Some it.e }
    requires to { target_of (D.instruction deed).row ≡ operand }
    ensures { InPlace P.means space (Addressee (D.instruction deed).op regs.old it.ac it.e it.last) pages.old pages.new regs.old regs.new result }
{
    let e = it.e;
    match spot_to_change(pages, space, e) {
        None => Quick::Slow,
        Some(spot) => {
            let m = load_led(it.lead, regs, pages, space, spot, e);
            finish_at(deed, it, regs, pages, space, m, spot, e)
        }
    }
}
