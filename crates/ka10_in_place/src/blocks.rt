// Block transfers in place, a word a unit.
ghost use Rattle.std.specs.Prelude.{◌≡◌, ◌<◌, ◌^◌, ◌==◌, Some, None, true, if◌then◌else◌};
ghost use Rattle.word36.specs.Words.{right};
ghost use Rattle.plain_units.specs.Deeds.{in_ac, moves_block, operands};
ghost use Rattle.machine_names.specs.declared.names.ForkName.{ForkName as AForkName};
ghost use Rattle.page_contracts.specs.DrumWords.{DrumWords};
ghost use Rattle.page_contracts.specs.Pages.{HasSpace};
ghost use Rattle.ka10_spots.specs.Glide.{is_ready};
ghost use Rattle.ka10_spots.specs.Spots.{IsFetched, IsSpot};
ghost use Rattle.ka10_in_place.specs.InPlace.{Addressee, Finish, InPlace, IsDone};

use crate::ending::{Quick, ended};
use crate::instruction::Instruction;
use ka10_deeds::{Blt, HasDeed, word_in};
use ka10_spots::{Spot, spot_to, store, take_led};
use machine_names::Kind;
use page_contracts::{Pages, SpaceHandle};
use plain_units::Regs;
use word36::Word;

/// The word of a block, if it is still there once AC is counted up: it is stored before that.
#[inline(always)]
fn unless_counted(to: u32, ac: u8, m: Word) -> Option<Word>
    ensures { result ≡ (if to == ac then None else Some m) }
{
    if to == ac as u32 { None } else { Some(m) }
}

/// One word of a block is stored at the right half of AC, whose spot was found.
#[inline(always)]
fn store_word<P: Pages>(
    it: Instruction,
    regs: &mut Regs,
    pages: &mut P,
    space: SpaceHandle,
    m: Word,
    spot: Spot,
    to: u32,
) -> Quick
    requires space { HasSpace P.means pages.old space }
    requires to { to ≡ right (in_ac regs.old it.ac) }
    requires spot { IsSpot P.means space to pages.old spot }
    requires ready { (d : DrumWords) (f : AForkName) → P.means.fits pages.old d → P.means.space pages.old f ≡ Some space → is_ready f (P.means.plain pages.old d) to Kind.Write ≡ true }
    requires pc { regs.old.pc < 2 ^ 18 }
    ensures unit { InPlace P.means space (Finish regs.old it.ac (moves_block (operands regs.old it.ac it.e it.last m))) pages.old pages.new regs.old regs.new result }
    ensures done { IsDone result }
{
    let told = Blt.do_deed(regs, it.ac, it.e, it.last, m);
    store(regs, pages, space, spot, to, unless_counted(to, it.ac, m));
    ended(told.post)
}

/// BLT (251).
#[inline(always)]
pub fn move_word<P: Pages>(
    it: Instruction,
    regs: &mut Regs,
    pages: &mut P,
    space: SpaceHandle,
) -> Quick
    requires fetched { IsFetched P.means space pages.old regs.old it.lead.fetched }
    ensures { InPlace P.means space (Addressee 0o251 regs.old it.ac it.e it.last) pages.old pages.new regs.old regs.new result }
{
    let a = word_in(regs, it.ac);
    let to = a.right();
    match spot_to(pages, space, to, Kind::Write) {
        None => Quick::Slow,
        Some(spot) => match take_led(it.lead, regs, pages, space, a.left()) {
            None => Quick::Slow,
            Some(m) => store_word(it, regs, pages, space, m, spot, to),
        },
    }
}
