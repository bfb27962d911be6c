// The pages by which an instruction was come by. They are used once its unit is sure to be done, before those of its
// operands.
ghost use Rattle.std.specs.Prelude.{◌≡◌, Some, IfSome, MatchOption};
ghost use Rattle.machine_names.specs.declared.names.ForkName.{ForkName as AForkName};
ghost use Rattle.machine_names.specs.Bounds.{IsAddress};
ghost use Rattle.page_contracts.specs.DrumWords.{DrumWords};
ghost use Rattle.page_contracts.specs.Pages.{OnlyUses};
ghost use Rattle.ka10_spots.specs.Glide.{Takes, word_of};
ghost use Rattle.ka10_spots.specs.Spots.{IsFetched, IsSpot, UsesFetch, UsesOperand};

use crate::addressing::use_indirect;
use crate::spots::{Spot, load, spot_to, use_spot};
use machine_names::Kind;
use page_contracts::{Pages, SpaceHandle};
use plain_units::Regs;
use word36::Word;

/// Indirect words are followed as far as these are more than they.
pub const INDIRECT_WORDS: u32 = 13;

/// How an instruction was come by.
#[derive(Clone, Copy)]
pub struct Lead {
    /// Where its word stands.
    pub fetched: Spot,
    pub way: Way,
}

/// How the effective address of an instruction was come by.
#[derive(Clone, Copy)]
pub enum Way {
    /// By its word alone.
    Direct,
    /// By indirect words.
    Indirect,
}

/// Uses the page from which an instruction was fetched, and then those of its indirect words, in order.
#[inline(always)]
pub fn use_lead<P: Pages>(lead: Lead, regs: &Regs, pages: &mut P, space: SpaceHandle)
    requires { IsFetched P.means space pages.old regs.now lead.fetched }
    ensures only { OnlyUses P.means pages.old pages.new }
    ensures uses { UsesFetch P.means space regs.now.pc pages.old pages.new }
{
    match lead.way {
        Way::Direct => use_spot(pages, space, lead.fetched, regs.pc),
        Way::Indirect => {
            let first = load(regs, pages, space, lead.fetched, regs.pc);
            use_indirect(regs, pages, space, first, INDIRECT_WORDS);
        }
    }
}

/// The word at an address whose spot was found: an operand of an instruction, behind the pages by which that was come by.
#[inline(always)]
pub fn load_led<P: Pages>(
    lead: Lead,
    regs: &Regs,
    pages: &mut P,
    space: SpaceHandle,
    spot: Spot,
    at: u32,
) -> Word
    requires fetched { IsFetched P.means space pages.old regs.now lead.fetched }
    requires address { IsAddress at }
    requires spot { IsSpot P.means space at pages.old spot }
    ensures told { (d : DrumWords) (f : AForkName) → P.means.fits pages.old d → P.means.space pages.old f ≡ Some space → result ≡ word_of f (P.means.plain pages.old d) regs.now.ac at }
    ensures only { OnlyUses P.means pages.old pages.new }
    ensures uses { UsesOperand P.means space regs.now.pc at pages.old pages.new }
{
    use_lead(lead, regs, pages, space);
    load(regs, pages, space, spot, at)
}

/// The same of an address where a reference to read goes through as the pages are. None: it doesn't, and no page is used.
#[inline(always)]
pub fn take_led<P: Pages>(
    lead: Lead,
    regs: &Regs,
    pages: &mut P,
    space: SpaceHandle,
    at: u32,
) -> Option<Word>
    requires fetched { IsFetched P.means space pages.old regs.now lead.fetched }
    requires address { IsAddress at }
    ensures told { (d : DrumWords) (f : AForkName) → P.means.fits pages.old d → P.means.space pages.old f ≡ Some space → IfSome result (λ word. Takes f (P.means.plain pages.old d) regs.now.ac at Kind.Read word) }
    ensures order { IfSome result (λ word. UsesOperand P.means space regs.now.pc at pages.old pages.new) }
    ensures uses { MatchOption result (pages.new ≡ pages.old) (λ word. OnlyUses P.means pages.old pages.new) }
{
    match spot_to(pages, space, at, Kind::Read) {
        None => None,
        Some(spot) => Some(load_led(lead, regs, pages, space, spot, at)),
    }
}
