// Effective addresses in place.
ghost use Rattle.std.specs.Prelude.{◌≡◌, ◌<◌, IfSome, IsSome, MatchOption, Some, false, true};
ghost use Rattle.std.specs.Option.{option_map};
ghost use Rattle.machine_names.specs.declared.names.ForkName.{ForkName as AForkName};
ghost use Rattle.machine_names.specs.Bounds.{IsAddress};
ghost use Rattle.page_contracts.specs.DrumWords.{DrumWords};
ghost use Rattle.page_contracts.specs.Pages.{HasSpace, OnlyUses};
ghost use Rattle.plain_units.specs.Addressing.{is_indirect};
ghost use Rattle.ka10_deeds.specs.Addresses.{addressed};
ghost use Rattle.ka10_spots.specs.Spots.{IsLed, LeadsTo};

use crate::spots::{load, look_at, spot_to};
use ka10_deeds::{Address, is_indirect, is_plain, step_of};
use machine_names::Kind;
use page_contracts::{Pages, SpaceHandle};
use plain_units::Regs;
use word36::Word;

/// The word to which a word leads by fewer indirect words than these, where each is reached as the pages are: the
/// first that isn't indirect.
#[inline(never)]
fn followed<P: Pages>(
    regs: &Regs,
    pages: &P,
    space: SpaceHandle,
    first: Word,
    most: u32,
) -> Option<Word>
    requires space { HasSpace P.means pages.now space }
    requires most { most < 16 }
    ensures told { LeadsTo P.means pages.now space regs.now.ac most first (option_map (addressed regs.now.ac) result) }
    ensures led { (d : DrumWords) (f : AForkName) → P.means.fits pages.now d → P.means.space pages.now f ≡ Some space → IsLed P.means pages.now f (P.means.plain pages.now d) regs.now.ac most first → IsSome result }
{
    let mut word = first;
    for words in 0..most {
        if !is_indirect(word) {
            return Some(word);
        }
        match look_at(regs, pages, space, step_of(regs, word).e, Kind::Read) {
            None => return None,
            Some(next) => word = next,
        }
    }
    None
}

/// The address that a word names, and the word last taken for it. None exactly where the word is indirect.
#[inline(always)]
pub fn own_address(regs: &Regs, word: Word) -> Option<Address>
    ensures below { IfSome result (λ address. IsAddress address.e) }
    ensures told { MatchOption result (is_indirect word ≡ true) (λ address. (is_indirect word ≡ false) × (address ≡ addressed regs.now.ac word)) }
{
    if is_plain(word) {
        return Some(Address {
            e: word.right(),
            last: word,
        });
    }
    if is_indirect(word) {
        return None;
    }
    Some(step_of(regs, word))
}

/// The effective address of a word, by fewer indirect words than these, where each is reached as the pages are. Each
/// is looked at, and no page is used.
#[inline(always)]
pub fn effective_address<P: Pages>(
    regs: &Regs,
    pages: &P,
    space: SpaceHandle,
    word: Word,
    most: u32,
) -> Option<Address>
    requires space { HasSpace P.means pages.now space }
    requires some { 0 < most }
    requires most { most < 16 }
    ensures below { IfSome result (λ address. IsAddress address.e) }
    ensures told { LeadsTo P.means pages.now space regs.now.ac most word result }
    ensures led { (d : DrumWords) (f : AForkName) → P.means.fits pages.now d → P.means.space pages.now f ≡ Some space → IsLed P.means pages.now f (P.means.plain pages.now d) regs.now.ac most word → IsSome result }
{
    match own_address(regs, word) {
        Some(address) => Some(address),
        None => match followed(regs, pages, space, word, most) {
            None => None,
            Some(last) => Some(step_of(regs, last)),
        },
    }
}

/// Uses the page of each indirect word from a word on, in order, as far as these are more than they. Each is reached as
/// the pages are.
#[inline(never)]
pub fn use_indirect<P: Pages>(
    regs: &Regs,
    pages: &mut P,
    space: SpaceHandle,
    first: Word,
    most: u32,
)
    requires space { HasSpace P.means pages.old space }
    ensures only { OnlyUses P.means pages.old pages.new }
{
    let mut word = first;
    for words in 0..most {
        if !is_indirect(word) {
            return;
        }
        let at = step_of(regs, word).e;
        let Some(spot) = spot_to(pages, space, at, Kind::Read) else {
            return;
        };
        word = load(regs, pages, space, spot, at);
    }
}
