// Where the words of a fork's space are: in its accumulators, or in pages that a look has found.
ghost use Rattle.std.specs.Prelude.{◌≡◌, ◌/◌, ◌<◌, Some, IsSome, IfSome, true};
ghost use Rattle.outside.specs.declared.TheConstants.{PAGE_WORDS};
ghost use Rattle.machine_names.specs.declared.names.ForkName.{ForkName as AForkName};
ghost use Rattle.machine_names.specs.Bounds.{IsAddress};
ghost use Rattle.page_contracts.specs.DrumWords.{DrumWords};
ghost use Rattle.page_contracts.specs.Pages.{HasSpace, CanChange, IsTouched, OnlyUses};
ghost use Rattle.ka10_spots.specs.Glide.{Takes, is_ready, word_of};
ghost use Rattle.ka10_spots.specs.Spots.{IsReached, IsSpot, StoredIf, UsesPage};

use machine_names::{ACCUMULATORS, Kind, PAGE_ADDRESSES};
use page_contracts::{Found, Pages, SpaceHandle};
use plain_units::Regs;
use word36::Word;

/// Where the word at an address is.
#[derive(Clone, Copy)]
pub enum Spot {
    /// In an accumulator, whose number is the address.
    Accumulator,
    Page(Found),
}

/// The page of an address.
#[inline(always)]
pub fn page_of(at: u32) -> u16
    requires { IsAddress at }
    ensures page { result ≡ at / PAGE_WORDS }
    ensures below { result < 512 }
{
    (at / PAGE_ADDRESSES) as u16
}

/// Where the page of an address is, if a reference of this kind to it goes through as the pages are.
#[inline(always)]
fn page_to<P: Pages>(pages: &P, space: SpaceHandle, at: u32, kind: Kind) -> Option<Found>
    requires space { HasSpace P.means pages.now space }
    requires address { IsAddress at }
    ensures place { IfSome result (λ found. P.means.place pages.now space (at / PAGE_WORDS) ≡ Some found) }
    ensures reached { (f : AForkName) → P.means.space pages.now f ≡ Some space → IsTouched P.means pages.now f (at / PAGE_WORDS) kind → IsSome result }
    ensures told { (d : DrumWords) (f : AForkName) → P.means.fits pages.now d → P.means.space pages.now f ≡ Some space → IfSome result (λ found. is_ready f (P.means.plain pages.now d) at kind ≡ true) }
{
    pages.find(space, page_of(at), kind)
}

/// Where the word at an address is, if a reference of this kind goes through as the pages are.
#[inline(always)]
pub fn spot_to<P: Pages>(pages: &P, space: SpaceHandle, at: u32, kind: Kind) -> Option<Spot>
    requires space { HasSpace P.means pages.now space }
    requires address { IsAddress at }
    ensures spot { IfSome result (λ spot. IsSpot P.means space at pages.now spot) }
    ensures reached { (f : AForkName) → P.means.space pages.now f ≡ Some space → IsReached P.means pages.now f at kind → IsSome result }
    ensures told { (d : DrumWords) (f : AForkName) → P.means.fits pages.now d → P.means.space pages.now f ≡ Some space → IfSome result (λ spot. is_ready f (P.means.plain pages.now d) at kind ≡ true) }
{
    if at < ACCUMULATORS {
        return Some(Spot::Accumulator);
    }
    match page_to(pages, space, at, kind) {
        None => None,
        Some(found) => Some(Spot::Page(found)),
    }
}

/// Where the word at an address is, if references to read it and to write it both go through as the pages are.
#[inline(always)]
pub fn spot_to_change<P: Pages>(pages: &P, space: SpaceHandle, at: u32) -> Option<Spot>
    requires space { HasSpace P.means pages.now space }
    requires address { IsAddress at }
    ensures spot { IfSome result (λ spot. IsSpot P.means space at pages.now spot) }
    ensures reached { (f : AForkName) → P.means.space pages.now f ≡ Some space → CanChange (IsReached P.means pages.now f at) → IsSome result }
    ensures read { (d : DrumWords) (f : AForkName) → P.means.fits pages.now d → P.means.space pages.now f ≡ Some space → IfSome result (λ spot. is_ready f (P.means.plain pages.now d) at Kind.Read ≡ true) }
    ensures write { (d : DrumWords) (f : AForkName) → P.means.fits pages.now d → P.means.space pages.now f ≡ Some space → IfSome result (λ spot. is_ready f (P.means.plain pages.now d) at Kind.Write ≡ true) }
{
    if at < ACCUMULATORS {
        return Some(Spot::Accumulator);
    }
    match pages.find_to_change(space, page_of(at)) {
        None => None,
        Some(found) => Some(Spot::Page(found)),
    }
}

/// The word at an address whose spot was found, which is a use of its page.
#[inline(always)]
pub fn load<P: Pages>(regs: &Regs, pages: &mut P, space: SpaceHandle, spot: Spot, at: u32) -> Word
    requires space { HasSpace P.means pages.old space }
    requires address { IsAddress at }
    requires spot { IsSpot P.means space at pages.old spot }
    ensures told { (d : DrumWords) (f : AForkName) → P.means.fits pages.old d → P.means.space pages.old f ≡ Some space → result ≡ word_of f (P.means.plain pages.old d) regs.now.ac at }
    ensures only { OnlyUses P.means pages.old pages.new }
    ensures uses { UsesPage P.means space at pages.old pages.new }
{
    match spot {
        Spot::Accumulator => regs.ac[at as usize],
        Spot::Page(found) => pages.load(space, found, at),
    }
}

/// The word at an address whose spot was found. This is a look, and no use of its page.
#[inline(always)]
pub fn look<P: Pages>(regs: &Regs, pages: &P, space: SpaceHandle, spot: Spot, at: u32) -> Word
    requires space { HasSpace P.means pages.now space }
    requires address { IsAddress at }
    requires spot { IsSpot P.means space at pages.now spot }
    ensures told { (d : DrumWords) (f : AForkName) → P.means.fits pages.now d → P.means.space pages.now f ≡ Some space → result ≡ word_of f (P.means.plain pages.now d) regs.now.ac at }
{
    match spot {
        Spot::Accumulator => regs.ac[at as usize],
        Spot::Page(found) => pages.look(space, found, at),
    }
}

/// The word at an address, where a reference of this kind goes through as the pages are. This too is a look.
#[inline(always)]
pub fn look_at<P: Pages>(
    regs: &Regs,
    pages: &P,
    space: SpaceHandle,
    at: u32,
    kind: Kind,
) -> Option<Word>
    requires space { HasSpace P.means pages.now space }
    requires address { IsAddress at }
    ensures reached { (f : AForkName) → P.means.space pages.now f ≡ Some space → IsReached P.means pages.now f at kind → IsSome result }
    ensures told { (d : DrumWords) (f : AForkName) → P.means.fits pages.now d → P.means.space pages.now f ≡ Some space → IfSome result (λ word. Takes f (P.means.plain pages.now d) regs.now.ac at kind word) }
{
    match spot_to(pages, space, at, kind) {
        None => None,
        Some(spot) => Some(look(regs, pages, space, spot, at)),
    }
}

/// A use of the page of an address whose spot was found, as `load` is one.
#[inline(always)]
pub fn use_spot<P: Pages>(pages: &mut P, space: SpaceHandle, spot: Spot, at: u32)
    requires space { HasSpace P.means pages.old space }
    requires address { IsAddress at }
    requires spot { IsSpot P.means space at pages.old spot }
    ensures only { OnlyUses P.means pages.old pages.new }
    ensures uses { UsesPage P.means space at pages.old pages.new }
{
    match spot {
        Spot::Accumulator => {}
        Spot::Page(found) => pages.used(space, found, at),
    }
}

/// Puts a word at an address whose spot was found, if there is one.
#[inline(always)]
pub fn store<P: Pages>(
    regs: &mut Regs,
    pages: &mut P,
    space: SpaceHandle,
    spot: Spot,
    at: u32,
    word: Option<Word>,
)
    requires space { HasSpace P.means pages.old space }
    requires address { IsAddress at }
    requires spot { IsSpot P.means space at pages.old spot }
    ensures { StoredIf P.means space at word pages.old pages.new regs.old regs.new }
{
    match (word, spot) {
        (None, _) => {}
        (Some(word), Spot::Accumulator) => regs.ac[at as usize] = word,
        (Some(word), Spot::Page(found)) => pages.store(space, found, at, word),
    }
}
