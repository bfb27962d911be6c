// Fetches in a burst: where the page of the program counter is, is found once for the units behind.
ghost use Rattle.std.specs.Prelude.{◌≡◌, ◌<◌, ◌≤◌, ◌^◌, Some, IsSome, IfSome, slice_index};
ghost use Rattle.machine_names.specs.declared.names.ForkName.{ForkName as AForkName};
ghost use Rattle.machine_names.specs.declared.names.Kind.TheVariants.{Execute};
ghost use Rattle.machine_names.specs.declared.names.TheConstants.{ACCUMULATORS, SPACE_PAGES};
ghost use Rattle.machine_names.specs.Bounds.{IsAddress};
ghost use Rattle.page_contracts.specs.DrumWords.{DrumWords};
ghost use Rattle.page_contracts.specs.Pages.{HasSpace};
ghost use Rattle.ka10_spots.specs.Glide.{Takes};
ghost use Rattle.ka10_in_place.specs.Fetches.{CanExecute, IsPage, IsThere, KeepsPage};
ghost use Rattle.ka10_spots.specs.Spots.{IsReached, IsSpot};

use crate::fetch_page::FetchPage;
use ka10_spots::{Spot, page_of};
use machine_names::{ACCUMULATORS, Kind, PAGE_ADDRESSES};
use page_contracts::{Found, Pages, SpaceHandle};
use plain_units::Regs;
use word36::Word;

/// An instruction word, and where it stands.
#[derive(Clone, Copy)]
pub struct Fetched {
    pub word: Word,
    pub spot: Spot,
}

/// The word at the program counter, where that is no accumulator and its fetch goes through as the pages are. Its page
/// is kept for the fetches behind. This is a look, and no use of the page.
#[inline(always)]
pub fn fetch<P: Pages>(
    regs: &Regs,
    pages: &P,
    space: SpaceHandle,
    kept: &mut FetchPage,
) -> Option<Fetched>
    requires space { HasSpace P.means pages.now space }
    requires pc { regs.now.pc < 2 ^ 18 }
    requires there { IsThere P.means space pages.now kept.old }
    ensures there { IsThere P.means space pages.now kept.new }
    ensures reached { (f : AForkName) → P.means.space pages.now f ≡ Some space → ACCUMULATORS ≤ regs.now.pc
        → IsReached P.means pages.now f regs.now.pc Kind.Execute → IsSome result }
    ensures told { (d : DrumWords) (f : AForkName) → P.means.fits pages.now d → P.means.space pages.now f ≡ Some space
        → CanExecute f (P.means.plain pages.now d) kept.old → CanExecute f (P.means.plain pages.now d) kept.new
        × IfSome result (λ it. Takes f (P.means.plain pages.now d) regs.now.ac regs.now.pc Kind.Execute it.word) }
    ensures spot { IfSome result (λ it. IsSpot P.means space regs.now.pc pages.now it.spot) }
{
    let at = regs.pc;
    if keep_page(pages, space, at, kept) {
        return Some(Fetched {
            word: pages.look(space, kept.found, at),
            spot: Spot::Page(kept.found),
        });
    }
    None
}

/// The word of an accumulator.
#[inline(always)]
pub fn word_of_accumulator(regs: &Regs, at: u32) -> Word
    requires { at < ACCUMULATORS }
    ensures { result ≡ slice_index regs.now.ac at }
{
    regs.ac[at as usize]
}

// Keeps the page of an address that is no accumulator. False: it is one, or the page can't be executed as the
// pages are.
#[inline(always)]
fn keep_page<P: Pages>(pages: &P, space: SpaceHandle, at: u32, kept: &mut FetchPage) -> bool
    requires space { HasSpace P.means pages.now space }
    requires address { IsAddress at }
    requires there { IsThere P.means space pages.now kept.old }
    ensures { KeepsPage P.means space pages.now at kept.old kept.new result }
{
    if at.wrapping_sub(kept.from) < kept.length {
        return true;
    }
    find_page(pages, space, at, kept)
}

// The same, of a page that isn't kept yet.
#[inline(never)]
fn find_page<P: Pages>(pages: &P, space: SpaceHandle, at: u32, kept: &mut FetchPage) -> bool
    requires space { HasSpace P.means pages.now space }
    requires address { IsAddress at }
    requires there { IsThere P.means space pages.now kept.old }
    ensures { KeepsPage P.means space pages.now at kept.old kept.new result }
{
    if at < ACCUMULATORS {
        return false;
    }
    let page = page_of(at);
    match pages.find(space, page, Kind::Execute) {
        None => false,
        Some(found) => {
            *kept = fetch_page(page, found);
            true
        }
    }
}

// A page of a space, without accumulators.
fn fetch_page(page: u16, found: Found) -> FetchPage
    requires { page < SPACE_PAGES }
    ensures { IsPage page found result }
{
    let first = page as u32 * PAGE_ADDRESSES;
    let from = first.max(ACCUMULATORS);
    FetchPage {
        from,
        length: first + PAGE_ADDRESSES - from,
        found,
    }
}
