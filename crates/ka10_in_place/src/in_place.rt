// A unit in place.
ghost use Rattle.std.specs.Prelude.{◌<◌, ◌^◌};
ghost use Rattle.page_contracts.specs.Pages.{HasSpace};
ghost use Rattle.ka10_in_place.specs.InPlace.{InPlace};
ghost use Rattle.ka10_in_place.specs.Fetches.{Executes, FetchedUnit, IsThere};
ghost use Rattle.ka10_spots.specs.Spots.{IsFetched};

use crate::dispatch::carry;
use crate::ending::Quick;
use crate::fetch_page::FetchPage;
use crate::fetches::{Fetched, fetch, word_of_accumulator};
use crate::instruction::Instruction;
use ka10_deeds::{ac_field, opcode};
use ka10_spots::{INDIRECT_WORDS, Lead, Spot, Way, effective_address, own_address};
use machine_names::ACCUMULATORS;
use page_contracts::{Pages, SpaceHandle};
use plain_units::Regs;
use word36::Word;

/// Does the unit of the instruction at the program counter, on the registers and pages of a fork
/// whose space this is, with the page that was fetched from last. Slow where a reference needs more than the pages as they are, and for an
/// instruction that isn't done in place: an illegal one, a monitor call, a local call, XCT, and one
/// with more than 12 indirect words. Where it is slow no page was used.
#[inline(always)]
pub fn quick<P: Pages>(
    regs: &mut Regs,
    pages: &mut P,
    space: SpaceHandle,
    kept: &mut FetchPage,
) -> Quick
    requires space { HasSpace P.means pages.old space }
    requires pc { regs.old.pc < 2 ^ 18 }
    requires there { IsThere P.means space pages.old kept.old }
    ensures there { IsThere P.means space pages.new kept.new }
    ensures unit { InPlace P.means space (FetchedUnit regs.old kept.old kept.new) pages.old pages.new regs.old regs.new result }
{
    match fetch(regs, pages, space, kept) {
        Some(fetched) => execute::<P, true>(fetched, regs, pages, space),
        None => quick_elsewhere(regs, pages, space, kept),
    }
}

/// The same where the word isn't in a page that can be executed as the pages are: it is in an accumulator, or the unit is
/// slow. It is a function of its own, so that its way doesn't join the other.
#[inline(never)]
fn quick_elsewhere<P: Pages>(
    regs: &mut Regs,
    pages: &mut P,
    space: SpaceHandle,
    kept: &FetchPage,
) -> Quick
    requires space { HasSpace P.means pages.old space }
    requires pc { regs.old.pc < 2 ^ 18 }
    ensures { InPlace P.means space (FetchedUnit regs.old kept.now kept.now) pages.old pages.new regs.old regs.new result }
{
    let at = regs.pc;
    if at < ACCUMULATORS {
        let fetched = Fetched {
            word: word_of_accumulator(regs, at),
            spot: Spot::Accumulator,
        };
        return execute::<P, false>(fetched, regs, pages, space);
    }
    Quick::Slow
}

/// Does the unit of an instruction that was fetched.
#[inline(always)]
fn execute<P: Pages, const NEAR: bool>(
    fetched: Fetched,
    regs: &mut Regs,
    pages: &mut P,
    space: SpaceHandle,
) -> Quick
    requires fetched { IsFetched P.means space pages.old regs.old fetched.spot }
    ensures { InPlace P.means space (Executes regs.old fetched.word) pages.old pages.new regs.old regs.new result }
{
    match own_address(regs, fetched.word) {
        None => execute_indirect(fetched.word, fetched.spot, regs, pages, space),
        Some(address) => {
            let it = Instruction {
                ac: ac_field(fetched.word),
                e: address.e,
                last: address.last,
                lead: Lead {
                    fetched: fetched.spot,
                    way: Way::Direct,
                },
            };
            carry::<P, NEAR>(opcode(fetched.word), it, regs, pages, space)
        }
    }
}

/// The same of one whose address is behind indirect words. What was fetched comes part by part: a record whose address
/// is handed on would be written to memory for each unit.
#[inline(never)]
fn execute_indirect<P: Pages>(
    word: Word,
    spot: Spot,
    regs: &mut Regs,
    pages: &mut P,
    space: SpaceHandle,
) -> Quick
    requires fetched { IsFetched P.means space pages.old regs.old spot }
    ensures { InPlace P.means space (Executes regs.old word) pages.old pages.new regs.old regs.new result }
{
    match effective_address(regs, pages, space, word, INDIRECT_WORDS) {
        None => Quick::Slow,
        Some(address) => {
            let it = Instruction {
                ac: ac_field(word),
                e: address.e,
                last: address.last,
                lead: Lead {
                    fetched: spot,
                    way: Way::Indirect,
                },
            };
            carry::<P, false>(opcode(word), it, regs, pages, space)
        }
    }
}
