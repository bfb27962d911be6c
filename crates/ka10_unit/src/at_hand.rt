// A monitor call whose word is at hand.
ghost use Rattle.std.specs.Prelude.{◌≡◌, ◌<◌, ◌^◌, IfSome, false};
ghost use Rattle.ka10_table.specs.declared.families.Family.TheVariants.{Monitor as AMonitor};
ghost use Rattle.ka10_table.specs.Rows.{row_of};
ghost use Rattle.plain_units.specs.Addressing as word_fields;
ghost use Rattle.plain_units.specs.Steps.{call as a_call};
ghost use Rattle.page_contracts.specs.DrumWords.{DrumWords};
ghost use Rattle.ka10_unit.specs.Gathers.{Serves, framed};
ghost use Rattle.ka10_unit.specs.Planning.{unit_over};

use ka10_deeds::opcode;
use ka10_spots::{own_address, page_of};
use ka10_table::{Family, row};
use machine_names::{ACCUMULATORS, ForkName, Kind};
use page_contracts::Pages;
use plain_units::Regs;
use word36::Word;

/// The number of the monitor call that a word is, if its address is behind no indirect word.
fn call_number(regs: &Regs, word: Word) -> Option<u32>
    ensures below { IfSome result (λ n. n < 2 ^ 18) }
    ensures told { IfSome result (λ n. ((row_of (word_fields.opcode word)).family ≡ AMonitor) × (word_fields.is_indirect word ≡ false) × (n ≡ word_fields.indexed regs.now.ac word)) }
{
    match row(opcode(word)).family {
        Family::Monitor => match own_address(regs, word) {
            Some(address) => Some(address.e),
            None => None,
        },
        _ => None,
    }
}

/// The number of the monitor call at the program counter, where that is in a page that can be executed as the pages are, and its address is behind no
/// indirect word: such a call refers to nothing but its own word, so that it needs no plan.
pub fn call_at_hand<P: Pages>(regs: &Regs, pages: &P, fork: ForkName) -> Option<u32>
    requires serves { Serves P.means pages.now fork }
    requires pc { regs.now.pc < 2 ^ 18 }
    ensures below { IfSome result (λ n. n < 2 ^ 18) }
    ensures told { (d : DrumWords) → P.means.fits pages.now d → IfSome result (λ n. unit_over fork (framed P.means pages.now d) regs.now ≡ a_call n) }
{
    let at = regs.pc;
    if at < ACCUMULATORS {
        return None;
    }
    let space = pages.space(fork);
    match pages.find(space, page_of(at), Kind::Execute) {
        Some(found) => call_number(regs, pages.look(space, found, at)),
        None => None,
    }
}
