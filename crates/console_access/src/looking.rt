// A look at a word of a fork's space.
ghost use Rattle.std.specs.Prelude.{◌≡◌, ◌<◌, IfErr, IfOk, IsOk, length, true};
ghost use Rattle.machine_names.specs.Bounds.{IsAddress};
ghost use Rattle.page_contracts.specs.DrumWords.{DrumWords};
ghost use Rattle.page_contracts.specs.Stores.{IsNeeded};
ghost use Rattle.console_access.specs.Holding.{Holds};
ghost use Rattle.console_access.specs.Needing.{IsWordAway};
ghost use Rattle.console_access.specs.Looking.{word_in};

use crate::address::{offset_in_page, slot_at};
use machine_names::{ACCUMULATORS, Place};
use page_contracts::{Need, Pages, Peeked};
use plain_model::Fork;
use word36::Word;

/// The word at an address of a fork, whatever its access. None, where no page is there; nothing is made. Err: a map on the way or
/// the page is in no frame.
pub fn seen_word<P: Pages>(pages: &P, fork: &Fork, address: u32) -> Result<Option<Word>, Need>
    requires fork { Holds P.means pages.now fork.now.name }
    requires accumulators { length fork.now.body.regs.ac ≡ ACCUMULATORS }
    requires address { IsAddress address }
    ensures told { (d : DrumWords) → P.means.fits pages.now d → IfOk result (λ seen. seen ≡ word_in (P.means.plain pages.now d) fork.now address) }
    ensures needs { IfErr result (IsNeeded P.means.store 1 pages.now) }
    ensures reason { IfErr result (IsWordAway P.means pages.now fork.now.name address) }
    ensures core { P.means.flat ≡ true → IsOk result }
{
    if address < ACCUMULATORS {
        return Ok(Some(fork.body.regs.ac[address as usize]));
    }
    let at = Place::Fork(slot_at(fork.name, address));
    match pages.peek(at, offset_in_page(address)) {
        Peeked::Is(word) => Ok(Some(word)),
        Peeked::NoPage => Ok(None),
        Peeked::Absent(home) => Err(Need::Page(home)),
    }
}
