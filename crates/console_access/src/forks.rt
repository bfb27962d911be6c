// Forks of a tree: what is put into one, and what is shown of one.
ghost use Rattle.std.specs.Prelude.{◌≡◌, ◌<◌, ◌≤◌, ◌%◌, ◌^◌, IfErr, IfOk, IsOk, IsSome, true, Ok, Some, length};
ghost use Rattle.std.specs.FinMap as map;
ghost use Rattle.outside.specs.declared.TheConstants.{PAGE_WORDS};
ghost use Rattle.plain_model.specs.declared.fork.Fork.{Fork as AFork};
ghost use Rattle.plain_model.specs.Commands.{restarted};
ghost use Rattle.plain_model.specs.Forks.{fork_line, superior_of};
ghost use Rattle.script_texts.specs.Limits.{FitsCause, FitsItem};
ghost use Rattle.machine_names.specs.Bounds.{IsAddress, IsTerminal};
ghost use Rattle.machine_names.specs.declared.names.Place.{Place as APlace};
ghost use Rattle.page_contracts.specs.DrumWords.{DrumWords};
ghost use Rattle.page_contracts.specs.Pages.{MayLose};
ghost use Rattle.page_contracts.specs.Stores.{IsNeeded};
ghost use Rattle.plain_pages.specs.References.{slot_at as slot_of};
ghost use Rattle.std.specs.Option.{option_map_or};
ghost use Rattle.fork_tree.specs.Trees.{IsTree};
ghost use Rattle.console_access.specs.Holding.{Holds};
ghost use Rattle.console_access.specs.Needing.{IsWordAway, Lacks};
ghost use Rattle.console_access.specs.Looking.{examined_in, item_of};
ghost use Rattle.plain_model.specs.Trees.{with_changed_of};
ghost use Rattle.monitor_calls.specs.Makings.{Makes};
ghost use Rattle.console_access.specs.Writing.{Writes, with_accumulator};

use crate::address::{offset_in_page, slot_at};
use crate::looking::seen_word;
use crate::writing::write_word;
use fork_tree::Tree;
use machine_names::{ACCUMULATORS, ForkName, Tty};
use page_contracts::{Need, Pages};
use plain_model::Fork;
use script_texts::{ForkLine, ForkStatus, Item, Refusal};
use word36::Word;

/// Puts a word at an address of a fork: into an accumulator, or into a page by the fork's access. Denied, where its
/// map forbids that; Full, where a page had to be made and the drum is full. Err: this is needed first, and nothing has changed.
pub fn poke<P: Pages>(
    tree: &mut Tree,
    pages: &mut P,
    fork: ForkName,
    address: u32,
    word: Word,
) -> Result<Result<(), Refusal>, Need>
    requires fork { Holds P.means pages.old fork }
    requires accumulators { (f : AFork) → map.get tree.old.forks fork ≡ Some f → length f.body.regs.ac ≡ ACCUMULATORS }
    requires serial { P.means.serial pages.old fork.tty < 2 ^ 61 }
    requires address { IsAddress address }
    ensures low { address < ACCUMULATORS
        → (result ≡ Ok (Ok tt)) × (tree.new ≡ with_changed_of tree.old fork (with_accumulator address word)) × (pages.new ≡ pages.old) }
    ensures high { ACCUMULATORS ≤ address
        → (tree.new ≡ tree.old) × IfOk result (Writes P.means pages.old pages.new (slot_of fork address) (address % PAGE_WORDS) word) }
    ensures made { Makes P.means pages.old pages.new fork.tty 2 }
    ensures loses { MayLose P.means pages.old pages.new }
    ensures fits { IfOk result (λ done. IfErr done FitsCause) }
    ensures waits { IfErr result (Lacks P.means pages.old pages.new (APlace.Fork (slot_of fork address))) }
    ensures reason { IfErr result (IsWordAway P.means pages.new fork address) }
    ensures core { P.means.flat ≡ true → IsOk result }
{
    if address < ACCUMULATORS {
        if let Some(body) = tree.body_mut(fork) {
            body.regs.ac[address as usize] = word;
        }
        return Ok(Ok(()));
    }
    let slot = slot_at(fork, address);
    write_word(pages, slot, offset_in_page(address), word)
}

/// A fork runs at an address, with no freeze mark.
pub fn start(tree: &mut Tree, fork: ForkName, address: u32)
    requires tree { IsTree tree.old }
    requires lives { IsSome (map.get tree.old.forks fork) }
    ensures { tree.new ≡ with_changed_of tree.old fork (restarted address) }
{
    tree.freeze(fork, false);
    if let Some(body) = tree.body_mut(fork) {
        body.status = ForkStatus::Run;
        body.regs.pc = address;
    }
}

/// The word at an address of a terminal's fork with this serial, whatever its access, as it is shown. NoFork, where
/// none lives; NoPage, where no page is there. Err: a map on the way or the page is in no frame.
pub fn examined<P: Pages>(
    tree: &Tree,
    pages: &P,
    t: Tty,
    serial: u32,
    address: u32,
) -> Result<Result<Item, Refusal>, Need>
    requires each { (f : AFork) → map.get tree.now.forks (record { tty = t; serial = serial }) ≡ Some f
        → Holds P.means pages.now f.name × (length f.body.regs.ac ≡ ACCUMULATORS) }
    requires address { IsAddress address }
    ensures told { (d : DrumWords) → P.means.fits pages.now d → IfOk result (λ seen. seen ≡ examined_in (P.means.plain pages.now d) tree.now.forks t serial address) }
    ensures fits { IsTerminal t → serial < 1000000 → IfOk result (λ seen. FitsItem (item_of seen)) }
    ensures needs { IfErr result (IsNeeded P.means.store 1 pages.now) }
    ensures reason { (f : AFork) → map.get tree.now.forks (record { tty = t; serial = serial }) ≡ Some f → IfErr result (IsWordAway P.means pages.now f.name address) }
    ensures there { IfErr result (λ need. IsSome (map.get tree.now.forks (record { tty = t; serial = serial }))) }
    ensures core { P.means.flat ≡ true → IsOk result }
{
    let Some(fork) = tree.fork(ForkName { tty: t, serial }) else {
        return Ok(Err(Refusal::NoFork(t)));
    };
    match seen_word(pages, fork, address) {
        Ok(Some(word)) => Ok(Ok(Item::Examined(t, serial, address, word))),
        Ok(None) => Ok(Err(Refusal::NoPage(t))),
        Err(need) => Err(need),
    }
}
