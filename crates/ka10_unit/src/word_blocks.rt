// Sixteen words of a fork, from an address on.
ghost use Rattle.std.specs.Prelude.{◌≡◌, ◌<◌, ◌^◌, ℕ, IfErr, None, true};
ghost use Rattle.plain_units.specs.Blocks.{next_address};
ghost use Rattle.plain_units.specs.Blocks.{stored_from};
ghost use Rattle.machine_names.specs.declared.names.ForkName.{ForkName as AForkName};
ghost use Rattle.machine_names.specs.Bounds.{IsAddress};
ghost use Rattle.page_contracts.specs.DrumWords.{DrumWords};
ghost use Rattle.page_contracts.specs.Pages.{MayLose, StaysPut};
ghost use Rattle.machine_names.specs.declared.names.TheConstants.{ACCUMULATORS};
ghost use Rattle.ka10_unit.specs.Blocks.{AreOpenAt, IsStoredAt, TakesBlock, stored_word};
ghost use Rattle.ka10_unit.specs.Carrying.{Grows};
ghost use Rattle.ka10_unit.specs.Gathers.{Serves, framed};
ghost use Rattle.ka10_unit.specs.Taking.{IsTrap, StopNeeds, Stands, frames_for, pages_so_far, so_far};

use crate::carry::{carry, store};
use crate::references::refer_next;
use crate::taken::{Stop, Taken};
use machine_names::{ACCUMULATORS, ForkName, Kind};
use page_contracts::Pages;
use plain_units::{Put, Regs};
use word36::Word;

/// How many words a block has.
const WORDS: usize = ACCUMULATORS as usize;

// The address behind another.
fn next_address(at: u32) -> u32
    requires { IsAddress at }
    ensures { result ≡ next_address at }
{
    (at + 1) % 0o1_000_000
}

/// Refers to sixteen words of a fork from an address on, in order, and takes them. What is taken before is forgotten.
/// Err: the first reference whose page, or a map on the way, is in no frame; that is denied; or for which a page has to
/// be made while the drum is full, or no frame is free. No page is made before `make_block`.
pub fn refer_block<P: Pages>(
    taken: &mut Taken,
    regs: &Regs,
    pages: &P,
    fork: ForkName,
    at: u32,
    kind: Kind,
) -> Result<[Word; 16], Stop>
    requires serves { Serves P.means pages.now fork }
    requires address { IsAddress at }
    ensures fork { taken.new.fork ≡ fork }
    ensures kept { taken.new.kept ≡ None }
    ensures core { P.means.flat ≡ true → IfErr result IsTrap }
    ensures needs { IfErr result (StopNeeds P.means.store (frames_for kind) pages.now) }
    ensures told { (d : DrumWords) → P.means.fits pages.now d → TakesBlock fork (framed P.means pages.now d) regs.now at kind taken.new result }
{
    taken.restart(fork);
    let mut words = [Word::ZERO; WORDS];
    let mut next = at;
    for i in 0..WORDS {
        match refer_next(taken, regs, pages, next, kind) {
            Err(stop) => return Err(stop),
            Ok(word) => words[i] = word,
        }
        next = next_address(next);
    }
    Ok(words)
}

/// Makes the pages of a block that was referred to, in order.
pub fn make_block<P: Pages>(taken: &Taken, pages: &mut P)
    requires serves { Serves P.means pages.old taken.now.fork }
    requires kept { taken.now.kept ≡ None }
    requires serial { P.means.serial pages.old taken.now.fork.tty < 2 ^ 62 }
    ensures told { (d : DrumWords) (f : AForkName) → P.means.fits pages.old d → Stands f (framed P.means pages.old d) taken.now
        → P.means.plain pages.new d ≡ pages_so_far (framed P.means pages.old d) taken.now }
    ensures opens { (d : DrumWords) (f : AForkName) (at n : ℕ) → P.means.fits pages.old d → Stands f (framed P.means pages.old d) taken.now
        → AreOpenAt f (so_far (framed P.means pages.old d) taken.now) at n → AreOpenAt f (framed P.means pages.new d) at n }
    ensures fits { (d : DrumWords) → P.means.fits pages.old d → P.means.fits pages.new d }
    ensures grows { Grows P.means taken.now.fork.tty 128 pages.old pages.new }
{
    carry(taken, None, pages);
}

// Stores a word at an address of a fork's pages; none at that of an accumulator.
fn store_at<P: Pages>(pages: &mut P, fork: ForkName, at: u32, word: Word)
    requires serves { Serves P.means pages.old fork }
    requires address { IsAddress at }
    ensures told { (d : DrumWords) → P.means.fits pages.old d → IsStoredAt fork (framed P.means pages.old d) at
        → P.means.plain pages.new d ≡ stored_word fork (P.means.plain pages.old d) at word }
    ensures fits { (d : DrumWords) → P.means.fits pages.old d → P.means.fits pages.new d }
    ensures stays { StaysPut P.means pages.old pages.new }
    ensures loses { MayLose P.means pages.old pages.new }
{
    if at >= ACCUMULATORS {
        store(pages, fork, Some(Put { at, word }));
    }
}

/// Stores sixteen words in a fork's pages, from an address on, where each can be stored. Those at addresses of
/// accumulators are left out.
pub fn store_block<P: Pages>(pages: &mut P, fork: ForkName, at: u32, words: &[Word; 16])
    requires serves { Serves P.means pages.old fork }
    requires address { IsAddress at }
    ensures told { (d : DrumWords) → P.means.fits pages.old d → AreOpenAt fork (framed P.means pages.old d) at ACCUMULATORS
        → P.means.plain pages.new d ≡ stored_from (P.means.plain pages.old d) fork at words.now }
    ensures fits { (d : DrumWords) → P.means.fits pages.old d → P.means.fits pages.new d }
    ensures stays { StaysPut P.means pages.old pages.new }
    ensures loses { MayLose P.means pages.old pages.new }
{
    let mut next = at;
    for i in 0..WORDS {
        store_at(pages, fork, next, words[i]);
        next = next_address(next);
    }
}
