// The delivery of a channel, which is a whole unit.
ghost use Rattle.std.specs.Prelude.{◌≡◌, ◌<◌, ◌≤◌, ◌^◌, if◌then◌else◌, slice_set};
ghost use Rattle.page_contracts.specs.DrumWords.{DrumWords};
ghost use Rattle.plain_model.specs.declared.fork.Fork.{Fork as AFork};
ghost use Rattle.plain_model.specs.Inspections.{delivered, interrupted_word as interrupted_word_of, stored_word, with_level};
ghost use Rattle.plain_model.specs.Trees.{with_body};
ghost use Rattle.plain_units.specs.Steps.{is_accumulator};
ghost use Rattle.ka10_unit.specs.Carrying.{Grows};
ghost use Rattle.ka10_unit.specs.Gathers.{IsPutBelow, Serves, framed};
ghost use Rattle.text_pointers.specs.Reading.{Stands, pages_so_far};
ghost use Rattle.psi_system.specs.Judgements.{FitsDelivery, FitsFound};
ghost use Rattle.psi_system.specs.Inspecting.{IsFork, Opens, put_for, with_word};

use crate::channels::without_channel;
use ka10_deeds::half_of_flags;
use ka10_unit::store;
use machine_names::{ACCUMULATORS, ForkName};
use page_contracts::Pages;
use plain_model::interrupt::{Delivery, Found};
use plain_model::{Body, Psi};
use plain_units::{Put, Regs};
use text_pointers::Reader;
use word36::Word;

// The PC word of a fork that is interrupted, whose program counter isn't advanced.
fn interrupted_word(regs: &Regs) -> Word
    requires { regs.now.pc < 2 ^ 18 }
    ensures { result ≡ interrupted_word_of regs.now }
{
    Word::join(half_of_flags(regs.flags), regs.pc)
}

// A word goes into an accumulator, or is to be stored in a page.
fn keep(regs: &mut Regs, at: u32, word: Word) -> Option<Put>
    requires { at < 2 ^ 18 }
    ensures regs { regs.new ≡ with_word regs.old at word }
    ensures put { result ≡ put_for at word }
    ensures below { IsPutBelow (2 ^ 18) result }
{
    if at < ACCUMULATORS {
        regs.ac[at as usize] = word;
        None
    } else {
        Some(Put { at, word })
    }
}

// A channel is no more pending, and its level is in progress.
fn take(psi: &mut Psi, taken: &Found)
    requires { FitsFound taken.now }
    ensures { psi.new ≡ with_level psi.old taken.now }
{
    psi.pending = without_channel(psi.pending, taken.channel);
    psi.levels[taken.level as usize - 1] = true;
}

/// Delivers a channel that an inspection takes, whose references these are (JSYS Manual, "Pseudo-interrupt system"): their pages are
/// made, the PC word is stored, and the fork goes on at the channel's address, without BIS, and sleeps no more; the channel is no more
/// pending, and its level is in progress.
pub fn deliver<P: Pages>(
    body: &mut Body,
    fork: ForkName,
    delivery: &Delivery,
    reader: &Reader,
    pages: &mut P,
)
    requires serves { Serves P.means pages.old fork }
    requires serial { P.means.serial pages.old fork.tty < 2 ^ 62 }
    requires reader { reader.now.fork ≡ fork }
    requires delivery { FitsDelivery delivery.now }
    requires pc { body.old.regs.pc < 2 ^ 18 }
    ensures fork { (f : AFork) → with_body body.new f ≡ delivered (with_body body.old f) delivery.now }
    ensures told { (d : DrumWords) (f : AFork) → P.means.fits pages.old d → IsFork f fork body.old
        → Stands fork (framed P.means pages.old d) reader.now → Opens fork (framed P.means pages.old d) reader.now delivery.now
        → P.means.plain pages.new d ≡ stored_word (pages_so_far (framed P.means pages.old d) reader.now) f delivery.now }
    ensures fits { (d : DrumWords) → P.means.fits pages.old d → P.means.fits pages.new d }
    ensures grows { Grows P.means fork.tty 128 pages.old pages.new }
{
    let word = interrupted_word(&body.regs);
    let put = keep(&mut body.regs, delivery.at, word);
    body.regs.pc = delivery.found.to;
    body.regs.flags.bis = false;
    take(&mut body.psi, &delivery.found);
    body.sleep = None;
    reader.make(pages);
    store(pages, fork, put);
}
