// Carrying out a unit that was planned: its pages are made, and its words stored.
ghost use Rattle.std.specs.Prelude.{◌≡◌, ◌<◌, ◌^◌};
ghost use Rattle.page_contracts.specs.DrumWords.{DrumWords};
ghost use Rattle.page_contracts.specs.Pages.{MayLose, StaysPut};
ghost use Rattle.plain_units.specs.Steps.{put_into};
ghost use Rattle.ka10_unit.specs.Carrying.{Grows, StaysAway};
ghost use Rattle.ka10_unit.specs.Gathers.{IsPutBelow, Serves, framed};
ghost use Rattle.ka10_unit.specs.Taking.{CanPut, Stands, pages_so_far, so_far};

use crate::references::page_of_address;
use crate::taken::Taken;
use machine_names::{ForkName, Kind, PAGE_ADDRESSES};
use page_contracts::{Pages, Touch};
use plain_units::Put;

/// Stores a word, if there is one, in a page that is in a frame and that a write finds made.
pub fn store<P: Pages>(pages: &mut P, fork: ForkName, put: Option<Put>)
    requires serves { Serves P.means pages.old fork }
    requires put { IsPutBelow (2 ^ 18) put }
    ensures told { (d : DrumWords) → P.means.fits pages.old d → CanPut fork (framed P.means pages.old d) put
        → P.means.plain pages.new d ≡ put_into fork (P.means.plain pages.old d) put }
    ensures fits { (d : DrumWords) → P.means.fits pages.old d → P.means.fits pages.new d }
    ensures stays { StaysPut P.means pages.old pages.new }
    ensures loses { MayLose P.means pages.old pages.new }
{
    let Some(put) = put else {
        return;
    };
    let at = page_of_address(fork, put.at);
    if let Touch::Ready = pages.touch(at, Kind::Write) {
        pages.put(at, (put.at % PAGE_ADDRESSES) as u16, put.word);
    }
}

/// Carries out a unit: its pages are made in the order of its references, then the word that it
/// kept is stored, and then its last word.
pub fn carry<P: Pages>(taken: &Taken, put: Option<Put>, pages: &mut P)
    requires serves { Serves P.means pages.old taken.now.fork }
    requires put { IsPutBelow (2 ^ 18) put }
    requires serial { P.means.serial pages.old taken.now.fork.tty < 2 ^ 62 }
    ensures told { (d : DrumWords) → P.means.fits pages.old d → Stands taken.now.fork (framed P.means pages.old d) taken.now → CanPut taken.now.fork (so_far (framed P.means pages.old d) taken.now) put
        → P.means.plain pages.new d ≡ put_into taken.now.fork (put_into taken.now.fork (pages_so_far (framed P.means pages.old d) taken.now) taken.now.kept) put }
    ensures fits { (d : DrumWords) → P.means.fits pages.old d → P.means.fits pages.new d }
    ensures grows { Grows P.means taken.now.fork.tty 128 pages.old pages.new }
    ensures away { StaysAway (P.means.scene pages.old) (P.means.scene pages.new) }
{
    taken.gather.make(pages);
    store(pages, taken.fork, taken.kept);
    store(pages, taken.fork, put);
}
