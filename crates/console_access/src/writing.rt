// Words that are written into pages: through a fork's map, and into a file.
ghost use Rattle.std.specs.Prelude.{true, ◌≡◌, ◌<◌, ◌^◌, IfErr, IfOk, IsOk, take};
ghost use Rattle.outside.specs.declared.TheConstants.{PAGE_WORDS};
ghost use Rattle.machine_names.specs.Bounds.{IsOwner};
ghost use Rattle.script_texts.specs.Limits.{FitsCause, FitsRow};
ghost use Rattle.page_contracts.specs.DrumWords.{DrumWords};
ghost use Rattle.page_contracts.specs.Pages.{IsPlace, MayLose, spot_of};
ghost use Rattle.plain_pages.specs.References.{in_map, stored};
ghost use Rattle.plain_model.specs.FileEvents.{stored_row};
ghost use Rattle.console_access.specs.Holding.{Holds};
ghost use Rattle.monitor_calls.specs.Makings.{Makes, MakesNone};
ghost use Rattle.console_access.specs.Needing.{Lacks, OpensOver};
ghost use Rattle.console_access.specs.Writing.{IsRowWritten, Writes, poke_refusal as refusal_of};

use crate::readying::readied;
use machine_names::{Kind, Place, SPACE_PAGES, Slot, Tty};
use page_contracts::{Need, Pages, Touch};
use script_texts::{Refusal, WordRow};
use word36::Word;

/// What bars a write of a page.
#[derive(Clone, Copy)]
pub enum Barred {
    /// The map forbids it.
    ByMap,
    /// A page has to be made, and the drum is full.
    ByDrum,
}

// Why a word isn't put at an address of a terminal's fork.
fn poke_refusal(t: Tty, barred: Barred) -> Refusal
    ensures { result ≡ refusal_of t barred }
{
    match barred {
        Barred::ByMap => Refusal::Denied(t),
        Barred::ByDrum => Refusal::Full(t),
    }
}

// Puts a word at an offset of a page that a touch to write finds ready, and else nothing.
fn put_word<P: Pages>(pages: &mut P, slot: Slot, offset: u16, word: Word)
    requires fork { Holds P.means pages.old slot.fork }
    requires page { slot.page < SPACE_PAGES }
    requires offset { offset < PAGE_WORDS }
    ensures told { (d : DrumWords) → P.means.fits pages.old d → P.means.fits pages.new d
        × (OpensOver P.means pages.old d (Place.Fork slot) slot.fork.tty → P.means.plain pages.new d ≡ stored (P.means.plain pages.old d) (in_map slot) offset word) }
    ensures made { MakesNone P.means pages.old pages.new }
    ensures loses { MayLose P.means pages.old pages.new }
{
    let at = Place::Fork(slot);
    if let Touch::Ready = pages.touch(at, Kind::Write) {
        pages.put(at, offset, word);
    }
}

/// Writes a word at an offset of a slot, by the access of the fork's map. Denied, where the map forbids it;
/// Full, where a page had to be made and the drum is full. Nothing changes where it is refused. Err: this is needed first, and nothing has changed.
pub fn write_word<P: Pages>(
    pages: &mut P,
    slot: Slot,
    offset: u16,
    word: Word,
) -> Result<Result<(), Refusal>, Need>
    requires fork { Holds P.means pages.old slot.fork }
    requires page { slot.page < SPACE_PAGES }
    requires offset { offset < PAGE_WORDS }
    requires serial { P.means.serial pages.old slot.fork.tty < 2 ^ 61 }
    ensures told { IfOk result (Writes P.means pages.old pages.new slot offset word) }
    ensures made { Makes P.means pages.old pages.new slot.fork.tty 2 }
    ensures loses { MayLose P.means pages.old pages.new }
    ensures fits { IfOk result (λ done. IfErr done FitsCause) }
    ensures waits { IfErr result (Lacks P.means pages.old pages.new (Place.Fork slot)) }
    ensures core { P.means.flat ≡ true → IsOk result }
{
    match readied(pages, Place::Fork(slot), slot.fork.tty) {
        Ok(Ok(())) => {
            put_word(pages, slot, offset, word);
            Ok(Ok(()))
        }
        Ok(Err(barred)) => Ok(Err(poke_refusal(slot.fork.tty, barred))),
        Err(need) => Err(need),
    }
}

// Puts words one behind the other into a page that is ready to be written.
fn put_row<P: Pages>(pages: &mut P, at: Place, offset: u16, row: &WordRow)
    requires place { IsPlace (P.means.lives pages.old) at }
    requires row { FitsRow offset row.now }
    requires ready { P.means.touched pages.old at Kind.Write ≡ Touch.Ready }
    ensures told { (d : DrumWords) → P.means.fits pages.old d → P.means.fits pages.new d
        × (P.means.plain pages.new d ≡ stored_row (P.means.plain pages.old d) (spot_of at) offset (take row.now.count row.now.words)) }
    ensures made { MakesNone P.means pages.old pages.new }
    ensures loses { MayLose P.means pages.old pages.new }
{
    for i in 0..row.count {
        pages.put(at, offset + u16::from(i), row.words[i as usize]);
    }
}

// Puts words one behind the other into a page that a touch to write finds ready, and else none.
fn put_row_where_ready<P: Pages>(pages: &mut P, at: Place, owner: Tty, offset: u16, row: &WordRow)
    requires place { IsPlace (P.means.lives pages.old) at }
    requires owner { IsOwner owner }
    requires row { FitsRow offset row.now }
    ensures told { (d : DrumWords) → P.means.fits pages.old d → P.means.fits pages.new d
        × (OpensOver P.means pages.old d at owner → P.means.plain pages.new d ≡ stored_row (P.means.plain pages.old d) (spot_of at) offset (take row.now.count row.now.words)) }
    ensures made { MakesNone P.means pages.old pages.new }
    ensures loses { MayLose P.means pages.old pages.new }
{
    if let Touch::Ready = pages.touch(at, Kind::Write) {
        put_row(pages, at, offset, row);
    }
}

/// Writes words one behind the other from an offset of a page on; a page that has to be made is an owner's. Where the
/// write is barred, nothing changes. Err: this is needed first, and nothing has changed.
pub fn write_row<P: Pages>(
    pages: &mut P,
    at: Place,
    owner: Tty,
    offset: u16,
    row: &WordRow,
) -> Result<Result<(), Barred>, Need>
    requires place { IsPlace (P.means.lives pages.old) at }
    requires owner { IsOwner owner }
    requires row { FitsRow offset row.now }
    requires serial { P.means.serial pages.old owner < 2 ^ 61 }
    ensures told { (d : DrumWords) → P.means.fits pages.old d → P.means.fits pages.new d
        × IfOk result (λ done. IsRowWritten (P.means.plain pages.old d) (P.means.plain pages.new d) (spot_of at) owner offset (take row.now.count row.now.words) done) }
    ensures made { Makes P.means pages.old pages.new owner 2 }
    ensures loses { MayLose P.means pages.old pages.new }
    ensures waits { IfErr result (Lacks P.means pages.old pages.new at) }
    ensures core { P.means.flat ≡ true → IsOk result }
{
    match readied(pages, at, owner) {
        Ok(Ok(())) => {
            put_row_where_ready(pages, at, owner, offset, row);
            Ok(Ok(()))
        }
        Ok(Err(barred)) => Ok(Err(barred)),
        Err(need) => Err(need),
    }
}
