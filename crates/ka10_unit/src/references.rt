// The references of a unit, one behind the other.
ghost use Rattle.std.specs.Prelude.{◌≡◌, ◌+◌, ◌-◌, ◌/◌, ◌%◌, ◌≤◌, ◌<◌, ◌^◌, length, true, Some, OnErr, IfErr, IfOk, slice_index, slice_set};
ghost use Rattle.outside.specs.declared.TheConstants.{PAGE_WORDS};
ghost use Rattle.machine_names.specs.declared.names.ForkName.{ForkName as AForkName};
ghost use Rattle.machine_names.specs.Bounds.{IsAddress};
ghost use Rattle.page_contracts.specs.DrumWords.{DrumWords};
ghost use Rattle.plain_pages.specs.References.{in_map, page_at, slot_at, word_at as word_at_spot};
ghost use Rattle.plain_units.specs.Steps.{denied_channel, refers, word_taken, seen};
ghost use Rattle.machine_names.specs.declared.names.PageName.{PageName as APageName};
ghost use Rattle.page_gather.specs.Gathering.{Gathers, IsNear, left_of, most_made};
ghost use Rattle.ka10_unit.specs.Gathers.{IsOf, IsPutBelow, Serves, framed};
ghost use Rattle.ka10_unit.specs.Taking.{AsksAt, CanPut, CanWrite, Does, HasPage, HasSpare, IsTrap, Spares, Stands, StaysOpen, StopNeeds, StopsFor, most_pages, progress, so_far, spared, stands_at, widened_by};

use crate::taken::{Stop, Taken};
use arrayvec::ArrayVec;
use machine_names::{ACCUMULATORS, ForkName, Kind, PAGE_ADDRESSES, Place, Slot};
use page_contracts::Pages;
use page_gather::{Added, Gather};
use plain_units::{MOST_REFERENCES, Put, Reference, Regs, channel};
use word36::Word;

/// The channel of a reference that is denied.
fn denied(kind: Kind) -> u8
    ensures { result ≡ denied_channel kind }
{
    match kind {
        Kind::Read => channel::DENIED_READ,
        Kind::Write => channel::DENIED_WRITE,
        Kind::Execute => channel::DENIED_EXECUTE,
    }
}

/// The page of an address of a fork's space.
pub fn page_of_address(fork: ForkName, at: u32) -> Place
    requires { IsAddress at }
    ensures { result ≡ Place.Fork (slot_at fork at) }
{
    Place::Fork(Slot {
        fork,
        page: (at / PAGE_ADDRESSES) as u16,
    })
}

/// Asks for the page of an address; the accumulators touch none.
pub fn ask<P: Pages>(
    gather: &mut Gather,
    pages: &P,
    fork: ForkName,
    at: u32,
    kind: Kind,
) -> Result<(), Stop>
    requires serves { Serves P.means pages.now fork }
    requires address { IsAddress at }
    requires own { IsOf fork gather.old }
    requires room { length gather.old.references < 64 }
    ensures own { IsOf fork gather.new }
    ensures room { length gather.new.references ≤ length gather.old.references + 1 }
    ensures stopped { OnErr result (gather.new ≡ gather.old) }
    ensures core { P.means.flat ≡ true → IfErr result IsTrap }
    ensures made { gather.new.homes ≤ gather.old.homes + most_made kind }
    ensures needs { IfErr result (StopNeeds P.means.store (gather.old.homes + most_made kind) pages.now) }
    ensures told { (d : DrumWords) → P.means.fits pages.now d → Gathers (P.means.plain pages.now d) (P.means.scene pages.now) gather.old
        → AsksAt fork (framed P.means pages.now d) gather.old gather.new at kind result }
{
    if at < ACCUMULATORS {
        return Ok(());
    }
    match gather.add(pages, page_of_address(fork, at), kind) {
        Added::Went => Ok(()),
        Added::Need(need) => Err(Stop::Need(need)),
        Added::Denied(kind) => Err(Stop::Trap(denied(kind))),
        Added::Full => Err(Stop::Trap(channel::DRUM_FULL)),
    }
}

/// The word at an address whose page was asked for.
pub fn held_word<P: Pages>(gather: &Gather, pages: &P, fork: ForkName, at: u32) -> Word
    requires serves { Serves P.means pages.now fork }
    requires address { IsAddress at }
    ensures told { (d : DrumWords) → P.means.fits pages.now d → Gathers (P.means.plain pages.now d) (P.means.scene pages.now) gather.now
        → IsNear (left_of (P.means.plain pages.now d) gather.now) (P.means.scene pages.now) (slot_at fork at)
        → result ≡ word_at_spot (left_of (P.means.plain pages.now d) gather.now) (in_map (slot_at fork at)) (at % PAGE_WORDS) }
{
    gather.word(
        pages,
        page_of_address(fork, at),
        (at % PAGE_ADDRESSES) as u16,
    )
}

/// Whether a word that the unit has stored at an address stands at another: at the same place of
/// the same page, which may have two names. Both pages are in frames.
fn is_stored_at<P: Pages>(gather: &Gather, pages: &P, fork: ForkName, stored: u32, at: u32) -> bool
    requires serves { Serves P.means pages.now fork }
    requires address { IsAddress at }
    requires stored { IsAddress stored }
    ensures told { (d : DrumWords) (n : APageName) → P.means.fits pages.now d → Gathers (P.means.plain pages.now d) (P.means.scene pages.now) gather.now
        → IsNear (left_of (P.means.plain pages.now d) gather.now) (P.means.scene pages.now) (slot_at fork at) → IsNear (left_of (P.means.plain pages.now d) gather.now) (P.means.scene pages.now) (slot_at fork stored)
        → page_at (left_of (P.means.plain pages.now d) gather.now) (in_map (slot_at fork at)) ≡ Some n → result ≡ stands_at fork (left_of (P.means.plain pages.now d) gather.now) stored at n }
{
    if stored % PAGE_ADDRESSES != at % PAGE_ADDRESSES {
        return false;
    }
    if stored / PAGE_ADDRESSES == at / PAGE_ADDRESSES {
        return true;
    }
    gather.same(
        pages,
        page_of_address(fork, at),
        page_of_address(fork, stored),
    )
}

/// The word at an address whose page was asked for, or the word that the unit has stored there.
fn seen_word<P: Pages>(
    gather: &Gather,
    pages: &P,
    fork: ForkName,
    kept: Option<Put>,
    at: u32,
) -> Word
    requires serves { Serves P.means pages.now fork }
    requires address { IsAddress at }
    requires kept { IsPutBelow (2 ^ 18) kept }
    ensures told { (d : DrumWords) (n : APageName) → P.means.fits pages.now d → Gathers (P.means.plain pages.now d) (P.means.scene pages.now) gather.now
        → IsNear (left_of (P.means.plain pages.now d) gather.now) (P.means.scene pages.now) (slot_at fork at)
        → CanPut fork (record { pages = left_of (P.means.plain pages.now d) gather.now; scene = P.means.scene pages.now }) kept
        → page_at (left_of (P.means.plain pages.now d) gather.now) (in_map (slot_at fork at)) ≡ Some n → result ≡ seen (left_of (P.means.plain pages.now d) gather.now) fork kept at (Some n) }
{
    match kept {
        None => held_word(gather, pages, fork, at),
        Some(put) => {
            if is_stored_at(gather, pages, fork, put.at, at) {
                put.word
            } else {
                held_word(gather, pages, fork, at)
            }
        }
    }
}

/// The word of an accumulator.
fn accumulator(regs: &Regs, at: u32) -> Word
    requires { at < ACCUMULATORS }
    ensures { result ≡ slice_index regs.now.ac at }
{
    regs.ac[at as usize]
}

/// The word at an address that was referred to.
fn word_at<P: Pages>(taken: &Taken, regs: &Regs, pages: &P, at: u32) -> Word
    requires serves { Serves P.means pages.now taken.now.fork }
    requires address { IsAddress at }
    ensures told { (d : DrumWords) → P.means.fits pages.now d → Stands taken.now.fork (framed P.means pages.now d) taken.now → HasPage taken.now.fork (so_far (framed P.means pages.now d) taken.now) at
        → result ≡ word_taken taken.now.fork (progress (framed P.means pages.now d) regs.now.ac taken.now) at }
{
    if at < ACCUMULATORS {
        return accumulator(regs, at);
    }
    seen_word(&taken.gather, pages, taken.fork, taken.kept, at)
}

/// Refers to an address as `refer` does, where a reference is left to the unit.
pub fn refer_next<P: Pages>(
    taken: &mut Taken,
    regs: &Regs,
    pages: &P,
    at: u32,
    kind: Kind,
) -> Result<Word, Stop>
    requires serves { Serves P.means pages.now taken.old.fork }
    requires address { IsAddress at }
    requires room { length taken.old.refs.items < 16 }
    ensures fork { taken.new.fork ≡ taken.old.fork }
    ensures kept { taken.new.kept ≡ taken.old.kept }
    ensures count { length taken.new.refs.items ≤ length taken.old.refs.items + 1 }
    ensures spare { IfOk result (λ w. Spares (spared kind) taken.old taken.new) }
    ensures told { Does P.means pages.now regs.now.ac taken.old taken.new (refers at kind) result }
    ensures writes { (d : DrumWords) (f : AForkName) → P.means.fits pages.now d → Stands f (framed P.means pages.now d) taken.old → kind ≡ Kind.Write
        → CanWrite f (framed P.means pages.now d) taken.new at result }
    ensures needs { IfErr result (StopsFor P.means pages.now) }
    ensures frames { IfErr result (StopNeeds P.means.store (most_pages kind taken.old) pages.now) }
    ensures left { IfOk result (λ w. most_pages kind taken.new ≤ most_pages kind taken.old) }
    ensures still { (d : DrumWords) (f : AForkName) → P.means.fits pages.now d → Stands f (framed P.means pages.now d) taken.old
        → StaysOpen f (so_far (framed P.means pages.now d) taken.old) (so_far (framed P.means pages.now d) taken.new) }
{
    match ask(&mut taken.gather, pages, taken.fork, at, kind) {
        Err(stop) => Err(stop),
        Ok(()) => {
            taken.refs.push(Reference { address: at, kind });
            Ok(word_at(taken, regs, pages, at))
        }
    }
}

/// Refers to an address, and takes the word there. Err: a map on the way or the page is in no frame;
/// or the page is denied, or has to be made and finds no frame, or the drum is full; or it would be
/// a reference more than a unit may have.
pub fn refer<P: Pages>(
    taken: &mut Taken,
    regs: &Regs,
    pages: &P,
    at: u32,
    kind: Kind,
) -> Result<Word, Stop>
    requires serves { Serves P.means pages.now taken.old.fork }
    requires address { IsAddress at }
    ensures fork { taken.new.fork ≡ taken.old.fork }
    ensures kept { taken.new.kept ≡ taken.old.kept }
    ensures spare { IfOk result (λ w. Spares (spared kind) taken.old taken.new) }
    ensures needs { IfErr result (StopsFor P.means pages.now) }
    ensures frames { IfErr result (StopNeeds P.means.store (most_pages kind taken.old) pages.now) }
    ensures left { IfOk result (λ w. most_pages kind taken.new ≤ most_pages kind taken.old) }
    ensures told { Does P.means pages.now regs.now.ac taken.old taken.new (refers at kind) result }
    ensures writes { (d : DrumWords) (f : AForkName) → P.means.fits pages.now d → Stands f (framed P.means pages.now d) taken.old → kind ≡ Kind.Write
        → CanWrite f (framed P.means pages.now d) taken.new at result }
{
    if taken.refs.len() >= MOST_REFERENCES as usize {
        return Err(Stop::ILLEGAL);
    }
    refer_next(taken, regs, pages, at, kind)
}

/// Makes the last reference one to write.
fn replace_last(refs: &mut ArrayVec<Reference, 16>, at: u32)
    requires { length refs.old.items ≤ 16 }
    ensures { refs.new.items ≡ slice_set refs.old.items (length refs.old.items - 1) (record { address = at; kind = Kind.Write }) }
{
    if let Some(_) = refs.pop() {
        refs.push(Reference {
            address: at,
            kind: Kind::Write,
        });
    }
}

/// Asks for the last reference again, to write. It was made to read, behind the fetch, so that both
/// together make four pages at most.
pub fn widen<P: Pages>(taken: &mut Taken, regs: &Regs, pages: &P, at: u32) -> Result<(), Stop>
    requires serves { Serves P.means pages.now taken.old.fork }
    requires address { IsAddress at }
    requires spare { HasSpare 2 taken.old }
    ensures fork { taken.new.fork ≡ taken.old.fork }
    ensures kept { taken.new.kept ≡ taken.old.kept }
    ensures needs { IfErr result (StopsFor P.means pages.now) }
    ensures told { Does P.means pages.now regs.now.ac taken.old taken.new (widened_by at) result }
    ensures writes { (d : DrumWords) (f : AForkName) → P.means.fits pages.now d → Stands f (framed P.means pages.now d) taken.old
        → CanWrite f (framed P.means pages.now d) taken.new at result }
{
    match ask(&mut taken.gather, pages, taken.fork, at, Kind::Write) {
        Err(stop) => Err(stop),
        Ok(()) => {
            replace_last(&mut taken.refs, at);
            Ok(())
        }
    }
}
