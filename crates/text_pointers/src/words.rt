// The words that a reading refers to, one behind the other.
ghost use Rattle.std.specs.Prelude.{◌≡◌, ◌≢◌, ◌+◌, ◌/◌, ◌≤◌, ◌<◌, ◌^◌, IfErr, true};
ghost use Rattle.outside.specs.declared.TheConstants.{PAGE_WORDS};
ghost use Rattle.machine_names.specs.Bounds.{IsAddress};
ghost use Rattle.machine_names.specs.declared.names.ForkName.{ForkName as AForkName};
ghost use Rattle.machine_names.specs.declared.names.TheConstants.{SPACE_PAGES};
ghost use Rattle.page_contracts.specs.DrumWords.{DrumWords};
ghost use Rattle.page_gather.specs.Gathering.{left_of};
ghost use Rattle.ka10_unit.specs.Carrying.{Grows, StaysAway};
ghost use Rattle.ka10_unit.specs.Gathers.{IsOf, Serves, framed, weight};
ghost use Rattle.text_pointers.specs.Reading.{IsByReference, MayRefer, OpensWord, ReadsPage, ReadsWord, RefersOnce, Stands, StopsFor, text_frames};

use crate::reader::Reader;
use ka10_unit::Stop;
use machine_names::{ACCUMULATORS, ForkName, Kind, PAGE_ADDRESSES, Place, Slot};
use page_contracts::Pages;
use page_gather::Added;
use plain_units::{Regs, channel};
use word36::Word;

impl Reader {
    // A page of the fork's space.
    fn place(&self, page: u16) -> Place
        ensures { result ≡ Place.Fork (record { fork = self.now.fork; page = page }) }
    {
        Place::Fork(Slot {
            fork: self.fork,
            page,
        })
    }

    // Refers to a page, to read it, unless the last byte stands in it too.
    fn refer<P: Pages>(&mut self, pages: &P, page: u16) -> Result<(), Stop>
        requires serves { Serves P.means pages.now self.old.fork }
        requires page { page < SPACE_PAGES }
        requires room { MayRefer self.old page }
        ensures fork { self.new.fork ≡ self.old.fork }
        ensures once { RefersOnce self.old self.new page result }
        ensures needs { IfErr result (StopsFor P.means pages.now) }
        ensures channel { IfErr result IsByReference }
        ensures told { (d : DrumWords) → P.means.fits pages.now d → Stands self.old.fork (framed P.means pages.now d) self.old
            → ReadsPage self.old.fork (framed P.means pages.now d) self.old self.new page result }
    {
        if self.page == Some(page) {
            return Ok(());
        }
        let place = self.place(page);
        match self.gather.add(pages, place, Kind::Read) {
            Added::Went => {
                self.page = Some(page);
                Ok(())
            }
            Added::Need(need) => Err(Stop::Need(need)),
            Added::Denied(_) => Err(Stop::Trap(channel::DENIED_READ)),
            Added::Full => Err(Stop::Trap(channel::DRUM_FULL)),
        }
    }

    /// The word at an address. The accumulators are in no page. Err: a map on the way or the page is in no
    /// frame; or the page may not be read, or has to be made and finds no frame, or the drum is full.
    pub fn word<P: Pages>(&mut self, regs: &Regs, pages: &P, at: u32) -> Result<Word, Stop>
        requires serves { Serves P.means pages.now self.old.fork }
        requires address { IsAddress at }
        requires room { MayRefer self.old (at / PAGE_WORDS) }
        ensures fork { self.new.fork ≡ self.old.fork }
        ensures once { RefersOnce self.old self.new (at / PAGE_WORDS) result }
        ensures needs { IfErr result (StopsFor P.means pages.now) }
        ensures channel { IfErr result IsByReference }
        ensures told { (d : DrumWords) → P.means.fits pages.now d → Stands self.old.fork (framed P.means pages.now d) self.old
            → ReadsWord self.old.fork (framed P.means pages.now d) regs.now self.old self.new at result }
    {
        if at < ACCUMULATORS {
            return Ok(regs.ac[at as usize]);
        }
        let page = (at / PAGE_ADDRESSES) as u16;
        match self.refer(pages, page) {
            Err(stop) => Err(stop),
            Ok(()) => Ok(
                self.gather
                    .word(pages, self.place(page), (at % PAGE_ADDRESSES) as u16),
            ),
        }
    }

    /// Refers to the word at an address, to write it, once the pages are made. The accumulators are in no page. Err: a map
    /// on the way or the page is in no frame; or the page may not be written, or has to be made and finds no frame, or the
    /// drum is full.
    pub fn writable<P: Pages>(&mut self, pages: &P, at: u32) -> Result<(), Stop>
        requires serves { Serves P.means pages.now self.old.fork }
        requires address { IsAddress at }
        requires room { weight self.old.gather + 2 ≤ text_frames }
        ensures fork { self.new.fork ≡ self.old.fork }
        ensures needs { IfErr result (StopsFor P.means pages.now) }
        ensures channel { IfErr result IsByReference }
        ensures told { (d : DrumWords) → P.means.fits pages.now d → Stands self.old.fork (framed P.means pages.now d) self.old
            → OpensWord self.old.fork (framed P.means pages.now d) self.old self.new at result }
    {
        if at < ACCUMULATORS {
            return Ok(());
        }
        let place = self.place((at / PAGE_ADDRESSES) as u16);
        match self.gather.add(pages, place, Kind::Write) {
            Added::Went => {
                self.page = None;
                Ok(())
            }
            Added::Need(need) => Err(Stop::Need(need)),
            Added::Denied(_) => Err(Stop::Trap(channel::DENIED_WRITE)),
            Added::Full => Err(Stop::Trap(channel::DRUM_FULL)),
        }
    }

    /// Makes the pages that were referred to, in order.
    pub fn make<P: Pages>(&self, pages: &mut P)
        requires serves { Serves P.means pages.old self.now.fork }
        requires serial { P.means.serial pages.old self.now.fork.tty < 2 ^ 62 }
        ensures told { (d : DrumWords) (f : AForkName) → P.means.fits pages.old d → Stands f (framed P.means pages.old d) self.now
            → P.means.plain pages.new d ≡ left_of (P.means.plain pages.old d) self.now.gather }
        ensures fits { (d : DrumWords) → P.means.fits pages.old d → P.means.fits pages.new d }
        ensures grows { Grows P.means self.now.fork.tty 128 pages.old pages.new }
        ensures away { StaysAway (P.means.scene pages.old) (P.means.scene pages.new) }
    {
        self.gather.make(pages);
    }
}
