// Drums that hold their pages in memory.
ghost use Rattle.std.specs.Prelude.{◌≡◌, ◌↔◌, ◌<◌, ◌≤◌, Some, replicate, slice_set, IfOk, IsOk, IsErr, OnOk, OnErr};
ghost use Rattle.outside.specs.Faults.{CountsUp, FailsNext};
ghost use Rattle.outside.specs.Drums.{IsPage, AreWords, AreDrumPages, page_at, Spoils};
ghost use Rattle.outside.specs.declared.TheConstants.{PAGE_WORDS};
ghost use Rattle.outside.specs.ToldPages.{all_told};

use crate::failing_calls::FailingCalls;
use crate::{Drum, Failed, Memory, PAGE_WORDS};
use std::alloc::Global;

// Pages in memory, and how often one was read and written.
#[derive(Drop)]
struct HeldPages {
    pages: Vec<[u64; PAGE_WORDS]>,
    number: u32,
    reads: u64,
    writes: u64,
    ghost sound: { AreDrumPages number pages.items },
}

impl HeldPages {
    // So many pages of zero words. Memory where there is none for them; no pages need none.
    fn new(alloc: Global, number: u32) -> Result<Self, Memory>
        ensures none { number ≡ 0 → IsOk result }
        ensures pages { IfOk result (λ s. s.pages.items ≡ replicate number (replicate PAGE_WORDS 0)) }
        ensures number { IfOk result (λ s. s.number ≡ number) }
        ensures reads { IfOk result (λ s. s.reads ≡ 0) }
        ensures writes { IfOk result (λ s. s.writes ≡ 0) }
    {
        let mut pages = Vec::new(alloc);
        pages.resize(number as usize, [0; PAGE_WORDS])?;
        Ok(HeldPages {
            pages,
            number,
            reads: 0,
            writes: 0,
        })
    }

    // Gives the words of a page.
    fn read(&mut self, page: u32, words: &mut [u64; PAGE_WORDS])
        requires { page < self.old.number }
        ensures words { words.new ≡ page_at self.old.pages.items page }
        ensures page { IsPage words.new }
        ensures reads { CountsUp self.old.reads self.new.reads }
        ensures reads_later { self.old.reads ≤ self.new.reads }
        ensures writes { self.new.writes ≡ self.old.writes }
        ensures pages { self.new.pages ≡ self.old.pages }
        ensures number { self.new.number ≡ self.old.number }
    {
        *words = self.pages[page as usize];
        self.reads = self.reads.saturating_add(1);
    }

    // Puts words into a page.
    fn write(&mut self, page: u32, words: &[u64; PAGE_WORDS])
        requires page { page < self.old.number }
        requires words { AreWords words.now }
        ensures pages { self.new.pages.items ≡ slice_set self.old.pages.items page words.now }
        ensures writes { CountsUp self.old.writes self.new.writes }
        ensures writes_later { self.old.writes ≤ self.new.writes }
        ensures reads { self.new.reads ≡ self.old.reads }
        ensures number { self.new.number ≡ self.old.number }
    {
        self.pages[page as usize] = *words;
        self.writes = self.writes.saturating_add(1);
    }
}

/// A drum in memory, all of whose calls succeed. It tells its pages, and its count of faults is 0 for good.
#[derive(Drop)]
pub struct SureDrum {
    held: HeldPages,
}

impl SureDrum {
    /// A drum of so many pages of zero words. Memory where there is none for them; no pages need none.
    pub fn new(alloc: Global, pages: u32) -> Result<Self, Memory>
        ensures none { pages ≡ 0 → IsOk result }
        ensures held { IfOk result (λ s. ⟦<SureDrum as Drum>⟧.held s ≡ Some (replicate pages (replicate PAGE_WORDS 0))) }
        ensures size { IfOk result (λ s. ⟦<SureDrum as Drum>⟧.size s ≡ pages) }
        ensures reads { IfOk result (λ s. ⟦<SureDrum as Drum>⟧.read_count s ≡ 0) }
        ensures writes { IfOk result (λ s. ⟦<SureDrum as Drum>⟧.write_count s ≡ 0) }
    {
        let held = HeldPages::new(alloc, pages)?;
        Ok(SureDrum { held })
    }
}

impl Drum for SureDrum {
    ghost fault_count = { λ _. 0 };

    ghost read_count = { λ s. s.held.reads };

    ghost write_count = { λ s. s.held.writes };

    ghost size = { λ s. s.held.number };

    ghost held = { λ s. Some s.held.pages.items };

    fn faults(&self) -> u64 {
        0
    }

    fn reads(&self) -> u64 {
        self.held.reads
    }

    fn writes(&self) -> u64 {
        self.held.writes
    }

    fn pages(&self) -> u32 {
        self.held.number
    }

    // No call fails.
    fn read(&mut self, page: u32, words: &mut [u64; PAGE_WORDS]) -> Result<(), Failed>
        requires { page < self.old.held.number }
        ensures ok { IsOk result }
        ensures words { words.new ≡ page_at self.old.held.pages.items page }
        ensures page { IsPage words.new }
        ensures reads { CountsUp self.old.held.reads self.new.held.reads }
        ensures reads_later { self.old.held.reads ≤ self.new.held.reads }
        ensures writes { self.new.held.writes ≡ self.old.held.writes }
        ensures pages { self.new.held.pages ≡ self.old.held.pages }
        ensures size { self.new.held.number ≡ self.old.held.number }
    {
        self.held.read(page, words);
        Ok(())
    }

    fn write(&mut self, page: u32, words: &[u64; PAGE_WORDS]) -> Result<(), Failed>
        requires page { page < self.old.held.number }
        requires words { AreWords words.now }
        ensures ok { IsOk result }
        ensures pages { self.new.held.pages.items ≡ slice_set self.old.held.pages.items page words.now }
        ensures writes { CountsUp self.old.held.writes self.new.held.writes }
        ensures writes_later { self.old.held.writes ≤ self.new.held.writes }
        ensures reads { self.new.held.reads ≡ self.old.held.reads }
        ensures size { self.new.held.number ≡ self.old.held.number }
    {
        self.held.write(page, words);
        Ok(())
    }

    ghost tells_pages = { λ s d told. all_told s.held.sound told };
}

/// A drum in memory, and the numbers of the calls of `read` and of `write` that fail. It tells its pages.
#[derive(Drop)]
pub struct MemDrum {
    held: HeldPages,
    reading: FailingCalls,
    writing: FailingCalls,
    faults: u64,
}

impl MemDrum {
    /// A drum of so many pages of zero words. The calls of `read` and of `write` with these numbers fail,
    /// each counted from 1, and no others. Memory where there is none for the pages; no pages need none.
    pub fn new(
        alloc: Global,
        pages: u32,
        failing_reads: Vec<u64>,
        failing_writes: Vec<u64>,
    ) -> Result<Self, Memory>
        ensures none { pages ≡ 0 → IsOk result }
        ensures held { IfOk result (λ s. ⟦<MemDrum as Drum>⟧.held s ≡ Some (replicate pages (replicate PAGE_WORDS 0))) }
        ensures size { IfOk result (λ s. ⟦<MemDrum as Drum>⟧.size s ≡ pages) }
        ensures faults { IfOk result (λ s. ⟦<MemDrum as Drum>⟧.fault_count s ≡ 0) }
        ensures reads { IfOk result (λ s. ⟦<MemDrum as Drum>⟧.read_count s ≡ 0) }
        ensures writes { IfOk result (λ s. ⟦<MemDrum as Drum>⟧.write_count s ≡ 0) }
        ensures failing_reads { IfOk result (λ s. s.reading.failing ≡ failing_reads) }
        ensures failing_writes { IfOk result (λ s. s.writing.failing ≡ failing_writes) }
        ensures made_reads { IfOk result (λ s. s.reading.made ≡ 0) }
        ensures made_writes { IfOk result (λ s. s.writing.made ≡ 0) }
    {
        let held = HeldPages::new(alloc, pages)?;
        Ok(MemDrum {
            held,
            reading: FailingCalls::new(failing_reads),
            writing: FailingCalls::new(failing_writes),
            faults: 0,
        })
    }
}

impl Drum for MemDrum {
    ghost fault_count = { λ s. s.faults };

    ghost read_count = { λ s. s.held.reads };

    ghost write_count = { λ s. s.held.writes };

    ghost size = { λ s. s.held.number };

    ghost held = { λ s. Some s.held.pages.items };

    fn faults(&self) -> u64 {
        self.faults
    }

    fn reads(&self) -> u64 {
        self.held.reads
    }

    fn writes(&self) -> u64 {
        self.held.writes
    }

    fn pages(&self) -> u32 {
        self.held.number
    }

    // The calls that fail are those that are listed. They change no page.
    fn read(&mut self, page: u32, words: &mut [u64; PAGE_WORDS]) -> Result<(), Failed>
        requires { page < self.old.held.number }
        ensures fails { IsErr result ↔ FailsNext self.old.reading.failing.items self.old.reading.made }
        ensures made { CountsUp self.old.reading.made self.new.reading.made }
        ensures failing { self.new.reading.failing ≡ self.old.reading.failing }
        ensures writing { self.new.writing ≡ self.old.writing }
        ensures later { self.old.faults ≤ self.new.faults }
        ensures faulted { OnErr result (CountsUp self.old.faults self.new.faults) }
        ensures unfaulted { OnOk result (self.new.faults ≡ self.old.faults) }
        ensures words { OnOk result (words.new ≡ page_at self.old.held.pages.items page) }
        ensures page { OnOk result (IsPage words.new) }
        ensures counted { OnOk result (CountsUp self.old.held.reads self.new.held.reads) }
        ensures uncounted { OnErr result (self.new.held.reads ≡ self.old.held.reads) }
        ensures reads_later { self.old.held.reads ≤ self.new.held.reads }
        ensures writes { self.new.held.writes ≡ self.old.held.writes }
        ensures pages { self.new.held.pages ≡ self.old.held.pages }
        ensures size { self.new.held.number ≡ self.old.held.number }
    {
        if self.reading.next() {
            self.faults = self.faults.saturating_add(1);
            return Err(Failed);
        }
        self.held.read(page, words);
        Ok(())
    }

    fn write(&mut self, page: u32, words: &[u64; PAGE_WORDS]) -> Result<(), Failed>
        requires page { page < self.old.held.number }
        requires words { AreWords words.now }
        ensures fails { IsErr result ↔ FailsNext self.old.writing.failing.items self.old.writing.made }
        ensures made { CountsUp self.old.writing.made self.new.writing.made }
        ensures failing { self.new.writing.failing ≡ self.old.writing.failing }
        ensures reading { self.new.reading ≡ self.old.reading }
        ensures later { self.old.faults ≤ self.new.faults }
        ensures faulted { OnErr result (CountsUp self.old.faults self.new.faults) }
        ensures unfaulted { OnOk result (self.new.faults ≡ self.old.faults) }
        ensures pages { OnOk result (self.new.held.pages.items ≡ slice_set self.old.held.pages.items page words.now) }
        ensures spoiled { OnErr result (Spoils (Some self.old.held.pages.items) (Some self.new.held.pages.items) page) }
        ensures unchanged { OnErr result (self.new.held ≡ self.old.held) }
        ensures writes { OnOk result (CountsUp self.old.held.writes self.new.held.writes) }
        ensures writes_later { self.old.held.writes ≤ self.new.held.writes }
        ensures reads { self.new.held.reads ≡ self.old.held.reads }
        ensures size { self.new.held.number ≡ self.old.held.number }
    {
        if self.writing.next() {
            self.faults = self.faults.saturating_add(1);
            return Err(Failed);
        }
        self.held.write(page, words);
        Ok(())
    }

    ghost tells_pages = { λ s d told. all_told s.held.sound told };
}
