// A drum that gives another word than was written.
ghost use Rattle.std.specs.Prelude.{None};
ghost use Rattle.outside.specs.ToldPages.{none_told};

use outside::{Drum, Failed, Memory, PAGE_WORDS, SureDrum};
use std::alloc::Global;

/// The first word of a page that changes.
const WRITTEN: u64 = 0o404_000_000_000;

/// What is given in its place.
const GIVEN: u64 = 0o410_000_000_000;

/// A drum that tells nothing of its pages, and gives a page that begins with 404000000000 as one that begins with 410000000000.
#[derive(Drop)]
pub(crate) struct Changing {
    held: SureDrum,
}

impl Changing {
    /// A drum of so many pages.
    pub(crate) fn new(alloc: Global, pages: u32) -> Result<Self, Memory> {
        let held = SureDrum::new(alloc, pages)?;
        Ok(Changing { held })
    }
}

impl Drum for Changing {
    ghost fault_count = { λ _. 0 };

    ghost read_count = { λ s. ⟦<SureDrum as Drum>⟧.read_count s.held };

    ghost write_count = { λ s. ⟦<SureDrum as Drum>⟧.write_count s.held };

    ghost size = { λ s. ⟦<SureDrum as Drum>⟧.size s.held };

    ghost held = { λ _. None };

    fn faults(&self) -> u64 {
        0
    }

    fn reads(&self) -> u64 {
        self.held.reads()
    }

    fn writes(&self) -> u64 {
        self.held.writes()
    }

    fn pages(&self) -> u32 {
        self.held.pages()
    }

    fn read(&mut self, page: u32, words: &mut [u64; PAGE_WORDS]) -> Result<(), Failed> {
        self.held.read(page, words)?;
        if words[0] == WRITTEN {
            words[0] = GIVEN;
        }
        Ok(())
    }

    fn write(&mut self, page: u32, words: &[u64; PAGE_WORDS]) -> Result<(), Failed> {
        self.held.write(page, words)
    }

    ghost tells_pages = { λ s d told. none_told told };
}
