// A store in memory.
ghost use Rattle.flat_pages.specs.StoredPages.{AreStored};
ghost use Rattle.flat_pages.specs.StoredLists.{pages_of};

use crate::stored_page::{StoredPages, all_homes, zero_page};
use outside::{Drum, Memory};
use page_contracts::{Completed, Found, Need, Room, Store};
use page_homes::{FrameId, Home, MOST_HOMES};
use std::alloc::Global;
use word36::Word;

/// Pages under homes in memory alone: there are no frames, no page is ever away, and no transfer is
/// queued. Nothing is allocated after the boot.
#[derive(Drop)]
pub struct FlatStore {
    pages: StoredPages,
    // The homes that are free stand first.
    homes: Vec<Home>,
    spare: u32,
    ghost stored: { AreStored (pages_of pages) homes.items spare },
}

impl FlatStore {
    ghost use Rattle.std.specs.Prelude.{◌≡◌, ◌≤◌, IfOk, replicate};
    ghost use Rattle.page_contracts.specs.Stores.{free};

    /// So many homes, 16,384 at most, all of them free. Err: no memory.
    pub fn boot(alloc: Global, pages: u32) -> Result<FlatStore, Memory>
        requires { pages ≤ MOST_HOMES }
        ensures homes { IfOk result (λ s. ⟦<FlatStore as Store>⟧.means.homes s ≡ replicate pages free) }
        ensures spare { IfOk result (λ s. ⟦<FlatStore as Store>⟧.means.spare s ≡ pages) }
    {
        let homes = all_homes(alloc, pages)?;
        let stored = StoredPages::free(alloc, pages)?;
        Ok(FlatStore {
            pages: stored,
            homes,
            spare: pages,
        })
    }
}

impl Store for FlatStore {
    ghost use Rattle.flat_pages.specs.StoreMeaning.{flat_meaning, flat_sound};

    ghost means = { flat_meaning };

    fn taken(&self, home: Home) -> bool {
        self.pages.is_taken(home)
    }

    #[inline]
    fn word(&self, home: Home, at: u16) -> Option<Word> {
        Some(self.pages.word(home.0, at))
    }

    #[inline]
    fn put(&mut self, home: Home, at: u16, word: Word) -> bool {
        self.pages.put(home.0, at, word);
        true
    }

    fn used(&mut self, home: Home) {}

    #[inline(always)]
    fn find(&self, home: Home) -> Option<Found> {
        Some(Found(home.0))
    }

    #[inline(always)]
    fn look(&self, found: Found, at: u16) -> Word {
        self.pages.word(found.0, at)
    }

    #[inline(always)]
    fn use_found(&mut self, found: Found) {}

    #[inline(always)]
    fn load(&mut self, found: Found, at: u16) -> Word {
        self.pages.word(found.0, at)
    }

    #[inline(always)]
    fn store(&mut self, found: Found, at: u16, word: Word) {
        self.pages.put(found.0, at, word);
    }

    fn room(&self, pages: u32) -> Room {
        if self.spare < pages {
            Room::Full
        } else {
            Room::Enough
        }
    }

    fn make(&mut self) -> Home {
        self.spare -= 1;
        let home = self.homes[self.spare as usize];
        self.pages.take(home, zero_page());
        home
    }

    fn copy(&mut self, from: Home) -> Home {
        self.spare -= 1;
        let home = self.homes[self.spare as usize];
        let words = self.pages.page(from);
        self.pages.take(home, words);
        home
    }

    fn free(&mut self, home: Home) {
        self.pages.give_up(home);
        self.homes[self.spare as usize] = home;
        self.spare += 1;
    }

    fn fetch(&mut self, need: Need) -> Need {
        Need::Frame
    }

    fn complete<D: Drum>(&mut self, drum: &mut D) -> Completed {
        Completed::Nothing
    }

    fn is_moving(&self) -> bool {
        false
    }

    fn cancelled(&mut self) -> Option<Need> {
        None
    }

    fn evict(&mut self, frame: FrameId) {}

    fn keep(&mut self, holder: u16, home: Home) {}

    fn held(&self, holder: u16) -> u32 {
        0
    }

    fn let_go(&mut self, holder: u16) {}

    fn members(&self) -> u32 {
        u32::MAX
    }

    ghost sound = { flat_sound };
}
