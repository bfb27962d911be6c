// Look-ups of pages of spaces.
ghost use Rattle.std.specs.Prelude.{◌≡◌};

use crate::slot_paged::SlotPaged;
use machine_names::{ForkName, Kind, PAGE_ADDRESSES, SPACE_PAGES, Slot};
use page_contracts::{Found, SpaceHandle, Store};
use paged_tables::KnownPage;
use pager_walk::walk;
use word36::Word;

impl<S: Store> SlotPaged<S> {
    ghost use Rattle.std.specs.Prelude.{◌≡◌, ◌<◌, true, None, Some, if◌then◌else◌};
    ghost use Rattle.page_contracts.specs.Pages.{HasSpace};
    ghost use Rattle.page_contracts.specs.Stores.{is_taken, place};
    ghost use Rattle.pager_walk.specs.MapPages.{fork_at};
    ghost use Rattle.paged_tables.specs.declared.known_page.KnownPage.{KnownPage as AKnownPage};
    ghost use Rattle.paged_tables.specs.KnownPages.{found_known, known_over, lets_change, lets_known};
    ghost use Rattle.paged_tables.specs.PagedMeaning.{lives_in};
    ghost use Rattle.slot_paged.specs.Slots.{slots};
    ghost use Rattle.paged_tables.specs.PagedTables.{beside_of};

    /// The handle of a fork's space.
    pub fn space(&self, fork: ForkName) -> SpaceHandle
        requires { lives_in (beside_of self.now.tables) fork ≡ true }
        ensures { (slots S.means).space self.now fork ≡ Some result }
    {
        match self.tables.tables.maps.map_of(fork) {
            Some(number) => SpaceHandle(number),
            None => unreachable!(),
        }
    }

    // The fork whose space has a handle.
    fn fork_of(&self, space: SpaceHandle) -> Option<ForkName>
        ensures { result ≡ fork_at (beside_of self.now.tables).tables.maps space.0 }
    {
        let maps = &self.tables.tables.maps.pages;
        if space.0 as usize >= maps.len() {
            return None;
        }
        maps[space.0 as usize].fork
    }

    /// What is known of a page of a space, which is at the end of its chain.
    pub fn known(&self, space: SpaceHandle, page: u16) -> Option<KnownPage>
        requires space { HasSpace (slots S.means) self.now space }
        requires page { page < SPACE_PAGES }
        ensures known { result ≡ known_over (beside_of self.now.tables) (S.means.homes self.now.store) space page }
        ensures taken { (k : AKnownPage) → result ≡ Some k → is_taken (place (S.means.homes self.now.store) k.home.0) ≡ true }
    {
        match self.fork_of(space) {
            Some(fork) => {
                let slot = Slot { fork, page };
                KnownPage::along(walk(&self.store, &self.tables.tables, slot))
            }
            None => None,
        }
    }

    /// Where a known page is that may be used so, if it is in a frame.
    pub fn found_at(&self, known: KnownPage, is_let: bool) -> Option<Found>
        requires { is_taken (place (S.means.homes self.now.store) known.home.0) ≡ true }
        ensures { result ≡ (if is_let then S.means.found self.now.store known.home.0 else None) }
    {
        if is_let {
            self.store.find(known.home)
        } else {
            None
        }
    }

    /// Where a page of a space is that may be referenced as it is.
    pub fn found_for(&self, space: SpaceHandle, page: u16, kind: Kind) -> Option<Found>
        requires space { HasSpace (slots S.means) self.now space }
        requires page { page < SPACE_PAGES }
        ensures { result ≡ found_known (S.means.found self.now.store) (lets_known kind) (known_over (beside_of self.now.tables) (S.means.homes self.now.store) space page) }
    {
        match self.known(space, page) {
            Some(known) => self.found_at(known, known.lets(kind)),
            None => None,
        }
    }

    /// Where a page of a space is that may be read and written as it is.
    pub fn found_to_change(&self, space: SpaceHandle, page: u16) -> Option<Found>
        requires space { HasSpace (slots S.means) self.now space }
        requires page { page < SPACE_PAGES }
        ensures { result ≡ found_known (S.means.found self.now.store) lets_change (known_over (beside_of self.now.tables) (S.means.homes self.now.store) space page) }
    {
        match self.known(space, page) {
            Some(known) => self.found_at(known, known.lets_change()),
            None => None,
        }
    }
}

impl<S: Store> SlotPaged<S> {
    ghost use Rattle.std.specs.Prelude.{◌≡◌, ◌/◌, ◌%◌, ℕ, Some, slice_set};
    ghost use Rattle.machine_names.specs.declared.names.ForkName.{ForkName as AForkName};
    ghost use Rattle.machine_names.specs.Bounds.{IsAddress};
    ghost use Rattle.outside.specs.declared.TheConstants.{PAGE_WORDS};
    ghost use Rattle.page_contracts.specs.DrumWords.{DrumWords};
    ghost use Rattle.page_contracts.specs.Pages.{HasSpace, MayLose, OnlyUses, StaysPut};
    ghost use Rattle.page_contracts.specs.Stores.{IsUsed, place, with_word_in, word_in};
    ghost use Rattle.plain_pages.specs.References.{in_map, slot_at, stored, word_at};
    ghost use Rattle.paged_tables.specs.KnownPages.{known_over};
    ghost use Rattle.slot_paged.specs.Slots.{slots};
    ghost use Rattle.paged_tables.specs.PagedTables.{beside_of};

    /// The word at an address of a space, in a page that was found. This is a look, and no use of the page.
    #[inline(always)]
    pub fn look(&self, space: SpaceHandle, found: Found, address: u32) -> Word
        requires space { HasSpace (slots S.means) self.now space }
        requires address { IsAddress address }
        requires place { (slots S.means).place self.now space (address / PAGE_WORDS) ≡ Some found }
        ensures told { (d : DrumWords) (f : AForkName) → (slots S.means).fits self.now d → (slots S.means).space self.now f ≡ Some space
            → result ≡ word_at ((slots S.means).plain self.now d) (in_map (slot_at f address)) (address % PAGE_WORDS) }
        ensures answer { (home : ℕ) → S.means.found self.now.store home ≡ Some found → word_in (place (S.means.homes self.now.store) home) (address % PAGE_WORDS) ≡ Some result }
    {
        self.store.look(found, (address % PAGE_ADDRESSES) as u16)
    }

    /// A use of the page of an address of a space, which was found: the page is the last to have to leave its
    /// frame, and where its departure is queued it is taken from the queue.
    #[inline(always)]
    pub fn used(&mut self, space: SpaceHandle, found: Found, address: u32)
        requires space { HasSpace (slots S.means) self.old space }
        requires address { IsAddress address }
        requires place { (slots S.means).place self.old space (address / PAGE_WORDS) ≡ Some found }
        ensures only { OnlyUses (slots S.means) self.old self.new }
        ensures uses { (home : ℕ) → (slots S.means).store.found self.old home ≡ Some found → IsUsed (slots S.means).store home self.old self.new }
        ensures known { known_over (beside_of self.new.tables) (S.means.homes self.new.store) ≡ known_over (beside_of self.old.tables) (S.means.homes self.old.store) }
        ensures tables { self.new.tables ≡ self.old.tables }
    {
        self.store.use_found(found);
    }

    /// The word at an address of a space, in a page that was found, which is a use of it.
    #[inline(always)]
    pub fn load(&mut self, space: SpaceHandle, found: Found, address: u32) -> Word
        requires space { HasSpace (slots S.means) self.old space }
        requires address { IsAddress address }
        requires place { (slots S.means).place self.old space (address / PAGE_WORDS) ≡ Some found }
        ensures told { (d : DrumWords) (f : AForkName) → (slots S.means).fits self.old d → (slots S.means).space self.old f ≡ Some space
            → result ≡ word_at ((slots S.means).plain self.old d) (in_map (slot_at f address)) (address % PAGE_WORDS) }
        ensures answer { (home : ℕ) → S.means.found self.old.store home ≡ Some found → word_in (place (S.means.homes self.old.store) home) (address % PAGE_WORDS) ≡ Some result }
        ensures only { OnlyUses (slots S.means) self.old self.new }
        ensures uses { (home : ℕ) → (slots S.means).store.found self.old home ≡ Some found → IsUsed (slots S.means).store home self.old self.new }
        ensures known { known_over (beside_of self.new.tables) (S.means.homes self.new.store) ≡ known_over (beside_of self.old.tables) (S.means.homes self.old.store) }
        ensures tables { self.new.tables ≡ self.old.tables }
    {
        let word = self.look(space, found, address);
        self.used(space, found, address);
        word
    }

    /// Puts a word at an address of a space, in a page that was found, which is a use of it.
    pub fn store(&mut self, space: SpaceHandle, found: Found, address: u32, word: Word)
        requires space { HasSpace (slots S.means) self.old space }
        requires address { IsAddress address }
        requires place { (slots S.means).place self.old space (address / PAGE_WORDS) ≡ Some found }
        ensures told { (d : DrumWords) (f : AForkName) → (slots S.means).fits self.old d → (slots S.means).space self.old f ≡ Some space
            → (slots S.means).fits self.new d × ((slots S.means).plain self.new d ≡ stored ((slots S.means).plain self.old d) (in_map (slot_at f address)) (address % PAGE_WORDS) word) }
        ensures homes { (home : ℕ) → S.means.found self.old.store home ≡ Some found
            → S.means.homes self.new.store ≡ slice_set (S.means.homes self.old.store) home (with_word_in (place (S.means.homes self.old.store) home) (address % PAGE_WORDS) word) }
        ensures fits { (d : DrumWords) → (slots S.means).fits self.old d → (slots S.means).fits self.new d }
        ensures loses { MayLose (slots S.means) self.old self.new }
        ensures uses { (home : ℕ) → (slots S.means).store.found self.old home ≡ Some found → IsUsed (slots S.means).store home self.old self.new }
        ensures stays { StaysPut (slots S.means) self.old self.new }
        ensures known { known_over (beside_of self.new.tables) (S.means.homes self.new.store) ≡ known_over (beside_of self.old.tables) (S.means.homes self.old.store) }
        ensures tables { self.new.tables ≡ self.old.tables }
    {
        self.store
            .store(found, (address % PAGE_ADDRESSES) as u16, word);
    }
}
