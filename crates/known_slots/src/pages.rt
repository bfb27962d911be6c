// The pages as the layers above know them.
ghost use Rattle.paged_tables.specs.PagedTables.{beside_of};

use crate::known_slots::KnownSlots;
use machine_names::{FileNo, ForkName, Kind, PAGE_ADDRESSES, PageName, Place, Slot, Tty};
use outside::Drum;
use page_contracts::{
    Completed, Found, Need, Pages, Peeked, Room, Seen, SpaceHandle, Store, Touch,
};
use page_homes::{FrameId, Home};
use plain_pages::{NewEntry, NewMap};
use word36::Word;

impl<S: Store> Pages for KnownSlots<S> {
    ghost use Rattle.known_slots.specs.Slots.{slots};
    ghost use Rattle.slot_paged.proofs.HousedPages.{paged_agrees, paged_alone, paged_housed, paged_there, paged_whole};

    ghost means = { slots S.means };

    fn touch(&self, at: Place, kind: Kind) -> Touch {
        self.pages.touch(at, kind)
    }

    fn word(&self, at: Place, offset: u16) -> Word {
        self.pages.word(at, offset)
    }

    fn peek(&self, at: Place, offset: u16) -> Peeked {
        self.pages.peek(at, offset)
    }

    fn page_at(&self, at: Place) -> Option<(PageName, u32)> {
        self.pages.page_at(at)
    }

    fn entry(&self, slot: Slot) -> Seen {
        self.pages.entry(slot)
    }

    fn set_entry(&mut self, slot: Slot, new: NewEntry) {
        self.walks.forget();
        self.pages.set_entry(slot, new);
    }

    fn settle(&mut self, at: Place, kind: Kind, owner: Tty) {
        self.forget_unless_ready(at, kind);
        self.pages.settle(at, kind, owner);
    }

    fn put(&mut self, at: Place, offset: u16, word: Word) {
        self.pages.put(at, offset, word);
    }

    fn space(&self, fork: ForkName) -> SpaceHandle {
        self.pages.space(fork)
    }

    #[inline(always)]
    fn find(&self, space: SpaceHandle, page: u16, kind: Kind) -> Option<Found> {
        self.found_for(space, page, kind)
    }

    #[inline(always)]
    fn find_to_change(&self, space: SpaceHandle, page: u16) -> Option<Found> {
        self.found_to_change(space, page)
    }

    #[inline(always)]
    fn look(&self, space: SpaceHandle, found: Found, address: u32) -> Word {
        self.pages.look(space, found, address)
    }

    #[inline(always)]
    fn used(&mut self, space: SpaceHandle, found: Found, address: u32) {
        self.know(space, (address / PAGE_ADDRESSES) as u16);
        self.pages.used(space, found, address);
    }

    #[inline(always)]
    fn learn(&mut self, space: SpaceHandle, page: u16) {
        self.know(space, page);
    }

    #[inline(always)]
    fn load(&mut self, space: SpaceHandle, found: Found, address: u32) -> Word {
        self.know(space, (address / PAGE_ADDRESSES) as u16);
        self.pages.load(space, found, address)
    }

    #[inline(always)]
    fn store(&mut self, space: SpaceHandle, found: Found, address: u32, word: Word) {
        self.know(space, (address / PAGE_ADDRESSES) as u16);
        self.pages.store(space, found, address, word);
    }

    fn add_fork(&mut self, fork: ForkName, map: NewMap) {
        self.walks.forget();
        self.pages.add_fork(fork, map);
    }

    fn drop_fork(&mut self, fork: ForkName) {
        self.walks.forget();
        self.pages.drop_fork(fork);
    }

    fn page_of(&self, file: FileNo, page: u16) -> Option<PageName> {
        self.pages.page_of(file, page)
    }

    fn set_file(&mut self, file: FileNo, page: u16, from: Option<Slot>) {
        self.walks.forget();
        self.pages.set_file(file, page, from);
    }

    fn drop_file(&mut self, file: FileNo) {
        self.walks.forget();
        self.pages.drop_file(file);
    }

    fn live(&self) -> u32 {
        self.pages.live()
    }

    fn limit(&self) -> u32 {
        self.pages.limit()
    }

    fn room(&self, pages: u32) -> Room {
        self.pages.room(pages)
    }

    fn fetch(&mut self, need: Need) -> Need {
        self.pages.fetch(need)
    }

    fn complete<D: Drum>(&mut self, drum: &mut D) -> Completed {
        let completed = self.pages.complete(drum);
        if let Completed::Done(_) = completed {
            self.walks.forget();
        }
        completed
    }

    fn is_moving(&self) -> bool {
        self.pages.is_moving()
    }

    fn cancelled(&mut self) -> Option<Need> {
        self.pages.cancelled()
    }

    fn evict(&mut self, frame: FrameId) {
        self.pages.evict(frame);
    }

    fn keep(&mut self, holder: u16, home: Home) {
        self.pages.keep(holder, home);
    }

    fn held(&self, holder: u16) -> u32 {
        self.pages.held(holder)
    }

    fn let_go(&mut self, holder: u16) {
        self.pages.let_go(holder);
    }

    fn members(&self) -> u32 {
        self.pages.members()
    }

    ghost housed = { λ s. paged_housed S.means (λ p. p.pages.store) (λ p. beside_of p.pages.tables) s s.pages.kept (S.sound s.pages.store) };

    ghost agrees = { λ s d fits. paged_agrees S.means (λ p. p.pages.store) (λ p. beside_of p.pages.tables) s s.pages.kept (S.sound s.pages.store) d fits };

    ghost whole = { λ s d fits. paged_whole S.means (λ p. p.pages.store) (λ p. beside_of p.pages.tables) s s.pages.kept (S.sound s.pages.store) d fits };

    ghost there = { λ s d fits. paged_there S.means (λ p. p.pages.store) (λ p. beside_of p.pages.tables) s s.pages.kept (S.sound s.pages.store) d fits };

    ghost none_lives = { λ s f none. paged_alone (beside_of s.pages.tables) f none };
}
