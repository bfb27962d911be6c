// Pages of forks and of files, with what is known of walks.
ghost use Rattle.std.specs.Prelude.{◌≡◌};
ghost use Rattle.known_slots.specs.KnownNow.{AreKnown};
ghost use Rattle.paged_tables.specs.PagedTables.{beside_of};

use crate::known_walks::KnownWalks;
use machine_names::{ForkName, Kind};
use outside::Memory;
use page_contracts::{Found, SpaceHandle, Store};
use slot_paged::SlotPaged;
use std::alloc::Global;

/// The pages of forks and of files over a store, of which the maps of forks are pages too. What walks along
/// chains came to is known until a map changes, or a page that may be one comes into a frame or leaves it, so
/// that few steps find the page of a space that was found before. No call tells what is known.
#[derive(Drop)]
pub struct KnownSlots<S: Store> {
    pub(crate) pages: SlotPaged<S>,
    pub(crate) walks: KnownWalks,
    ghost known: { AreKnown (beside_of pages.tables) (S.means.homes pages.store) walks },
}

impl<S: Store + Drop> KnownSlots<S> {
    ghost use Rattle.std.specs.Prelude.{◌≡◌, IfOk};

    /// Nothing is known yet of the walks over these pages. Err: no memory.
    pub fn over(alloc: Global, pages: SlotPaged<S>) -> Result<KnownSlots<S>, Memory>
        ensures { IfOk result (λ s. s.pages ≡ pages) }
    {
        let walks = KnownWalks::boot(alloc)?;
        Ok(KnownSlots { pages, walks })
    }
}

impl<S: Store> KnownSlots<S> {
    ghost use Rattle.std.specs.Prelude.{◌≡◌, ℕ, ◌-◌, ◌^◌, ◌<◌};
    ghost use Rattle.machine_names.specs.declared.names.TheConstants.{SPACE_PAGES};
    ghost use Rattle.page_contracts.specs.Pages.{HasSpace};
    ghost use Rattle.paged_tables.specs.KnownPages.{found_known, known_over, lets_change, lets_known};
    ghost use Rattle.known_slots.specs.Slots.{slots};
    ghost use Rattle.known_slots.specs.WalkTimes.{known_rows};

    /// Whether a fork lives.
    pub fn lives(&self, fork: ForkName) -> bool
        ensures { result ≡ (slots S.means).lives self.now fork }
    {
        self.pages.lives(fork)
    }

    /// Where a page of a space is that may be referenced as it is.
    #[inline(always)]
    pub(crate) fn found_for(&self, space: SpaceHandle, page: u16, kind: Kind) -> Option<Found>
        requires space { HasSpace (slots S.means) self.now space }
        requires page { page < SPACE_PAGES }
        ensures { result ≡ found_known (S.means.found self.now.pages.store) (lets_known kind) (known_over (beside_of self.now.pages.tables) (S.means.homes self.now.pages.store) space page) }
    {
        match self.walks.page(space, page) {
            Some(known) => self.pages.found_at(known, known.lets(kind)),
            None => self.pages.found_for(space, page, kind),
        }
    }

    /// Where a page of a space is that may be read and written as it is.
    #[inline(always)]
    pub(crate) fn found_to_change(&self, space: SpaceHandle, page: u16) -> Option<Found>
        requires space { HasSpace (slots S.means) self.now space }
        requires page { page < SPACE_PAGES }
        ensures { result ≡ found_known (S.means.found self.now.pages.store) lets_change (known_over (beside_of self.now.pages.tables) (S.means.homes self.now.pages.store) space page) }
    {
        match self.walks.page(space, page) {
            Some(known) => self.pages.found_at(known, known.lets_change()),
            None => self.pages.found_to_change(space, page),
        }
    }

    // What a walk comes to is known from now on, until the last time; what is known of other pages stays.
    #[inline(never)]
    fn remember(&mut self, space: SpaceHandle, page: u16)
        requires space { HasSpace (slots S.means) self.old space }
        requires page { page < SPACE_PAGES }
        ensures pages { self.new.pages ≡ self.old.pages }
        ensures known { self.old.walks.time < 2 ^ 64 - 1 → known_rows self.new.walks.rows.items self.new.walks.time space.0 page ≡ known_over (beside_of self.new.pages.tables) (S.means.homes self.new.pages.store) space page }
        ensures others { (s p : ℕ) → p < SPACE_PAGES → ((s ≡ space.0) × (p ≡ page) → ⊥) → known_rows self.new.walks.rows.items self.new.walks.time s p ≡ known_rows self.old.walks.rows.items self.old.walks.time s p }
    {
        if let Some(known) = self.pages.known(space, page) {
            self.walks.remember(space, page, known);
        }
    }

    /// What is not known of a page that is used is learned, so that it is known then, until the last time; what is
    /// known of other pages stays.
    #[inline(always)]
    pub(crate) fn know(&mut self, space: SpaceHandle, page: u16)
        requires space { HasSpace (slots S.means) self.old space }
        requires page { page < SPACE_PAGES }
        ensures pages { self.new.pages ≡ self.old.pages }
        ensures known { self.old.walks.time < 2 ^ 64 - 1 → known_rows self.new.walks.rows.items self.new.walks.time space.0 page ≡ known_over (beside_of self.new.pages.tables) (S.means.homes self.new.pages.store) space page }
        ensures others { (s p : ℕ) → p < SPACE_PAGES → ((s ≡ space.0) × (p ≡ page) → ⊥) → known_rows self.new.walks.rows.items self.new.walks.time s p ≡ known_rows self.old.walks.rows.items self.old.walks.time s p }
    {
        if self.walks.page(space, page).is_none() {
            self.remember(space, page);
        }
    }
}
