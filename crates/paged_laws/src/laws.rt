// Where pages and maps stand. A law does nothing when it runs.
ghost use Rattle.std.specs.Prelude.{◌≡◌, ◌+◌, ◌-◌, ◌/◌, ◌<◌, ◌≤◌, ℕ, IsSome, Some, [], length};
ghost use Rattle.page_contracts.specs.declared.store.TheConstants.{CONSOLE_HOLDER, MOST_HOLDERS};
ghost use Rattle.page_contracts.specs.Pages.{Housed, home_for};
ghost use Rattle.page_contracts.specs.Stores.{held_frames, members_of};
ghost use Rattle.paged_store.specs.OnePlace.{HasOnePlace};

use known_slots::KnownSlots;
use page_contracts::{Pages, Store};
use paged_store::PagedStore;

/// What has a home, a page or the map of a fork, has one place there. Exactly one frame is given to it, no read of that
/// frame is queued, and it has the words; or the drum has the words at its home, and no frame is given to it but one whose
/// read is queued.
pub fn pages_and_maps_have_one_place(pages: &KnownSlots<PagedStore>)
    ensures { (x : Housed) (home : ℕ) → home_for ⟦<KnownSlots<PagedStore> as Pages>⟧.means pages.now x ≡ Some home → HasOnePlace pages.now.pages.store home }
{}

/// Its home is below the number of pages and forks that may live, and is no other's.
pub fn pages_and_maps_stand_apart(pages: &KnownSlots<PagedStore>)
    ensures below { (x : Housed) (home : ℕ) → home_for ⟦<KnownSlots<PagedStore> as Pages>⟧.means pages.now x ≡ Some home → home < ⟦<KnownSlots<PagedStore> as Pages>⟧.means.most pages.now }
    ensures apart { (x y : Housed) (home : ℕ) → home_for ⟦<KnownSlots<PagedStore> as Pages>⟧.means pages.now x ≡ Some home
        → home_for ⟦<KnownSlots<PagedStore> as Pages>⟧.means pages.now y ≡ Some home → x ≡ y }
{}

/// The numbers by which frames are shared out are these: the members of the balance set have 128 frames each, of those that
/// are over 32, and there are 64 who may hold some.
pub fn frames_are_shared_out()
    ensures members { (frames : ℕ) → members_of frames ≡ (frames - 32) / 128 }
    ensures holders { MOST_HOLDERS ≡ 64 }
{}

/// Who waits for a frame has a victim: where no transfer is queued, and fewer than 32 frames are free or held for the console,
/// a page is next to leave its frame. No more transfers are queued than there are frames.
pub fn who_waits_has_a_victim(store: &PagedStore)
    ensures victim { 32 ≤ ⟦<PagedStore as Store>⟧.means.frames store.now → ⟦<PagedStore as Store>⟧.means.queue store.now ≡ []
        → ⟦<PagedStore as Store>⟧.means.spare store.now + length (⟦<PagedStore as Store>⟧.means.holds store.now CONSOLE_HOLDER) < 32 → IsSome (⟦<PagedStore as Store>⟧.means.victim store.now) }
    ensures queue { length (⟦<PagedStore as Store>⟧.means.queue store.now) ≤ ⟦<PagedStore as Store>⟧.means.frames store.now }
{}

/// At least 32 frames are held for nobody, but for those of the console.
pub fn frames_are_left_over(store: &PagedStore)
    ensures { 32 ≤ ⟦<PagedStore as Store>⟧.means.frames store.now
        → held_frames ⟦<PagedStore as Store>⟧.means store.now + 32 ≤ ⟦<PagedStore as Store>⟧.means.frames store.now + length (⟦<PagedStore as Store>⟧.means.holds store.now CONSOLE_HOLDER) }
{}
