// What follows for pages in frames and on a drum, in the words of their users. A law does nothing when it runs.
ghost use Rattle.std.specs.Prelude.{◌≡◌, ◌<◌, ℕ, List, [], Contains, Some, false, length, true};
ghost use Rattle.page_homes.specs.declared.homes.Home.{Home};
ghost use Rattle.page_contracts.specs.declared.answers.Need.{Need};
ghost use Rattle.page_contracts.specs.Stores.{IsFetched, awaited, content, is_here, is_taken, meeting, place};
ghost use Rattle.page_contracts.specs.DrumWords.{DrumWords};
ghost use Rattle.paged_store.specs.Lives.{Deed, HasDone, is_changed};
ghost use Rattle.paged_store.specs.OnePlace.{HasOnePlace, HaveEnded};
ghost use Rattle.paged_store.specs.StoreMeaning.{paged_meaning};
ghost use Rattle.paged_store.specs.declared.store.PagedStore.{PagedStore};

/// Each page has one place. Exactly one frame is given to it, no read of that frame is queued, and it has the words; or the
/// drum has the words at its home, and no frame is given to it but one whose read is queued.
pub fn a_page_has_one_place()
    ensures { (s : PagedStore) (home : ℕ) → is_taken (place (paged_meaning.homes s) home) ≡ true → HasOnePlace s home }
{}

/// A page that isn't made or given up, and into which no word is put, has its words, over those that the drum tells,
/// whatever is done and in whatever order: uses, by which writes are taken from the queue, transfers that end, other
/// pages that are made, changed or given up.
pub fn pages_keep_their_words()
    ensures { (deeds : List Deed) (s n : PagedStore) (d e : DrumWords) (home : ℕ) → HasDone deeds s n d e → is_changed home deeds ≡ false
        → content (paged_meaning.homes n) e home ≡ content (paged_meaning.homes s) d home }
{}

/// What is held for somebody is never the page that leaves next.
pub fn a_held_page_is_no_victim()
    ensures { (s : PagedStore) (holder frame home : ℕ) → Contains (paged_meaning.holds s holder) home → paged_meaning.tenant s frame ≡ Some home → paged_meaning.victim s ≡ Some frame → ⊥ }
{}

/// After as many transfers have ended as are queued none is queued.
pub fn transfers_come_to_an_end()
    ensures { (s n : PagedStore) → HaveEnded (length (paged_meaning.queue s)) s n → paged_meaning.queue n ≡ [] }
{}

/// Who asks for a page, and is not told to wait for a frame, has it once the transfers have ended that are queued then.
pub fn who_asks_gets_the_page()
    ensures { (s m n : PagedStore) (home : Home) → awaited (meeting (paged_meaning.queue s) (paged_meaning.spare s) (Need.Page home)) ≡ Need.Page home
        → IsFetched paged_meaning (Need.Page home) s m → HaveEnded (length (paged_meaning.queue m)) m n → is_here (place (paged_meaning.homes n) home.0) ≡ true }
{}

/// Who asks and is told to wait for a frame finds one free once the transfers have ended that are queued then, where a page
/// may leave its frame.
pub fn who_waits_for_a_frame_gets_one()
    ensures { (s m n : PagedStore) (need : Need) (frame : ℕ) → awaited (meeting (paged_meaning.queue s) (paged_meaning.spare s) need) ≡ Need.Frame → paged_meaning.victim s ≡ Some frame
        → IsFetched paged_meaning need s m → HaveEnded (length (paged_meaning.queue m)) m n → 0 < paged_meaning.spare n }
{}
