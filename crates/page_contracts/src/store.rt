// Pages under homes.
ghost use Rattle.std.specs.Prelude.{◌≡◌, ◌↔◌, ◌<◌, ◌≤◌, ◌+◌, ℕ, [], true, false, Some, length, map, slice_set};
ghost use Rattle.outside.specs.declared.TheConstants.{PAGE_WORDS};
ghost use Rattle.page_contracts.specs.DrumWords.{DrumWords, Stands};
ghost use Rattle.machine_names.specs.PageWords.{zero_words};
ghost use Rattle.page_contracts.specs.Stores.{StoreMeaning, FitsHomes, IsSound, HasPage, IsUsed, IsMade, IsFreed, IsFetched, CanFetch, Completes, Tells, Evicts, CanKeep, Keeps, LetsGo, most_held, here, place, is_taken, is_here, word_in, with_word_in, free_homes, room_of, content, meeting, awaited};

use crate::{Found, Need};
use outside::Drum;
use page_homes::{FrameId, Home};
use word36::Word;

/// Whether so many pages more find homes and frames.
#[derive(Clone, Copy, PartialEq, Eq)]
pub enum Room {
    Enough,
    /// There are homes, and fewer frames are free.
    NeedFrame,
    /// Fewer homes are free.
    Full,
}

/// How the oldest transfer ended.
#[derive(Clone, Copy)]
pub enum Completed {
    /// What its end tells: a page is in a frame, or a frame is free.
    Done(Need),
    /// No transfer is queued.
    Nothing,
    /// The drum has failed.
    DrumFault,
}

/// The number that holders of frames are below: those of the forks, and then that of the console.
pub const MOST_HOLDERS: u16 = 64;

/// The holder of what an event of the console brings in.
pub const CONSOLE_HOLDER: u16 = 63;

/// How many frames may be held for one fork.
pub const MOST_HELD: u32 = 128;

/// How many frames may be held for an event of the console.
pub const MOST_HELD_FOR_CONSOLE: u32 = 16;

/// Pages of 512 words under homes (CACM paper, "The memory management"). The words of a page stand in a
/// frame of core, or on the drum alone; of the latter a call without a drum says and changes nothing.
/// Transfers between frames and the drum are queued, and end in order.
pub trait Store {
    /// What the clauses below say of these pages.
    ghost means: { StoreMeaning Self };

    /// Whether a home is taken.
    fn taken(&self, home: Home) -> bool
        ensures { result ≡ is_taken (place (means.homes self.now) home.0) };

    /// The word at an offset of a home's page. None exactly where the page is in no frame.
    fn word(&self, home: Home, at: u16) -> Option<Word>
        requires taken { is_taken (place (means.homes self.now) home.0) ≡ true }
        requires at { at < PAGE_WORDS }
        ensures { result ≡ word_in (place (means.homes self.now) home.0) at };

    /// Puts a word at an offset of a home's page, which is a use of it. False exactly where the page is in no
    /// frame; then nothing changes.
    fn put(&mut self, home: Home, at: u16, word: Word) -> bool
        requires taken { is_taken (place (means.homes self.old) home.0) ≡ true }
        requires at { at < PAGE_WORDS }
        ensures done { result ≡ is_here (place (means.homes self.old) home.0) }
        ensures homes { means.homes self.new ≡ slice_set (means.homes self.old) home.0 (with_word_in (place (means.homes self.old) home.0) at word) }
        ensures used { IsUsed means home.0 self.old self.new };

    /// A use of a home's page, which is in a frame: the page is the last to have to leave its frame, and where
    /// its departure is queued it is taken from the queue.
    fn used(&mut self, home: Home)
        requires { is_here (place (means.homes self.old) home.0) ≡ true }
        ensures homes { means.homes self.new ≡ means.homes self.old }
        ensures used { IsUsed means home.0 self.old self.new };

    /// Where the words of a home's page are. None exactly where the page is in no frame.
    fn find(&self, home: Home) -> Option<Found>
        requires { is_taken (place (means.homes self.now) home.0) ≡ true }
        ensures { result ≡ means.found self.now home.0 };

    /// The word at an offset of a page that was found. This is a look, and no use of the page.
    fn look(&self, found: Found, at: u16) -> Word
        requires found { HasPage means self.now found }
        requires at { at < PAGE_WORDS }
        ensures { (home : ℕ) → means.found self.now home ≡ Some found → word_in (place (means.homes self.now) home) at ≡ Some result };

    /// A use of a page that was found, as `used` is.
    fn use_found(&mut self, found: Found)
        requires { HasPage means self.old found }
        ensures homes { means.homes self.new ≡ means.homes self.old }
        ensures used { (home : ℕ) → means.found self.old home ≡ Some found → IsUsed means home self.old self.new };

    /// The word at an offset of a page that was found, which is a use of it, as `used` is.
    fn load(&mut self, found: Found, at: u16) -> Word
        requires found { HasPage means self.old found }
        requires at { at < PAGE_WORDS }
        ensures word { (home : ℕ) → means.found self.old home ≡ Some found → word_in (place (means.homes self.old) home) at ≡ Some result }
        ensures homes { means.homes self.new ≡ means.homes self.old }
        ensures used { (home : ℕ) → means.found self.old home ≡ Some found → IsUsed means home self.old self.new };

    /// Puts a word at an offset of a page that was found, as `put` does.
    fn store(&mut self, found: Found, at: u16, word: Word)
        requires found { HasPage means self.old found }
        requires at { at < PAGE_WORDS }
        ensures homes { (home : ℕ) → means.found self.old home ≡ Some found → means.homes self.new ≡ slice_set (means.homes self.old) home (with_word_in (place (means.homes self.old) home) at word) }
        ensures used { (home : ℕ) → means.found self.old home ≡ Some found → IsUsed means home self.old self.new };

    /// Full exactly where fewer homes are free, else NeedFrame exactly where fewer frames are.
    fn room(&self, pages: u32) -> Room
        ensures { result ≡ room_of (free_homes (means.homes self.now)) (means.spare self.now) pages };

    /// Takes a free home, for a page of zero words in a frame.
    fn make(&mut self) -> Home
        requires { room_of (free_homes (means.homes self.old)) (means.spare self.old) 1 ≡ Room.Enough }
        ensures made { IsMade means result.0 (here zero_words) self.old self.new }
        ensures once { means.uses self.new ≤ means.uses self.old + 1 };

    /// Takes a free home, for a page in a frame with the words of another, which is in a frame.
    fn copy(&mut self, from: Home) -> Home
        requires room { room_of (free_homes (means.homes self.old)) (means.spare self.old) 1 ≡ Room.Enough }
        requires from { is_here (place (means.homes self.old) from.0) ≡ true }
        ensures made { IsMade means result.0 (place (means.homes self.old) from.0) self.old self.new }
        ensures once { means.uses self.new ≤ means.uses self.old + 1 };

    /// Gives a home up. Its page is held for nobody any more, and its transfer is taken from the queue.
    fn free(&mut self, home: Home)
        requires { is_taken (place (means.homes self.old) home.0) ≡ true }
        ensures { IsFreed means home.0 self.old self.new };

    /// Asks for a page that is in no frame, or for a frame, and answers what to wait for. Answers Page where the
    /// read is in the queue, or goes into it now since some frame is free; and else Frame: the page that is next
    /// to leave, if any may, begins to.
    fn fetch(&mut self, need: Need) -> Need
        requires { CanFetch means self.old need }
        ensures answer { result ≡ awaited (meeting (means.queue self.old) (means.spare self.old) need) }
        ensures fetched { IsFetched means need self.old self.new };

    /// Ends the oldest transfer, and answers Nothing exactly where the queue is empty. Where it answers DrumFault,
    /// the drum's count of faults rises and nothing changes here. No word of a page changes.
    fn complete<D: Drum>(&mut self, drum: &mut D) -> Completed
        requires { length (means.homes self.old) ≤ D.size drum.old }
        ensures ends { Completes means D.fault_count D.read_count D.write_count D.size result self.old self.new drum.old drum.new }
        ensures taken { map is_taken (means.homes self.new) ≡ map is_taken (means.homes self.old) }
        ensures content { (d : DrumWords) → Stands means.flat (D.held drum.old) d → FitsHomes (means.homes self.old) d → (result ≡ Completed.DrumFault → ⊥)
            → (e : DrumWords) × Stands means.flat (D.held drum.new) e × FitsHomes (means.homes self.new) e × (content (means.homes self.new) e ≡ content (means.homes self.old) d) };

    /// Whether a transfer is queued.
    fn is_moving(&self) -> bool
        ensures { (result ≡ false) ↔ (means.queue self.now ≡ []) };

    /// What a transfer would have told that was taken from the queue, each need once. None exactly where none is
    /// left to tell.
    fn cancelled(&mut self) -> Option<Need>
        ensures { Tells means result self.old self.new };

    /// The page of a frame begins to leave it, where there is such a frame and the page may.
    fn evict(&mut self, frame: FrameId)
        ensures { Evicts means frame.0 self.old self.new };

    /// Holds the frame of a home's page, which no transfer moves, for a fork that has fewer than 128, or for the console, with fewer than 16. Nothing changes where it is held so already.
    fn keep(&mut self, holder: u16, home: Home)
        requires can { CanKeep means self.old holder home.0 }
        requires holder { holder < MOST_HOLDERS }
        requires few { length (means.holds self.old holder) < most_held holder }
        ensures { Keeps means holder home.0 self.old self.new };

    /// How many frames are held for a holder.
    fn held(&self, holder: u16) -> u32
        ensures { result ≡ length (means.holds self.now holder) };

    /// Holds nothing for a holder any more.
    fn let_go(&mut self, holder: u16)
        ensures { LetsGo means holder self.old self.new };

    /// How many forks may have their pages in core together; 2^32 - 1 where there are no frames.
    fn members(&self) -> u32
        ensures { result ≡ means.members self.now };

    /// What holds of each store.
    ghost sound: { (s : Self) → IsSound means s };
}
