// A store on frames and a drum.
ghost use Rattle.std.specs.Prelude.{◌≡◌, ◌<◌, ◌≤◌, ◌∷◌, ◌++◌, [], ℕ, List, None, Some, IfOk, MatchOption, true, false, count_by, is_none, length, replicate, slice_set, if◌then◌else◌};
ghost use Rattle.machine_names.specs.PageWords.{zero_words};
ghost use Rattle.page_contracts.specs.Stores.{free, need_of, noted};
ghost use Rattle.page_contracts.specs.declared.answers.Need.{Need};
ghost use Rattle.drum_queue.specs.Transfers.{transfer_of, without, writes};
ghost use Rattle.drum_queue.specs.declared.transfer.Transfer.{Transfer};
ghost use Rattle.paged_store.specs.HeldHomes.{held_by};
ghost use Rattle.page_residence.specs.Victims.{MayLeave, victim_of};
ghost use Rattle.paged_store.specs.Keeping.{IsKept, is_among};
ghost use Rattle.page_contracts.specs.Stores.{members_of};
ghost use Rattle.page_residence.specs.Resident.{home_at, meant};

use crate::holders::Holders;
use crate::homes::Homes;
use crate::untold::Untold;
use drum_queue::Transfer;
use outside::{Drum, Memory, PAGE_WORDS};
use page_contracts::{Completed, Found, MOST_HELD, MOST_HOLDERS, Need, Room, Store};
use page_homes::{FrameId, Home, MOST_HOMES};
use page_residence::Residence;
use std::alloc::Global;
use word36::Word;

/// How many frames are held for no fork, at least, where there are so many.
pub const UNHELD_FRAMES: u32 = 32;

/// Pages under homes in frames of core and on a drum (CACM paper, "The memory management"). A page has one place: its
/// words are in a frame, or they are on the drum alone. Nothing is allocated after the boot.
#[derive(Drop)]
pub struct PagedStore {
    core: Residence,
    homes: Homes,
    holders: Holders,
    untold: Untold,
    ghost kept: { IsKept core.frames.seats core.queue.queued homes holders untold },
}

// A page of zero words.
fn zero_page() -> [u64; PAGE_WORDS]
    ensures { result ≡ zero_words }
{
    [0; PAGE_WORDS]
}

impl PagedStore {
    ghost use Rattle.std.specs.Prelude.{◌+◌, map};
    ghost use Rattle.std.specs.Option.{option_map_or};
    ghost use Rattle.outside.specs.Drums.{IsPage};
    ghost use Rattle.page_contracts.specs.Stores.{IsFetched, IsMade, away, awaited, free_homes, here, meeting, place, room_of};
    ghost use Rattle.page_residence.specs.Resident.{AgesStay, IsRenewed, IsTakenFrom};
    ghost use Rattle.paged_store.specs.StoreMeaning.{paged_meaning};
    ghost use Rattle.paged_store.specs.StoreSteps.{HasReleased, IsAtRest, IsInPlace, all_but, departing};

    /// So many frames, and so many homes, 16,384 at most, all of them free; nothing is held and no transfer is queued.
    /// Memory where there is none for them.
    pub fn boot(alloc: Global, frames: u32, pages: u32) -> Result<PagedStore, Memory>
        requires { pages ≤ MOST_HOMES }
        ensures homes { IfOk result (λ s. ⟦<PagedStore as Store>⟧.means.homes s ≡ replicate pages free) }
        ensures spare { IfOk result (λ s. ⟦<PagedStore as Store>⟧.means.spare s ≡ frames) }
        ensures queue { IfOk result (λ s. ⟦<PagedStore as Store>⟧.means.queue s ≡ []) }
        ensures untold { IfOk result (λ s. ⟦<PagedStore as Store>⟧.means.untold s ≡ []) }
        ensures holds { IfOk result (λ s. (holder : ℕ) → ⟦<PagedStore as Store>⟧.means.holds s holder ≡ []) }
        ensures members { IfOk result (λ s. ⟦<PagedStore as Store>⟧.means.members s ≡ members_of frames) }
    {
        Ok(PagedStore {
            core: Residence::boot(alloc, frames)?,
            homes: Homes::boot(alloc, pages)?,
            holders: Holders::boot(alloc)?,
            untold: Untold::boot(alloc, pages)?,
        })
    }

    // A use of a frame. Where its write is queued, it is taken from the queue.
    #[inline(always)]
    fn use_frame(&mut self, f: FrameId)
        requires { f.0 < length self.old.core.frames.seats }
        ensures stays { IsInPlace self.old self.new }
        ensures renews { IsRenewed f.0 self.old.core.frames.seats self.new.core.frames.seats self.old.core.frames.uses self.new.core.frames.uses }
        ensures queue { self.new.core.queue.queued ≡ (if writes (transfer_of f.0 self.old.core.queue.queued) then without f.0 self.old.core.queue.queued else self.old.core.queue.queued) }
        ensures untold { self.new.untold.needs ≡ (if writes (transfer_of f.0 self.old.core.queue.queued) then noted Need.Frame self.old.untold.needs else self.old.untold.needs) }
        ensures holders { self.new.holders ≡ self.old.holders }
    {
        if !self.core.touch(f) {
            return;
        }
        self.recall(f);
    }

    // A page that is used stays in its frame: where its write is queued, it is taken from the queue.
    #[cold]
    fn recall(&mut self, f: FrameId)
        requires { f.0 < length self.old.core.frames.seats }
        ensures stays { IsInPlace self.old self.new }
        ensures ages { AgesStay self.old.core.frames.seats self.new.core.frames.seats }
        ensures uses { self.new.core.frames.uses ≡ self.old.core.frames.uses }
        ensures queue { self.new.core.queue.queued ≡ (if writes (transfer_of f.0 self.old.core.queue.queued) then without f.0 self.old.core.queue.queued else self.old.core.queue.queued) }
        ensures untold { self.new.untold.needs ≡ (if writes (transfer_of f.0 self.old.core.queue.queued) then noted Need.Frame self.old.untold.needs else self.old.untold.needs) }
        ensures holders { self.new.holders ≡ self.old.holders }
    {
        if !self.core.rescue(f) {
            return;
        }
        self.untold.note(Need::Frame);
    }

    // The page of a frame begins to leave it.
    fn dismiss(&mut self, f: FrameId, home: Home)
        requires { MayLeave self.old.core.frames.seats self.old.core.queue.queued f.0 home.0 }
        ensures rests { IsAtRest self.old self.new }
        ensures queue { self.new.core.queue.queued ≡ self.old.core.queue.queued ++ Transfer.Write f home ∷ [] }
        ensures untold { self.new.untold ≡ self.old.untold }
        ensures holders { self.new.holders ≡ self.old.holders }
    {
        self.core.dismiss(f, home);
    }

    // The page that is next to leave its frame begins to, if one may.
    fn send_off(&mut self)
        ensures rests { IsAtRest self.old self.new }
        ensures queue { map meant self.new.core.queue.queued ≡ map meant self.old.core.queue.queued ++ departing self.old.core.frames.seats (victim_of self.old.core.frames.seats) }
        ensures untold { self.new.untold ≡ self.old.untold }
        ensures holders { self.new.holders ≡ self.old.holders }
    {
        self.core.look_for_victim();
        let Some(f) = self.core.victim() else {
            return;
        };
        match self.core.leaver(f) {
            Some(home) => self.dismiss(f, home),
            None => unreachable!(),
        }
    }

    // Asks for a page that is in no frame.
    fn fetch_page(&mut self, home: Home) -> Need
        requires { place (paged_meaning.homes self.old) home.0 ≡ away }
        ensures answer { result ≡ awaited (meeting (paged_meaning.queue self.old) (paged_meaning.spare self.old) (Need.Page home)) }
        ensures fetched { IsFetched paged_meaning (Need.Page home) self.old self.new }
    {
        if let Some(_joined) = self.core.frame_of(home) {
            return Need::Page(home);
        }
        let Some(_given) = self.core.expect(home) else {
            self.send_off();
            return Need::Frame;
        };
        Need::Page(home)
    }

    // Takes a free home, for a page with these words in a frame.
    fn make_page(&mut self, words: &[u64; PAGE_WORDS]) -> Home
        requires room { room_of (free_homes (paged_meaning.homes self.old)) (paged_meaning.spare self.old) 1 ≡ Room.Enough }
        requires page { IsPage words.now }
        ensures made { IsMade paged_meaning result.0 (here words.now) self.old self.new }
        ensures once { paged_meaning.uses self.new ≤ paged_meaning.uses self.old + 1 }
    {
        let home = self.homes.take();
        self.core.seat(home, words);
        home
    }

    // The last home that is held for a holder isn't held for it any more. False where none is held.
    fn release_last(&mut self, holder: u16) -> bool
        ensures rests { IsAtRest self.old self.new }
        ensures queue { self.new.core.queue ≡ self.old.core.queue }
        ensures untold { self.new.untold ≡ self.old.untold }
        ensures none { result ≡ false → (held_by self.old.holders holder ≡ []) × (self.new.holders ≡ self.old.holders) }
        ensures some { result ≡ true → HasReleased holder self.old.holders self.new.holders }
    {
        let Some(home) = self.holders.pop(holder) else {
            return false;
        };
        match self.core.frame_of(home) {
            Some(f) => self.core.unpin(f),
            None => unreachable!(),
        }
        true
    }

    // A home isn't held for a holder any more.
    fn release(&mut self, holder: u16, home: Home)
        requires { holder < MOST_HOLDERS }
        ensures rests { IsAtRest self.old self.new }
        ensures queue { self.new.core.queue ≡ self.old.core.queue }
        ensures untold { self.new.untold ≡ self.old.untold }
        ensures holders { self.new.holders ≡ slice_set self.old.holders holder (all_but home.0 (held_by self.old.holders holder)) }
    {
        if !self.holders.has(holder, home) {
            return;
        }
        self.holders.drop_home(holder, home);
        match self.core.frame_of(home) {
            Some(f) => self.core.unpin(f),
            None => unreachable!(),
        }
    }

    // Whether a home may be held for somebody: its frame has a pin.
    fn is_held(&self, home: Home) -> bool
        ensures { result ≡ false → (k : ℕ) → is_among home.0 (held_by self.now.holders k) ≡ false }
    {
        match self.core.frame_of(home) {
            Some(f) => self.core.is_pinned(f),
            None => false,
        }
    }

    // A home isn't held for anybody any more. No holder is looked at where its frame has no pin.
    fn release_all(&mut self, home: Home)
        ensures rests { IsAtRest self.old self.new }
        ensures queue { self.new.core.queue ≡ self.old.core.queue }
        ensures untold { self.new.untold ≡ self.old.untold }
        ensures holders { (k : ℕ) → held_by self.new.holders k ≡ all_but home.0 (held_by self.old.holders k) }
    {
        if !self.is_held(home) {
            return;
        }
        for holder in 0..MOST_HOLDERS {
            self.release(holder, home);
        }
    }

    // A home's frame is made free, with its transfer, which is to be told. It is held for nobody.
    fn vacate(&mut self, f: FrameId, home: Home)
        requires given { home_at self.old.core.frames.seats f.0 ≡ Some home.0 }
        requires unheld { (k : ℕ) → is_among home.0 (held_by self.old.holders k) ≡ false }
        ensures taken { IsTakenFrom home.0 f.0 self.old.core.frames.seats self.new.core.frames.seats }
        ensures uses { self.new.core.frames.uses ≡ self.old.core.frames.uses }
        ensures words { self.new.core.frames.words ≡ self.old.core.frames.words }
        ensures queue { self.new.core.queue.queued ≡ without f.0 self.old.core.queue.queued }
        ensures untold { self.new.untold.needs ≡ option_map_or (λ t. noted (need_of (meant t)) self.old.untold.needs) (transfer_of f.0 self.old.core.queue.queued) self.old.untold.needs }
        ensures homes { self.new.homes ≡ self.old.homes }
        ensures holders { self.new.holders ≡ self.old.holders }
    {
        let Some(transfer) = self.core.vacate(f, home) else {
            return;
        };
        self.untold.note(told_by(transfer));
    }
}

// What the end of a transfer tells.
fn told_by(transfer: Transfer) -> Need
    ensures { result ≡ need_of (meant transfer) }
{
    match transfer {
        Transfer::Read(_, home) => Need::Page(home),
        Transfer::Write(_, _) => Need::Frame,
    }
}

impl Store for PagedStore {
    ghost use Rattle.paged_store.specs.StoreMeaning.{paged_meaning};
    ghost use Rattle.paged_store.specs.StoreSound.{paged_sound};

    ghost means = { paged_meaning };

    fn taken(&self, home: Home) -> bool {
        self.homes.is_taken(home)
    }

    fn word(&self, home: Home, at: u16) -> Option<Word> {
        match self.core.find(home) {
            Some(found) => Some(self.core.word(FrameId(found.0), at)),
            None => None,
        }
    }

    fn put(&mut self, home: Home, at: u16, word: Word) -> bool {
        match self.core.find(home) {
            Some(found) => {
                self.store(found, at, word);
                true
            }
            None => false,
        }
    }

    fn used(&mut self, home: Home) {
        match self.core.frame_of(home) {
            Some(f) => self.use_frame(f),
            None => unreachable!(),
        }
    }

    fn find(&self, home: Home) -> Option<Found> {
        self.core.find(home)
    }

    #[inline(always)]
    fn look(&self, found: Found, at: u16) -> Word {
        self.core.word(FrameId(found.0), at)
    }

    #[inline(always)]
    fn use_found(&mut self, found: Found) {
        self.use_frame(FrameId(found.0));
    }

    #[inline(always)]
    fn load(&mut self, found: Found, at: u16) -> Word {
        let word = self.look(found, at);
        self.use_found(found);
        word
    }

    #[inline(always)]
    fn store(&mut self, found: Found, at: u16, word: Word) {
        self.core.put(FrameId(found.0), at, word);
        self.use_frame(FrameId(found.0));
    }

    fn room(&self, pages: u32) -> Room {
        if self.homes.spare() < pages {
            Room::Full
        } else if self.core.spare() < pages {
            Room::NeedFrame
        } else {
            Room::Enough
        }
    }

    fn make(&mut self) -> Home {
        let words = zero_page();
        self.make_page(&words)
    }

    fn copy(&mut self, from: Home) -> Home {
        match self.core.find(from) {
            Some(found) => {
                let words = self.core.page(FrameId(found.0));
                self.make_page(&words)
            }
            None => unreachable!(),
        }
    }

    fn free(&mut self, home: Home) {
        self.release_all(home);
        let Some(f) = self.core.frame_of(home) else {
            self.homes.release(home);
            return;
        };
        self.vacate(f, home);
        self.homes.release(home);
    }

    fn fetch(&mut self, need: Need) -> Need {
        match need {
            Need::Page(home) => self.fetch_page(home),
            Need::Frame => {
                self.send_off();
                Need::Frame
            }
        }
    }

    fn complete<D: Drum>(&mut self, drum: &mut D) -> Completed {
        match self.core.next() {
            None => Completed::Nothing,
            Some(Transfer::Read(f, home)) => match self.core.arrive(f, home, drum) {
                Ok(()) => Completed::Done(Need::Page(home)),
                Err(_) => Completed::DrumFault,
            },
            Some(Transfer::Write(f, home)) => match self.core.depart(f, home, drum) {
                Ok(()) => Completed::Done(Need::Frame),
                Err(_) => Completed::DrumFault,
            },
        }
    }

    fn is_moving(&self) -> bool {
        self.core.next().is_some()
    }

    fn cancelled(&mut self) -> Option<Need> {
        self.untold.tell()
    }

    fn evict(&mut self, frame: FrameId) {
        let Some(home) = self.core.leaver(frame) else {
            return;
        };
        self.dismiss(frame, home);
    }

    fn keep(&mut self, holder: u16, home: Home) {
        if self.holders.has(holder, home) {
            return;
        }
        match self.core.frame_of(home) {
            Some(f) => {
                self.core.pin(f);
                self.holders.add(holder, home);
            }
            None => unreachable!(),
        }
    }

    fn held(&self, holder: u16) -> u32 {
        self.holders.count(holder)
    }

    fn let_go(&mut self, holder: u16) {
        while self.release_last(holder) {}
    }

    fn members(&self) -> u32 {
        self.core.len().saturating_sub(UNHELD_FRAMES) / MOST_HELD
    }

    ghost sound = { paged_sound };
}
