// Which home's page is in which frame, and which pages come and go.
ghost use Rattle.std.specs.Prelude.{◌≡◌, ◌+◌, ◌-◌, ◌<◌, ◌≤◌, ◌∷◌, ◌++◌, [], ℕ, List, None, Some, IsSome, IfOk, OnOk, OnErr, MatchOption, true, false, is_none, nat_lt, count_by, drop, length, replicate, slice_get, slice_index, slice_set, if◌then◌else◌};
ghost use Rattle.outside.specs.Faults.{CountsUp, Rose};
ghost use Rattle.outside.specs.Drums.{IsPage, Gives, Keeps, Puts, Spoils};
ghost use Rattle.drum_queue.specs.Transfers.{transfer_of, without, writes};
ghost use Rattle.frame_table.specs.Core.{with_words, words_of, holds_of, seat_of};
ghost use Rattle.page_contracts.specs.Stores.{next_use};
ghost use Rattle.page_residence.specs.Victims.{MayLeave, victim_of};
ghost use Rattle.page_residence.specs.Resident.{AgesStay, AreAged, HasWords, IsGivenTo, IsRenewed, IsRepinned, IsResident, IsTakenFrom, SeatsStay, found_at, frame_for, home_at, page_in, pins_in, reads, seat};

use drum_queue::{Queue, Transfer};
use frame_table::{Frames, MOST_PINS};
use outside::{Drum, Failed, Memory, PAGE_WORDS};
use page_contracts::Found;
use page_homes::{FrameId, Home, MOST_HOMES};
use std::alloc::Global;
use word36::Word;

/// The frames of core and the transfers between them and the drum.
#[derive(Drop)]
pub struct Residence {
    /// Which home's page each frame is given to, with its words, its age and its pins.
    pub frames: Frames,
    /// The transfers of frames that are queued, the oldest first.
    pub queue: Queue,
    ghost resident: { IsResident frames queue },
    ghost aged: { AreAged frames },
}

// The words of a page are copied into a frame that is taken.
fn fill(frames: &mut Frames, f: FrameId, words: &[u64; PAGE_WORDS])
    requires taken { IsSome (seat_of frames.old f.0) }
    requires spent { holds_of frames.old f.0 ≡ 0 }
    ensures { frames.new ≡ with_words frames.old f.0 words.now }
{
    let hold = frames.hold(f);
    *frames.words_mut(&hold) = *words;
    frames.release(hold);
}

// Reads a page of the drum into a frame. Where the drum fails, what words the frame has then is open.
fn read_into<D: Drum>(
    frames: &mut Frames,
    f: FrameId,
    page: u32,
    drum: &mut D,
) -> Result<(), Failed>
    requires taken { IsSome (seat_of frames.old f.0) }
    requires spent { holds_of frames.old f.0 ≡ 0 }
    requires worded { length frames.old.words ≡ length frames.old.seats }
    requires page { page < D.size drum.old }
    ensures frames { (words : List ℕ) × (frames.new ≡ with_words frames.old f.0 words) }
    ensures page { OnOk result (IsPage (words_of frames.new f.0)) }
    ensures words { OnOk result (Gives (D.held drum.old) page (words_of frames.new f.0)) }
    ensures held { Keeps (D.held drum.old) (D.held drum.new) }
    ensures later { D.fault_count drum.old ≤ D.fault_count drum.new }
    ensures cause { OnErr result (Rose (D.fault_count drum.old) (D.fault_count drum.new)) }
    ensures counted { OnOk result (CountsUp (D.read_count drum.old) (D.read_count drum.new)) }
    ensures uncounted { OnErr result (D.read_count drum.new ≡ D.read_count drum.old) }
    ensures reads_later { D.read_count drum.old ≤ D.read_count drum.new }
    ensures writes { D.write_count drum.new ≡ D.write_count drum.old }
    ensures size { D.size drum.new ≡ D.size drum.old }
{
    let hold = frames.hold(f);
    let done = drum.read(page, frames.words_mut(&hold));
    frames.release(hold);
    done
}

// Writes the words of a frame to a page of the drum.
fn write_from<D: Drum>(
    frames: &mut Frames,
    f: FrameId,
    page: u32,
    drum: &mut D,
) -> Result<(), Failed>
    requires taken { IsSome (seat_of frames.old f.0) }
    requires spent { holds_of frames.old f.0 ≡ 0 }
    requires words { IsPage (words_of frames.old f.0) }
    requires page { page < D.size drum.old }
    ensures frames { frames.new ≡ frames.old }
    ensures held { OnOk result (Puts (D.held drum.old) (D.held drum.new) page (words_of frames.old f.0)) }
    ensures spoiled { OnErr result (Spoils (D.held drum.old) (D.held drum.new) page) }
    ensures later { D.fault_count drum.old ≤ D.fault_count drum.new }
    ensures cause { OnErr result (Rose (D.fault_count drum.old) (D.fault_count drum.new)) }
    ensures counted { OnOk result (CountsUp (D.write_count drum.old) (D.write_count drum.new)) }
    ensures uncounted { OnErr result (D.write_count drum.new ≡ D.write_count drum.old) }
    ensures writes_later { D.write_count drum.old ≤ D.write_count drum.new }
    ensures reads { D.read_count drum.new ≡ D.read_count drum.old }
    ensures size { D.size drum.new ≡ D.size drum.old }
{
    let hold = frames.hold(f);
    let done = drum.write(page, frames.words(&hold));
    frames.release(hold);
    done
}

impl Residence {
    /// So many frames, all of them free. Memory where there is none for them.
    pub fn boot(alloc: Global, frames: u32) -> Result<Self, Memory>
        ensures seats { IfOk result (λ r. r.frames.seats ≡ replicate frames None) }
        ensures queue { IfOk result (λ r. r.queue.queued ≡ []) }
    {
        Ok(Residence {
            frames: Frames::boot(alloc, frames)?,
            queue: Queue::boot(alloc, frames)?,
        })
    }

    /// How many frames there are.
    pub fn len(&self) -> u32
        ensures { result ≡ length self.now.frames.seats }
    {
        self.frames.len()
    }

    /// How many frames are free.
    pub fn spare(&self) -> u32
        ensures { result ≡ count_by is_none self.now.frames.seats }
    {
        self.frames.free_frames()
    }

    /// The oldest transfer. None exactly where none is queued.
    pub fn next(&self) -> Option<Transfer>
        ensures { result ≡ slice_get self.now.queue.queued 0 }
    {
        self.queue.next()
    }

    /// The frame that is given to the page of a home. None exactly where none is.
    pub fn frame_of(&self, home: Home) -> Option<FrameId>
        ensures { MatchOption result (frame_for self.now.frames.seats home.0 ≡ None) (λ f. frame_for self.now.frames.seats home.0 ≡ Some f.0) }
    {
        self.frames.frame_of(home)
    }

    // Whether a page is still to be read into a frame.
    fn is_reading(&self, f: FrameId) -> bool
        requires { f.0 < length self.now.frames.seats }
        ensures { result ≡ reads (transfer_of f.0 self.now.queue.queued) }
    {
        match self.queue.transfer_of(f) {
            Some(Transfer::Read(_, _)) => true,
            _ => false,
        }
    }

    /// Where the words of a home's page are. None exactly where they are in no frame.
    pub fn find(&self, home: Home) -> Option<Found>
        ensures { result ≡ found_at self.now.frames.seats self.now.queue.queued home.0 }
    {
        match self.frame_of(home) {
            Some(f) => {
                if self.is_reading(f) {
                    None
                } else {
                    Some(Found(f.0))
                }
            }
            None => None,
        }
    }

    /// A word of a page in a frame.
    #[inline(always)]
    pub fn word(&self, f: FrameId, at: u16) -> Word
        requires here { HasWords self.now.frames.seats self.now.queue.queued f.0 }
        requires at { at < PAGE_WORDS }
        ensures { result ≡ slice_index (page_in self.now.frames.words f.0) at }
    {
        Word::wrapped(self.frames.word(f, at))
    }

    /// Puts a word into a page in a frame.
    #[inline(always)]
    pub fn put(&mut self, f: FrameId, at: u16, word: Word)
        requires here { HasWords self.old.frames.seats self.old.queue.queued f.0 }
        requires at { at < PAGE_WORDS }
        ensures seats { self.new.frames.seats ≡ self.old.frames.seats }
        ensures uses { self.new.frames.uses ≡ self.old.frames.uses }
        ensures words { self.new.frames.words ≡ slice_set self.old.frames.words f.0 (slice_set (page_in self.old.frames.words f.0) at word) }
        ensures queue { self.new.queue ≡ self.old.queue }
    {
        self.frames.put(f, at, word.value());
    }

    /// A use of a frame. Answers whether a transfer of it is queued.
    #[inline(always)]
    pub fn touch(&mut self, f: FrameId) -> bool
        requires { f.0 < length self.old.frames.seats }
        ensures idle { result ≡ false → transfer_of f.0 self.old.queue.queued ≡ None }
        ensures moving { result ≡ true → IsSome (transfer_of f.0 self.old.queue.queued) }
        ensures seats { SeatsStay self.old.frames.seats self.new.frames.seats }
        ensures renews { IsRenewed f.0 self.old.frames.seats self.new.frames.seats self.old.frames.uses self.new.frames.uses }
        ensures words { self.new.frames.words ≡ self.old.frames.words }
        ensures queue { self.new.queue ≡ self.old.queue }
    {
        self.frames.touch_age(f)
    }

    /// Takes the write of a frame from the queue. False exactly where none is queued; then nothing changes.
    pub fn rescue(&mut self, f: FrameId) -> bool
        requires { f.0 < length self.old.frames.seats }
        ensures answer { result ≡ writes (transfer_of f.0 self.old.queue.queued) }
        ensures seats { SeatsStay self.old.frames.seats self.new.frames.seats }
        ensures ages { AgesStay self.old.frames.seats self.new.frames.seats }
        ensures uses { self.new.frames.uses ≡ self.old.frames.uses }
        ensures words { self.new.frames.words ≡ self.old.frames.words }
        ensures queue { self.new.queue.queued ≡ (if result then without f.0 self.old.queue.queued else self.old.queue.queued) }
    {
        if !self.frames.in_transfer(f) {
            return false;
        }
        if !self.queue.rescue(f) {
            return false;
        }
        self.frames.set_transfer(f, false);
        true
    }

    /// Gives a free frame to the page of a home, with these words.
    pub fn seat(&mut self, home: Home, words: &[u64; PAGE_WORDS]) -> FrameId
        requires home { home.0 < MOST_HOMES }
        requires away { frame_for self.old.frames.seats home.0 ≡ None }
        requires spare { 0 < count_by is_none self.old.frames.seats }
        requires page { IsPage words.now }
        ensures given { IsGivenTo home.0 result.0 self.old.frames.seats self.new.frames.seats }
        ensures renews { IsRenewed result.0 self.old.frames.seats self.new.frames.seats self.old.frames.uses self.new.frames.uses }
        ensures words { self.new.frames.words ≡ slice_set self.old.frames.words result.0 words.now }
        ensures queue { self.new.queue ≡ self.old.queue }
        ensures idle { transfer_of result.0 self.old.queue.queued ≡ None }
    {
        match self.frames.assign(home) {
            Some(f) => {
                fill(&mut self.frames, f, words);
                f
            }
            None => unreachable!(),
        }
    }

    /// Gives a free frame to the page of a home, and queues its read. None exactly where no frame is free; then
    /// nothing changes.
    pub fn expect(&mut self, home: Home) -> Option<FrameId>
        requires home { home.0 < MOST_HOMES }
        requires away { frame_for self.old.frames.seats home.0 ≡ None }
        ensures none { result ≡ None → count_by is_none self.old.frames.seats ≡ 0 }
        ensures same { result ≡ None → self.new ≡ self.old }
        ensures uses { IsSome result → self.new.frames.uses ≡ next_use self.old.frames.uses }
        ensures given { (f : ℕ) → result ≡ Some (record { 0 = f }) → IsGivenTo home.0 f self.old.frames.seats self.new.frames.seats }
        ensures idle { (f : ℕ) → result ≡ Some (record { 0 = f }) → transfer_of f self.old.queue.queued ≡ None }
        ensures words { self.new.frames.words ≡ self.old.frames.words }
        ensures queue { (f : ℕ) → result ≡ Some (record { 0 = f }) → self.new.queue.queued ≡ self.old.queue.queued ++ Transfer.Read (record { 0 = f }) home ∷ [] }
    {
        let Some(f) = self.frames.assign(home) else {
            return None;
        };
        self.frames.set_transfer(f, true);
        self.queue.start_read(f, home);
        Some(f)
    }

    /// Queues the write of a frame, of which no transfer is queued.
    pub fn dismiss(&mut self, f: FrameId, home: Home)
        requires given { home_at self.old.frames.seats f.0 ≡ Some home.0 }
        requires still { transfer_of f.0 self.old.queue.queued ≡ None }
        ensures seats { SeatsStay self.old.frames.seats self.new.frames.seats }
        ensures ages { AgesStay self.old.frames.seats self.new.frames.seats }
        ensures uses { self.new.frames.uses ≡ self.old.frames.uses }
        ensures words { self.new.frames.words ≡ self.old.frames.words }
        ensures queue { self.new.queue.queued ≡ self.old.queue.queued ++ Transfer.Write f home ∷ [] }
    {
        self.frames.set_transfer(f, true);
        self.queue.start_write(f, home);
    }

    /// The page of the oldest transfer, which is a read, comes into its frame. It stays queued where the drum fails.
    pub fn arrive<D: Drum>(&mut self, f: FrameId, home: Home, drum: &mut D) -> Result<(), Failed>
        requires oldest { slice_get self.old.queue.queued 0 ≡ Some (Transfer.Read f home) }
        requires page { home.0 < D.size drum.old }
        ensures seats { SeatsStay self.old.frames.seats self.new.frames.seats }
        ensures renews { OnOk result (IsRenewed f.0 self.old.frames.seats self.new.frames.seats self.old.frames.uses self.new.frames.uses) }
        ensures unused { OnErr result (self.new.frames.seats ≡ self.old.frames.seats) }
        ensures uncounted_use { OnErr result (self.new.frames.uses ≡ self.old.frames.uses) }
        ensures words { (words : List ℕ) × (self.new.frames.words ≡ slice_set self.old.frames.words f.0 words) }
        ensures queue { OnOk result (self.new.queue.queued ≡ drop 1 self.old.queue.queued) }
        ensures failed { OnErr result (self.new.queue ≡ self.old.queue) }
        ensures given { OnOk result (Gives (D.held drum.old) home.0 (page_in self.new.frames.words f.0)) }
        ensures held { Keeps (D.held drum.old) (D.held drum.new) }
        ensures later { D.fault_count drum.old ≤ D.fault_count drum.new }
        ensures cause { OnErr result (Rose (D.fault_count drum.old) (D.fault_count drum.new)) }
        ensures counted { OnOk result (CountsUp (D.read_count drum.old) (D.read_count drum.new)) }
        ensures uncounted { OnErr result (D.read_count drum.new ≡ D.read_count drum.old) }
        ensures reads_later { D.read_count drum.old ≤ D.read_count drum.new }
        ensures writes { D.write_count drum.new ≡ D.write_count drum.old }
        ensures size { D.size drum.new ≡ D.size drum.old }
    {
        read_into(&mut self.frames, f, home.0, drum)?;
        self.queue.finish();
        self.frames.set_transfer(f, false);
        self.frames.touch_age(f);
        Ok(())
    }

    /// The page of the oldest transfer, which is a write, leaves its frame. It stays queued where the drum fails.
    pub fn depart<D: Drum>(&mut self, f: FrameId, home: Home, drum: &mut D) -> Result<(), Failed>
        requires oldest { slice_get self.old.queue.queued 0 ≡ Some (Transfer.Write f home) }
        requires unpinned { pins_in (seat self.old.frames.seats f.0) ≡ 0 }
        requires page { home.0 < D.size drum.old }
        ensures taken { OnOk result (IsTakenFrom home.0 f.0 self.old.frames.seats self.new.frames.seats) }
        ensures uses { self.new.frames.uses ≡ self.old.frames.uses }
        ensures words { self.new.frames.words ≡ self.old.frames.words }
        ensures queue { OnOk result (self.new.queue.queued ≡ drop 1 self.old.queue.queued) }
        ensures failed { OnErr result (self.new ≡ self.old) }
        ensures held { OnOk result (Puts (D.held drum.old) (D.held drum.new) home.0 (page_in self.old.frames.words f.0)) }
        ensures later { D.fault_count drum.old ≤ D.fault_count drum.new }
        ensures cause { OnErr result (Rose (D.fault_count drum.old) (D.fault_count drum.new)) }
        ensures counted { OnOk result (CountsUp (D.write_count drum.old) (D.write_count drum.new)) }
        ensures uncounted { OnErr result (D.write_count drum.new ≡ D.write_count drum.old) }
        ensures writes_later { D.write_count drum.old ≤ D.write_count drum.new }
        ensures reads { D.read_count drum.new ≡ D.read_count drum.old }
        ensures size { D.size drum.new ≡ D.size drum.old }
    {
        write_from(&mut self.frames, f, home.0, drum)?;
        self.leave(f, home);
        Ok(())
    }

    // The page of the oldest transfer, which is a write that has ended, leaves its frame.
    fn leave(&mut self, f: FrameId, home: Home)
        requires oldest { slice_get self.old.queue.queued 0 ≡ Some (Transfer.Write f home) }
        requires unpinned { pins_in (seat self.old.frames.seats f.0) ≡ 0 }
        ensures taken { IsTakenFrom home.0 f.0 self.old.frames.seats self.new.frames.seats }
        ensures uses { self.new.frames.uses ≡ self.old.frames.uses }
        ensures words { self.new.frames.words ≡ self.old.frames.words }
        ensures queue { self.new.queue.queued ≡ drop 1 self.old.queue.queued }
    {
        self.queue.finish();
        self.frames.free(f);
    }

    /// Makes a frame free, with its transfer, which is answered. Nobody has pinned it.
    pub fn vacate(&mut self, f: FrameId, home: Home) -> Option<Transfer>
        requires given { home_at self.old.frames.seats f.0 ≡ Some home.0 }
        requires unpinned { pins_in (seat self.old.frames.seats f.0) ≡ 0 }
        ensures answer { result ≡ transfer_of f.0 self.old.queue.queued }
        ensures taken { IsTakenFrom home.0 f.0 self.old.frames.seats self.new.frames.seats }
        ensures uses { self.new.frames.uses ≡ self.old.frames.uses }
        ensures words { self.new.frames.words ≡ self.old.frames.words }
        ensures queue { self.new.queue.queued ≡ without f.0 self.old.queue.queued }
    {
        let transfer = self.queue.cancel(f);
        self.frames.free(f);
        transfer
    }

    /// The words of a page in a frame.
    pub fn page(&self, f: FrameId) -> [u64; PAGE_WORDS]
        requires { HasWords self.now.frames.seats self.now.queue.queued f.0 }
        ensures words { result ≡ page_in self.now.frames.words f.0 }
        ensures page { IsPage result }
    {
        self.frames.page(f)
    }

    /// Looks for the victim, so that `victim` has it at hand. Nothing changes.
    pub fn look_for_victim(&mut self)
        ensures { self.new ≡ self.old }
    {
        self.frames.look_for_victim();
    }

    /// The frame whose page goes next. None exactly where no page may leave its frame.
    pub fn victim(&self) -> Option<FrameId>
        ensures { MatchOption result (victim_of self.now.frames.seats ≡ None) (λ f. victim_of self.now.frames.seats ≡ Some f.0) }
    {
        self.frames.victim()
    }

    /// The home whose page may leave a frame. None exactly where there is no such frame, or it is free, pinned or in
    /// transfer.
    pub fn leaver(&self, f: FrameId) -> Option<Home>
        ensures { MatchOption result ((h : ℕ) → MayLeave self.now.frames.seats self.now.queue.queued f.0 h → ⊥) (λ h. MayLeave self.now.frames.seats self.now.queue.queued f.0 h.0) }
    {
        if f.0 < self.frames.len() && !self.frames.is_held(f) && !self.frames.in_transfer(f) {
            self.frames.home_of(f)
        } else {
            None
        }
    }

    /// Whether a frame has a pin.
    pub fn is_pinned(&self, f: FrameId) -> bool
        requires { f.0 < length self.now.frames.seats }
        ensures { result ≡ nat_lt 0 (pins_in (seat self.now.frames.seats f.0)) }
    {
        self.frames.pins(f) > 0
    }

    /// Pins a frame that is given to a page.
    pub fn pin(&mut self, f: FrameId)
        requires given { IsSome (seat self.old.frames.seats f.0) }
        requires few { pins_in (seat self.old.frames.seats f.0) < MOST_PINS }
        ensures seats { IsRepinned f.0 (pins_in (seat self.old.frames.seats f.0) + 1) self.old.frames.seats self.new.frames.seats }
        ensures uses { self.new.frames.uses ≡ self.old.frames.uses }
        ensures words { self.new.frames.words ≡ self.old.frames.words }
        ensures queue { self.new.queue ≡ self.old.queue }
    {
        self.frames.pin(f);
    }

    /// Takes away one pin of a frame, which has one.
    pub fn unpin(&mut self, f: FrameId)
        requires { 0 < pins_in (seat self.old.frames.seats f.0) }
        ensures seats { IsRepinned f.0 (pins_in (seat self.old.frames.seats f.0) - 1) self.old.frames.seats self.new.frames.seats }
        ensures uses { self.new.frames.uses ≡ self.old.frames.uses }
        ensures words { self.new.frames.words ≡ self.old.frames.words }
        ensures queue { self.new.queue ≡ self.old.queue }
    {
        self.frames.unpin(f);
    }
}
