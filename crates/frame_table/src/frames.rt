// The frames of core.
ghost use Rattle.std.specs.Prelude.{◌≡◌, ◌+◌, ◌-◌, ◌<◌, ◌≤◌, Some, None, IsSome, IfOk, IfSome, ℕ, MatchOption, false, is_none, count_by, length, replicate, slice_index, slice_set};
ghost use Rattle.std.specs.Borrow.{Array, Lends, sem, u64 as number};
ghost use Rattle.machine_names.specs.PageWords.{zero_words};
ghost use Rattle.frame_table.specs.Core.{AreAllTaken, IsAway, IsCore, IsLeastFree, IsVictim, age_of, can_leave, holds_of, home_in, is_held, is_moving, pins_of, seat_of, used, with_page, with_tenant, with_words, without_page, words_of};
ghost use Rattle.frame_table.specs.contracts.frames.Frames.{the_row};

use crate::pages::zero_pages;
use crate::tenant::Tenant;
use crate::victims::{first_to_go, note_age, note_oldest};
use crate::{Hold, MOST_PINS};
use number_map::NumberMap;
use number_set::NumberSet;
use outside::{Memory, PAGE_WORDS};
use page_homes::{FrameId, Home, MOST_HOMES};
use std::alloc::Global;
use std::marker::Model;
use tournament::Tournament;

/// How many holds of a frame are not spent at most.
pub const MOST_HOLDS: u32 = u32::MAX;

// How many homes there are at most.
const HOMES: usize = MOST_HOMES as usize;

/// The frames of core with the words that they hold (CACM paper, "The memory management"). A frame is
/// free, or it is taken by the page of a home, and no home's page takes two. Uses are numbered, and the
/// age of a frame is the number of its last use.
#[derive(Drop)]
pub struct Frames {
    seats: Vec<Option<Tenant>>,
    pages: Vec<[u64; PAGE_WORDS]>,
    // An age that each frame has reached which may give up its page.
    reached: Tournament,
    taken: NumberSet,
    homes: NumberMap<FrameId, HOMES>,
    free: u32,
    // The number of the next use.
    uses: u64,
}

impl Model for Frames {
    ghost use Rattle.frame_table.specs.Core.{Core};
    ghost use Rattle.frame_table.specs.Reached.{AreReached};
    ghost use Rattle.frame_table.specs.Seats.{AreKept, core_of};

    ghost Value = { Core };

    ghost view = { λ s. core_of s.seats.items s.pages.items s.uses };

    ghost invariant = { λ s. AreKept (core_of s.seats.items s.pages.items s.uses) s.taken s.homes s.free
        × AreReached s.reached s.seats.items };
}

impl Frames {
    /// So many frames, all of them free and with zero words. Memory where there is none for them.
    pub fn boot(alloc: Global, n: u32) -> Result<Self, Memory>
        ensures { IfOk result (λ c. c ≡ record { seats = replicate n None; words = replicate n zero_words; uses = 0 }) }
    {
        Ok(Frames {
            seats: vec![in alloc; None; n as usize]?,
            pages: zero_pages(alloc, n)?,
            reached: Tournament::boot(alloc, n as usize)?,
            taken: NumberSet::boot(alloc, n as usize)?,
            homes: NumberMap::boot(alloc)?,
            free: n,
            uses: 0,
        })
    }

    /// How many frames there are. The number of a frame is below it.
    pub fn len(&self) -> u32
        ensures len { result ≡ length self.now.seats }
        ensures whole { IsCore self.now }
    {
        self.seats.len() as u32
    }

    /// How many frames are free.
    pub fn free_frames(&self) -> u32
        ensures { result ≡ count_by is_none self.now.seats }
    {
        self.free
    }

    /// The frame that holds the page of a home. None exactly where none does.
    pub fn frame_of(&self, home: Home) -> Option<FrameId>
        ensures { MatchOption result (IsAway self.now home) (λ f. home_in self.now f.0 ≡ Some home) }
    {
        self.homes.get(home.0 as usize)
    }

    /// The home whose page a frame holds. None exactly where the frame is free.
    pub fn home_of(&self, f: FrameId) -> Option<Home>
        requires { f.0 < length self.now.seats }
        ensures { result ≡ home_in self.now f.0 }
    {
        self.seats[f.0 as usize].map(|tenant| tenant.home)
    }

    /// Whether a frame has a pin or a hold that is not spent.
    pub fn is_held(&self, f: FrameId) -> bool
        requires { f.0 < length self.now.seats }
        ensures { result ≡ is_held self.now f.0 }
    {
        match self.seats[f.0 as usize] {
            Some(tenant) => tenant.is_held(),
            None => false,
        }
    }

    /// How many holds of a frame are not spent.
    pub fn holds(&self, f: FrameId) -> u32
        requires { f.0 < length self.now.seats }
        ensures { result ≡ holds_of self.now f.0 }
    {
        match self.seats[f.0 as usize] {
            Some(tenant) => tenant.holds,
            None => 0,
        }
    }

    /// How many pins a frame has, at most 64.
    pub fn pins(&self, f: FrameId) -> u8
        requires { f.0 < length self.now.seats }
        ensures { result ≡ pins_of self.now f.0 }
    {
        match self.seats[f.0 as usize] {
            Some(tenant) => tenant.pins,
            None => 0,
        }
    }

    /// Whether a transfer of a frame is queued.
    pub fn in_transfer(&self, f: FrameId) -> bool
        requires { f.0 < length self.now.seats }
        ensures { result ≡ is_moving self.now f.0 }
    {
        match self.seats[f.0 as usize] {
            Some(tenant) => tenant.in_transfer,
            None => false,
        }
    }

    /// The word at an offset, 0 to 511, of a frame that is taken.
    pub fn word(&self, f: FrameId, at: u16) -> u64
        requires taken { IsSome (seat_of self.now f.0) }
        requires at { at < PAGE_WORDS }
        ensures { result ≡ slice_index (words_of self.now f.0) at }
    {
        self.pages[f.0 as usize][at as usize]
    }

    /// The words of a frame that is taken.
    pub fn page(&self, f: FrameId) -> [u64; PAGE_WORDS]
        requires { IsSome (seat_of self.now f.0) }
        ensures { result ≡ words_of self.now f.0 }
    {
        self.pages[f.0 as usize]
    }

    // What takes a frame.
    fn tenant(&self, f: FrameId) -> Tenant
        requires { IsSome (seat_of self.now f.0) }
        ensures is { seat_of self.now f.0 ≡ Some result }
        ensures pinned { result.pins ≤ MOST_PINS }
    {
        match self.seats[f.0 as usize] {
            Some(tenant) => tenant,
            None => unreachable!(),
        }
    }

    // Changes what takes a frame, but not its home nor its age.
    fn reseat(&mut self, f: FrameId, tenant: Tenant)
        requires home { home_in self.old f.0 ≡ Some tenant.home }
        requires age { age_of self.old f.0 ≡ tenant.age }
        requires pins { tenant.pins ≤ MOST_PINS }
        ensures { self.new ≡ with_tenant self.old f.0 (λ t. tenant) }
    {
        self.seats[f.0 as usize] = Some(tenant);
        note_age(&mut self.reached, &self.seats, f);
    }

    /// Holds a frame that is taken, until the hold is released. Fewer than 2^32 - 1 holds of it are
    /// not spent.
    pub fn hold(&mut self, f: FrameId) -> Hold
        requires taken { IsSome (seat_of self.old f.0) }
        requires few { holds_of self.old f.0 < MOST_HOLDS }
        ensures frame { result ≡ f.0 }
        ensures held { self.new ≡ with_tenant self.old f.0 (λ t. record t { holds = t.holds + 1 }) }
        ensures counted { holds_of self.new f.0 ≡ holds_of self.old f.0 + 1 }
    {
        let tenant = self.tenant(f);
        let holds = tenant.holds + 1;
        self.reseat(f, Tenant { holds, ..tenant });
        Hold::of(f)
    }

    /// Spends a hold, which was given for a frame of this table.
    pub fn release(&mut self, hold: Hold)
        requires { 0 < holds_of self.old hold }
        ensures { self.new ≡ with_tenant self.old hold (λ t. record t { holds = t.holds - 1 }) }
    {
        let f = hold.spend();
        let tenant = self.tenant(f);
        let holds = tenant.holds - 1;
        self.reseat(f, Tenant { holds, ..tenant });
    }

    /// Pins a frame that is taken. It has fewer than 64 pins.
    pub fn pin(&mut self, f: FrameId)
        requires taken { IsSome (seat_of self.old f.0) }
        requires few { pins_of self.old f.0 < MOST_PINS }
        ensures { self.new ≡ with_tenant self.old f.0 (λ t. record t { pins = t.pins + 1 }) }
    {
        let tenant = self.tenant(f);
        let pins = tenant.pins + 1;
        self.reseat(f, Tenant { pins, ..tenant });
    }

    /// Takes away one pin of a frame, which has one.
    pub fn unpin(&mut self, f: FrameId)
        requires { 0 < pins_of self.old f.0 }
        ensures { self.new ≡ with_tenant self.old f.0 (λ t. record t { pins = t.pins - 1 }) }
    {
        let tenant = self.tenant(f);
        let pins = tenant.pins - 1;
        self.reseat(f, Tenant { pins, ..tenant });
    }

    /// Says whether a transfer of a frame is queued. Of a free frame none is.
    pub fn set_transfer(&mut self, f: FrameId, on: bool)
        requires { f.0 < length self.old.seats }
        ensures { self.new ≡ with_tenant self.old f.0 (λ t. record t { in_transfer = on }) }
    {
        if let Some(tenant) = self.seats[f.0 as usize] {
            self.reseat(
                f,
                Tenant {
                    in_transfer: on,
                    ..tenant
                },
            );
        }
    }

    /// The words of a frame that is held.
    pub fn words(&self, hold: &Hold) -> &[u64; PAGE_WORDS]
        requires { 0 < holds_of self.now hold.now }
        ensures { result.now ≡ words_of self.now hold.now }
    {
        &self.pages[hold.frame().0 as usize]
    }

    /// The words of a frame that is held, to be changed in place. All else stays.
    pub fn words_mut(&mut self, hold: &Hold) -> &mut [u64; PAGE_WORDS]
        requires { 0 < holds_of self.old hold.now }
        ensures* writes_back { sem 𝓛 (Lends the_row (Array number PAGE_WORDS) self.entry result (with_words self.old hold.now)) }
        ensures words { result.now ≡ words_of self.old hold.now }
    {
        &mut self.pages[hold.frame().0 as usize]
    }

    /// Puts a word at an offset, 0 to 511, of a frame that is taken. All else stays.
    #[inline(always)]
    pub fn put(&mut self, f: FrameId, at: u16, word: u64)
        requires taken { IsSome (seat_of self.old f.0) }
        requires at { at < PAGE_WORDS }
        ensures { self.new ≡ with_words self.old f.0 (slice_set (words_of self.old f.0) at word) }
    {
        let page = &mut self.pages[f.0 as usize];
        page[at as usize] = word;
    }

    /// The frame whose page goes next: of those that are taken, and neither held nor in transfer, the
    /// one of least age, then least number. None exactly where every frame is held, free or in
    /// transfer. After `look_for_victim` it is mostly at hand; else it may be looked for among all frames.
    pub fn victim(&self) -> Option<FrameId>
        ensures { MatchOption result ((f : ℕ) → can_leave self.now f ≡ false) (λ f. IsVictim self.now f.0) }
    {
        first_to_go(&self.reached, &self.seats)
    }

    /// Looks for the victim, so that `victim` has it at hand: a few steps for each frame that was used since it was
    /// last looked at here, so that a use itself is no more than its number. Nothing changes.
    pub fn look_for_victim(&mut self)
        ensures { self.new ≡ self.old }
    {
        note_oldest(&mut self.reached, &self.seats);
    }

    // The free frame of least number. None exactly where all are taken.
    fn least_free(&self) -> Option<FrameId>
        ensures frame { MatchOption result (AreAllTaken self.now) (λ f. IsLeastFree self.now f.0) }
        ensures whole { IsCore self.now }
    {
        let f = self.taken.least_absent(0)?;
        Some(FrameId(f as u32))
    }

    /// Gives the free frame of least number to the page of a home below 16,384, which is in no frame. The
    /// words of the frame stay as they were. None exactly where no frame is free, and then all stays.
    pub fn assign(&mut self, home: Home) -> Option<FrameId>
        requires home { home.0 < MOST_HOMES }
        requires away { IsAway self.old home }
        ensures frame { MatchOption result (AreAllTaken self.old) (λ f. IsLeastFree self.old f.0) }
        ensures full { result ≡ None → self.new ≡ self.old }
        ensures assigned { IfSome result (λ f. self.new ≡ with_page self.old f.0 home) }
        ensures whole { IsCore self.old }
    {
        let f = self.least_free()?;
        self.seat(f, home);
        Some(f)
    }

    // Gives a free frame to the page of a home.
    fn seat(&mut self, f: FrameId, home: Home)
        requires home { home.0 < MOST_HOMES }
        requires away { IsAway self.old home }
        requires free { IsLeastFree self.old f.0 }
        ensures { self.new ≡ with_page self.old f.0 home }
    {
        let tenant = Tenant::new(home, self.uses);
        self.seats[f.0 as usize] = Some(tenant);
        note_age(&mut self.reached, &self.seats, f);
        self.taken.insert(f.0 as usize);
        self.homes.insert(home.0 as usize, f);
        self.free -= 1;
        self.uses = self.uses.saturating_add(1);
    }

    /// Makes a frame free that is not held. Its words stay. A free frame stays free.
    pub fn free(&mut self, f: FrameId)
        requires below { f.0 < length self.old.seats }
        requires let_go { is_held self.old f.0 ≡ false }
        ensures { self.new ≡ without_page self.old f.0 }
    {
        if let Some(tenant) = self.seats[f.0 as usize] {
            self.vacate(f, tenant.home);
        }
    }

    // Makes a frame free that is taken.
    fn vacate(&mut self, f: FrameId, home: Home)
        requires { home_in self.old f.0 ≡ Some home }
        ensures { self.new ≡ without_page self.old f.0 }
    {
        self.seats[f.0 as usize] = None;
        self.taken.remove(f.0 as usize);
        self.homes.remove(home.0 as usize);
        self.free += 1;
    }

    /// A use of a frame: its age is the number of this use. At the end of their type the numbers
    /// stand still. A free frame has no age. Answers whether a transfer of the frame is queued.
    #[inline(always)]
    pub fn touch_age(&mut self, f: FrameId) -> bool
        requires { f.0 < length self.old.seats }
        ensures used { self.new ≡ used self.old f.0 }
        ensures moving { result ≡ is_moving self.old f.0 }
        ensures whole { IsCore self.old }
    {
        let Some(tenant) = &mut self.seats[f.0 as usize] else {
            return false;
        };
        let is_moving = tenant.is_moving();
        tenant.age = self.uses;
        self.uses = self.uses.saturating_add(1);
        is_moving
    }
}
