// The schedule.
ghost use Rattle.std.specs.Prelude.{◌≡◌, ℕ, ◌+◌, ◌-◌, ◌*◌, ◌/◌, ◌<◌, ◌≤◌, ◌↔◌, ◌==◌, ◌⊎◌, List, [], ◌∷◌, length, map, slice_get, Bool, true, false, Some, None, IfOk, IsTrue, MatchOption, if◌then◌else◌, min};
ghost use Rattle.std.specs.Option.{option_map};
ghost use Rattle.std.specs.List.{find};
ghost use Rattle.machine_names.specs.declared.names.ForkName.{ForkName as AForkName};
ghost use Rattle.machine_names.specs.Bounds.{IsForkName};
ghost use Rattle.job_sched.specs.Schedules.{stands, wait_at, admitted, arrived, count, empty, ends_wait, first_seated, has_seat, is_member, is_waiter, left, looked_at, members, one_admitted, quantum_ended, rotated, sent_out, size, started, stopped, waited, woken};
ghost use Rattle.job_sched.specs.Places.{AreNamed, IsPlaceOf, is_at, name_index};
ghost use Rattle.job_sched.specs.Rows.{number};
ghost use Rattle.job_sched.specs.Units.{IsAlone, IsRow, row_ran};
ghost use Rattle.job_sched.specs.Lines.{line};
ghost use Rattle.job_sched.specs.Ties.{AreListed, IsFilled, IsSound, with_fork, without_fork};
ghost use Rattle.job_sched.specs.Turns.{Deed, StaysInLine, StaysReady, choices, is_chosen};

use crate::member::Waiter;
use crate::rows::{Row, Rows, rising};
use frame_order::FrameOrder;
use machine_names::{ForkName, LAST_SERIAL, MOST_FORKS, QUANTUM, TERMINALS, Tty};
use outside::Memory;
use page_contracts::Need;
use std::alloc::Global;
use std::marker::Model;

// A place for each fork that may live.
const PLACES: u32 = TERMINALS as u32 * MOST_FORKS as u32;

// How many names forks may have.
const NAMES: usize = TERMINALS as usize * (LAST_SERIAL as usize + 1);

// What stands at a place before a fork has it.
const NOBODY: Waiter = Waiter {
    fork: ForkName {
        tty: Tty(0),
        serial: 0,
    },
    seat: 0,
    need: Need::Frame,
};

/// The ready list, the outside list, and the balance set with its page waits.
#[derive(Drop)]
pub struct Sched {
    /// The places of the forks, in rows.
    rows: Rows,
    /// The numbers of the set that no member has.
    spare: FrameOrder,
    /// At each place, the fork, its number in the set and what it waits for, as far as it has these.
    spots: Vec<Waiter>,
    /// The place that the fork of each name has, if it has one.
    places: Vec<u16>,
    /// The place of the member that has each number, if one has it.
    seated: Vec<u16>,
    /// How many units of its quantum the head has run.
    used: u32,
}

impl Model for Sched {
    ghost use Rattle.job_sched.specs.Schedules.{Schedule};
    ghost use Rattle.job_sched.specs.Places.{IsKept, schedule_of};

    ghost Value = { Schedule };

    ghost view = { λ s. schedule_of s.rows s.spots.items s.spare.order s.used };

    ghost invariant = { λ s. IsKept s.rows s.spare s.spots.items s.places.items s.seated.items s.used };
}

// Where a name stands among those of all terminals.
fn name_index(f: ForkName) -> usize
    ensures { result ≡ name_index f }
{
    usize::from(f.tty.0) * (LAST_SERIAL as usize + 1) + f.serial as usize
}

// The place of a fork. None exactly where it has none.
fn place_of(rows: &Rows, spots: &[Waiter], places: &[u16], f: ForkName) -> Option<u32>
    requires named { AreNamed rows.now spots.now places.now }
    requires name { IsForkName f }
    ensures { IsPlaceOf rows.now spots.now f result }
{
    let place = places[name_index(f)];
    if spots[usize::from(place)].fork == f && rows.row_of(u32::from(place)).has_forks() {
        Some(u32::from(place))
    } else {
        None
    }
}

// The row of a member that waits for something, once this is there: that of the ready ones, if it ends the wait.
fn row_after(done: Need, need: Need) -> Row
    ensures { number result ≡ (if ends_wait done need then 2 else 3) }
{
    match (done, need) {
        (_, Need::Frame) => Row::Ready,
        (Need::Page(home), Need::Page(wanted)) if home.0 == wanted.0 => Row::Ready,
        _ => Row::Waiting,
    }
}

// How many units the head has run, once a place is given up: none, if it is the place of the head.
fn used_after(head: Option<u32>, place: u32, used: u32) -> u32
    ensures { result ≡ (if is_at head place then 0 else used) }
{
    if head == Some(place) { 0 } else { used }
}

impl Sched {
    /// No fork stands anywhere. Memory where there is none for the tables.
    pub fn boot(alloc: Global, set: u32) -> Result<Self, Memory>
        requires first { 1 ≤ set }
        requires last { set ≤ 63 }
        ensures { IfOk result (λ s. s ≡ empty set) }
    {
        let rows = Rows::boot(alloc, PLACES)?;
        let spare = rising(alloc, set)?;
        let spots = vec![in alloc; NOBODY; PLACES as usize]?;
        let places = vec![in alloc; 0; NAMES]?;
        let seated = vec![in alloc; 0; set as usize]?;
        Ok(Sched {
            rows,
            spare,
            spots,
            places,
            seated,
            used: 0,
        })
    }

    /// What is so of every schedule.
    pub fn sound(&self)
        ensures { IsSound self.now }
    {
        let _ = &self.rows;
    }

    /// The head of the ready list. None exactly where the list is empty. Whoever stays in it from a place on is chosen
    /// within a quantum for each fork up to itself; so is whoever stays in it or outside, counted through both, while
    /// no fork is in page wait.
    pub fn choose(&self) -> Option<ForkName>
        ensures head { result ≡ option_map (λ m. m.fork) (slice_get self.now.ready 0) }
        ensures some { MatchOption result (self.now.ready ≡ []) (λ f. 0 < length self.now.ready) }
        ensures ready { (f : AForkName) (p : ℕ) (ds : List Deed) → slice_get (map (λ m. m.fork) self.now.ready) p ≡ Some f
            → StaysReady f self.now ds → QUANTUM * (p + 1) ≤ choices self.now ds → is_chosen f self.now ds ≡ true }
        ensures outside { (f : AForkName) (p : ℕ) (ds : List Deed) → slice_get (line self.now) p ≡ Some f
            → StaysInLine f self.now ds → QUANTUM * (p + 1) ≤ choices self.now ds → is_chosen f self.now ds ≡ true }
    {
        let place = self.rows.first(Row::Ready)?;
        Some(self.spots[place as usize].fork)
    }

    // A fork is put last outside. Nothing changes where it stands in a list or in page wait.
    fn wake(&mut self, f: ForkName)
        requires name { IsForkName f }
        requires room { stands f self.old ≡ false → count self.old < TERMINALS * MOST_FORKS }
        ensures { self.new ≡ woken self.old f }
    {
        if place_of(&self.rows, &self.spots, &self.places, f).is_some() {
            return;
        }
        if let Some(place) = self.rows.first(Row::Free) {
            self.spots[place as usize].fork = f;
            self.places[name_index(f)] = place as u16;
            self.rows.put_last(place, Row::Outside);
        }
    }

    // The first fork outside is put last into the ready list, where there are one and a number for it. Says whether
    // that is so.
    fn admit_one(&mut self) -> bool
        ensures admitted { self.new ≡ one_admitted self.old }
        ensures none { result ≡ false → (self.old.outside ≡ []) ⊎ (self.old.spare ≡ []) }
        ensures outside { result ≡ true → 0 < length self.old.outside }
        ensures spare { result ≡ true → 0 < length self.old.spare }
    {
        let Some(seat) = self.spare.first() else {
            return false;
        };
        let Some(place) = self.rows.first(Row::Outside) else {
            return false;
        };
        self.spare.remove(seat);
        self.spots[place as usize].seat = seat as u16;
        self.seated[seat as usize] = place as u16;
        self.rows.put_last(place, Row::Ready);
        true
    }

    // While the set has room, the first fork outside is put last into the ready list.
    fn admit(&mut self)
        ensures { self.new ≡ admitted self.old }
    {
        let mut more = true;
        while more {
            more = self.admit_one();
        }
    }

    /// A fork can run now: it is put last outside, unless it stands somewhere, and the set is filled.
    pub fn start(&mut self, f: ForkName)
        requires name { IsForkName f }
        requires room { stands f self.old ≡ false → count self.old < TERMINALS * MOST_FORKS }
        ensures started { self.new ≡ started self.old f }
        ensures listed { (runs : AForkName → Bool) → AreListed runs self.old → AreListed (with_fork runs f) self.new }
        ensures filled { IsFilled self.new }
    {
        self.wake(f);
        self.admit();
    }

    /// A fork can't run any more: it leaves its list, its page wait and the set, if it stands in any, and the set is filled.
    pub fn stop(&mut self, f: ForkName)
        requires { IsForkName f }
        ensures stopped { self.new ≡ stopped self.old f }
        ensures listed { (runs : AForkName → Bool) → AreListed runs self.old → AreListed (without_fork runs f) self.new }
        ensures filled { IsFilled self.new }
    {
        self.leave(f);
        self.admit();
    }

    /// Whether a fork is ready, and no other is ready or outside.
    pub fn is_alone(&self) -> bool
        ensures { IsTrue result ↔ IsAlone self.now }
    {
        self.rows.is_single(Row::Ready) && self.rows.first(Row::Outside).is_none()
    }

    /// How many units the head has left of its quantum, 1 to 200.
    pub fn quantum_left(&self) -> u32
        ensures left { result ≡ QUANTUM - self.now.used }
        ensures some { 1 ≤ result }
    {
        QUANTUM - self.used
    }

    /// How many units the head may run in a row, where so many are left to run: all where it is alone, and else those
    /// that are left of its quantum at most.
    pub fn most_in_row(&self, left: u32) -> u32
        requires { 0 < length self.now.ready }
        ensures alone { IsAlone self.now → result ≡ left }
        ensures quantum { (IsAlone self.now → ⊥) → result ≡ min left (QUANTUM - self.now.used) }
        ensures row { IsRow result self.now }
        ensures most { result ≤ left }
        ensures some { 1 ≤ left → 1 ≤ result }
    {
        if self.is_alone() {
            left
        } else {
            left.min(self.quantum_left())
        }
    }

    // So many units of a head that is alone are over, and the quanta that end by them: it goes behind nobody.
    fn ran_alone(&mut self, n: u32)
        requires { IsAlone self.old }
        ensures { self.new ≡ row_ran n self.old }
    {
        self.used = (self.used + n % QUANTUM) % QUANTUM;
    }

    // So many units within the quantum of the head are over, and its quantum where they use it.
    fn ran_in_quantum(&mut self, n: u32)
        requires head { 0 < length self.old.ready }
        requires within { self.old.used + n ≤ QUANTUM }
        ensures { self.new ≡ row_ran n self.old }
    {
        if self.used + n == QUANTUM {
            self.quantum_end();
        } else {
            self.used += n;
        }
    }

    /// A row of so many units of the head is over, and each quantum that it uses ends. How many quanta these are.
    pub fn ran_row(&mut self, n: u32) -> u32
        requires { IsRow n self.old }
        ensures ran { self.new ≡ row_ran n self.old }
        ensures ended { result ≡ (self.old.used + n) / QUANTUM }
        ensures listed { (runs : AForkName → Bool) → AreListed runs self.old → AreListed runs self.new }
        ensures filled { IsFilled self.old → IsFilled self.new }
    {
        let ended = n / QUANTUM + (self.used + n % QUANTUM) / QUANTUM;
        if self.is_alone() {
            self.ran_alone(n);
        } else {
            self.ran_in_quantum(n);
        }
        ended
    }

    // The head is put last into the ready list.
    fn rotate(&mut self)
        ensures { self.new ≡ rotated self.old.ready self.old }
    {
        if let Some(place) = self.rows.first(Row::Ready) {
            self.rows.put_last(place, Row::Ready);
            self.used = 0;
        }
    }

    // The head leaves the set and is put last outside.
    fn send_out(&mut self)
        ensures { self.new ≡ sent_out self.old.ready self.old }
    {
        if let Some(place) = self.rows.first(Row::Ready) {
            self.spare.push(u32::from(self.spots[place as usize].seat));
            self.rows.put_last(place, Row::Outside);
            self.used = 0;
        }
    }

    // The head's quantum ends. With nobody outside it is put last into the ready list. Else it leaves the set and is
    // put last outside, and the first fork outside is admitted.
    fn quantum_end(&mut self)
        requires { 0 < length self.old.ready }
        ensures { self.new ≡ quantum_ended self.old }
    {
        if self.rows.first(Row::Outside).is_none() {
            self.rotate();
        } else {
            self.send_out();
            self.admit_one();
        }
    }

    /// The head waits for something, and stays in the set.
    pub fn wait(&mut self, f: ForkName, need: Need)
        requires { option_map (λ m. m.fork) (slice_get self.old.ready 0) ≡ Some f }
        ensures { self.new ≡ waited self.old need }
    {
        if let Some(place) = self.rows.first(Row::Ready) {
            self.spots[place as usize].need = need;
            self.rows.put_last(place, Row::Waiting);
            self.used = 0;
        }
    }

    /// What a fork waits for. None exactly where it isn't in page wait.
    pub fn waits(&self, f: ForkName) -> Option<Need>
        requires { IsForkName f }
        ensures { result ≡ option_map (λ w. w.need) (find (is_waiter f) self.now.waiting) }
    {
        let place = place_of(&self.rows, &self.spots, &self.places, f)?;
        match self.rows.row_of(place) {
            Row::Waiting => Some(self.spots[place as usize].need),
            _ => None,
        }
    }

    // The member that has waited longest is put last into the ready list, where what is there now ends its wait, and
    // else last among those that wait.
    fn look_at_one(&mut self, done: Need)
        ensures { self.new ≡ looked_at self.old.waiting done self.old }
    {
        if let Some(place) = self.rows.first(Row::Waiting) {
            self.rows
                .put_last(place, row_after(done, self.spots[place as usize].need));
        }
    }

    /// Each fork that waits for this page, and each that waits for a frame, is put last into the ready list, in the
    /// order in which they began to wait.
    pub fn arrived(&mut self, done: Need)
        ensures { self.new ≡ arrived self.old done }
    {
        let waiting = self.rows.count(Row::Waiting);
        for _looked_at in 0..waiting {
            self.look_at_one(done);
        }
    }

    // A fork leaves its list, its page wait and the set. Nothing changes where it stands in none.
    fn leave(&mut self, f: ForkName)
        requires { IsForkName f }
        ensures { self.new ≡ left self.old f }
    {
        let Some(place) = place_of(&self.rows, &self.spots, &self.places, f) else {
            return;
        };
        if !self.rows.row_of(place).has_members() {
            self.rows.put_last(place, Row::Free);
            return;
        }
        self.spare.push(u32::from(self.spots[place as usize].seat));
        self.used = used_after(self.rows.first(Row::Ready), place, self.used);
        self.rows.put_last(place, Row::Free);
    }

    /// A fork's number in the balance set, which stays while it is a member. None exactly where it isn't.
    pub fn seat(&self, f: ForkName) -> Option<u16>
        requires { IsForkName f }
        ensures { result ≡ option_map (λ m. m.seat) (find (is_member f) (members self.now)) }
    {
        let place = place_of(&self.rows, &self.spots, &self.places, f)?;
        if self.rows.row_of(place).has_members() {
            Some(self.spots[place as usize].seat)
        } else {
            None
        }
    }

    /// The member that has this number. None exactly where none has it.
    pub fn member(&self, seat: u16) -> Option<ForkName>
        requires { seat < size self.now }
        ensures { result ≡ option_map (λ m. m.fork) (find (has_seat seat) (members self.now)) }
    {
        let place = self.seated[usize::from(seat)];
        let spot = self.spots[usize::from(place)];
        let row = self.rows.row_of(u32::from(place));
        if !row.has_members() {
            return None;
        }
        if spot.seat != seat {
            return None;
        }
        Some(spot.fork)
    }

    /// How many members the set may have.
    pub fn set(&self) -> u16
        ensures { result ≡ size self.now }
    {
        self.seated.len() as u16
    }

    /// What the member that has this number waits for. None exactly where none has it, or it isn't in page wait.
    pub fn waits_at(&self, seat: u16) -> Option<Need>
        requires { seat < size self.now }
        ensures { result ≡ wait_at self.now seat }
    {
        let place = self.seated[usize::from(seat)];
        let spot = self.spots[usize::from(place)];
        let row = self.rows.row_of(u32::from(place));
        if spot.seat != seat {
            return None;
        }
        match row {
            Row::Waiting => Some(spot.need),
            _ => None,
        }
    }
}
