// The pages that were referred to last, in the order of the last references to them.
ghost use Rattle.std.specs.Prelude.{◌≡◌, ◌+◌, ◌-◌, ◌*◌, ◌<◌, ◌≤◌, ◌^◌, ◌&&◌, [], true, false, IfOk, MatchOption, length, slice_set};
ghost use Rattle.std.specs.List.{insert};
ghost use Rattle.sum_tree.specs.Marks.{marks_below};
ghost use Rattle.page_study.specs.Memories.{is_page};
ghost use Rattle.page_study.specs.Seats.{AreMoving, IsCut, IsLinked, IsNowhere, IsSeatOf, IsTidy, Refers, TakesOut, is_taken, page_of, uses_of};

use crate::seats::{Found, LastUse, Seat, bucket_of, is_same};
use machine_names::{PageName, Tty};
use outside::Memory;
use std::alloc::Global;
use sum_tree::SumTree;

/// The pages that were referred to last, each once. Each has a seat, before those of the pages that were referred to earlier,
/// and a tree of sums counts the seats that are taken before one. A reference takes the next free seat, and leaves the page's
/// earlier one. Where no seat is left, the pages are seated anew, in their order.
#[derive(Drop)]
pub struct LatestPages {
    seats: Vec<Seat>,
    // Which seats are taken.
    taken: SumTree,
    // The first seat of each bucket; the end where there is none.
    heads: Vec<usize>,
    // Each seat below this one is free.
    next: usize,
    // How many pages are seated anew at most.
    room: usize,
}

impl LatestPages {
    /// No page, with seats for twice as many as are to be known.
    pub fn boot(alloc: Global, room: usize) -> Result<LatestPages, Memory>
        requires { (1 ≤ room) × (room < 2 ^ 31) }
        ensures room { IfOk result (λ s. s.room ≡ room) }
        ensures tidy { IfOk result (λ s. IsTidy s) }
        ensures empty { IfOk result (λ s. uses_of s ≡ []) }
    {
        let end = 2 * room;
        let nobody = PageName {
            tty: Tty::CONSOLE,
            serial: 0,
        };
        let free = Seat {
            last: LastUse {
                page: nobody,
                number: 0,
            },
            behind: end,
        };
        Ok(LatestPages {
            seats: vec![in alloc; free; end]?,
            taken: SumTree::boot(alloc, end)?,
            heads: vec![in alloc; end; end]?,
            next: end,
            room,
        })
    }

    /// Takes a reference more, to a page that is the latest one then. Where it was found before, if it is still known.
    pub fn refer(&mut self, last: LastUse) -> Option<Found>
        requires { IsTidy self.old }
        ensures tidy { IsTidy self.new }
        ensures room { self.new.room ≡ self.old.room }
        ensures used { Refers self.old.room (uses_of self.old) last (uses_of self.new) result }
    {
        self.make_room();
        let found = self.take_out(last.page);
        self.put(last);
        found
    }

    // Sees that a seat is free before all that are taken.
    fn make_room(&mut self)
        requires { IsTidy self.old }
        ensures tidy { IsTidy self.new }
        ensures room { self.new.room ≡ self.old.room }
        ensures some { 1 ≤ self.new.next }
        ensures cut { IsCut self.old.room (uses_of self.old) (uses_of self.new) }
    {
        if self.next == 0 {
            self.seat_anew();
        }
    }

    // Seats the latest pages on the last seats.
    fn seat_anew(&mut self)
        requires { IsTidy self.old }
        ensures tidy { IsTidy self.new }
        ensures room { self.new.room ≡ self.old.room }
        ensures some { 1 ≤ self.new.next }
        ensures cut { IsCut self.old.room (uses_of self.old) (uses_of self.new) }
    {
        let end = self.seats.len();
        self.heads.fill(end);
        self.next = end;
        for at in (0..end).rev() {
            self.move_up(at);
        }
    }

    // Moves the page of a seat, where one has it, up to the last one that is free; or takes it away, where there are enough others before it.
    fn move_up(&mut self, at: usize)
        requires { AreMoving self.old (at + 1) }
        ensures moving { AreMoving self.new at }
        ensures cut { IsCut self.old.room (uses_of self.old) (uses_of self.new) }
        ensures room { self.new.room ≡ self.old.room }
        ensures seats { length self.new.seats.items ≡ length self.old.seats.items }
    {
        if !self.taken.is_marked(at) {
            return;
        }
        let last = self.seats[at].last;
        let distance = self.taken.below(at);
        self.taken.clear(at);
        if distance < self.room as u64 {
            self.put(last);
        }
    }

    // Takes a page away, where it has a seat.
    fn take_out(&mut self, page: PageName) -> Option<Found>
        requires { IsTidy self.old }
        ensures tidy { IsTidy self.new }
        ensures room { self.new.room ≡ self.old.room }
        ensures next { self.new.next ≡ self.old.next }
        ensures used { TakesOut (uses_of self.old) page (uses_of self.new) result }
    {
        let at = self.seat_of(page)?;
        self.taken.clear(at);
        Some(Found {
            distance: self.taken.below(at),
            number: self.seats[at].last.number,
        })
    }

    // The seat that a page has.
    fn seat_of(&self, page: PageName) -> Option<usize>
        requires { IsTidy self.now }
        ensures { MatchOption result (IsNowhere self.now page) (λ at. IsSeatOf self.now page at) }
    {
        let mut at = self.heads[bucket_of(page, self.heads.len())];
        while at < self.seats.len() {
            if self.holds(at, page) {
                return Some(at);
            }
            at = self.seats[at].behind;
        }
        None
    }

    // Whether a page has this seat.
    fn holds(&self, at: usize, page: PageName) -> bool
        requires seats { at < length self.now.seats.items }
        requires marks { at < length self.now.taken }
        ensures { result ≡ (is_taken self.now.taken at && is_page page (page_of self.now.seats.items at)) }
    {
        self.taken.is_marked(at) && is_same(page, self.seats[at].last.page)
    }

    // Gives a page the next free seat.
    fn put(&mut self, last: LastUse)
        requires linked { IsLinked self.old }
        requires some { 1 ≤ self.old.next }
        requires free { is_taken self.old.taken (self.old.next - 1) ≡ false }
        ensures linked { IsLinked self.new }
        ensures room { self.new.room ≡ self.old.room }
        ensures seats { length self.new.seats.items ≡ length self.old.seats.items }
        ensures next { self.new.next + 1 ≡ self.old.next }
        ensures taken { self.new.taken ≡ slice_set self.old.taken self.new.next true }
        ensures used { uses_of self.new ≡ insert (uses_of self.old) (marks_below self.old.taken self.new.next) last }
    {
        let bucket = bucket_of(last.page, self.heads.len());
        self.next -= 1;
        self.seats[self.next] = Seat {
            last,
            behind: self.heads[bucket],
        };
        self.heads[bucket] = self.next;
        self.taken.set(self.next);
    }
}
