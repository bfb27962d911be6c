// What a transfer tells, and who is woken by it.
ghost use Rattle.std.specs.Prelude.{◌≡◌, ◌<◌, ◌==◌, ◌&&◌, ℕ, [], false, nat_lt, if◌then◌else◌, length};
ghost use Rattle.fork_lists.specs.Ties.{AreTied};
ghost use Rattle.page_contracts.specs.Stores.{CanKeep, StaysQueued, StaysThere, most_held as most_held_of};
ghost use Rattle.page_contracts.specs.declared.store.TheConstants.{CONSOLE_HOLDER, MOST_HOLDERS};
ghost use Rattle.page_homes.specs.declared.homes.Home.{Home as AHome};
ghost use Rattle.plain_model.specs.Forks.{ForkMap as AForkMap};
ghost use Rattle.page_waits.specs.Holding.{comes_for, held_more, held_with, room_in};
ghost use Rattle.page_waits.specs.Systems.{StaysState};
ghost use Rattle.page_waits.specs.Told.{AllTold, all_arrived};
ghost use Rattle.page_waits.specs.Waits.{AreAwaited, StaysSeated, awaits, the_lists, waits_with};

use crate::System;
use crate::head::wake;
use fork_lists::ForkLists;
use page_contracts::{CONSOLE_HOLDER, MOST_HELD, MOST_HELD_FOR_CONSOLE, Need};
use page_homes::Home;

/// What was taken from the queue is told to who waits.
pub fn tell<S: System>(system: &mut S, lists: &mut ForkLists)
    requires { AreAwaited S.means (the_lists.waiting lists.old) system.old }
    ensures awaited { AreAwaited S.means (the_lists.waiting lists.new) system.new }
    ensures told { S.means.store.untold system.new ≡ [] }
    ensures state { StaysState S.means system.old system.new }
    ensures each { AllTold lists.old.sched lists.new.sched }
    ensures all { lists.new.sched ≡ all_arrived (S.means.store.untold system.old) lists.old.sched }
    ensures seated { StaysSeated the_lists lists.old lists.new }
    ensures tied { (forks : AForkMap) → AreTied forks lists.old → AreTied forks lists.new }
    ensures holds { S.means.store.holds system.new ≡ S.means.store.holds system.old }
    ensures members { S.means.store.members system.new ≡ S.means.store.members system.old }
    ensures there { StaysThere S.means.store system.old system.new }
    ensures queue { S.means.store.queue system.new ≡ S.means.store.queue system.old }
    ensures none { S.means.store.untold system.old ≡ [] → lists.new ≡ lists.old }
{
    while let Some(need) = system.cancelled() {
        wake(lists, need);
    }
}

// How many frames at most are held for a seat.
fn most_held(seat: u16) -> u32
    ensures { result ≡ most_held_of seat }
{
    if seat == CONSOLE_HOLDER {
        MOST_HELD_FOR_CONSOLE
    } else {
        MOST_HELD
    }
}

// Makes room for one page more that is held for a seat: where as many are as may be, all of them are let go.
fn make_room<S: System>(system: &mut S, seat: u16)
    ensures room { length (S.means.store.holds system.new seat) < most_held_of seat }
    ensures holds { (k : ℕ) → S.means.store.holds system.new k ≡ (if k == seat then room_in (most_held_of seat) (S.means.store.holds system.old k) else S.means.store.holds system.old k) }
    ensures there { StaysThere S.means.store system.old system.new }
    ensures queued { StaysQueued S.means.store system.old system.new }
    ensures state { StaysState S.means system.old system.new }
{
    if system.held(seat) == most_held(seat) {
        system.let_go(seat);
    }
}

// A page that came is held for a seat.
fn hold<S: System>(system: &mut S, seat: u16, home: Home)
    requires holder { seat < MOST_HOLDERS }
    requires can { CanKeep S.means.store system.old seat home.0 }
    requires framed { S.means.store.flat ≡ false }
    ensures holds { (k : ℕ) → S.means.store.holds system.new k ≡ (if k == seat then held_more (most_held_of seat) home.0 (S.means.store.holds system.old k) else S.means.store.holds system.old k) }
    ensures there { StaysThere S.means.store system.old system.new }
    ensures queued { StaysQueued S.means.store system.old system.new }
    ensures state { StaysState S.means system.old system.new }
{
    make_room(system, seat);
    system.keep(seat, home);
}

// Whether a wait is for the page of a home.
fn is_for(waits: Option<Need>, home: Home) -> bool
    ensures { result ≡ awaits home.0 waits }
{
    match waits {
        Some(need) => match need {
            Need::Page(other) => home.0 == other.0,
            Need::Frame => false,
        },
        None => false,
    }
}

// A page that came is held for each seat of the balance set that waits for it.
fn hold_for_seats<S: System>(system: &mut S, lists: &ForkLists, home: Home)
    requires can { (k : ℕ) → k < the_lists.set lists.now → CanKeep S.means.store system.old k home.0 }
    requires framed { S.means.store.flat ≡ false }
    ensures holds { (k : ℕ) → S.means.store.holds system.new k ≡ (if nat_lt k (the_lists.set lists.now) && awaits home.0 (the_lists.waiting lists.now k) then held_more (most_held_of k) home.0 (S.means.store.holds system.old k) else S.means.store.holds system.old k) }
    ensures there { StaysThere S.means.store system.old system.new }
    ensures queued { StaysQueued S.means.store system.old system.new }
    ensures state { StaysState S.means system.old system.new }
{
    lists.sound();
    let set = lists.set();
    for seat in 0..set {
        if is_for(lists.waits_at(seat), home) {
            hold(system, seat, home);
        }
    }
}

// A page that came is held for the console, if that waits for it.
fn hold_for_console<S: System>(system: &mut S, console: Option<Need>, home: Home)
    requires can { CanKeep S.means.store system.old CONSOLE_HOLDER home.0 }
    requires framed { S.means.store.flat ≡ false }
    ensures holds { (k : ℕ) → S.means.store.holds system.new k ≡ (if (k == CONSOLE_HOLDER) && awaits home.0 console then held_more (most_held_of k) home.0 (S.means.store.holds system.old k) else S.means.store.holds system.old k) }
    ensures there { StaysThere S.means.store system.old system.new }
    ensures queued { StaysQueued S.means.store system.old system.new }
    ensures state { StaysState S.means system.old system.new }
{
    if is_for(console, home) {
        hold(system, CONSOLE_HOLDER, home);
    }
}

// A page that came is held for each seat that waits for it, and for the console.
fn hold_for<S: System>(system: &mut S, lists: &ForkLists, console: Option<Need>, home: Home)
    requires can { (k : ℕ) → k < the_lists.set lists.now → CanKeep S.means.store system.old k home.0 }
    requires own { CanKeep S.means.store system.old CONSOLE_HOLDER home.0 }
    requires framed { S.means.store.flat ≡ false }
    ensures holds { (k : ℕ) → S.means.store.holds system.new k ≡ (if awaits home.0 (waits_with console (the_lists.waiting lists.now) k) then held_more (most_held_of k) home.0 (S.means.store.holds system.old k) else S.means.store.holds system.old k) }
    ensures there { StaysThere S.means.store system.old system.new }
    ensures queued { StaysQueued S.means.store system.old system.new }
    ensures state { StaysState S.means system.old system.new }
{
    lists.sound();
    hold_for_seats(system, lists, home);
    hold_for_console(system, console, home);
}

/// What came is held for each seat that waits for it and for the console, if it is a page.
pub fn hold_needed<S: System>(system: &mut S, lists: &ForkLists, console: Option<Need>, done: Need)
    requires can { (home : AHome) (k : ℕ) → done ≡ Need.Page home → k < the_lists.set lists.now → CanKeep S.means.store system.old k home.0 }
    requires own { (home : AHome) → done ≡ Need.Page home → CanKeep S.means.store system.old CONSOLE_HOLDER home.0 }
    requires framed { S.means.store.flat ≡ false }
    ensures holds { (k : ℕ) → S.means.store.holds system.new k ≡ (if comes_for done (waits_with console (the_lists.waiting lists.now) k) then held_with (most_held_of k) done (S.means.store.holds system.old k) else S.means.store.holds system.old k) }
    ensures there { StaysThere S.means.store system.old system.new }
    ensures queued { StaysQueued S.means.store system.old system.new }
    ensures state { StaysState S.means system.old system.new }
{
    match done {
        Need::Page(home) => hold_for(system, lists, console, home),
        Need::Frame => {}
    }
}
