// For which members pages are held, and seats that they have left.
ghost use Rattle.std.specs.Prelude.{◌≡◌, ◌≢◌, ◌<◌, ℕ, [], false, true, None, Some};
ghost use Rattle.machine_names.specs.declared.names.ForkName.{ForkName as AForkName};
ghost use Rattle.page_contracts.specs.Stores.{StaysQueued, StaysThere};
ghost use Rattle.page_contracts.specs.declared.store.TheConstants.{CONSOLE_HOLDER};
ghost use Rattle.page_waits.specs.Holders.{AreAll, AreAllAt, AreMembers, AreReleased, AreUnheld, fork_at, holder_at};
ghost use Rattle.page_waits.specs.Systems.{StaysState};
ghost use Rattle.page_waits.specs.Waits.{AreOwned, the_lists};

use crate::System;
use fork_lists::ForkLists;
use machine_names::ForkName;

// So many seats the balance set has at most.
const SEATS: usize = 63;

/// The members of the balance set for which pages are held.
#[derive(Drop)]
pub enum Holders {
    Nobody,
    /// By seat.
    Members([Option<ForkName>; 63]),
}

/// For which members pages are held. No seat is looked at where it is known that none are.
pub fn held_members<S: System>(system: &S, lists: &ForkLists, holding: bool) -> Holders
    requires owned { AreOwned S.means the_lists system.now lists.now }
    requires none { holding ≡ false → AreUnheld (S.means.store.holds system.now) }
    ensures all { AreAll result (S.means.store.holds system.now) }
    ensures members { AreMembers result (the_lists.member lists.now) }
    ensures held { (k : ℕ) (f : AForkName) → holder_at result k ≡ Some f → S.means.store.holds system.now k ≢ [] }
{
    if !holding {
        return Holders::Nobody;
    }
    lists.sound();
    let mut forks = [None; SEATS];
    for seat in 0..lists.set() {
        if system.held(seat) > 0 {
            forks[usize::from(seat)] = lists.member(seat);
        }
    }
    Holders::Members(forks)
}

// Whether a fork is the member that has a seat.
fn is_member(lists: &ForkLists, seat: u16, fork: ForkName) -> bool
    requires { seat < the_lists.set lists.now }
    ensures is { result ≡ true → the_lists.member lists.now seat ≡ Some fork }
    ensures not { result ≡ false → the_lists.member lists.now seat ≢ Some fork }
{
    match lists.member(seat) {
        Some(member) => member == fork,
        None => false,
    }
}

// Nothing is held for a seat any more, where its member has left it.
fn release_seat<S: System>(
    system: &mut S,
    lists: &ForkLists,
    forks: &[Option<ForkName>; 63],
    seat: u16,
)
    requires below { seat < the_lists.set lists.now }
    requires members { (k : ℕ) (f : AForkName) → fork_at forks.now k ≡ Some f → k < the_lists.set lists.now }
    requires all { AreAllAt (fork_at forks.now) (S.means.store.holds system.old) }
    requires seat { seat ≢ CONSOLE_HOLDER }
    ensures own { the_lists.member lists.now seat ≢ fork_at forks.now seat → S.means.store.holds system.new seat ≡ [] }
    ensures others { (k : ℕ) → k ≢ seat → S.means.store.holds system.new k ≡ S.means.store.holds system.old k }
    ensures stays { the_lists.member lists.now seat ≡ fork_at forks.now seat → S.means.store.holds system.new seat ≡ S.means.store.holds system.old seat }
    ensures less { S.means.store.holds system.old seat ≡ [] → S.means.store.holds system.new seat ≡ [] }
    ensures there { StaysThere S.means.store system.old system.new }
    ensures queued { StaysQueued S.means.store system.old system.new }
    ensures state { StaysState S.means system.old system.new }
{
    lists.sound();
    if let Some(fork) = forks[usize::from(seat)] {
        if !is_member(lists, seat, fork) {
            system.let_go(seat);
        }
    }
}

// Nothing is held any more for a seat that its member has left, where pages were held for these at most.
fn release_seats<S: System>(system: &mut S, lists: &ForkLists, forks: &[Option<ForkName>; 63])
    requires members { (k : ℕ) (f : AForkName) → fork_at forks.now k ≡ Some f → k < the_lists.set lists.now }
    requires all { AreAllAt (fork_at forks.now) (S.means.store.holds system.old) }
    ensures released { AreReleased (fork_at forks.now) (the_lists.member lists.now) (S.means.store.holds system.new) }
    ensures stays { (k : ℕ) → the_lists.member lists.now k ≡ fork_at forks.now k → S.means.store.holds system.new k ≡ S.means.store.holds system.old k }
    ensures less { (k : ℕ) → S.means.store.holds system.old k ≡ [] → S.means.store.holds system.new k ≡ [] }
    ensures all { AreAllAt (fork_at forks.now) (S.means.store.holds system.new) }
    ensures there { StaysThere S.means.store system.old system.new }
    ensures queued { StaysQueued S.means.store system.old system.new }
    ensures state { StaysState S.means system.old system.new }
{
    lists.sound();
    for seat in 0..lists.set() {
        release_seat(system, lists, forks, seat);
    }
}

/// Nothing is held any more for a seat that its member has left: it was stopped by another fork, or its quantum has ended.
pub fn release_left<S: System>(system: &mut S, lists: &ForkLists, holders: &Holders)
    requires members { (k : ℕ) (f : AForkName) → holder_at holders.now k ≡ Some f → k < the_lists.set lists.now }
    requires all { AreAll holders.now (S.means.store.holds system.old) }
    ensures released { AreReleased (holder_at holders.now) (the_lists.member lists.now) (S.means.store.holds system.new) }
    ensures stays { (k : ℕ) → the_lists.member lists.now k ≡ holder_at holders.now k → S.means.store.holds system.new k ≡ S.means.store.holds system.old k }
    ensures less { (k : ℕ) → S.means.store.holds system.old k ≡ [] → S.means.store.holds system.new k ≡ [] }
    ensures all { AreAll holders.now (S.means.store.holds system.new) }
    ensures there { StaysThere S.means.store system.old system.new }
    ensures queued { StaysQueued S.means.store system.old system.new }
    ensures state { StaysState S.means system.old system.new }
{
    match holders {
        Holders::Nobody => {}
        Holders::Members(forks) => release_seats(system, lists, forks),
    }
}

// Whether pages are held for a member.
fn is_holding<S: System>(system: &S, lists: &ForkLists) -> bool
    requires owned { AreOwned S.means the_lists system.now lists.now }
    ensures { result ≡ false → AreUnheld (S.means.store.holds system.now) }
{
    lists.sound();
    for seat in 0..lists.set() {
        if system.held(seat) > 0 {
            return true;
        }
    }
    false
}

/// Whether pages may still be held for members, which are these at most.
pub fn still_holding<S: System>(system: &S, lists: &ForkLists, holders: &Holders) -> bool
    requires owned { AreOwned S.means the_lists system.now lists.now }
    requires all { AreAll holders.now (S.means.store.holds system.now) }
    ensures { result ≡ false → AreUnheld (S.means.store.holds system.now) }
{
    match holders {
        Holders::Nobody => false,
        Holders::Members(_) => is_holding(system, lists),
    }
}
