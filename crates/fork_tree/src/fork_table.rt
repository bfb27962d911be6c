// The forks of all jobs, each in its place.
ghost use Rattle.std.specs.Prelude.{◌≡◌, ℕ, ◌+◌, ◌*◌, ◌≤◌, ◌<◌, None, Some, IsSome, IfOk, length, replicate, slice_index_or};
ghost use Rattle.std.specs.Option.{option_copied, option_map};
ghost use Rattle.std.specs.Borrow.{sem};
ghost use Rattle.std.specs.FinMap as map;
ghost use Rattle.plain_model.specs.declared.fork.Fork.{Fork as AFork};
ghost use Rattle.plain_model.specs.Forks.{fork_in};
ghost use Rattle.machine_names.specs.Bounds.{IsForkName, IsTerminal};
ghost use Rattle.plain_model.specs.Trees.{changed, with_mark, free_slot as free_slot_of};
ghost use Rattle.fork_tree.specs.Changes.{body_in};
ghost use Rattle.fork_tree.specs.Lending.{LendsIn, LendsPlace};
ghost use Rattle.fork_tree.specs.Places.{IsPlaceOf, name_index, place_in};
ghost use Rattle.fork_tree.specs.Trees.{AreSlotted, Lives};

use machine_names::{ForkName, LAST_SERIAL, MOST_FORKS, TERMINALS, Tty};
use outside::Memory;
use plain_model::{Body, Fork};
use std::alloc::{AllocError, Global};
use std::marker::Model;

// A place for each slot of a job. That of slot 0 stays free.
const SLOTS: usize = MOST_FORKS as usize + 1;

// A place for each slot of each job.
const PLACES: usize = TERMINALS as usize * SLOTS;

// How many serials a terminal has. No fork has serial 0.
const SERIALS: usize = LAST_SERIAL as usize + 1;

// How many names forks may have.
const NAMES: usize = TERMINALS as usize * SERIALS;

/// The forks that live, thirty places a terminal. A look by slot or by name is one step.
#[derive(Drop)]
pub struct ForkTable {
    /// The fork in each slot of each job.
    places: Vec<Option<Fork>>,
    /// The slot that the fork of each name has, or had.
    slots: Vec<u8>,
    /// Of each job, a slot above which it has no fork.
    lasts: Vec<u8>,
    /// Of each job, a bit for each slot that has a fork, and for slot 0.
    taken: Vec<u32>,
}

impl Model for ForkTable {
    ghost use Rattle.std.specs.FinMap as map;
    ghost use Rattle.machine_names.specs.contracts.names.ForkName.{the_row as name_row};
    ghost use Rattle.plain_model.specs.contracts.fork.Fork.{the_row as fork_row};
    ghost use Rattle.plain_model.specs.Forks.{ForkMap};
    ghost use Rattle.fork_tree.specs.Places.{forks_of, IsWholeTable};

    ghost Value = { ForkMap };

    ghost coded = { map.code name_row.coded fork_row.coded };

    ghost view = { λ t. forks_of t.places.items };

    ghost invariant = { λ t. IsWholeTable t.places.items t.slots.items t.lasts.items t.taken.items };
}

// The place of a slot of a job.
fn place_in(tty: Tty, slot: u8) -> usize
    ensures { result ≡ place_in tty slot }
{
    usize::from(tty.0) * SLOTS + usize::from(slot)
}

// The same where there is such a slot. None exactly where there is none.
fn place_of(tty: Tty, slot: u8) -> Option<usize>
    ensures { IsPlaceOf tty slot result }
{
    if tty.0 < TERMINALS && slot <= MOST_FORKS {
        Some(place_in(tty, slot))
    } else {
        None
    }
}

// Where a name stands among those of all terminals.
fn name_index(name: ForkName) -> usize
    ensures { result ≡ name_index name }
{
    usize::from(name.tty.0) * SERIALS + name.serial as usize
}

// So many places with nothing in them.
fn free_places<T: Copy>(alloc: Global, count: usize) -> Result<Vec<Option<T>>, AllocError>
    ensures { IfOk result (λ places. places.items ≡ replicate count None) }
{
    Ok(vec![in alloc; None; count]?)
}

// The body of the fork in a place, to be changed.
fn body_in(place: &mut Option<Fork>) -> &mut Body
    requires { IsSome place.old }
    ensures* writes_back { sem 𝓛 (LendsPlace place.entry result) }
    ensures body { result.now ≡ body_in place.old }
{
    match place {
        Some(fork) => &mut fork.body,
        None => unreachable!(),
    }
}

// The fork in a place has the freeze mark, or not.
fn mark(place: &mut Option<Fork>, on: bool)
    ensures { place.new ≡ option_map (with_mark on) place.old }
{
    if let Some(fork) = place {
        fork.frozen = on;
    }
}

// The highest slot up to this one in which a job has a fork. 0, where it has none there.
fn last_used(places: &[Option<Fork>], tty: Tty, last: u8) -> u8
    requires { place_in tty last < length places.now }
    ensures upto { result ≤ last }
    ensures none { (slot : ℕ) → result < slot → slot ≤ last → slice_index_or places.now (place_in tty slot) None ≡ None }
{
    for below in (0..last).rev() {
        if places[place_in(tty, below + 1)].is_some() {
            return below + 1;
        }
    }
    0
}

impl ForkTable {
    /// No fork lives.
    pub fn boot(alloc: Global) -> Result<Self, Memory>
        ensures { IfOk result (λ forks. forks ≡ map.empty) }
    {
        let slots = vec![in alloc; 0; NAMES]?;
        let lasts = vec![in alloc; 0; usize::from(TERMINALS)]?;
        let taken = vec![in alloc; 1; usize::from(TERMINALS)]?;
        let places = free_places(alloc, PLACES)?;
        Ok(ForkTable {
            places,
            slots,
            lasts,
            taken,
        })
    }

    /// The fork in a slot of a job. None exactly where none is.
    #[inline]
    pub fn at(&self, tty: Tty, slot: u8) -> Option<&Fork>
        ensures found { option_copied result ≡ fork_in self.now tty slot }
        ensures slotted { AreSlotted self.now }
    {
        match place_of(tty, slot) {
            Some(place) => self.places[place].as_ref(),
            None => None,
        }
    }

    // The slot that the fork of a name has, if it lives.
    #[inline]
    fn slot_of(&self, name: ForkName) -> u8
        ensures slot { (f : AFork) → map.get self.now name ≡ Some f → result ≡ f.slot }
        ensures slotted { AreSlotted self.now }
    {
        if name.tty.0 < TERMINALS && name.serial <= LAST_SERIAL {
            self.slots[name_index(name)]
        } else {
            0
        }
    }

    /// The fork of a name. None exactly where none of that name lives.
    #[inline]
    pub fn fork(&self, name: ForkName) -> Option<&Fork>
        ensures found { option_copied result ≡ map.get self.now name }
        ensures slotted { AreSlotted self.now }
    {
        match self.at(name.tty, self.slot_of(name)) {
            Some(fork) if fork.name == name => Some(fork),
            _ => None,
        }
    }

    /// A slot above which a job has no fork.
    #[inline]
    pub fn last(&self, tty: Tty) -> u8
        requires { IsTerminal tty }
        ensures above { (f : AFork) → Lives self.now f → f.name.tty.0 ≡ tty.0 → f.slot ≤ result }
        ensures most { result ≤ MOST_FORKS }
    {
        self.lasts[usize::from(tty.0)]
    }

    /// The least slot of a job in which no fork is. None exactly where each has one. One step, however many forks there are.
    pub fn free_slot(&self, tty: Tty) -> Option<u8>
        requires { IsTerminal tty }
        ensures { result ≡ free_slot_of self.now tty }
    {
        let slot = self.taken[usize::from(tty.0)].trailing_ones() as u8;
        if slot <= MOST_FORKS { Some(slot) } else { None }
    }

    /// Puts a new fork into a free slot of its job.
    pub fn insert(&mut self, fork: Fork)
        requires named { IsForkName fork.name }
        requires first { 1 ≤ fork.slot }
        requires last { fork.slot ≤ MOST_FORKS }
        requires free { fork_in self.old fork.name.tty fork.slot ≡ None }
        requires absent { map.get self.old fork.name ≡ None }
        ensures { self.new ≡ map.insert self.old fork.name fork }
    {
        let name = fork.name;
        let slot = fork.slot;
        self.places[place_in(name.tty, slot)] = Some(fork);
        self.slots[name_index(name)] = slot;
        let job = usize::from(name.tty.0);
        self.lasts[job] = self.lasts[job].max(slot);
        self.taken[job] |= 1 << slot;
    }

    /// Takes out a fork that lives.
    pub fn remove(&mut self, name: ForkName)
        requires { IsSome (map.get self.old name) }
        ensures { self.new ≡ map.remove self.old name }
    {
        let slot = self.slot_of(name);
        self.places[place_in(name.tty, slot)] = None;
        let job = usize::from(name.tty.0);
        self.lasts[job] = last_used(&self.places, name.tty, self.lasts[job]);
        self.taken[job] &= !(1 << slot);
    }

    /// A fork that lives has the freeze mark, or not.
    pub fn set_mark(&mut self, name: ForkName, on: bool)
        requires { IsSome (map.get self.old name) }
        ensures { self.new ≡ changed self.old (with_mark on) (map.get self.old name) }
    {
        let slot = self.slot_of(name);
        mark(&mut self.places[place_in(name.tty, slot)], on);
    }

    /// The body of the fork in a slot of a job, to be changed in place.
    #[inline]
    pub fn body_at(&mut self, tty: Tty, slot: u8) -> &mut Body
        requires { IsSome (fork_in self.old tty slot) }
        ensures* writes_back { sem 𝓛 (LendsIn self.entry tty slot result) }
        ensures body { result.now ≡ body_in (fork_in self.old tty slot) }
    {
        let place = place_in(tty, slot);
        body_in(&mut self.places[place])
    }
}
