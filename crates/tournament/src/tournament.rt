// A tree of keys, the lesser of each two above them (Knuth, volume 3, section 5.2.3).
ghost use Rattle.std.specs.Prelude.{◌≡◌, ℕ, ◌*◌, ◌+◌, ◌<◌, None, IfOk, MatchOption, length, replicate, slice_index_or, slice_set};
ghost use Rattle.tournament.specs.Keys.{AreAbsent, IsLeast, goes_first, lesser};

use outside::Memory;
use std::alloc::Global;
use std::marker::Model;

/// The keys of the numbers below a bound, where they have one. The lesser key of each two neighbours
/// stands in a round above them, and so on, up to a round of one key. A call takes a step for each
/// round, as many as there are doublings up to the bound.
#[derive(Drop)]
pub struct Tournament {
    keys: Vec<Option<u64>>,
    // The round above. None where there is one key at most.
    next: Option<Box<Tournament>>,
}

impl Model for Tournament {
    ghost use Rattle.std.specs.Prelude.{ℕ, ◌≤◌, List, Option, MatchOption, length};
    ghost use Rattle.tournament.specs.Keys.{IsRoundAbove};

    ghost Value = { List (Option ℕ) };

    ghost view = { λ t. t.keys.items };

    ghost invariant = { λ t. MatchOption t.next (length t.keys.items ≤ 1) (λ u. IsRoundAbove t.keys.items u.value) };

    ghost size = { length };

    ghost use Rattle.std.proofs.Common.{arith};

    ghost size_decreases = { λ t h. Prim.grind arith };
}

impl Tournament {
    /// None of the numbers below a bound has a key. Memory where there is none for so many.
    pub fn boot(alloc: Global, bound: usize) -> Result<Self, Memory>
        ensures { IfOk result (λ t. t ≡ replicate bound None) }
    {
        let keys = vec![in alloc; None; bound]?;
        if bound <= 1 {
            return Ok(Tournament { keys, next: None });
        }
        match Box::new(alloc, Tournament::boot(alloc, bound.div_ceil(2))?) {
            Ok(next) => Ok(Tournament {
                keys,
                next: Some(next),
            }),
            Err(_) => Err(Memory),
        }
    }

    /// Gives a number another key, or none. Where that changes nothing in a round, those above stay.
    pub fn set(&mut self, n: usize, key: Option<u64>)
        requires { n < length self.old }
        ensures { self.new ≡ slice_set self.old n key }
    {
        if self.keys[n] == key {
            return;
        }
        self.keys[n] = key;
        let pair = n / 2;
        let best = lesser(
            key_at(&self.keys, 2 * pair),
            key_at(&self.keys, 2 * pair + 1),
        );
        if let Some(next) = &mut self.next {
            next.set(pair, best);
        }
    }

    /// The key of a number. None where it has none, as beyond the bound.
    pub fn key(&self, n: usize) -> Option<u64>
        ensures { result ≡ slice_index_or self.now n None }
    {
        key_at(&self.keys, n)
    }

    /// The number of the least key, and of those that have it the least number. None exactly where
    /// no number has a key.
    pub fn winner(&self) -> Option<usize>
        ensures { MatchOption result (AreAbsent self.now) (IsLeast self.now) }
    {
        let Some(next) = &self.next else {
            key_at(&self.keys, 0)?;
            return Some(0);
        };
        let pair = next.winner()?;
        let first = goes_first(
            key_at(&self.keys, 2 * pair),
            key_at(&self.keys, 2 * pair + 1),
        );
        Some(if first { 2 * pair } else { 2 * pair + 1 })
    }
}

// The key of a number. None where it has none, as beyond the bound.
fn key_at(keys: &[Option<u64>], n: usize) -> Option<u64>
    ensures { result ≡ slice_index_or keys.now n None }
{
    if n < keys.len() { keys[n] } else { None }
}

// Whether the first of two keys isn't greater than the other. An absent key goes behind each other.
fn goes_first(one: Option<u64>, other: Option<u64>) -> bool
    ensures { result ≡ goes_first one other }
{
    match (one, other) {
        (Some(one), Some(other)) => one <= other,
        (None, Some(_)) => false,
        _ => true,
    }
}

// The lesser of two keys.
fn lesser(one: Option<u64>, other: Option<u64>) -> Option<u64>
    ensures { result ≡ lesser one other }
{
    if goes_first(one, other) { one } else { other }
}
