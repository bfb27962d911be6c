// Values under numbers.
ghost use Rattle.std.specs.Prelude.{◌≡◌, ℕ, ◌<◌, ◌≤◌, None, IfOk, MatchOption};
ghost use Rattle.std.specs.Ordering.{nat_cmp};
ghost use Rattle.std.specs.FinMap as map;
ghost use Rattle.number_map.specs.Numbers.{AreTaken, IsLeastFree};

use number_set::NumberSet;
use outside::Memory;
use std::alloc::Global;
use std::marker::Model;

/// At most one value under each number below N: a finite map from these numbers.
#[derive(Drop)]
pub struct NumberMap<V: Copy, const N: usize> {
    places: Vec<Option<V>>,
    // The numbers that have a value.
    taken: NumberSet,
}

impl<V: Copy, const N: usize> Model for NumberMap<V, N> {
    ghost use Rattle.std.specs.Prelude.{◌≡◌};
    ghost use Rattle.std.specs.Ordering.{nat_cmp};
    ghost use Rattle.std.specs.Coded.{coded_ℕ};
    ghost use Rattle.std.specs.FinMap as map;
    ghost use Rattle.number_map.specs.Numbers.{AreKept, held};

    ghost Value = { map.FinMap nat_cmp V };

    ghost coded = { map.code coded_ℕ V.code };

    ghost view = { λ t. held 0 t.places.items };

    ghost invariant = { λ t. AreKept t.places.items t.taken N };
}

impl<V: Copy, const N: usize> NumberMap<V, N> {
    /// No number has a value.
    pub fn boot(alloc: Global) -> Result<Self, Memory>
        ensures { IfOk result (λ m. m ≡ map.empty) }
    {
        Ok(NumberMap {
            places: vec![in alloc; None; N]?,
            taken: NumberSet::boot(alloc, N)?,
        })
    }

    /// The value under a number. None exactly where it has none, as beyond the bound.
    pub fn get(&self, n: usize) -> Option<V>
        ensures found { result ≡ map.get self.now n }
        ensures bounded { (k : ℕ) → N ≤ k → map.get self.now k ≡ None }
    {
        if n < N { self.places[n] } else { None }
    }

    /// Puts a value under a number, and answers the old one.
    pub fn insert(&mut self, n: usize, value: V) -> Option<V>
        requires { n < N }
        ensures put { self.new ≡ map.insert self.old n value }
        ensures replaced { result ≡ map.get self.old n }
    {
        self.taken.insert(n);
        self.places[n].replace(value)
    }

    /// Takes away the value under a number, and answers it.
    pub fn remove(&mut self, n: usize) -> Option<V>
        ensures gone { self.new ≡ map.remove self.old n }
        ensures taken { result ≡ map.get self.old n }
    {
        if n < N {
            self.taken.remove(n);
            self.places[n].take()
        } else {
            None
        }
    }

    /// The least number from one on that has no value. None exactly where there is none below the
    /// bound.
    pub fn first_free(&self, from: usize) -> Option<usize>
        ensures least { MatchOption result (AreTaken self.now from N) (λ n. (n < N) × IsLeastFree self.now from n) }
    {
        self.taken.least_absent(from)
    }
}
