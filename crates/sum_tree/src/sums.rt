// Counts and the sums of each two of them above (Fenwick, 1994, has them in one row).
ghost use Rattle.std.specs.Prelude.{◌≡◌, ◌+◌, ◌-◌, ◌<◌, ◌≤◌, ◌^◌, IfOk, length, replicate, slice_index, slice_set};
ghost use Rattle.sum_tree.specs.Sums.{first_counts};

use outside::Memory;
use std::alloc::Global;
use std::marker::Model;

/// Counts of the numbers below a bound. The sum of each two neighbours stands in a level above them, and so on, up to a
/// level of one sum.
#[derive(Drop)]
pub struct Sums {
    counts: Vec<u64>,
    // The level above. None where there is one count at most.
    above: Option<Box<Sums>>,
}

impl Model for Sums {
    ghost use Rattle.std.specs.Prelude.{ℕ, ◌≤◌, List, MatchOption, length};
    ghost use Rattle.sum_tree.specs.Sums.{AreSumsAbove};

    ghost Value = { List ℕ };

    ghost view = { λ t. t.counts.items };

    ghost invariant = { λ t. MatchOption t.above (length t.counts.items ≤ 1) (λ u. AreSumsAbove t.counts.items u.value) };

    ghost size = { length };

    ghost use Rattle.std.proofs.Common.{arith};

    ghost size_decreases = { λ t h. Prim.grind arith };
}

impl Sums {
    // All counts are 0. Memory where there is none for so many.
    pub fn boot(alloc: Global, bound: usize) -> Result<Self, Memory>
        ensures { IfOk result (λ t. t ≡ replicate bound 0) }
    {
        let counts = vec![in alloc; 0; bound]?;
        if bound <= 1 {
            return Ok(Sums {
                counts,
                above: None,
            });
        }
        match Box::new(alloc, Sums::boot(alloc, bound.div_ceil(2))?) {
            Ok(above) => Ok(Sums {
                counts,
                above: Some(above),
            }),
            Err(_) => Err(Memory),
        }
    }

    // One more at a number.
    pub fn add_one(&mut self, n: usize)
        requires within { n < length self.old }
        requires few { first_counts (slice_index self.old) (length self.old) + 1 < 2 ^ 64 }
        ensures { self.new ≡ slice_set self.old n (slice_index self.old n + 1) }
    {
        self.counts[n] += 1;
        if let Some(above) = &mut self.above {
            above.add_one(n / 2);
        }
    }

    // One less at a number.
    pub fn take_one(&mut self, n: usize)
        requires within { n < length self.old }
        requires some { 1 ≤ slice_index self.old n }
        ensures { self.new ≡ slice_set self.old n (slice_index self.old n - 1) }
    {
        self.counts[n] -= 1;
        if let Some(above) = &mut self.above {
            above.take_one(n / 2);
        }
    }

    // The sum of the counts below a number.
    pub fn below(&self, n: usize) -> u64
        requires within { n ≤ length self.now }
        requires few { first_counts (slice_index self.now) (length self.now) < 2 ^ 64 }
        ensures { result ≡ first_counts (slice_index self.now) n }
    {
        let odd = if n % 2 == 1 { self.counts[n - 1] } else { 0 };
        match &self.above {
            Some(above) => above.below(n / 2) + odd,
            None => odd,
        }
    }
}
