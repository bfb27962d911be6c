// Marks over a tree of sums.
ghost use Rattle.std.specs.Prelude.{◌≡◌, ◌<◌, ◌≤◌, IfOk, length, replicate, true, false, slice_index_or, slice_set};
ghost use Rattle.sum_tree.specs.Marks.{marks_below};

use crate::sums::Sums;
use outside::Memory;
use std::alloc::Global;
use std::marker::Model;

/// Marks at some of the numbers below a bound. A tree over them has the number of marks in each half, quarter and so on. A
/// call takes a step for each level, as many as there are doublings up to the bound.
#[derive(Drop)]
pub struct SumTree {
    marks: Vec<bool>,
    // 1 at each number with a mark.
    sums: Sums,
}

impl Model for SumTree {
    ghost use Rattle.std.specs.Prelude.{◌≡◌, List, Bool, map};
    ghost use Rattle.sum_tree.specs.Marks.{one_if};

    ghost Value = { List Bool };

    ghost view = { λ t. t.marks.items };

    ghost invariant = { λ t. t.sums ≡ map one_if t.marks.items };
}

impl SumTree {
    /// None of the numbers below a bound has a mark. Memory where there is none for so many.
    pub fn boot(alloc: Global, bound: usize) -> Result<Self, Memory>
        ensures { IfOk result (λ t. t ≡ replicate bound false) }
    {
        Ok(SumTree {
            marks: vec![in alloc; false; bound]?,
            sums: Sums::boot(alloc, bound)?,
        })
    }

    /// Marks a number, if it isn't marked.
    pub fn set(&mut self, n: usize)
        requires { n < length self.old }
        ensures { self.new ≡ slice_set self.old n true }
    {
        if !self.marks[n] {
            self.marks[n] = true;
            self.sums.add_one(n);
        }
    }

    /// Takes the mark of a number away, if it has one.
    pub fn clear(&mut self, n: usize)
        requires { n < length self.old }
        ensures { self.new ≡ slice_set self.old n false }
    {
        if self.marks[n] {
            self.marks[n] = false;
            self.sums.take_one(n);
        }
    }

    /// Whether a number is marked.
    pub fn is_marked(&self, n: usize) -> bool
        requires { n < length self.now }
        ensures { result ≡ slice_index_or self.now n false }
    {
        self.marks[n]
    }

    /// How many numbers below one are marked.
    pub fn below(&self, n: usize) -> u64
        requires { n ≤ length self.now }
        ensures { result ≡ marks_below self.now n }
    {
        self.sums.below(n)
    }
}
