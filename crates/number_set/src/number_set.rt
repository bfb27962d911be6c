// A set of numbers as a tree of words.
ghost use Rattle.std.specs.Prelude.{◌≡◌, ◌<◌, ◌≤◌, IfOk, MatchOption};
ghost use Rattle.std.specs.FinSet as set;
ghost use Rattle.number_set.specs.Numbers.{AreAllThere, IsLeastAbsent};
ghost use Rattle.number_set.specs.Words.{IsFirstClear};

use outside::Memory;
use std::alloc::Global;
use std::marker::Model;

// How many numbers have their bits in one word.
const WORD: usize = u64::BITS as usize;

/// Some of the numbers below a bound. Each number has its bit in a word, and the words that are full
/// are such a set in turn, up to a set of one word. A call takes a step for each of these sets: one
/// for 64 numbers, two for 4,096 and three for 262,144.
#[derive(Drop)]
pub struct NumberSet {
    bound: usize,
    words: Vec<u64>,
    // The words that are full. None where there is one word at most.
    full: Option<Box<NumberSet>>,
}

impl Model for NumberSet {
    ghost use Rattle.std.specs.Prelude.{◌≤◌, MatchOption, length};
    ghost use Rattle.number_set.specs.Numbers.{Numbers, numbers_code};
    ghost use Rattle.number_set.specs.Words.{AreFull, IsRoom, numbers_of};

    ghost Value = { Numbers };

    ghost coded = { numbers_code };

    ghost view = { λ s. numbers_of s.bound s.words.items };

    ghost invariant = { λ s. IsRoom s.bound (length s.words.items)
        × MatchOption s.full (length s.words.items ≤ 1) (λ f. AreFull s.words.items f.value) };

    ghost size = { λ s. s.bound };

    ghost use Rattle.std.proofs.Common.{arith};

    ghost size_decreases = { λ s h. Prim.grind arith };
}

impl NumberSet {
    /// None of the numbers below a bound is there. Memory where there is none for so many.
    pub fn boot(alloc: Global, bound: usize) -> Result<Self, Memory>
        ensures { IfOk result (λ s. s ≡ record { bound = bound; members = set.empty }) }
    {
        let words = vec![in alloc; 0; bound.div_ceil(WORD)]?;
        if words.len() <= 1 {
            return Ok(NumberSet {
                bound,
                words,
                full: None,
            });
        }
        match Box::new(alloc, NumberSet::boot(alloc, words.len())?) {
            Ok(full) => Ok(NumberSet {
                bound,
                words,
                full: Some(full),
            }),
            Err(_) => Err(Memory),
        }
    }

    /// Adds a number, if it isn't there.
    pub fn insert(&mut self, n: usize)
        requires { n < self.old.bound }
        ensures { self.new ≡ record self.old { members = set.insert self.old.members n } }
    {
        let word = self.words[n / WORD] | 1 << (n % WORD);
        self.words[n / WORD] = word;
        if word != u64::MAX {
            return;
        }
        if let Some(full) = &mut self.full {
            full.insert(n / WORD);
        }
    }

    /// Takes a number away, if it is there.
    pub fn remove(&mut self, n: usize)
        requires { n < self.old.bound }
        ensures { self.new ≡ record self.old { members = set.remove self.old.members n } }
    {
        let word = self.words[n / WORD];
        self.words[n / WORD] = word & !(1 << (n % WORD));
        if word != u64::MAX {
            return;
        }
        if let Some(full) = &mut self.full {
            full.remove(n / WORD);
        }
    }

    /// The least number from one on that isn't there. None exactly where each of them below the
    /// bound is.
    pub fn least_absent(&self, from: usize) -> Option<usize>
        ensures { MatchOption result (AreAllThere self.now from) (λ n. IsLeastAbsent self.now from n) }
    {
        let here = from / WORD;
        let clear = first_clear(*self.words.get(here)?, from % WORD);
        if clear < WORD {
            return self.below_bound(WORD * here + clear);
        }
        let Some(full) = &self.full else {
            return None;
        };
        let next = full.least_absent(here + 1)?;
        self.below_bound(WORD * next + first_clear(self.words[next], 0))
    }

    // A number, if it is below the bound.
    fn below_bound(&self, n: usize) -> Option<usize>
        ensures { MatchOption result (self.now.bound ≤ n) (λ m. (m ≡ n) × (n < self.now.bound)) }
    {
        if n < self.bound { Some(n) } else { None }
    }
}

// The first bit of a word, from one on, that isn't set; as many as it has where there is none.
fn first_clear(word: u64, from: usize) -> usize
    requires { from < WORD }
    ensures { IsFirstClear word from result }
{
    let passed = (1 << from) - 1;
    (word | passed).trailing_ones() as usize
}
