// A word of the machine.
ghost use Rattle.std.specs.Prelude.{◌≡◌, ℕ, ◌%◌, ◌^◌, ◌<◌, ◌≤◌, MatchOption, unsigned_abs};
ghost use Rattle.word36.specs.Words.{left, right, joined, signed, word_of};

use std::marker::Model;

/// A word of 36 bits: a number below 2^36 (PDP-10 handbook, "Number system"). Bit 0 is leftmost.
#[derive(Clone, Copy, PartialEq, Eq)]
pub struct Word {
    bits: u64,
}

impl Model for Word {
    ghost use Rattle.std.specs.Prelude.{ℕ, ◌<◌, ◌^◌};

    ghost Value = { ℕ };

    ghost view = { λ w. w.bits };

    ghost invariant = { λ w. w.bits < 2 ^ 36 };

    ghost inverse = { λ n. record { bits = n } };
}

impl Default for Word {
    /// The word 0, as [`Word::ZERO`].
    #[inline(always)]
    fn default() -> Word
        ensures { result ≡ 0 }
    {
        Word::ZERO
    }
}

impl Word {
    /// All bits are 0.
    pub const ZERO: Word = Word { bits: 0 };

    /// The bits of a word, 2^36 - 1: a number's bits under it are the number modulo 2^36.
    pub const MASK: u64 = 0o777777777777;

    /// The bits of a word but its sign, bit 0: 2^35 - 1, which is also the greatest signed value.
    pub const MAGNITUDE_MASK: u64 = 0o377777777777;

    /// The bits of half a word, 2^18 - 1; an address has as many.
    pub const HALF_MASK: u32 = 0o777777;

    /// The word of a number. None exactly where the number is 2^36 or more.
    #[inline]
    pub fn new(n: u64) -> Option<Word>
        ensures { MatchOption result (2 ^ 36 ≤ n) (λ w. (w ≡ n) × (n < 2 ^ 36)) }
    {
        if n > Word::MASK {
            return None;
        }
        Some(Word { bits: n })
    }

    /// The word of a number modulo 2^36.
    #[inline(always)]
    pub fn wrapped(n: u64) -> Word
        ensures { result ≡ n % 2 ^ 36 }
    {
        Word {
            bits: n & Word::MASK,
        }
    }

    /// The word as a number below 2^36.
    #[inline(always)]
    pub fn value(self) -> u64
        ensures value { result ≡ self }
        ensures below { result < 2 ^ 36 }
    {
        self.bits
    }

    /// The left half, bits 0 to 17, below 2^18.
    #[inline(always)]
    pub fn left(self) -> u32
        ensures value { result ≡ left self }
        ensures below { result < 2 ^ 18 }
    {
        (self.bits >> 18) as u32
    }

    /// The right half, bits 18 to 35, below 2^18.
    #[inline(always)]
    pub fn right(self) -> u32
        ensures value { result ≡ right self }
        ensures below { result < 2 ^ 18 }
    {
        (self.bits & Word::HALF_MASK as u64) as u32
    }

    /// The word with these halves.
    #[inline(always)]
    pub fn join(left: u32, right: u32) -> Word
        requires left { left < 2 ^ 18 }
        requires right { right < 2 ^ 18 }
        ensures { result ≡ joined left right }
    {
        Word {
            bits: (left as u64) << 18 | right as u64,
        }
    }

    /// The signed value, from -2^35 to 2^35 - 1: the number, less 2^36 where bit 0 is 1.
    #[inline(always)]
    pub fn signed(self) -> i64
        ensures value { result ≡ signed self }
        ensures below { unsigned_abs result ≤ 2 ^ 35 }
    {
        (self.bits << 28).cast_signed() >> 28
    }

    /// The word of a signed number modulo 2^36.
    #[inline(always)]
    pub fn from_signed(n: i64) -> Word
        ensures { result ≡ word_of n }
    {
        Word {
            bits: n.cast_unsigned() & Word::MASK,
        }
    }
}
