// Half a word.
ghost use Rattle.std.specs.Prelude.{◌≡◌, ◌^◌, ◌<◌, ◌≤◌, MatchOption};

use std::marker::Model;

/// Half a word, as an address is: a number below 2^18.
#[derive(Clone, Copy, PartialEq, Eq)]
pub struct Half {
    bits: u32,
}

impl Model for Half {
    ghost use Rattle.std.specs.Prelude.{ℕ, ◌<◌, ◌^◌};

    ghost Value = { ℕ };

    ghost view = { λ h. h.bits };

    ghost invariant = { λ h. h.bits < 2 ^ 18 };

    ghost inverse = { λ n. record { bits = n } };
}

impl Half {
    /// All bits are 0.
    pub const ZERO: Half = Half { bits: 0 };

    /// The greatest half, 2^18 - 1.
    pub const GREATEST: u32 = 0o777777;

    /// The half of a number. None exactly where the number is 2^18 or more.
    pub fn new(n: u32) -> Option<Half>
        ensures { MatchOption result (2 ^ 18 ≤ n) (λ h. (h ≡ n) × (n < 2 ^ 18)) }
    {
        if n > Half::GREATEST {
            return None;
        }
        Some(Half { bits: n })
    }

    /// The half as a number below 2^18.
    pub fn value(self) -> u32
        ensures value { result ≡ self }
        ensures below { result < 2 ^ 18 }
    {
        self.bits
    }
}
