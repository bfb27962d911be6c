// Bytes to be read.
ghost use Rattle.std.specs.Prelude.{◌≡◌, ◌<◌, ◌≤◌, ℕ, List, Option, length, take, IfOk, OnOk, OnErr};
ghost use Rattle.outside.specs.Faults.{Rose};
ghost use Rattle.outside.specs.Told.{Loses, EndsOnly, Stays};

use crate::Failed;

/// Bytes in order, read in pieces.
pub trait Source {
    /// How often a call has failed.
    ghost fault_count: { Self → ℕ };

    /// The bytes not yet read, where the source tells them.
    ghost left: { Self → Option (List ℕ) };

    /// How often a call has failed. At 2^64 - 1 it stays there.
    fn faults(&self) -> u64
        ensures { result ≡ fault_count self.now };

    /// Fills the front of a piece that isn't empty, and answers how many bytes were filled; 0 is the
    /// end of input. Fails exactly where the count of faults rises, and then takes nothing from what is left.
    fn read(&mut self, piece: &mut [u8]) -> Result<usize, Failed>
        requires { 0 < length piece.old }
        ensures later { fault_count self.old ≤ fault_count self.new }
        ensures cause { OnErr result (Rose (fault_count self.old) (fault_count self.new)) }
        ensures unfaulted { OnOk result (fault_count self.new ≡ fault_count self.old) }
        ensures bound { IfOk result (λ n. n ≤ length piece.old) }
        ensures bytes { IfOk result (λ n. Loses (left self.old) (left self.new) (take n piece.new)) }
        ensures end { IfOk result (λ n. EndsOnly (left self.old) n) }
        ensures err { OnErr result (Stays (left self.old) (left self.new)) };
}
