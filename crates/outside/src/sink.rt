// Bytes to be written.
ghost use Rattle.std.specs.Prelude.{◌≡◌, ◌<◌, ◌≤◌, ℕ, List, Option, length, take, IfOk, OnOk, OnErr};
ghost use Rattle.outside.specs.Faults.{Rose};
ghost use Rattle.outside.specs.Told.{Grows, Stays};

use crate::Failed;

/// Takes bytes in order, in pieces. It may keep them until it is flushed.
pub trait Sink {
    /// How often a call has failed.
    ghost fault_count: { Self → ℕ };

    /// The bytes taken so far, where the sink tells them.
    ghost taken: { Self → Option (List ℕ) };

    /// It keeps nothing back: all that it has taken is handed on.
    ghost handed_on: { Self → Type 0 };

    /// How often a call has failed. At 2^64 - 1 it stays there.
    fn faults(&self) -> u64
        ensures { result ≡ fault_count self.now };

    /// Takes bytes from the front of a piece and answers how many: of a piece that isn't empty at least
    /// one. Fails exactly where the count of faults rises, and then takes nothing.
    fn write(&mut self, piece: &[u8]) -> Result<usize, Failed>
        ensures later { fault_count self.old ≤ fault_count self.new }
        ensures cause { OnErr result (Rose (fault_count self.old) (fault_count self.new)) }
        ensures unfaulted { OnOk result (fault_count self.new ≡ fault_count self.old) }
        ensures some { 0 < length piece.now → IfOk result (λ n. 0 < n) }
        ensures bound { IfOk result (λ n. n ≤ length piece.now) }
        ensures bytes { IfOk result (λ n. Grows (taken self.old) (taken self.new) (take n piece.now)) }
        ensures err { OnErr result (Stays (taken self.old) (taken self.new)) };

    /// Hands on the bytes that it has taken and keeps, where it keeps any. Fails exactly where the count
    /// of faults rises. What it has taken stays, whether it goes or fails.
    fn flush(&mut self) -> Result<(), Failed>
        ensures later { fault_count self.old ≤ fault_count self.new }
        ensures cause { OnErr result (Rose (fault_count self.old) (fault_count self.new)) }
        ensures unfaulted { OnOk result (fault_count self.new ≡ fault_count self.old) }
        ensures handed { OnOk result (handed_on self.new) }
        ensures stays { Stays (taken self.old) (taken self.new) };
}
