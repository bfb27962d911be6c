// A drum of pages.
ghost use Rattle.std.specs.Prelude.{◌≡◌, ◌<◌, ◌≤◌, ℕ, List, Option, Some, OnOk, OnErr};
ghost use Rattle.outside.specs.Faults.{Rose, CountsUp};
ghost use Rattle.outside.specs.Drums.{IsPage, AreWords, AreDrumPages, Gives, Keeps, Puts, Spoils};

use crate::{Failed, PAGE_WORDS};

/// Pages of PAGE_WORDS words of 36 bits, numbered from 0, each read or written whole.
pub trait Drum {
    /// How often a call has failed.
    ghost fault_count: { Self → ℕ };

    /// How many reads have succeeded.
    ghost read_count: { Self → ℕ };

    /// How many writes have succeeded.
    ghost write_count: { Self → ℕ };

    /// How many pages there are.
    ghost size: { Self → ℕ };

    /// The words of each page, where the drum tells them.
    ghost held: { Self → Option (List (List ℕ)) };

    /// How often a call has failed. At 2^64 - 1 it stays there.
    fn faults(&self) -> u64
        ensures { result ≡ fault_count self.now };

    /// How many reads have succeeded. At 2^64 - 1 it stays there.
    fn reads(&self) -> u64
        ensures { result ≡ read_count self.now };

    /// How many writes have succeeded. At 2^64 - 1 it stays there.
    fn writes(&self) -> u64
        ensures { result ≡ write_count self.now };

    /// How many pages there are. It never changes.
    fn pages(&self) -> u32
        ensures { result ≡ size self.now };

    /// Gives the words of a page, each below 2^36. Fails only where the count of faults rises; what
    /// `words` holds then is open, and the drum is as before.
    fn read(&mut self, page: u32, words: &mut [u64; PAGE_WORDS]) -> Result<(), Failed>
        requires { page < size self.old }
        ensures later { fault_count self.old ≤ fault_count self.new }
        ensures cause { OnErr result (Rose (fault_count self.old) (fault_count self.new)) }
        ensures page { OnOk result (IsPage words.new) }
        ensures words { OnOk result (Gives (held self.old) page words.new) }
        ensures held { Keeps (held self.old) (held self.new) }
        ensures counted { OnOk result (CountsUp (read_count self.old) (read_count self.new)) }
        ensures uncounted { OnErr result (read_count self.new ≡ read_count self.old) }
        ensures reads_later { read_count self.old ≤ read_count self.new }
        ensures writes { write_count self.new ≡ write_count self.old }
        ensures size { size self.new ≡ size self.old };

    /// Puts words, each below 2^36, into a page, and leaves all other pages as they are. Fails only where
    /// the count of faults rises; the words of that page alone are unknown then.
    fn write(&mut self, page: u32, words: &[u64; PAGE_WORDS]) -> Result<(), Failed>
        requires page { page < size self.old }
        requires words { AreWords words.now }
        ensures later { fault_count self.old ≤ fault_count self.new }
        ensures cause { OnErr result (Rose (fault_count self.old) (fault_count self.new)) }
        ensures held { OnOk result (Puts (held self.old) (held self.new) page words.now) }
        ensures spoiled { OnErr result (Spoils (held self.old) (held self.new) page) }
        ensures counted { OnOk result (CountsUp (write_count self.old) (write_count self.new)) }
        ensures uncounted { OnErr result (write_count self.new ≡ write_count self.old) }
        ensures writes_later { write_count self.old ≤ write_count self.new }
        ensures reads { read_count self.new ≡ read_count self.old }
        ensures size { size self.new ≡ size self.old };

    /// A drum that tells its pages tells as many as it has, each of PAGE_WORDS words below 2^36.
    ghost tells_pages: { (drum : Self) (d : List (List ℕ)) → held drum ≡ Some d → AreDrumPages (size drum) d };
}
