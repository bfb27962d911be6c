// What follows from the definitions of the byte instructions, in the words of their users. A law
// does nothing when it runs.
ghost use Rattle.std.specs.Prelude.{◌≡◌, ℕ, ◌+◌, ◌-◌, ◌*◌, ◌≤◌};
ghost use Rattle.word36.specs.Bytes.{position, size, byte_at, increments, loaded, ComesToNextWord, LoadsWhatIsDeposited, OtherBitsStay, StaysAsLoaded};

use word36::Word;

/// After as many increments as a word has bytes, a pointer to one of the bytes that a word is
/// filled with names the next word at the same place.
pub fn comes_to_next_word(p: Word)
    ensures { ComesToNextWord p }
{}

/// From a pointer to before the first byte of a word on, increments name its bytes from left to right.
pub fn bytes_come_in_order(p: Word, w: Word)
    ensures { (k : ℕ) → position p ≡ 36 → (k + 1) * size p ≤ 36 → loaded (increments (k + 1) p) w ≡ byte_at (36 - (k + 1) * size p) (size p) w }
{}

/// What is deposited is what is loaded, as far as it is inside the word.
pub fn loads_what_is_deposited(p: Word, w: Word, byte: Word)
    ensures { LoadsWhatIsDeposited p w byte }
{}

/// A byte that is deposited leaves the bits to its right and to its left.
pub fn other_bits_stay(p: Word, w: Word, byte: Word)
    ensures { OtherBitsStay p w byte }
{}

/// A byte that is loaded and deposited again changes nothing.
pub fn stays_as_loaded(p: Word, w: Word)
    ensures { StaysAsLoaded p w }
{}
