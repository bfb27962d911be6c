// Bytes of words, each where a pointer names it.
ghost use Rattle.std.specs.Prelude.{◌≡◌};
ghost use Rattle.word36.specs.Bytes.{deposited, loaded};

use crate::pointers::{ones_of, position_of, size_of_byte};
use word36::Word;

/// The byte that a pointer names in a word, as LDB and ILDB take it (PDP-10 handbook, "Byte
/// manipulation"). Bits outside the word read as 0.
#[inline]
pub fn load(p: Word, w: Word) -> Word
    ensures { result ≡ loaded p w }
{
    Word::wrapped(w.value() >> position_of(p) & ones_of(size_of_byte(p)))
}

/// A word with the low bits of a byte where a pointer names it, as DPB and IDPB leave it (PDP-10
/// handbook, "Byte manipulation"). Bits outside the word are lost.
#[inline]
pub fn deposit(p: Word, w: Word, byte: Word) -> Word
    ensures { result ≡ deposited p w byte }
{
    let position = position_of(p);
    let ones = ones_of(size_of_byte(p));
    let place = ones << position;
    Word::wrapped(w.value() & !place | (byte.value() & ones) << position)
}
