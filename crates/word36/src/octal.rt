// Numbers and words as texts of octal digits.
ghost use Rattle.std.specs.Prelude.{◌≡◌, ℕ, ◌+◌, ◌*◌, ◌%◌, ◌<◌, ◌≤◌, length, MatchOption};
ghost use Rattle.word36.specs.Words.{IsWord};
ghost use Rattle.word36.specs.Octal.{octal_padded, octal_value, IsOctalNumber};

use crate::word::Word;

/// How many octal digits a word has.
pub const WORD_DIGITS: usize = 12;

/// Fills a piece of a text with the last octal digits of a number, as ASCII codes, zeros in front
/// included.
pub fn fill_octal(digits: &mut [u8], n: u64)
    ensures { digits.new ≡ octal_padded (length digits.old) n }
{
    let mut rest = n;
    for place in (0..digits.len()).rev() {
        digits[place] = b'0' + (rest % 8) as u8;
        rest /= 8;
    }
}

/// The number that 1 to so many octal digits write. None exactly where the text has another length
/// or another byte.
pub fn read_octal(text: &[u8], most: usize) -> Option<u64>
    requires { most ≤ WORD_DIGITS }
    ensures { MatchOption result (IsOctalNumber most text.now → ⊥) (λ n. IsOctalNumber most text.now × (n ≡ octal_value text.now)) }
{
    if text.is_empty() || text.len() > most {
        return None;
    }
    let mut n: u64 = 0;
    for digit in text {
        if *digit < b'0' || *digit > b'7' {
            return None;
        }
        n = n * 8 + (*digit - b'0') as u64;
    }
    Some(n)
}

impl Word {
    /// The 12 octal digits of the word as ASCII codes, zeros in front included.
    pub fn octal(self) -> [u8; WORD_DIGITS]
        ensures { result ≡ octal_padded WORD_DIGITS self }
    {
        let mut digits = [b'0'; WORD_DIGITS];
        fill_octal(&mut digits, self.value());
        digits
    }

    /// The word that 1 to 12 octal digits write. None exactly where the text has another length
    /// or another byte.
    pub fn read_octal(text: &[u8]) -> Option<Word>
        ensures { MatchOption result (IsOctalNumber WORD_DIGITS text.now → ⊥) (λ w. IsOctalNumber WORD_DIGITS text.now × (w ≡ octal_value text.now)) }
    {
        Word::new(read_octal(text, WORD_DIGITS)?)
    }
}

/// The octal text of each word is a number of 12 octal digits, and reading it gives the word.
pub fn read_back()
    ensures { (w : ℕ) → IsWord w → IsOctalNumber WORD_DIGITS (octal_padded WORD_DIGITS w) × (octal_value (octal_padded WORD_DIGITS w) ≡ w) }
{}
