// Sums whose flags are known beforehand, as those of nearly all programs are.
ghost use Rattle.std.specs.Prelude.{◌≡◌, ◌+◌, ◌-◌, ◌%◌, ◌^◌, ◌≤◌, MatchOption};
ghost use Rattle.word36.specs.Arithmetic.{added, moved};
ghost use Rattle.ka10_deeds.specs.KnownSums.{with_carries};

use word36::Word;

/// The sum of two words, where none of them is negative and the sum isn't: no flag comes of it. None exactly where they
/// come to 2^35 or more.
#[inline(always)]
pub fn positive_sum(a: Word, m: Word) -> Option<Word>
    ensures { MatchOption result (2 ^ 35 ≤ a + m) (λ word. added a m ≡ moved word) }
{
    let whole = a.value() + m.value();
    if whole > Word::MAGNITUDE_MASK {
        return None;
    }
    Some(Word::wrapped(whole))
}

/// The word plus 1, where no flag comes of it. None exactly where all its bits but the sign are 1.
#[inline(always)]
pub fn word_above(w: Word) -> Option<Word>
    ensures { MatchOption result (w % 2 ^ 35 ≡ 2 ^ 35 - 1) (λ word. added w 1 ≡ moved word) }
{
    if w.value() & Word::MAGNITUDE_MASK == Word::MAGNITUDE_MASK {
        return None;
    }
    Some(Word::wrapped(w.value() + 1))
}

/// The word less 1, as the sum with 777777777777, where both carries come of it and no other flag. None exactly where
/// all its bits but the sign are 0.
#[inline(always)]
pub fn word_below(w: Word) -> Option<Word>
    ensures { MatchOption result (w % 2 ^ 35 ≡ 0) (λ word. added w (2 ^ 36 - 1) ≡ with_carries word) }
{
    if w.value() & Word::MAGNITUDE_MASK == 0 {
        return None;
    }
    Some(Word::wrapped(w.value() - 1))
}
