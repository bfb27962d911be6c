// What an operation gives.
ghost use Rattle.std.specs.Prelude.{◌≡◌};

use word36::{Flags, Word};

/// What an operation gives: a word for the accumulator or for memory, a second word for the next
/// accumulator if the operation has one, and the flags that the operation sets.
#[derive(Clone, Copy, PartialEq, Eq)]
pub struct Out {
    /// The result.
    pub word: Word,
    /// What belongs into the next accumulator. None where the operation has one word alone, and
    /// then the next accumulator stays.
    pub low: Option<Word>,
    /// The flags to be set; the others stay.
    pub flags: Flags,
}

impl Out {
    ghost use Rattle.word36.specs.Arithmetic.{in_one_word, in_two_words, moved};
    ghost use Rattle.ka10_alu.specs.Outs.{out_of};

    /// A word alone, and no flag.
    #[inline(always)]
    pub(crate) fn moved(word: Word) -> Out
        ensures { result ≡ out_of (moved word) }
    {
        Out::one_word(word, false)
    }

    /// A word alone, with overflow or with no flag.
    #[inline(always)]
    pub(crate) fn one_word(word: Word, overflow: bool) -> Out
        ensures { result ≡ out_of (in_one_word word overflow) }
    {
        Out {
            word,
            low: None,
            flags: Flags {
                overflow,
                ..Flags::CLEAR
            },
        }
    }

    /// Two words, with overflow or with no flag.
    #[inline(always)]
    pub(crate) fn two_words(word: Word, low: Word, overflow: bool) -> Out
        ensures { result ≡ out_of (in_two_words word low overflow) }
    {
        Out {
            low: Some(low),
            ..Out::one_word(word, overflow)
        }
    }
}
