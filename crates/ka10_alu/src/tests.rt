// Tests of masked bits.
ghost use Rattle.std.specs.Prelude.{◌≡◌, ◌==◌};
ghost use Rattle.word36.specs.Boolean.{boolean_of};
ghost use Rattle.word36.specs.Tests.{IsTest, mask_of, test_skips, tested};

use crate::booleans::boolean;
use word36::Word;
use word36::opcodes::{AND, ANDCM, IOR, SETA, TRN, XOR};

/// The mask of TRN to TSON, opcodes 600 to 677, of 0,,E (R and L) or of the word at E (D and S):
/// L and S swap its halves (PDP-10 handbook, "Logical testing and modification").
#[inline(always)]
pub fn mask(op: u16, m: Word) -> Word
    ensures { result ≡ mask_of op m }
{
    if op % 2 == 1 {
        Word::join(m.right(), m.left())
    } else {
        m
    }
}

/// Whether all masked bits of a word are 0.
#[inline(always)]
fn is_clear(a: Word, mask: Word) -> bool
    ensures { result ≡ (boolean_of AND a mask == 0) }
{
    boolean(AND, a, mask).value() == 0
}

/// The word of the accumulator after TRN to TSON, opcodes 600 to 677, and whether the next
/// instruction is skipped (PDP-10 handbook, "Logical testing and modification"). The masked bits
/// stay (N), or become 0 (Z), their complement (C), 1 (O). The skip comes never, where the masked
/// bits of the old word are all 0 (E), always (A), where they are not all 0 (N).
#[inline(always)]
pub fn test(op: u16, a: Word, mask: Word) -> (Word, bool)
    requires { IsTest op }
    ensures word { result.0 ≡ tested op a mask }
    ensures skips { result.1 ≡ test_skips op a mask }
{
    let word = match (op - TRN) / 0o20 {
        0 => boolean(SETA, a, mask),
        1 => boolean(ANDCM, a, mask),
        2 => boolean(XOR, a, mask),
        _ => boolean(IOR, a, mask),
    };
    let none = is_clear(a, mask);
    let skips = match op % 8 / 2 {
        0 => false,
        1 => none,
        2 => true,
        _ => !none,
    };
    (word, skips)
}
