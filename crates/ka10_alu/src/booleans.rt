// Boolean functions of words.
ghost use Rattle.std.specs.Int.{bit_at};
ghost use Rattle.std.specs.Prelude.{◌≡◌, ℕ, ◌*◌, ◌<◌, ◌^◌};
ghost use Rattle.word36.specs.Boolean.{IsBoolean, boolean_of, boolean_word};

use word36::Word;
use word36::opcodes::SETZ;

/// A word where the function's number has a 1 in a place, else 0.
#[inline(always)]
fn picked(function: u16, place: u16, w: u64) -> u64
    requires function { function < 16 }
    requires place { place < 4 }
    requires word { w < 2 ^ 36 }
    ensures below { result < 2 ^ 36 }
    ensures bits { (i : ℕ) → bit_at result i ≡ bit_at function place * bit_at w i }
{
    if function >> place & 1 == 1 { w } else { 0 }
}

/// One of the sixteen functions, bit by bit.
#[inline(always)]
pub fn boolean_by(function: u16, a: Word, m: Word) -> Word
    requires { function < 16 }
    ensures { result ≡ boolean_word function a m }
{
    let a = a.value();
    let m = m.value();
    let not_a = a ^ Word::MASK;
    let not_m = m ^ Word::MASK;
    Word::wrapped(
        picked(function, 0, a & m)
            | picked(function, 1, not_a & m)
            | picked(function, 2, a & not_m)
            | picked(function, 3, not_a & not_m),
    )
}

/// The result of SETZ to SETO, opcodes 400 to 477, whatever their mode, of the accumulator's word
/// and the memory operand's (PDP-10 handbook, "Boolean functions").
#[inline(always)]
pub fn boolean(op: u16, a: Word, m: Word) -> Word
    requires { IsBoolean op }
    ensures { result ≡ boolean_of op a m }
{
    // One by one, so that of each function only its own bits are computed.
    match (op - SETZ) / 4 {
        0 => boolean_by(0, a, m),
        1 => boolean_by(1, a, m),
        2 => boolean_by(2, a, m),
        3 => boolean_by(3, a, m),
        4 => boolean_by(4, a, m),
        5 => boolean_by(5, a, m),
        6 => boolean_by(6, a, m),
        7 => boolean_by(7, a, m),
        8 => boolean_by(8, a, m),
        9 => boolean_by(9, a, m),
        10 => boolean_by(10, a, m),
        11 => boolean_by(11, a, m),
        12 => boolean_by(12, a, m),
        13 => boolean_by(13, a, m),
        14 => boolean_by(14, a, m),
        _ => boolean_by(15, a, m),
    }
}
