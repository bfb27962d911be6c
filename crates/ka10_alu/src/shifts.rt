// Shifts and rotations of one word and of two together.
ghost use Rattle.std.specs.Prelude.{◌≡◌, ◌↔◌, ◌+◌, ◌-◌, ◌*◌, ◌/◌, ◌%◌, ◌^◌, ◌<◌, ◌≤◌, false, IsSome};
ghost use Rattle.std.specs.Int.Count.{count_leading_zeros};
ghost use Rattle.word36.specs.Arithmetic.{HasSecondWord, in_two_words};
ghost use Rattle.word36.specs.Shifts.{IsShift, ash_both, ash_left, ash_one, ash_overflows, ash_right, double, double_signed, first_one, is_right, logical, places, rotated, rotated_left, shifted, split, split_signed};
ghost use Rattle.ka10_alu.specs.Outs.{out_of};

use crate::out::Out;
use word36::Word;
use word36::opcodes::{ASH, ASHC, JFFO, LSH, ROT, ROTC};

// How many bits the shifts are of: a word or two, and under the sign of a word or of two.
const WORD_BITS: u32 = 36;

const DOUBLE_BITS: u32 = 72;

const MAGNITUDE_BITS: u32 = 35;

const DOUBLE_MAGNITUDE_BITS: u32 = 70;

/// The shift of the opcode on the words of AC and of AC plus 1: ASH, ROT, LSH, JFFO, ASHC, ROTC
/// and LSHC (240 to 246). The effective address is a signed number of 18 bits, positive to the
/// left, its magnitude taken modulo 256. A second word comes exactly of JFFO, its count of zeros,
/// and of the shifts of two words.
#[inline]
#[tactic(auto, unfolding(word36::specs::Shifts::shifted))]
pub fn shift(op: u16, a: Word, a1: Word, e: u32) -> Out
    requires op { IsShift op }
    requires e { e < 2 ^ 18 }
    ensures value { result ≡ out_of (shifted op a a1 e) }
    ensures second { IsSome result.low ↔ HasSecondWord op }
{
    let right = right(e);
    let n = count(e);
    match op {
        ASH => shift_arithmetic(right, a, n),
        ROT => Out::moved(low_word(rotate(WORD_BITS, right, a.value() as u128, n))),
        LSH => Out::moved(low_word(shift_logical(WORD_BITS, right, a.value() as u128, n))),
        JFFO => find_first_one(a),
        ASHC => shift_arithmetic_both(right, a, a1, n),
        ROTC => split(rotate(DOUBLE_BITS, right, both(a, a1), n)),
        _ => split(shift_logical(DOUBLE_BITS, right, both(a, a1), n)),
    }
}

/// The shift is to the right.
fn right(e: u32) -> bool
    requires { e < 2 ^ 18 }
    ensures { result ≡ is_right e }
{
    e >= 1 << 17
}

/// By how many places, below 256.
fn count(e: u32) -> u32
    requires { e < 2 ^ 18 }
    ensures value { result ≡ places e }
    ensures below { result < 256 }
{
    if right(e) {
        ((1 << 18) - e) & 255
    } else {
        e & 255
    }
}

/// A number below 2^36 as a word.
fn low_word(n: u128) -> Word
    requires { n < 2 ^ 36 }
    ensures { result ≡ n }
{
    Word::wrapped(n as u64)
}

/// Two words as one number of 72 bits.
fn both(a: Word, a1: Word) -> u128
    ensures value { result ≡ double a a1 }
    ensures below { result < 2 ^ 72 }
{
    (a.value() as u128) << 36 | a1.value() as u128
}

/// The two words of 72 bits.
fn split(d: u128) -> Out
    requires { d < 2 ^ 72 }
    ensures { result ≡ out_of (split d) }
{
    Out::two_words(
        low_word(d >> WORD_BITS),
        low_word(d & Word::MASK as u128),
        false,
    )
}

/// A word and the low 35 bits of the next as one number of 71 bits.
fn both_signed(a: Word, a1: Word) -> u128
    ensures value { result ≡ double_signed a a1 }
    ensures below { result < 2 ^ 71 }
{
    (a.value() as u128) << 35 | (a1.value() & Word::MAGNITUDE_MASK) as u128
}

/// The two words of 71 bits, with one sign.
fn split_signed(d: u128, overflow: bool) -> Out
    requires { d < 2 ^ 71 }
    ensures { result ≡ out_of (split_signed d overflow) }
{
    let sign = (d >> DOUBLE_MAGNITUDE_BITS) << MAGNITUDE_BITS;
    Out::two_words(
        low_word(d >> MAGNITUDE_BITS),
        low_word(sign | d & Word::MAGNITUDE_MASK as u128),
        overflow,
    )
}

/// 2^k.
fn power(k: u32) -> u128
    requires { k < 128 }
    ensures { result ≡ 2 ^ k }
{
    1 << k
}

/// The low bits of a number, as many as are asked for.
fn low(n: u128, width: u32) -> u128
    requires { width < 128 }
    ensures value { result ≡ n % 2 ^ width }
    ensures below { result < 2 ^ width }
{
    n & (power(width) - 1)
}

/// The low bits of a number times 2^n; as many places as there are bits are as good as more.
fn low_times(d: u128, n: u32, width: u32) -> u128
    requires { width ≤ 72 }
    ensures value { result ≡ d * 2 ^ n % 2 ^ width }
    ensures below { result < 2 ^ width }
{
    low(d << n.min(width), width)
}

/// A number divided by 2^n; as many places as it has bits are as good as more.
fn divided(d: u128, n: u32, width: u32) -> u128
    requires width { width ≤ 72 }
    requires d { d < 2 ^ width }
    ensures value { result ≡ d / 2 ^ n }
    ensures below { result ≤ d }
{
    d >> n.min(width)
}

/// LSH of a number of so many bits.
fn shift_logical(width: u32, is_right: bool, d: u128, n: u32) -> u128
    requires width { width ≤ 72 }
    requires d { d < 2 ^ width }
    ensures value { result ≡ logical width is_right d n }
    ensures below { result < 2 ^ width }
{
    if is_right {
        divided(d, n, width)
    } else {
        low_times(d, n, width)
    }
}

/// ROT to the left of a number of so many bits, by fewer places.
fn rotate_left(width: u32, d: u128, k: u32) -> u128
    requires width { width ≤ 72 }
    requires d { d < 2 ^ width }
    requires k { k < width }
    ensures value { result ≡ rotated_left width d k }
    ensures below { result < 2 ^ width }
{
    low_times(d, k, width) | d >> (width - k)
}

/// ROT of a number of so many bits.
fn rotate(width: u32, is_right: bool, d: u128, n: u32) -> u128
    requires some { 0 < width }
    requires width { width ≤ 72 }
    requires d { d < 2 ^ width }
    ensures value { result ≡ rotated width is_right d n }
    ensures below { result < 2 ^ width }
{
    let k = n % width;
    if is_right {
        rotate_left(width, d, (width - k) % width)
    } else {
        rotate_left(width, d, k)
    }
}

/// ASH to the left of a number of so many bits under its sign.
fn ash_to_left(under: u32, d: u128, n: u32) -> u128
    requires under { under ≤ 70 }
    requires d { d < 2 ^ (under + 1) }
    ensures value { result ≡ ash_left under d n }
    ensures below { result < 2 ^ (under + 1) }
{
    d - low(d, under) + low_times(d, n, under)
}

/// ASH to the right of a number of so many bits under its sign.
fn ash_to_right(under: u32, d: u128, n: u32) -> u128
    requires under { under ≤ 70 }
    requires d { d < 2 ^ (under + 1) }
    ensures value { result ≡ ash_right under d n }
    ensures below { result < 2 ^ (under + 1) }
{
    if d >= power(under) {
        let ones = power(under + 1) - 1;
        ones - divided(ones - d, n, under + 1)
    } else {
        divided(d, n, under + 1)
    }
}

/// ASH to the left loses a bit that differs from the sign.
fn loses_a_bit(under: u32, d: u128, n: u32) -> bool
    requires under { under ≤ 70 }
    requires d { d < 2 ^ (under + 1) }
    ensures { result ≡ ash_overflows under d n }
{
    let limit = power(under);
    if d >= limit {
        divided(limit, n, under + 1) < power(under + 1) - d
    } else {
        divided(limit - 1, n, under + 1) < d
    }
}

/// ASH.
fn shift_arithmetic(is_right: bool, a: Word, n: u32) -> Out
    ensures { result ≡ out_of (ash_one is_right a n) }
{
    let d = a.value() as u128;
    if is_right {
        Out::moved(low_word(ash_to_right(MAGNITUDE_BITS, d, n)))
    } else {
        Out::one_word(
            low_word(ash_to_left(MAGNITUDE_BITS, d, n)),
            loses_a_bit(MAGNITUDE_BITS, d, n),
        )
    }
}

/// ASHC. By 0 places nothing changes.
fn shift_arithmetic_both(is_right: bool, a: Word, a1: Word, n: u32) -> Out
    ensures { result ≡ out_of (ash_both is_right a a1 n) }
{
    if n == 0 {
        return Out::two_words(a, a1, false);
    }
    let d = both_signed(a, a1);
    if is_right {
        split_signed(ash_to_right(DOUBLE_MAGNITUDE_BITS, d, n), false)
    } else {
        split_signed(
            ash_to_left(DOUBLE_MAGNITUDE_BITS, d, n),
            loses_a_bit(DOUBLE_MAGNITUDE_BITS, d, n),
        )
    }
}

/// How many of the 36 bits stand before the first one.
fn zeros(n: u64) -> u32
    requires { n < 2 ^ 36 }
    ensures value { result ≡ count_leading_zeros 36 n }
    ensures below { result ≤ 36 }
{
    n.leading_zeros() - 28
}

/// JFFO: how many zeros stand before the first one; 0 for the word 0.
fn find_first_one(a: Word) -> Out
    ensures { result ≡ out_of (in_two_words a (first_one a) false) }
{
    let n = a.value();
    if n == 0 {
        return Out::two_words(a, Word::ZERO, false);
    }
    Out::two_words(a, Word::wrapped(zeros(n) as u64), false)
}
