// Moves, sums, products and quotients.
ghost use Rattle.std.specs.Prelude.{◌≡◌, ◌↔◌, ◌+◌, ◌*◌, ◌/◌, ◌%◌, ◌^◌, ◌<◌, ◌≤◌, ℤ, ◌*ℤ◌, unsigned_abs, int_div, int_rem, Some, IsSome, IfSome, option_map, MatchOption, true};
ghost use Rattle.word36.specs.Words.{signed, word_of};
ghost use Rattle.word36.specs.Arithmetic.{HasSecondWord, IsArithmetic, added, arithmetic, divided, is_signed_word, long, magnitude, moved, multiplied, multiplied_short, negated, subtracted, sum_of, swapped};
ghost use Rattle.ka10_alu.specs.Outs.{out_of};

use crate::out::Out;
use word36::opcodes::{ADD, ASH, DIV, IDIV, IMUL, MOVE, MOVM, MOVN, MOVS, MUL, SUB};
use word36::{Flags, Word};

/// The arithmetic operation of the opcode on the words of AC, of AC plus 1 and of the operand:
/// MOVE, MOVS, MOVN and MOVM (200 to 217), IMUL, MUL, IDIV and DIV (220 to 237), ADD and SUB
/// (270 to 277), each in its four modes alike. None exactly where a division isn't done: by 0, or
/// with a quotient that is no signed word. A second word comes exactly of MUL, IDIV and DIV.
#[inline]
#[tactic(auto, unfolding(word36::specs::Arithmetic::arithmetic))]
pub fn arith(op: u16, a: Word, a1: Word, m: Word) -> Option<Out>
    requires op { IsArithmetic op }
    ensures value { result ≡ option_map out_of (arithmetic op a a1 m) }
    ensures second { IfSome result (λ out. IsSome out.low ↔ HasSecondWord op) }
{
    match op {
        MOVE..MOVS => Some(Out::moved(m)),
        MOVS..MOVN => Some(swap(m)),
        MOVN..MOVM => Some(negate(m)),
        MOVM..IMUL => Some(magnitude_of(m)),
        IMUL..MUL => Some(multiply_short(a, m)),
        MUL..IDIV => Some(multiply(a, m)),
        IDIV..DIV => divide(a, m),
        DIV..ASH => divide_long(a, a1, m),
        ADD..SUB => Some(add(a, m)),
        _ => Some(subtract(a, m)),
    }
}

/// MOVS: the halves exchanged.
#[inline(always)]
fn swap(w: Word) -> Out
    ensures { result ≡ out_of (swapped w) }
{
    Out::moved(Word::join(w.right(), w.left()))
}

/// The sum of two words and a carry into bit 35.
#[inline(always)]
fn sum(a: u64, m: u64, carry: u64) -> Out
    requires a { a < 2 ^ 36 }
    requires m { m < 2 ^ 36 }
    requires carry { carry < 2 }
    ensures { result ≡ out_of (sum_of a m carry) }
{
    let whole = a + m + carry;
    let carry0 = whole > Word::MASK;
    let magnitudes = (a & Word::MAGNITUDE_MASK) + (m & Word::MAGNITUDE_MASK) + carry;
    let carry1 = magnitudes > Word::MAGNITUDE_MASK;
    Out {
        word: Word::wrapped(whole),
        low: None,
        flags: Flags {
            overflow: carry0 != carry1,
            carry0,
            carry1,
            ..Flags::CLEAR
        },
    }
}

/// ADD: the sum of two words. Carry 0 and carry 1 are the carries out of bits 0 and 1; overflow
/// comes where they differ (PDP-10 handbook, "Fixed point arithmetic").
#[inline(always)]
pub fn add(a: Word, m: Word) -> Out
    ensures { result ≡ out_of (added a m) }
{
    sum(a.value(), m.value(), 0)
}

/// SUB: the first word less the second. The complement and 1 are added, with flags as ADD.
#[inline(always)]
pub fn subtract(a: Word, m: Word) -> Out
    ensures { result ≡ out_of (subtracted a m) }
{
    sum(a.value(), m.value() ^ Word::MASK, 1)
}

/// MOVN: 0 less the word.
#[inline(always)]
fn negate(m: Word) -> Out
    ensures { result ≡ out_of (negated m) }
{
    subtract(Word::ZERO, m)
}

/// MOVM: a negative word negated.
#[inline(always)]
fn magnitude_of(m: Word) -> Out
    ensures { result ≡ out_of (magnitude m) }
{
    if m.value() > Word::MAGNITUDE_MASK {
        negate(m)
    } else {
        Out::moved(m)
    }
}

/// The number is from -2^35 to 2^35 - 1.
fn fits(n: i128) -> bool
    ensures { result ≡ is_signed_word n }
{
    -(1 << 35) <= n && n < 1 << 35
}

/// The product of the signed values.
fn product(a: Word, m: Word) -> i128
    ensures value { result ≡ signed a *ℤ signed m }
    ensures below { unsigned_abs result ≤ 2 ^ 70 }
{
    a.signed() as i128 * m.signed() as i128
}

/// IMUL: the product's sign and its low 35 bits.
fn multiply_short(a: Word, m: Word) -> Out
    ensures { result ≡ out_of (multiplied_short a m) }
{
    let product = product(a, m);
    let low = product.rem_euclid(1 << 35) as u64;
    let sign = if product < 0 { 1 << 35 } else { 0 };
    Out::one_word(Word::wrapped(sign + low), !fits(product))
}

/// MUL: the product divided by 2^35, and its low 35 bits under the same sign bit.
fn multiply(a: Word, m: Word) -> Out
    ensures { result ≡ out_of (multiplied a m) }
{
    let product = product(a, m);
    let high = Word::from_signed((product >> 35) as i64);
    let low = product.rem_euclid(1 << 35) as u64;
    Out::two_words(
        high,
        Word::wrapped((high.value() >> 35 << 35) + low),
        a.value() == 1 << 35 && m.value() == 1 << 35,
    )
}

/// The quotient rounded towards 0.
fn quotient(dividend: i64, divisor: i64) -> i64
    requires dividend { unsigned_abs dividend ≤ 2 ^ 35 }
    requires divisor { 0 < unsigned_abs divisor }
    ensures { result ≡ int_div dividend divisor }
{
    dividend / divisor
}

/// The remainder with the dividend's sign.
fn remainder(dividend: i64, divisor: i64) -> i64
    requires dividend { unsigned_abs dividend ≤ 2 ^ 35 }
    requires divisor { 0 < unsigned_abs divisor }
    ensures { result ≡ int_rem dividend divisor }
{
    dividend % divisor
}

/// The quotient rounded towards 0, of a dividend of two words.
fn quotient_long(dividend: i128, divisor: i64) -> i128
    requires dividend { unsigned_abs dividend ≤ 2 ^ 71 }
    requires divisor { 0 < unsigned_abs divisor }
    ensures { result ≡ int_div dividend divisor }
{
    dividend / divisor as i128
}

/// The remainder with the dividend's sign, of a dividend of two words.
fn remainder_long(dividend: i128, divisor: i64) -> i64
    requires dividend { unsigned_abs dividend ≤ 2 ^ 71 }
    requires divisor { 0 < unsigned_abs divisor }
    ensures { result ≡ int_rem dividend divisor }
{
    (dividend % divisor as i128) as i64
}

/// The signed word times 2^35, and the low 35 bits of the next.
fn dividend_of(a: Word, a1: Word) -> i128
    ensures value { result ≡ long a a1 }
    ensures below { unsigned_abs result ≤ 2 ^ 71 }
{
    a.signed() as i128 * (1 << 35) + (a1.value() & Word::MAGNITUDE_MASK) as i128
}

/// The signed value of a divisor that isn't 0.
fn divisor_of(m: Word) -> Option<i64>
    ensures { MatchOption result (m ≡ 0) (λ d. (d ≡ signed m) × (0 < unsigned_abs d) × (0 < m)) }
{
    if m.value() == 0 {
        return None;
    }
    Some(m.signed())
}

/// IDIV.
fn divide(a: Word, m: Word) -> Option<Out>
    ensures { result ≡ option_map out_of (divided (signed a) m) }
{
    let dividend = a.signed();
    let divisor = divisor_of(m)?;
    let quotient = quotient(dividend, divisor);
    if !fits(quotient as i128) {
        return None;
    }
    Some(Out::two_words(
        Word::from_signed(quotient),
        Word::from_signed(remainder(dividend, divisor)),
        false,
    ))
}

/// The word of a number from -2^35 to 2^35 - 1.
fn signed_word(n: i128) -> Word
    requires { is_signed_word n ≡ true }
    ensures { result ≡ word_of n }
{
    Word::from_signed(n as i64)
}

/// DIV: the dividend is the signed word times 2^35 and the low 35 bits of the next.
fn divide_long(a: Word, a1: Word, m: Word) -> Option<Out>
    ensures { result ≡ option_map out_of (divided (long a a1) m) }
{
    let dividend = dividend_of(a, a1);
    let divisor = divisor_of(m)?;
    let quotient = quotient_long(dividend, divisor);
    if !fits(quotient) {
        return None;
    }
    Some(Out::two_words(
        signed_word(quotient),
        Word::from_signed(remainder_long(dividend, divisor)),
        false,
    ))
}
