// The numbers and symbols of a line.
ghost use Rattle.std.specs.Prelude.{◌≡◌, ◌≤◌, ◌<◌, ◌^◌, IfSome, IsTrue, length};
ghost use Rattle.std.specs.List.{list_all};
ghost use Rattle.asm_core.specs.Numbers.{begins_with_letter, is_symbol, is_symbol_code, octal_number, register, value_of};

use crate::{Half, Symbol, Value};
use word36::{WORD_DIGITS, read_octal};

/// How many octal digits half a word has.
pub const HALF_DIGITS: usize = 6;

/// How many characters a symbol has at most.
pub const SYMBOL_CHARACTERS: usize = 6;

// How many octal digits the number of an accumulator has at most.
const REGISTER_DIGITS: usize = 2;

/// How many accumulators there are.
pub const REGISTERS: u32 = 16;

/// The number that 1 to so many octal digits write.
pub(crate) fn octal_number(text: &[u8], most: usize) -> Option<u64>
    requires { most ≤ WORD_DIGITS }
    ensures value { result ≡ octal_number most text.now }
    ensures below { IfSome result (λ n. n < 8 ^ most) }
{
    read_octal(text, most)
}

/// Half a word that 1 to 6 octal digits write.
pub(crate) fn half(text: &[u8]) -> Option<Half>
    ensures { result ≡ octal_number HALF_DIGITS text.now }
{
    Half::new(octal_number(text, HALF_DIGITS)? as u32)
}

/// The accumulator or index register that 1 or 2 octal digits write.
#[tactic(auto, unfolding(crate::specs::Numbers::register))]
pub(crate) fn register(text: &[u8]) -> Option<u32>
    ensures value { result ≡ register text.now }
    ensures below { IfSome result (λ n. n < 16) }
{
    let n = octal_number(text, REGISTER_DIGITS)? as u32;
    if n < REGISTERS { Some(n) } else { None }
}

/// Whether a text is a symbol.
#[tactic(auto, unfolding(crate::specs::Numbers::is_symbol))]
pub(crate) fn is_symbol(text: &[u8]) -> bool
    ensures value { result ≡ is_symbol text.now }
    ensures short { IsTrue result → length text.now ≤ SYMBOL_CHARACTERS }
{
    begins_with_letter(text) && text.len() <= SYMBOL_CHARACTERS && has_symbol_codes(text)
}

// Whether a text begins with a capital letter.
fn begins_with_letter(text: &[u8]) -> bool
    ensures { result ≡ begins_with_letter text.now }
{
    match text {
        [] => false,
        [c, ..] => b'A' <= *c && *c <= b'Z',
    }
}

// Whether each character is a capital letter or a digit.
fn has_symbol_codes(text: &[u8]) -> bool
    ensures { result ≡ list_all is_symbol_code text.now }
{
    text.iter().all(|c| (b'A' <= *c && *c <= b'Z') || (b'0' <= *c && *c <= b'9'))
}

/// The value that a text writes: a symbol, or 1 to 6 octal digits.
#[tactic(auto, unfolding(crate::specs::Numbers::value_of))]
pub(crate) fn value(text: &[u8]) -> Option<Value>
    ensures { result ≡ value_of text.now }
{
    if is_symbol(text) {
        return Some(Value::Named(Symbol::new(text)));
    }
    Some(Value::Number(half(text)?))
}
