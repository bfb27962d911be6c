// The operands of an instruction, and the values of a word.
ghost use Rattle.std.specs.Prelude.{◌≡◌, ◌<◌, ◌≤◌, ◌+◌, ◌^◌, length, IfSome};
ghost use Rattle.asm_core.specs.Grammar.{address_in, addressed, index_of, indexed, instruction, one_value, second_comma, word_of};
ghost use Rattle.asm_core.specs.Numbers.{octal_number};

use crate::cutting::cut;
use crate::numbers::{is_symbol, register, value};
use crate::{Half, Statement, Symbol, Value};
use word36::{WORD_DIGITS, Word};

/// How many opcodes there are.
pub const OPCODES: u16 = 512;

/// An instruction with its operands: accumulator, at sign, address and index register, each left out
/// where it is not wanted.
#[tactic(auto, unfolding(crate::specs::Grammar::instruction))]
pub(crate) fn instruction(op: u16, operands: &[u8]) -> Option<Statement>
    requires { op < OPCODES }
    ensures { result ≡ instruction op operands.now }
{
    let left = op as u32 * 512;
    match cut(operands, b',') {
        Some((front, behind)) => addressed(left + register(front)? * 32, behind),
        None => addressed(left, operands),
    }
}

// The address behind an at sign, if there is one.
#[tactic(auto, unfolding(crate::specs::Grammar::addressed))]
fn addressed(left: u32, text: &[u8]) -> Option<Statement>
    requires { left + 31 < 2 ^ 18 }
    ensures { result ≡ addressed left text.now }
{
    match text {
        [] => indexed(left, text),
        [c, ..] => {
            if *c == b'@' {
                indexed(left + 16, &text[1..])
            } else {
                indexed(left, text)
            }
        }
    }
}

// The address, before its index register in parentheses, if it has one.
#[tactic(auto, unfolding(crate::specs::Grammar::indexed))]
fn indexed(left: u32, text: &[u8]) -> Option<Statement>
    requires { left + 15 < 2 ^ 18 }
    ensures { result ≡ indexed left text.now }
{
    match cut(text, b'(') {
        Some((front, behind)) => address(left + index(behind)?, front),
        None => address(left, text),
    }
}

// The index register before the closing parenthesis.
#[tactic(auto, unfolding(crate::specs::Grammar::index_of))]
fn index(text: &[u8]) -> Option<u32>
    ensures value { result ≡ index_of text.now }
    ensures below { IfSome result (λ n. n < 16) }
{
    let (digits, behind) = cut(text, b')')?;
    if !behind.is_empty() {
        return None;
    }
    let n = register(digits)?;
    if n == 0 { None } else { Some(n) }
}

// The word of an instruction, by its left half and its address.
fn address(left: u32, text: &[u8]) -> Option<Statement>
    requires { left < 2 ^ 18 }
    ensures { result ≡ address_in left text.now }
{
    let left = Value::Number(Half::new(left)?);
    if text.is_empty() {
        return Some(Statement::Halves(left, Value::Number(Half::ZERO)));
    }
    Some(Statement::Halves(left, value(text)?))
}

/// A word that one value writes, or two values as halves.
#[tactic(auto, unfolding(crate::specs::Grammar::word_of))]
pub(crate) fn word_of(text: &[u8]) -> Option<Statement>
    ensures { result ≡ word_of text.now }
{
    match cut(text, b',') {
        Some((front, behind)) => halves(front, behind),
        None => one_value(text),
    }
}

// Two values as halves: the second stands behind one more comma.
fn halves(front: &[u8], behind: &[u8]) -> Option<Statement>
    ensures { result ≡ second_comma front.now behind.now }
{
    match behind {
        [] => None,
        [c, ..] => {
            if *c != b',' {
                return None;
            }
            let left = value(front)?;
            Some(Statement::Halves(left, value(&behind[1..])?))
        }
    }
}

// A word that is one value: a symbol, or up to 12 octal digits.
#[tactic(auto, unfolding(crate::specs::Grammar::one_value))]
fn one_value(text: &[u8]) -> Option<Statement>
    ensures { result ≡ one_value text.now }
{
    if is_symbol(text) {
        return Some(Statement::Halves(Value::Number(Half::ZERO), Value::Named(Symbol::new(text))));
    }
    Some(Statement::Number(word(text)?))
}

// A word that up to 12 octal digits write.
fn word(text: &[u8]) -> Option<Word>
    ensures { result ≡ octal_number WORD_DIGITS text.now }
{
    Word::read_octal(text)
}
