// What each operation comes to.
ghost use Rattle.std.specs.Prelude.{◌<◌, IfSome};

use crate::asked::{Operation, Row};
use crate::deeds::{done, places};
use crate::outcomes::Outcome;
use ka10_alu::{arith, boolean, half, holds, mask, shift, test};
use ka10_bytes::{deposit, increment, load};
use ka10_table::{Family, ROWS, row};
use word36::Word;
use word36::opcodes::{ADD, ASH, CAI, HLL, LSHC, MOVE, SETZ, TRN, TSON};

/// What a row comes to. None where its first word is no opcode of its operation.
pub(crate) fn outcome_of(asked: &Row) -> Option<Outcome> {
    let words = asked.words;
    let (first, second, third, fourth) = (words[0], words[1], words[2], words[3]);
    match asked.operation {
        Operation::Arithmetic => arithmetic(opcode(first)?, second, third, fourth),
        Operation::Shift => shifted(opcode(first)?, second, third, fourth),
        Operation::Boolean => bits(opcode(first)?, second, third),
        Operation::Half => moved(opcode(first)?, second, third),
        Operation::Test => tested(opcode(first)?, second, third),
        Operation::Mask => Some(Outcome::Word(mask(opcode(first)?, second))),
        Operation::Holds => answer(first, second),
        Operation::Instruction => Some(Outcome::Instruction(row(opcode(first)?))),
        Operation::Instructions => Some(counts()),
        Operation::Increment => Some(Outcome::Word(increment(first))),
        Operation::Load => Some(Outcome::Word(load(first, second))),
        Operation::Deposit => Some(Outcome::Word(deposit(first, second, third))),
        Operation::Deed => done(opcode(first)?, &words),
        Operation::Places => places(opcode(first)?, second, third, fourth),
    }
}

/// The opcode that a word is.
fn opcode(word: Word) -> Option<u16>
    ensures { IfSome result (λ op. op < 512) }
{
    let op = u16::try_from(word.value()).ok()?;
    if op < 512 { Some(op) } else { None }
}

/// An operation of arithmetic on AC, the accumulator behind it, and the operand.
fn arithmetic(op: u16, a: Word, a1: Word, m: Word) -> Option<Outcome> {
    if op < MOVE || (ASH <= op && op < ADD) || CAI <= op {
        return None;
    }
    match arith(op, a, a1, m) {
        Some(done) => Some(Outcome::Done(done)),
        None => Some(Outcome::NotDone),
    }
}

/// A shift of AC, and of the accumulator behind it.
fn shifted(op: u16, a: Word, a1: Word, e: Word) -> Option<Outcome> {
    if op < ASH || LSHC < op {
        return None;
    }
    Some(Outcome::Done(shift(op, a, a1, e.right())))
}

/// A Boolean function of AC and the operand.
fn bits(op: u16, a: Word, m: Word) -> Option<Outcome> {
    if op < SETZ || HLL <= op {
        return None;
    }
    Some(Outcome::Word(boolean(op, a, m)))
}

/// A move of a half.
fn moved(op: u16, source: Word, destination: Word) -> Option<Outcome> {
    if op < HLL || TRN <= op {
        return None;
    }
    Some(Outcome::Word(half(op, source, destination)))
}

/// A test of masked bits of AC.
fn tested(op: u16, a: Word, mask: Word) -> Option<Outcome> {
    if op < TRN || TSON < op {
        return None;
    }
    let (word, skips) = test(op, a, mask);
    Some(Outcome::Tested(word, skips))
}

/// Whether a condition holds for the number that a word is.
fn answer(condition: Word, word: Word) -> Option<Outcome> {
    let condition = condition.value();
    if condition >= 8 {
        return None;
    }
    Some(Outcome::Answer(holds(condition as u8, word.signed())))
}

/// How many opcodes are no instruction, and how many there are.
fn counts() -> Outcome {
    let mut illegal: usize = 0;
    for row in &ROWS {
        if row.family == Family::Illegal {
            illegal = illegal.saturating_add(1);
        }
    }
    Outcome::Counts(illegal, ROWS.len())
}
