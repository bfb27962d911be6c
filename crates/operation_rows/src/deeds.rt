// What an instruction leaves, and which words it takes and stores.
ghost use Rattle.std.specs.Prelude.{◌<◌, ◌^◌, IfSome};

use crate::asked::MOST_WORDS;
use crate::outcomes::{Left, Outcome};
use ka10_deeds::{destination_of, do_row, flags_of, half_of_flags, operand_address};
use ka10_table::row;
use plain_units::Regs;
use word36::{Flags, Word};

/// Where the instruction stands.
const PLACE: u32 = 0o100;

/// The accumulator that a word is.
fn accumulator(word: Word) -> Option<u8>
    ensures { IfSome result (λ ac. ac < 16) }
{
    let ac = u8::try_from(word.value()).ok()?;
    if ac < 16 { Some(ac) } else { None }
}

/// The left half, or the address, that a word is.
fn half(word: Word) -> Option<u32>
    ensures { IfSome result (λ n. n < 2 ^ 18) }
{
    let n = u32::try_from(word.value()).ok()?;
    if n < 1 << 18 { Some(n) } else { None }
}

/// Registers with a word in an accumulator, and one in that behind it.
fn registers(ac: u8, word: Word, next: Word, flags: Flags) -> Regs
    requires { ac < 16 }
    ensures { result.pc < 2 ^ 18 }
{
    let mut regs = Regs {
        ac: [Word::ZERO; 16],
        pc: PLACE,
        flags,
    };
    regs.ac[usize::from(ac)] = word;
    regs.ac[usize::from((ac + 1) % 16)] = next;
    regs
}

/// What an instruction leaves. None where its words are no accumulator, flags or address.
pub(crate) fn done(op: u16, words: &[Word; MOST_WORDS]) -> Option<Outcome>
    requires { op < 512 }
{
    let ac = accumulator(words[1])?;
    let flags = flags_of(half(words[4])?);
    let e = half(words[5])?;
    let mut regs = registers(ac, words[2], words[3], flags);
    let told = do_row(row(op), op, &mut regs, ac, e, words[6], words[7]);
    Some(Outcome::Left(Left {
        ac: regs.ac[usize::from(ac)],
        next: regs.ac[usize::from((ac + 1) % 16)],
        stored: told.stored,
        pc: regs.pc,
        flags: half_of_flags(regs.flags),
        post: told.post,
    }))
}

/// Which word an instruction takes, and where it stores one. None where its words are no accumulator or address.
pub(crate) fn places(op: u16, ac: Word, word: Word, e: Word) -> Option<Outcome>
    requires { op < 512 }
{
    let ac = accumulator(ac)?;
    let e = half(e)?;
    let regs = registers(ac, word, Word::ZERO, Flags::CLEAR);
    let row = row(op);
    let operand = operand_address(row, &regs, ac, e);
    Some(Outcome::Places(operand, destination_of(row, &regs, ac, e)))
}
