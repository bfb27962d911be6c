// The fields of an instruction word, and one step of an effective address: what a unit in place and a unit that is
// planned both go by.
ghost use Rattle.std.specs.Prelude.{◌≡◌, ◌<◌, ◌&&◌, ◌==◌, not};
ghost use Rattle.plain_units.specs.Addressing as word_fields;
ghost use Rattle.plain_units.specs.Instructions as instructions;
ghost use Rattle.machine_names.specs.Bounds.{IsAddress};
ghost use Rattle.ka10_deeds.specs.Addresses.{addressed};

use plain_units::Regs;
use word36::Word;

/// How many words a unit takes for an address, or executes, at most: more than it may refer to.
pub const MOST_WORDS: u32 = 17;

/// An effective address, below 2^18, and the last word taken for it: the accumulator X, where the
/// last step had one, else the last indirect word, else the instruction.
#[derive(Clone, Copy, PartialEq, Eq)]
pub struct Address {
    pub e: u32,
    pub last: Word,
}

/// The opcode of an instruction word, bits 0 to 8.
#[inline(always)]
pub fn opcode(word: Word) -> u16
    ensures value { result ≡ word_fields.opcode word }
    ensures below { result < 512 }
{
    (word.value() >> 27) as u16
}

/// AC: the accumulator that an instruction word names, bits 9 to 12.
#[inline(always)]
pub fn ac_field(word: Word) -> u8
    ensures value { result ≡ word_fields.ac_field word }
    ensures below { result < 16 }
{
    (word.left() >> 5 & 0o17) as u8
}

/// Whether I and X are both 0, so that the address is Y.
#[inline(always)]
pub fn is_plain(word: Word) -> bool
    ensures { result ≡ (not (word_fields.is_indirect word) && (word_fields.index_field word == 0)) }
{
    word.value() % (1 << 23) < 1 << 18
}

/// I: whether the address is that of the word that gives the next one.
#[inline(always)]
pub fn is_indirect(word: Word) -> bool
    ensures { result ≡ word_fields.is_indirect word }
{
    word.left() >> 4 & 1 == 1
}

/// Y, plus the right half of accumulator X where X isn't 0, and the word last taken.
#[inline(always)]
pub fn step_of(regs: &Regs, word: Word) -> Address
    ensures address { result ≡ addressed regs.now.ac word }
    ensures below { IsAddress result.e }
{
    let y = word.right();
    let x = word.left() & 0o17;
    if x == 0 {
        return Address { e: y, last: word };
    }
    let last = regs.ac[x as usize];
    Address {
        e: y + last.right() & Word::HALF_MASK,
        last,
    }
}

/// Whether JRST with this accumulator, which has bit 4 or bit 10 (octal), is an instruction of the
/// executive.
#[inline(always)]
pub fn is_executive(ac: u8) -> bool
    requires { ac < 16 }
    ensures { result ≡ instructions.is_executive ac }
{
    ac >= 4
}
