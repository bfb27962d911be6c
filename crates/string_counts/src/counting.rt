// How far a string has come whose call counts its bytes.
ghost use Rattle.std.specs.Prelude.{◌≡◌, ◌==◌, ◌&&◌};
ghost use Rattle.plain_units.specs.Deeds.{in_ac};
ghost use Rattle.word36.specs.Words.{is_negative as is_negative_of};
ghost use Rattle.plain_model.specs.StringCalls.{behind_byte as behind_byte_of, count_behind as count_behind_of, is_last as is_last_of};
ghost use Rattle.call_turns.specs.Turns.{IsRegs};

use call_turns::{accumulator, behind, with_ac};
use plain_units::Regs;
use word36::Word;

// Whether bit 0 of a word is 1.
fn is_negative(word: Word) -> bool
    ensures { result ≡ is_negative_of word }
{
    word.value() >= 1 << 35
}

// A count goes by one towards 0; one that is 0 stays.
fn count_behind(count: Word) -> Word
    ensures { result ≡ count_behind_of count }
{
    if count == Word::ZERO {
        return Word::ZERO;
    }
    if is_negative(count) {
        Word::wrapped(count.value() + 1)
    } else {
        Word::wrapped(count.value() - 1)
    }
}

// Whether a byte is the last of its string: with a count of 0 a byte that is 0; with another the byte that uses it up, and with a
// positive one the byte that accumulator 4 has too.
fn is_last(regs: &Regs, byte: Word) -> bool
    requires { IsRegs regs.now }
    ensures { result ≡ is_last_of regs.now byte }
{
    let count = accumulator(regs, 3);
    if count == Word::ZERO {
        return byte == Word::ZERO;
    }
    count_behind(count) == Word::ZERO || !is_negative(count) && byte == accumulator(regs, 4)
}

/// The registers behind a byte of the string in accumulator 2, whose pointer has come so far: the call is made again, unless that
/// was the last byte.
pub fn behind_byte(regs: &Regs, pointer: Word, byte: Word) -> Regs
    requires { IsRegs regs.now }
    ensures is { result ≡ behind_byte_of regs.now pointer byte }
    ensures regs { IsRegs result }
{
    let count = count_behind(accumulator(regs, 3));
    let told = with_ac(with_ac(*regs, 2, pointer), 3, count);
    if is_last(regs, byte) {
        behind(told)
    } else {
        told
    }
}

/// Whether a string ends before a byte: one with a count of 0 ends before a byte that is 0.
pub fn ends_before(regs: &Regs, byte: Word) -> bool
    requires { IsRegs regs.now }
    ensures { result ≡ ((in_ac regs.now 3 == 0) && (byte == 0)) }
{
    accumulator(regs, 3) == Word::ZERO && byte == Word::ZERO
}
