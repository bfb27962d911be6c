// Halfword moves.
ghost use Rattle.std.specs.Prelude.{◌≡◌, ◌<◌, ◌^◌};
ghost use Rattle.word36.specs.Halves.{IsHalfwordMove, half_of, other_half};

use word36::Word;
use word36::opcodes::HLL;

/// The destination's other half, by the third letter: none, Z, O or E.
#[inline(always)]
fn other(letter: u16, old: u32, moved: u32) -> u32
    requires letter { letter < 4 }
    requires old { old < 2 ^ 18 }
    requires moved { moved < 2 ^ 18 }
    ensures value { result ≡ other_half letter old moved }
    ensures below { result < 2 ^ 18 }
{
    match letter {
        0 => old,
        1 => 0,
        2 => Word::HALF_MASK,
        _ => (moved >> 17) * Word::HALF_MASK,
    }
}

/// The result of HLL to HLRE, opcodes 500 to 577, whatever their mode (PDP-10 handbook, "Half word
/// data transmission"): the first letter names the source's half, the second the destination's;
/// the destination's other half stays, or becomes 0, all ones, or copies of the moved half's
/// leftmost bit.
#[inline(always)]
#[tactic(auto, unfolding(word36::specs::Halves::half_of))]
pub fn half(op: u16, source: Word, dest: Word) -> Word
    requires { IsHalfwordMove op }
    ensures { result ≡ half_of op source dest }
{
    let code = (op - HLL) / 4;
    let to_left = code < 8;
    let from_left = to_left == (code % 2 == 0);
    let moved = if from_left {
        source.left()
    } else {
        source.right()
    };
    let letter = code / 2 % 4;
    if to_left {
        Word::join(moved, other(letter, dest.right(), moved))
    } else {
        Word::join(other(letter, dest.left(), moved), moved)
    }
}
