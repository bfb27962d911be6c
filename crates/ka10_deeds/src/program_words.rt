// The PC word: the flags, and the address of the next instruction.
ghost use Rattle.std.specs.Prelude.{◌≡◌, ◌^◌, ◌<◌, ◌≤◌};
ghost use Rattle.plain_units.specs.Deeds.{flag_bit, flags_half, half_flags, pc_word};

use crate::registers::next;
use plain_units::Regs;
use word36::{Flags, Word};

/// A flag as a bit of the left half, with so many bits to its right.
#[inline(always)]
fn bit(flag: bool, places: u32) -> u32
    requires { places < 18 }
    ensures value { result ≡ flag_bit flag places }
    ensures below { result ≤ 2 ^ places }
{
    if flag { 1 << places } else { 0 }
}

/// The flags as a left half: overflow bit 0, carry 0 bit 1, carry 1 bit 2, floating overflow bit 3,
/// first part done bit 4, user bit 5, which is always 1, no divide bit 12.
#[inline(always)]
pub fn half_of_flags(flags: Flags) -> u32
    ensures value { result ≡ flags_half flags }
    ensures below { result < 2 ^ 18 }
{
    bit(flags.overflow, 17)
        + bit(flags.carry0, 16)
        + bit(flags.carry1, 15)
        + bit(flags.fov, 14)
        + bit(flags.bis, 13)
        + (1 << 12)
        + bit(flags.nodiv, 5)
}

/// The flags of a left half, in the places of [`half_of_flags`].
#[inline(always)]
pub fn flags_of(half: u32) -> Flags
    requires { half < 2 ^ 18 }
    ensures { result ≡ half_flags half }
{
    Flags {
        overflow: half >> 17 & 1 == 1,
        carry0: half >> 16 & 1 == 1,
        carry1: half >> 15 & 1 == 1,
        fov: half >> 14 & 1 == 1,
        bis: half >> 13 & 1 == 1,
        nodiv: half >> 5 & 1 == 1,
    }
}

/// The PC word: the flags in the left half, the address of the next instruction in the right.
#[inline(always)]
pub fn pc_word(regs: &Regs) -> Word
    requires { regs.now.pc < 2 ^ 18 }
    ensures { result ≡ pc_word regs.now }
{
    Word::join(half_of_flags(regs.flags), next(regs))
}
