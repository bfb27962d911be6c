// Instructions whose row is known where they are compiled, a type a family.
ghost use Rattle.std.specs.Prelude.{◌^◌, ◌<◌};
ghost use Rattle.ka10_deeds.specs.Done.{DoesRow};

use crate::done::Done;
use plain_units::Regs;
use word36::Word;

/// An instruction that has a deed. What is generic over it is compiled for each family by
/// itself, and where its fields are literals for each row.
pub trait HasDeed: Copy {
    ghost use Rattle.ka10_deeds.specs.Acts.{Instruction};

    /// Its opcode and its row.
    ghost instruction: { Self → Instruction };

    /// What has to hold of its fields.
    ghost is_valid: { Self → Type 0 };

    /// Does it on the registers, with accumulator AC, the effective address, the last word taken
    /// for that, and the operand.
    fn do_deed(self, regs: &mut Regs, ac: u8, e: u32, last: Word, m: Word) -> Done
        requires valid { is_valid self }
        requires pc { regs.old.pc < 2 ^ 18 }
        requires ac { ac < 16 }
        requires e { e < 2 ^ 18 }
        ensures { DoesRow (instruction self).row (instruction self).op ac e last m regs.old regs.new result };
}
