// Moves of whole words.
ghost use Rattle.std.specs.Prelude.{◌≡◌};
ghost use Rattle.word36.specs.Arithmetic.{IsArithmetic};
ghost use Rattle.ka10_table.specs.declared.families.Family.TheVariants as family;

use crate::done::{Done, Post};
use crate::has_deed::HasDeed;
use crate::operations::do_operation;
use crate::registers::{behind, next, set, word_in};
use ka10_alu::arith;
use ka10_table::{OpMode, TableRow};
use plain_units::Regs;
use word36::Word;

/// MOVE, MOVS, MOVN and MOVM (200 to 217). In mode M the accumulator is the source, and the operand is
/// any word.
#[derive(Clone, Copy)]
pub struct Move {
    pub op: u16,
    pub row: TableRow,
}

impl HasDeed for Move {
    ghost instruction = { λ i. record { op = i.op; row = i.row } };

    ghost is_valid = { λ i. (i.row.family ≡ family.Move) × (IsArithmetic i.op) };

    #[inline(always)]
    #[tactic(auto, unfolding(plain_units::specs::Deeds::deed_of))]
    fn do_deed(self, regs: &mut Regs, ac: u8, e: u32, last: Word, m: Word) -> Done {
        match self.row.mode {
            OpMode::Memory => {
                let a = word_in(regs, ac);
                regs.pc = next(regs);
                match arith(self.op, a, word_in(regs, behind(ac)), a) {
                    Some(out) => {
                        set(regs, out.flags);
                        Done {
                            stored: Some(out.word),
                            post: Post::overflow(out.flags.overflow),
                        }
                    }
                    None => Done::NOTHING,
                }
            },
            OpMode::Basic => do_operation(OpMode::Basic, self.op, regs, ac, e, m),
            OpMode::Immediate => do_operation(OpMode::Immediate, self.op, regs, ac, e, m),
            OpMode::Both => do_operation(OpMode::Both, self.op, regs, ac, e, m),
            OpMode::Own => do_operation(OpMode::Own, self.op, regs, ac, e, m),
        }
    }
}
