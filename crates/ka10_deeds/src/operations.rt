// Operations in modes: sums, products, quotients, shifts.
ghost use Rattle.std.specs.Prelude.{◌≡◌, ℕ, ◌+◌, ◌^◌, ◌<◌, ◌≤◌, Some, None, MatchOption};
ghost use Rattle.word36.specs.declared.opcodes.TheConstants.{ADD, SUB};
ghost use Rattle.word36.specs.Arithmetic.{IsArithmetic, arithmetic, moved};
ghost use Rattle.word36.specs.Shifts.{IsShift};
ghost use Rattle.plain_units.specs.Deeds.{behind_ac, in_ac, operated};
ghost use Rattle.ka10_deeds.specs.Acts.{IsOperation, IsShiftOfWords};
ghost use Rattle.ka10_deeds.specs.Done.{Leaves, outcome_of};

use crate::done::{Done, Post};
use crate::has_deed::HasDeed;
use crate::known_sums::positive_sum;
use crate::registers::{behind, give, give_next, leave_result, next, set, stored_in, word_in};
use ka10_alu::{Out, arith, shift};
use ka10_table::{OpMode, TableRow};
use plain_units::Regs;
use word36::Word;
use word36::opcodes::{ADD, SUB};

/// What an operation gave, in its mode.
#[inline(always)]
fn leave_out(mode: OpMode, regs: &mut Regs, ac: u8, e: u32, out: Out) -> Done
    requires pc { regs.old.pc < 2 ^ 18 }
    requires ac { ac < 16 }
    ensures { Leaves (operated mode regs.old ac e (Some (outcome_of out))) ac regs.old regs.new result }
{
    regs.pc = next(regs);
    set(regs, out.flags);
    give(mode, regs, ac, out.word);
    give_next(mode, regs, ac, out.low);
    Done {
        stored: stored_in(mode, out.word),
        post: Post::overflow(out.flags.overflow),
    }
}

/// A division that isn't done sets flags alone.
#[inline(always)]
fn leave_undone(regs: &mut Regs) -> Done
    requires { regs.old.pc < 2 ^ 18 }
    ensures { (mode : OpMode) (ac e : ℕ) → Leaves (operated mode regs.old ac e None) ac regs.old regs.new result }
{
    regs.pc = next(regs);
    regs.flags.overflow = true;
    regs.flags.nodiv = true;
    Done {
        stored: None,
        post: Post::Overflow,
    }
}

/// The sum of ADD, where no flag comes of it. None where it isn't ADD, and where the words come to 2^35 or more.
#[inline(always)]
#[tactic(auto, unfolding(word36::specs::Arithmetic::arithmetic))]
fn plain_sum(op: u16, a: Word, m: Word) -> Option<Word>
    ensures { MatchOption result ((ADD ≤ op) → (op < SUB) → 2 ^ 35 ≤ a + m) (λ word. (a1 : ℕ) → arithmetic op a a1 m ≡ Some (moved word)) }
{
    match op {
        ADD..SUB => positive_sum(a, m),
        _ => None,
    }
}

/// An operation on the accumulator and the operand, in one of its modes.
#[inline(always)]
pub fn do_operation(mode: OpMode, op: u16, regs: &mut Regs, ac: u8, e: u32, m: Word) -> Done
    requires op { IsArithmetic op }
    requires pc { regs.old.pc < 2 ^ 18 }
    requires ac { ac < 16 }
    ensures { Leaves (operated mode regs.old ac e (arithmetic op (in_ac regs.old ac) (in_ac regs.old (behind_ac ac)) m)) ac regs.old regs.new result }
{
    if let Some(word) = plain_sum(op, word_in(regs, ac), m) {
        return leave_result(mode, regs, ac, e, word);
    }
    match arith(op, word_in(regs, ac), word_in(regs, behind(ac)), m) {
        Some(out) => leave_out(mode, regs, ac, e, out),
        None => leave_undone(regs),
    }
}

/// IMUL, MUL, IDIV and DIV (220 to 237), ADD and SUB (270 to 277).
#[derive(Clone, Copy)]
pub struct Operation {
    pub op: u16,
    pub row: TableRow,
}

impl HasDeed for Operation {
    ghost instruction = { λ i. record { op = i.op; row = i.row } };

    ghost is_valid = { λ i. (IsOperation i.row.family) × (IsArithmetic i.op) };

    #[inline(always)]
    #[tactic(auto, unfolding(plain_units::specs::Deeds::deed_of))]
    fn do_deed(self, regs: &mut Regs, ac: u8, e: u32, last: Word, m: Word) -> Done {
        do_operation(self.row.mode, self.op, regs, ac, e, m)
    }
}

/// ASH, ROT and LSH (240 to 242), ASHC, ROTC and LSHC (244 to 246), of the accumulator and the one
/// behind it by the effective address.
#[derive(Clone, Copy)]
pub struct Shift {
    pub op: u16,
    pub row: TableRow,
}

impl HasDeed for Shift {
    ghost instruction = { λ i. record { op = i.op; row = i.row } };

    ghost is_valid = { λ i. (IsShiftOfWords i.row.family) × (IsShift i.op) };

    #[inline(always)]
    #[tactic(auto, unfolding(plain_units::specs::Deeds::deed_of))]
    fn do_deed(self, regs: &mut Regs, ac: u8, e: u32, last: Word, m: Word) -> Done {
        let out = shift(self.op, word_in(regs, ac), word_in(regs, behind(ac)), e);
        leave_out(OpMode::Basic, regs, ac, e, out)
    }
}
