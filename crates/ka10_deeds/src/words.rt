// Boolean functions, halfwords, tests, exchanges and blocks.
ghost use Rattle.std.specs.Prelude.{◌≡◌};
ghost use Rattle.word36.specs.Boolean.{IsBoolean};
ghost use Rattle.word36.specs.Halves.{IsHalfwordMove};
ghost use Rattle.word36.specs.Tests.{IsTest};
ghost use Rattle.ka10_table.specs.declared.families.Family.TheVariants as family;
ghost use Rattle.ka10_table.specs.declared.families.OpMode.TheVariants.{Basic};
ghost use Rattle.plain_units.specs.Deeds.{halves_up};
ghost use Rattle.ka10_deeds.specs.Acts.{one};

use crate::done::Done;
use crate::has_deed::HasDeed;
use crate::registers::{leave_result, next, skip_if, word_in};
use ka10_alu::{boolean, half, mask, test};
use ka10_table::{OpMode, TableRow};
use plain_units::Regs;
use word36::Word;

/// SETZ to SETO (400 to 477).
#[derive(Clone, Copy)]
pub struct Boolean {
    pub op: u16,
    pub row: TableRow,
}

impl HasDeed for Boolean {
    ghost instruction = { λ i. record { op = i.op; row = i.row } };

    ghost is_valid = { λ i. (i.row.family ≡ family.Boolean) × (IsBoolean i.op) };

    #[inline(always)]
    #[tactic(auto, unfolding(plain_units::specs::Deeds::deed_of))]
    fn do_deed(self, regs: &mut Regs, ac: u8, e: u32, last: Word, m: Word) -> Done {
        let word = boolean(self.op, word_in(regs, ac), m);
        leave_result(self.row.mode, regs, ac, e, word)
    }
}

/// HLL to HLRE (500 to 577).
#[derive(Clone, Copy)]
pub struct Half {
    pub op: u16,
    pub row: TableRow,
}

impl HasDeed for Half {
    ghost instruction = { λ i. record { op = i.op; row = i.row } };

    ghost is_valid = { λ i. (i.row.family ≡ family.Half) × (IsHalfwordMove i.op) };

    #[inline(always)]
    #[tactic(auto, unfolding(plain_units::specs::Deeds::deed_of))]
    fn do_deed(self, regs: &mut Regs, ac: u8, e: u32, last: Word, m: Word) -> Done {
        let a = word_in(regs, ac);
        match self.row.mode {
            OpMode::Memory => leave_result(OpMode::Memory, regs, ac, e, half(self.op, a, m)),
            OpMode::Own => leave_result(OpMode::Own, regs, ac, e, half(self.op, m, m)),
            OpMode::Basic => leave_result(OpMode::Basic, regs, ac, e, half(self.op, m, a)),
            OpMode::Immediate => leave_result(OpMode::Immediate, regs, ac, e, half(self.op, m, a)),
            OpMode::Both => leave_result(OpMode::Both, regs, ac, e, half(self.op, m, a)),
        }
    }
}

/// TRN to TSON (600 to 677).
#[derive(Clone, Copy)]
pub struct Test {
    pub op: u16,
    pub row: TableRow,
}

impl HasDeed for Test {
    ghost instruction = { λ i. record { op = i.op; row = i.row } };

    ghost is_valid = { λ i. (i.row.family ≡ family.Test) × (IsTest i.op) };

    #[inline(always)]
    #[tactic(auto, unfolding(plain_units::specs::Deeds::deed_of))]
    fn do_deed(self, regs: &mut Regs, ac: u8, e: u32, last: Word, m: Word) -> Done {
        let (word, skips) = test(self.op, word_in(regs, ac), mask(self.op, m));
        regs.pc = skip_if(skips, regs);
        regs.ac[ac as usize] = word;
        Done::NOTHING
    }
}

/// EXCH (250).
#[derive(Clone, Copy)]
pub struct Exch;

impl HasDeed for Exch {
    ghost instruction = { λ i. one 0o250 family.Exch Basic 0 };

    ghost is_valid = { λ i. Unit {0} };

    #[inline(always)]
    #[tactic(auto, unfolding(plain_units::specs::Deeds::deed_of))]
    fn do_deed(self, regs: &mut Regs, ac: u8, e: u32, last: Word, m: Word) -> Done {
        let word = word_in(regs, ac);
        regs.pc = next(regs);
        regs.ac[ac as usize] = m;
        Done::storing(word)
    }
}

/// A word with one more in each half, each half by itself.
#[inline(always)]
fn halves_up(w: Word) -> Word
    ensures { result ≡ halves_up w }
{
    Word::join(
        w.left() + 1 & Word::HALF_MASK,
        w.right() + 1 & Word::HALF_MASK,
    )
}

/// BLT (251), one word of its block: the operand, which stood at the left half of AC, is stored at
/// the right half before AC is counted up.
#[derive(Clone, Copy)]
pub struct Blt;

impl HasDeed for Blt {
    ghost instruction = { λ i. one 0o251 family.Blt Basic 0 };

    ghost is_valid = { λ i. Unit {0} };

    #[inline(always)]
    #[tactic(auto, unfolding(plain_units::specs::Deeds::deed_of))]
    fn do_deed(self, regs: &mut Regs, ac: u8, e: u32, last: Word, m: Word) -> Done {
        let a = word_in(regs, ac);
        let to = a.right();
        let counted = if to == ac as u32 { m } else { a };
        regs.ac[ac as usize] = halves_up(counted);
        if e <= to {
            regs.pc = next(regs);
        }
        Done::storing(m)
    }
}
