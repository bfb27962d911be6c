// Byte instructions: which step is done, and what it leaves.
ghost use Rattle.std.specs.Prelude.{◌≡◌, ℕ, ◌^◌, ◌<◌};
ghost use Rattle.plain_units.specs.Instructions.{does_byte, first_part_done};
ghost use Rattle.ka10_deeds.specs.Bytes.{byte_deposited, byte_loaded, first_part, pointer_stepped, steps_of};
ghost use Rattle.ka10_deeds.specs.Done.{Leaves};

use crate::done::Done;
use crate::registers::{next, word_in};
use ka10_bytes::{deposit, increment, load};
use plain_units::Regs;
use word36::Word;

/// What a byte instruction does once its pointer is taken.
#[derive(Clone, Copy, PartialEq, Eq)]
pub enum ByteStep {
    /// IBP: the pointer is incremented.
    Increment,
    /// ILDB or IDPB: the pointer is incremented, and the instruction is done again.
    FirstPart,
    /// LDB.
    Load,
    /// ILDB once its first part is done.
    LoadSecond,
    /// DPB.
    Deposit,
    /// IDPB once its first part is done.
    DepositSecond,
}

// The codes of IBP, ILDB, LDB, IDPB; that of DPB is the last.
const IBP: u8 = 0;

const ILDB: u8 = 1;

const LDB: u8 = 2;

const IDPB: u8 = 3;

/// The step of a byte instruction, 133 to 137, by its code. ILDB and IDPB have two parts: the flag
/// tells that the first is done.
#[inline(always)]
pub fn byte_step(code: u8, regs: &Regs) -> ByteStep
    requires { code < 5 }
    ensures { (ac e p : ℕ) → does_byte code regs.now ac e p ≡ steps_of result regs.now ac e p }
{
    match code {
        IBP => ByteStep::Increment,
        LDB => ByteStep::Load,
        ILDB if regs.flags.bis => ByteStep::LoadSecond,
        IDPB if regs.flags.bis => ByteStep::DepositSecond,
        ILDB | IDPB => ByteStep::FirstPart,
        _ => ByteStep::Deposit,
    }
}

/// The pointer incremented, which goes back to where it was taken.
#[inline(always)]
pub fn do_increment(regs: &mut Regs, ac: u8, e: u32, p: Word) -> Done
    requires { regs.old.pc < 2 ^ 18 }
    ensures { Leaves (pointer_stepped regs.old e p) ac regs.old regs.new result }
{
    regs.pc = next(regs);
    Done::storing(increment(p))
}

/// The first part of ILDB and IDPB: the pointer incremented goes back, the flag tells that it was,
/// and the program counter stays.
#[inline(always)]
pub fn do_first_part(regs: &mut Regs, ac: u8, e: u32, p: Word) -> Done
    requires { regs.old.pc < 2 ^ 18 }
    ensures { Leaves (first_part regs.old e p) ac regs.old regs.new result }
{
    regs.flags.bis = true;
    Done::storing(increment(p))
}

/// The flag of the first part is cleared, with which the second part begins.
#[inline(always)]
pub fn forget_first_part(regs: &mut Regs)
    ensures { regs.new ≡ first_part_done regs.old }
{
    regs.flags.bis = false;
}

/// The byte that a pointer names in a word goes to AC.
#[inline(always)]
pub fn do_load(regs: &mut Regs, ac: u8, p: Word, w: Word) -> Done
    requires pc { regs.old.pc < 2 ^ 18 }
    requires ac { ac < 16 }
    ensures { Leaves (byte_loaded regs.old p w) ac regs.old regs.new result }
{
    regs.pc = next(regs);
    regs.ac[ac as usize] = load(p, w);
    Done::NOTHING
}

/// The low bits of AC go to where a pointer names a byte of a word, which stands at `e`.
#[inline(always)]
pub fn do_deposit(regs: &mut Regs, ac: u8, p: Word, e: u32, w: Word) -> Done
    requires pc { regs.old.pc < 2 ^ 18 }
    requires ac { ac < 16 }
    ensures { Leaves (byte_deposited regs.old ac p e w) ac regs.old regs.new result }
{
    regs.pc = next(regs);
    Done::storing(deposit(p, w, word_in(regs, ac)))
}
