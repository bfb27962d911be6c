// The steps of deeds: the program counter, flags, accumulators.
ghost use Rattle.std.specs.Prelude.{◌||◌, ◌≡◌, ℕ, ◌+◌, ◌^◌, ◌<◌, if◌then◌else◌};
ghost use Rattle.plain_units.specs.Deeds.{behind_ac, by_mode, in_ac, next_pc, set_with, skip_pc, to_ac, to_e, to_next, unless_zero};
ghost use Rattle.plain_units.specs.Instructions.{with_word};
ghost use Rattle.ka10_deeds.specs.Done.{Leaves, stored_word};

use crate::done::{Done, Post};
use ka10_table::OpMode;
use plain_units::Regs;
use word36::{Flags, Word};

/// The address of the next instruction.
#[inline(always)]
pub fn next(regs: &Regs) -> u32
    requires { regs.now.pc < 2 ^ 18 }
    ensures value { result ≡ next_pc regs.now }
    ensures below { result < 2 ^ 18 }
{
    regs.pc + 1 & Word::HALF_MASK
}

/// The address of the instruction behind the next one.
#[inline(always)]
pub fn skip(regs: &Regs) -> u32
    requires { regs.now.pc < 2 ^ 18 }
    ensures value { result ≡ skip_pc regs.now }
    ensures below { result < 2 ^ 18 }
{
    regs.pc + 2 & Word::HALF_MASK
}

/// The effective address where an instruction jumps, else the address of the next one.
#[inline(always)]
pub fn jump_if(jumps: bool, regs: &Regs, e: u32) -> u32
    requires pc { regs.now.pc < 2 ^ 18 }
    requires e { e < 2 ^ 18 }
    ensures value { result ≡ (if jumps then e else next_pc regs.now) }
    ensures below { result < 2 ^ 18 }
{
    if jumps { e } else { next(regs) }
}

/// The address behind the next instruction where an instruction skips, else that of the next one.
#[inline(always)]
pub fn skip_if(skips: bool, regs: &Regs) -> u32
    requires { regs.now.pc < 2 ^ 18 }
    ensures value { result ≡ (if skips then skip_pc regs.now else next_pc regs.now) }
    ensures below { result < 2 ^ 18 }
{
    if skips { skip(regs) } else { next(regs) }
}

/// The number of the accumulator behind one.
#[inline(always)]
pub fn behind(ac: u8) -> u8
    requires { ac < 16 }
    ensures value { result ≡ behind_ac ac }
    ensures below { result < 16 }
{
    ac + 1 & 0o17
}

/// The word of an accumulator.
#[inline(always)]
pub fn word_in(regs: &Regs, ac: u8) -> Word
    requires { ac < 16 }
    ensures { result ≡ in_ac regs.now ac }
{
    regs.ac[ac as usize]
}

/// A flag is set, where it is to be.
#[inline(always)]
fn raise(flag: &mut bool, by: bool)
    ensures { flag.new ≡ (flag.old || by) }
{
    if by {
        *flag = true;
    }
}

/// Flags are set, and others stay.
#[inline(always)]
pub fn set(regs: &mut Regs, flags: Flags)
    ensures { regs.new ≡ record regs.old { flags = set_with regs.old.flags flags } }
{
    raise(&mut regs.flags.overflow, flags.overflow);
    raise(&mut regs.flags.carry0, flags.carry0);
    raise(&mut regs.flags.carry1, flags.carry1);
    raise(&mut regs.flags.fov, flags.fov);
    raise(&mut regs.flags.bis, flags.bis);
    raise(&mut regs.flags.nodiv, flags.nodiv);
}

/// A word goes to an accumulator that isn't accumulator 0.
#[inline(always)]
pub fn give_own(regs: &mut Regs, ac: u8, word: Word)
    requires { ac < 16 }
    ensures { regs.new ≡ record regs.old { ac = with_word regs.old.ac ac (unless_zero ac word) } }
{
    if ac != 0 {
        regs.ac[ac as usize] = word;
    }
}

/// A result goes to the accumulator by its mode.
#[inline(always)]
pub fn give(mode: OpMode, regs: &mut Regs, ac: u8, word: Word)
    requires { ac < 16 }
    ensures { regs.new ≡ record regs.old { ac = with_word regs.old.ac ac (to_ac mode ac word) } }
{
    match mode {
        OpMode::Basic | OpMode::Immediate | OpMode::Both => regs.ac[ac as usize] = word,
        OpMode::Memory => {}
        OpMode::Own => give_own(regs, ac, word),
    }
}

/// A second word goes to the next accumulator by the mode.
#[inline(always)]
pub fn give_next(mode: OpMode, regs: &mut Regs, ac: u8, low: Option<Word>)
    requires { ac < 16 }
    ensures { regs.new ≡ record regs.old { ac = with_word regs.old.ac (behind_ac ac) (to_next mode low) } }
{
    match (mode, low) {
        (OpMode::Memory, _) | (_, None) => {}
        (_, Some(word)) => {
            let next = behind(ac);
            regs.ac[next as usize] = word;
        }
    }
}

/// The result of a mode that stores it.
#[inline(always)]
pub fn stored_in(mode: OpMode, word: Word) -> Option<Word>
    ensures { (e : ℕ) → result ≡ stored_word (to_e mode e word) }
{
    match mode {
        OpMode::Basic | OpMode::Immediate => None,
        OpMode::Memory | OpMode::Both | OpMode::Own => Some(word),
    }
}

/// A result in its mode, with the next instruction.
#[inline(always)]
pub fn leave_result(mode: OpMode, regs: &mut Regs, ac: u8, e: u32, word: Word) -> Done
    requires pc { regs.old.pc < 2 ^ 18 }
    requires ac { ac < 16 }
    ensures { Leaves (by_mode mode regs.old ac e word) ac regs.old regs.new result }
{
    regs.pc = next(regs);
    give(mode, regs, ac, word);
    Done {
        stored: stored_in(mode, word),
        post: Post::Nothing,
    }
}
