// Jumps, calls and returns.
ghost use Rattle.std.specs.Prelude.{◌≡◌, ◌+◌, ◌%◌, ◌^◌, ◌<◌, false, if◌then◌else◌};
ghost use Rattle.word36.specs.Shifts.{first_one};
ghost use Rattle.ka10_table.specs.declared.families.Family.TheVariants as family;
ghost use Rattle.ka10_table.specs.declared.families.OpMode.TheVariants.{Basic};
ghost use Rattle.ka10_deeds.specs.Acts.{one};

use crate::done::Done;
use crate::has_deed::HasDeed;
use crate::program_words::{flags_of, pc_word};
use crate::registers::{behind, jump_if, next, word_in};
use crate::stacks::{is_negative, up};
use ka10_alu::shift;
use plain_units::Regs;
use word36::Word;
use word36::opcodes::JFFO;

/// JFFO (243): the accumulator behind AC gets the count of zeros before the first one, or 0 where
/// there is no one, and then the next instruction follows.
#[derive(Clone, Copy)]
pub struct Jffo;

impl HasDeed for Jffo {
    ghost instruction = { λ i. one 0o243 family.Jffo Basic 0 };

    ghost is_valid = { λ i. Unit {0} };

    #[inline(always)]
    #[tactic(auto, unfolding(plain_units::specs::Deeds::deed_of))]
    fn do_deed(self, regs: &mut Regs, ac: u8, e: u32, last: Word, m: Word) -> Done {
        let a = word_in(regs, ac);
        let after = behind(ac);
        regs.pc = jump_if(a.value() != 0, regs, e);
        regs.ac[after as usize] = zeros_before(a);
        Done::NOTHING
    }
}

/// How many zeros stand before the first one of a word, 0 where there is no one.
#[inline(always)]
#[tactic(auto, unfolding(word36::specs::Shifts::shifted))]
fn zeros_before(a: Word) -> Word
    ensures { result ≡ first_one a }
{
    shift(JFFO, a, a, 0).low.unwrap_or(Word::ZERO)
}

/// AOBJP and AOBJN (252 and 253), codes 0 and 1: 1 is added to both halves of AC, as 1000001 to
/// one number.
#[derive(Clone, Copy)]
pub struct Aobj {
    pub code: u8,
}

impl HasDeed for Aobj {
    ghost instruction = { λ i. one (0o252 + i.code) family.Aobj Basic i.code };

    ghost is_valid = { λ i. Unit {0} };

    #[inline(always)]
    #[tactic(auto, unfolding(plain_units::specs::Deeds::deed_of))]
    fn do_deed(self, regs: &mut Regs, ac: u8, e: u32, last: Word, m: Word) -> Done {
        let word = up(word_in(regs, ac));
        regs.pc = jump_if(is_negative(word) == (self.code != 0), regs, e);
        regs.ac[ac as usize] = word;
        Done::NOTHING
    }
}

/// JRST (254). `last` is the last word that was taken for the address.
#[derive(Clone, Copy)]
pub struct Jrst;

impl HasDeed for Jrst {
    ghost instruction = { λ i. one 0o254 family.Jrst Basic 0 };

    ghost is_valid = { λ i. Unit {0} };

    #[inline(always)]
    #[tactic(auto, unfolding(plain_units::specs::Deeds::deed_of))]
    fn do_deed(self, regs: &mut Regs, ac: u8, e: u32, last: Word, m: Word) -> Done {
        regs.pc = e;
        if ac / 2 % 2 == 1 {
            regs.flags = flags_of(last.left());
        }
        Done::NOTHING
    }
}

/// JFCL (255).
#[derive(Clone, Copy)]
pub struct Jfcl;

impl HasDeed for Jfcl {
    ghost instruction = { λ i. one 0o255 family.Jfcl Basic 0 };

    ghost is_valid = { λ i. Unit {0} };

    #[inline(always)]
    #[tactic(auto, unfolding(plain_units::specs::Deeds::deed_of))]
    fn do_deed(self, regs: &mut Regs, ac: u8, e: u32, last: Word, m: Word) -> Done {
        let flags = regs.flags;
        let overflow = ac >> 3 & 1 == 1;
        let carry0 = ac >> 2 & 1 == 1;
        let carry1 = ac >> 1 & 1 == 1;
        let fov = ac & 1 == 1;
        let is_set = overflow & flags.overflow
            | carry0 & flags.carry0
            | carry1 & flags.carry1
            | fov & flags.fov;
        regs.pc = jump_if(is_set, regs, e);
        regs.flags.overflow = cleared(overflow, flags.overflow);
        regs.flags.carry0 = cleared(carry0, flags.carry0);
        regs.flags.carry1 = cleared(carry1, flags.carry1);
        regs.flags.fov = cleared(fov, flags.fov);
        Done::NOTHING
    }
}

/// A flag that is cleared where it is named.
#[inline(always)]
fn cleared(named: bool, flag: bool) -> bool
    ensures { result ≡ (if named then false else flag) }
{
    flag & !named
}

/// JSR and JSP (264 and 265), codes 0 and 1.
#[derive(Clone, Copy)]
pub struct JsrJsp {
    pub code: u8,
}

impl HasDeed for JsrJsp {
    ghost instruction = { λ i. one (0o264 + i.code) family.JsrJsp Basic i.code };

    ghost is_valid = { λ i. Unit {0} };

    #[inline(always)]
    #[tactic(auto, unfolding(plain_units::specs::Deeds::deed_of))]
    fn do_deed(self, regs: &mut Regs, ac: u8, e: u32, last: Word, m: Word) -> Done {
        let word = pc_word(regs);
        regs.flags.bis = false;
        if self.code == 0 {
            regs.pc = behind_address(e);
            Done::storing(word)
        } else {
            regs.ac[ac as usize] = word;
            regs.pc = e;
            Done::NOTHING
        }
    }
}

/// JSA and JRA (266 and 267), codes 0 and 1.
#[derive(Clone, Copy)]
pub struct JsaJra {
    pub code: u8,
}

impl HasDeed for JsaJra {
    ghost instruction = { λ i. one (0o266 + i.code) family.JsaJra Basic i.code };

    ghost is_valid = { λ i. Unit {0} };

    #[inline(always)]
    #[tactic(auto, unfolding(plain_units::specs::Deeds::deed_of))]
    fn do_deed(self, regs: &mut Regs, ac: u8, e: u32, last: Word, m: Word) -> Done {
        if self.code == 0 {
            let word = word_in(regs, ac);
            regs.ac[ac as usize] = Word::join(e, next(regs));
            regs.pc = behind_address(e);
            Done::storing(word)
        } else {
            regs.ac[ac as usize] = m;
            regs.pc = e;
            Done::NOTHING
        }
    }
}

/// The next address.
#[inline(always)]
fn behind_address(e: u32) -> u32
    requires { e < 2 ^ 18 }
    ensures value { result ≡ (e + 1) % 2 ^ 18 }
    ensures below { result < 2 ^ 18 }
{
    e + 1 & Word::HALF_MASK
}
