// Pushdown lists, which an accumulator names: its left half counts, its right half is an address.
ghost use Rattle.std.specs.Prelude.{◌≡◌, ◌+◌, ◌<◌};
ghost use Rattle.word36.specs.Words as words;
ghost use Rattle.ka10_table.specs.declared.families.Family.TheVariants as family;
ghost use Rattle.ka10_table.specs.declared.families.OpMode.TheVariants.{Basic};
ghost use Rattle.plain_units.specs.Deeds.{down, in_ac, up};
ghost use Rattle.ka10_deeds.specs.Acts.{one};

use crate::done::{Done, Post};
use crate::has_deed::HasDeed;
use crate::program_words::pc_word;
use crate::registers::{next, word_in};
use plain_units::Regs;
use word36::Word;

// One in each half.
const BOTH_ONES: u64 = 0o1000001;

/// A word with one more in each half, added as one number.
#[inline(always)]
pub fn up(w: Word) -> Word
    ensures { result ≡ up w }
{
    Word::wrapped(w.value() + BOTH_ONES)
}

/// A word with one less in each half, subtracted as one number.
#[inline(always)]
pub fn down(w: Word) -> Word
    ensures { result ≡ down w }
{
    Word::wrapped(w.value() + (Word::MASK + 1) - BOTH_ONES)
}

/// Bit 0 is 1.
#[inline(always)]
pub fn is_negative(w: Word) -> bool
    ensures { result ≡ words.is_negative w }
{
    w.value() > Word::MAGNITUDE_MASK
}

/// The word that PUSH and PUSHJ leave in AC; its right half is the address at which they store.
#[inline(always)]
pub fn pushed(regs: &Regs, ac: u8) -> Word
    requires { ac < 16 }
    ensures { result ≡ up (in_ac regs.now ac) }
{
    up(word_in(regs, ac))
}

/// PUSHJ (260): the PC word is stored at the right half of what AC becomes.
#[derive(Clone, Copy)]
pub struct Pushj;

impl HasDeed for Pushj {
    ghost instruction = { λ i. one 0o260 family.Pushj Basic 0 };

    ghost is_valid = { λ i. Unit {0} };

    #[inline(always)]
    #[tactic(auto, unfolding(plain_units::specs::Deeds::deed_of))]
    fn do_deed(self, regs: &mut Regs, ac: u8, e: u32, last: Word, m: Word) -> Done {
        let word = pc_word(regs);
        let top = pushed(regs, ac);
        regs.ac[ac as usize] = top;
        regs.flags.bis = false;
        regs.pc = e;
        Done {
            stored: Some(word),
            post: Post::pushdown(0, top),
        }
    }
}

/// PUSH and POP (261 and 262), codes 0 and 1. PUSH stores the operand at the right half of what AC
/// becomes, POP at the effective address.
#[derive(Clone, Copy)]
pub struct PushPop {
    pub code: u8,
}

impl HasDeed for PushPop {
    ghost instruction = { λ i. one (0o261 + i.code) family.PushPop Basic i.code };

    ghost is_valid = { λ i. Unit {0} };

    #[inline(always)]
    #[tactic(auto, unfolding(plain_units::specs::Deeds::deed_of))]
    fn do_deed(self, regs: &mut Regs, ac: u8, e: u32, last: Word, m: Word) -> Done {
        regs.pc = next(regs);
        if self.code == 0 {
            let top = pushed(regs, ac);
            regs.ac[ac as usize] = top;
            Done {
                stored: Some(m),
                post: Post::pushdown(0, top),
            }
        } else {
            let top = down(word_in(regs, ac));
            regs.ac[ac as usize] = top;
            Done {
                stored: Some(m),
                post: Post::pushdown(Word::HALF_MASK, top),
            }
        }
    }
}

/// POPJ (263): the operand is the word at the right half of AC.
#[derive(Clone, Copy)]
pub struct Popj;

impl HasDeed for Popj {
    ghost instruction = { λ i. one 0o263 family.Popj Basic 0 };

    ghost is_valid = { λ i. Unit {0} };

    #[inline(always)]
    #[tactic(auto, unfolding(plain_units::specs::Deeds::deed_of))]
    fn do_deed(self, regs: &mut Regs, ac: u8, e: u32, last: Word, m: Word) -> Done {
        let top = down(word_in(regs, ac));
        regs.ac[ac as usize] = top;
        regs.pc = m.right();
        Done {
            stored: None,
            post: Post::pushdown(Word::HALF_MASK, top),
        }
    }
}
