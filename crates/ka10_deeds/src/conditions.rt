// Jumps and skips on conditions.
ghost use Rattle.std.specs.Prelude.{◌≡◌, ◌+◌, ◌^◌, ◌<◌, if◌then◌else◌, nat_lt};
ghost use Rattle.ka10_table.specs.declared.families.Family.TheVariants as family;
ghost use Rattle.ka10_table.specs.declared.families.OpMode.TheVariants.{Basic};
ghost use Rattle.plain_units.specs.Deeds.{counts, in_ac};
ghost use Rattle.ka10_deeds.specs.Acts.{one};
ghost use Rattle.ka10_deeds.specs.Done.{Leaves};
ghost use Rattle.ka10_deeds.specs.KnownSums.{carried, counted_to};

use crate::done::{Done, Post};
use crate::has_deed::HasDeed;
use crate::known_sums::{word_above, word_below};
use crate::registers::{give_own, jump_if, set, skip_if, word_in};
use ka10_alu::{add, holds};
use plain_units::Regs;
use word36::Word;

/// CAI and CAM (300 to 317), codes 0 to 7 and 10 to 17: AC is compared with the operand.
#[derive(Clone, Copy)]
pub struct Compare {
    pub code: u8,
}

impl HasDeed for Compare {
    ghost instruction = { λ i. one (0o300 + i.code) family.Compare Basic i.code };

    ghost is_valid = { λ i. Unit {0} };

    #[inline(always)]
    #[tactic(auto, unfolding(plain_units::specs::Deeds::deed_of))]
    fn do_deed(self, regs: &mut Regs, ac: u8, e: u32, last: Word, m: Word) -> Done {
        let difference = word_in(regs, ac).signed() - m.signed();
        regs.pc = skip_if(holds(self.code % 8, difference), regs);
        Done::NOTHING
    }
}

/// JUMP and SKIP (320 to 337), codes 0 to 7 and 10 to 17.
#[derive(Clone, Copy)]
pub struct JumpSkip {
    pub code: u8,
}

impl HasDeed for JumpSkip {
    ghost instruction = { λ i. one (0o320 + i.code) family.JumpSkip Basic i.code };

    ghost is_valid = { λ i. i.code < 16 };

    #[inline(always)]
    #[tactic(auto, unfolding(plain_units::specs::Deeds::deed_of))]
    fn do_deed(self, regs: &mut Regs, ac: u8, e: u32, last: Word, m: Word) -> Done {
        if self.code < 8 {
            regs.pc = jump_if(holds(self.code, word_in(regs, ac).signed()), regs, e);
            Done::NOTHING
        } else {
            regs.pc = skip_if(holds(self.code - 8, m.signed()), regs);
            give_own(regs, ac, m);
            Done::NOTHING
        }
    }
}

/// The word that is counted: AC where the code is below 8, else the operand.
#[inline(always)]
fn counted(code: u8, regs: &Regs, ac: u8, m: Word) -> Word
    requires ac { ac < 16 }
    ensures { result ≡ (if nat_lt code 8 then in_ac regs.now ac else m) }
{
    if code < 8 { word_in(regs, ac) } else { m }
}

/// A count comes to a word, and sets no flag.
#[inline(always)]
fn leave_counted(code: u8, regs: &mut Regs, ac: u8, e: u32, word: Word) -> Done
    requires code { code < 16 }
    requires pc { regs.old.pc < 2 ^ 18 }
    requires ac { ac < 16 }
    requires e { e < 2 ^ 18 }
    ensures { Leaves (counted_to code regs.old ac e word) ac regs.old regs.new result }
{
    if code < 8 {
        regs.pc = jump_if(holds(code, word.signed()), regs, e);
        regs.ac[ac as usize] = word;
        Done::NOTHING
    } else {
        regs.pc = skip_if(holds(code - 8, word.signed()), regs);
        give_own(regs, ac, word);
        Done::storing(word)
    }
}

/// Both carries are set.
#[inline(always)]
fn set_carries(regs: &mut Regs)
    ensures { regs.new ≡ carried regs.old }
{
    regs.flags.carry0 = true;
    regs.flags.carry1 = true;
}

/// A word is added to AC or to the operand, with the flags of ADD.
#[inline(always)]
fn do_count(by: Word, code: u8, regs: &mut Regs, ac: u8, e: u32, m: Word) -> Done
    requires code { code < 16 }
    requires pc { regs.old.pc < 2 ^ 18 }
    requires ac { ac < 16 }
    requires e { e < 2 ^ 18 }
    ensures { Leaves (counts by code regs.old ac (in_ac regs.old ac) e m) ac regs.old regs.new result }
{
    if code < 8 {
        let out = add(word_in(regs, ac), by);
        regs.pc = jump_if(holds(code, out.word.signed()), regs, e);
        set(regs, out.flags);
        regs.ac[ac as usize] = out.word;
        Done {
            stored: None,
            post: Post::overflow(out.flags.overflow),
        }
    } else {
        let out = add(m, by);
        regs.pc = skip_if(holds(code - 8, out.word.signed()), regs);
        set(regs, out.flags);
        give_own(regs, ac, out.word);
        Done {
            stored: Some(out.word),
            post: Post::overflow(out.flags.overflow),
        }
    }
}

/// AOJ and AOS (340 to 357), codes 0 to 7 and 10 to 17: 1 is added.
#[derive(Clone, Copy)]
pub struct AddOne {
    pub code: u8,
}

impl HasDeed for AddOne {
    ghost instruction = { λ i. one (0o340 + i.code) family.AddOne Basic i.code };

    ghost is_valid = { λ i. i.code < 16 };

    #[inline(always)]
    #[tactic(auto, unfolding(plain_units::specs::Deeds::deed_of))]
    fn do_deed(self, regs: &mut Regs, ac: u8, e: u32, last: Word, m: Word) -> Done {
        match word_above(counted(self.code, regs, ac, m)) {
            Some(word) => leave_counted(self.code, regs, ac, e, word),
            None => do_count(Word::wrapped(1), self.code, regs, ac, e, m),
        }
    }
}

/// SOJ and SOS (360 to 377), codes 0 to 7 and 10 to 17: 777777777777 is added.
#[derive(Clone, Copy)]
pub struct SubOne {
    pub code: u8,
}

impl HasDeed for SubOne {
    ghost instruction = { λ i. one (0o360 + i.code) family.SubOne Basic i.code };

    ghost is_valid = { λ i. i.code < 16 };

    #[inline(always)]
    #[tactic(auto, unfolding(plain_units::specs::Deeds::deed_of))]
    fn do_deed(self, regs: &mut Regs, ac: u8, e: u32, last: Word, m: Word) -> Done {
        match word_below(counted(self.code, regs, ac, m)) {
            Some(word) => {
                set_carries(regs);
                leave_counted(self.code, regs, ac, e, word)
            }
            None => do_count(Word::wrapped(Word::MASK), self.code, regs, ac, e, m),
        }
    }
}
