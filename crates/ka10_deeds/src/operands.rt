// Which word an instruction takes, and where it stores one.
ghost use Rattle.std.specs.Prelude.{◌≡◌, ℕ, ◌^◌, ◌<◌, IfSome, IsSome, Option};
ghost use Rattle.word36.specs.Arithmetic.{Outcome};
ghost use Rattle.plain_units.specs.Deeds.{by_mode, deed_of, moved_from, moves, moves_half, of_second_eight, operand_of, operands, operated, taken_of};
ghost use Rattle.ka10_deeds.specs.Done.{GoesBack, LiesBelow, store_at, stored_word};

use crate::registers::word_in;
use crate::stacks::pushed;
use ka10_table::{Family, OpMode, TableRow};
use plain_units::Regs;

/// Where an instruction stores a word, with the address, if it stores one.
#[derive(Clone, Copy, PartialEq, Eq)]
pub enum Destination {
    Nowhere,
    /// Back to where its operand was read.
    Back(u32),
    /// A place that is only written, once the accumulators are written.
    Into(u32),
    /// A place that is only written, before the accumulators are.
    Before(u32),
}

/// The address of the word that the instruction of a row takes. None exactly where it takes none:
/// its operand is then 0,,E.
#[tactic(auto, unfolding(plain_units::specs::Deeds::taken_of))]
pub fn operand_address(row: TableRow, regs: &Regs, ac: u8, e: u32) -> Option<u32>
    requires ac { ac < 16 }
    requires e { e < 2 ^ 18 }
    ensures value { result ≡ taken_of row regs.now ac e }
    ensures below { IfSome result (λ at. at < 2 ^ 18) }
{
    let a = word_in(regs, ac);
    match row.family {
        Family::Move => moved_address(row.mode, e),
        Family::Imul
        | Family::Mul
        | Family::Idiv
        | Family::Div
        | Family::AddSub
        | Family::Boolean
        | Family::Half => address_in(row.mode, e),
        Family::Exch => Some(e),
        Family::Blt => Some(a.left()),
        Family::PushPop if row.code == 0 => Some(e),
        Family::PushPop | Family::Popj => Some(a.right()),
        Family::JsaJra if row.code != 0 => Some(a.left()),
        Family::Compare | Family::JumpSkip | Family::AddOne | Family::SubOne => {
            address_behind_eight(row.code, e)
        }
        Family::Test => address_behind_eight(row.code % 16, e),
        _ => None,
    }
}

/// The operand's address by the mode: mode I takes no word.
#[inline(always)]
fn address_in(mode: OpMode, e: u32) -> Option<u32>
    ensures value { result ≡ operand_of mode e }
    ensures below { IfSome result (λ at. at ≡ e) }
{
    match mode {
        OpMode::Immediate => None,
        OpMode::Basic | OpMode::Memory | OpMode::Both | OpMode::Own => Some(e),
    }
}

/// The address of what a move takes: modes I and M take no word.
#[inline(always)]
fn moved_address(mode: OpMode, e: u32) -> Option<u32>
    ensures value { result ≡ moved_from mode e }
    ensures below { IfSome result (λ at. at ≡ e) }
{
    match mode {
        OpMode::Immediate | OpMode::Memory => None,
        OpMode::Basic | OpMode::Both | OpMode::Own => Some(e),
    }
}

/// The first eight codes of sixteen take no word.
#[inline(always)]
fn address_behind_eight(code: u8, e: u32) -> Option<u32>
    ensures value { result ≡ of_second_eight code e }
    ensures below { IfSome result (λ at. at ≡ e) }
{
    if code < 8 { None } else { Some(e) }
}

/// Where the instruction of a row stores a word, if it stores one: whether it does is told once it
/// is done, since a division that isn't done stores none.
#[tactic(auto, unfolding(plain_units::specs::Deeds::deed_of, plain_units::specs::Deeds::taken_of))]
pub fn destination_of(row: TableRow, regs: &Regs, ac: u8, e: u32) -> Destination
    requires ac { ac < 16 }
    requires e { e < 2 ^ 18 }
    ensures value { (op last m : ℕ) → store_at result (stored_word (deed_of row op regs.now ac e last m).store) ≡ (deed_of row op regs.now ac e last m).store }
    ensures back { GoesBack result → IsSome (taken_of row regs.now ac e) }
    ensures below { LiesBelow (2 ^ 18) result }
{
    match row.family {
        Family::Move => move_destination(row.mode, e),
        Family::Imul
        | Family::Mul
        | Family::Idiv
        | Family::Div
        | Family::AddSub
        | Family::Boolean
        | Family::Half => result_destination(row.mode, e),
        Family::Exch => Destination::Back(e),
        Family::AddOne | Family::SubOne if row.code >= 8 => Destination::Back(e),
        Family::Blt => Destination::Before(word_in(regs, ac).right()),
        Family::Pushj => Destination::Into(pushed(regs, ac).right()),
        Family::PushPop if row.code == 0 => Destination::Into(pushed(regs, ac).right()),
        Family::PushPop => Destination::Into(e),
        Family::JsrJsp | Family::JsaJra if row.code == 0 => Destination::Into(e),
        _ => Destination::Nowhere,
    }
}

/// Where a result goes by its mode.
#[inline(always)]
fn result_destination(mode: OpMode, e: u32) -> Destination
    ensures operations { (regs : Regs) (ac : ℕ) (given : Option Outcome) → store_at result (stored_word (operated mode regs ac e given).store) ≡ (operated mode regs ac e given).store }
    ensures booleans { (regs : Regs) (ac word : ℕ) → store_at result (stored_word (by_mode mode regs ac e word).store) ≡ (by_mode mode regs ac e word).store }
    ensures halves { (op : ℕ) (regs : Regs) (ac last m : ℕ) → store_at result (stored_word (moves_half mode op (operands regs ac e last m)).store) ≡ (moves_half mode op (operands regs ac e last m)).store }
    ensures back { GoesBack result → IsSome (operand_of mode e) }
    ensures below { (limit : ℕ) → e < limit → LiesBelow limit result }
{
    match mode {
        OpMode::Basic | OpMode::Immediate => Destination::Nowhere,
        OpMode::Memory | OpMode::Both | OpMode::Own => Destination::Back(e),
    }
}

/// Where a move's result goes by its mode.
#[inline(always)]
fn move_destination(mode: OpMode, e: u32) -> Destination
    ensures value { (op : ℕ) (regs : Regs) (ac last m : ℕ) → store_at result (stored_word (moves mode op (operands regs ac e last m)).store) ≡ (moves mode op (operands regs ac e last m)).store }
    ensures back { GoesBack result → IsSome (moved_from mode e) }
    ensures below { (limit : ℕ) → e < limit → LiesBelow limit result }
{
    match mode {
        OpMode::Basic | OpMode::Immediate => Destination::Nowhere,
        OpMode::Memory => Destination::Into(e),
        OpMode::Both | OpMode::Own => Destination::Back(e),
    }
}
