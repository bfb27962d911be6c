// The instruction of any row.
ghost use Rattle.std.specs.Prelude.{◌^◌, ◌<◌};
ghost use Rattle.ka10_table.specs.Rows.{IsInLine};
ghost use Rattle.ka10_deeds.specs.Done.{DoesRow};

use crate::conditions::{AddOne, Compare, JumpSkip, SubOne};
use crate::done::Done;
use crate::has_deed::HasDeed;
use crate::jumps::{Aobj, Jfcl, Jffo, Jrst, JsaJra, JsrJsp};
use crate::moves::Move;
use crate::operations::{Operation, Shift};
use crate::registers::next;
use crate::stacks::{Popj, PushPop, Pushj};
use crate::words::{Blt, Boolean, Exch, Half, Test};
use ka10_table::{Family, TableRow};
use plain_units::Regs;
use word36::Word;

/// The instruction of an opcode and its row, with accumulator AC, the effective address, the last
/// word taken for that, and the operand. A row that is no instruction, that goes on with another
/// word, a monitor call and a byte instruction only come to the next instruction here.
#[tactic(auto, unfolding(plain_units::specs::Deeds::deed_of))]
pub fn do_row(row: TableRow, op: u16, regs: &mut Regs, ac: u8, e: u32, last: Word, m: Word) -> Done
    requires line { IsInLine op row }
    requires pc { regs.old.pc < 2 ^ 18 }
    requires ac { ac < 16 }
    requires e { e < 2 ^ 18 }
    ensures { DoesRow row op ac e last m regs.old regs.new result }
{
    let code = row.code;
    match row.family {
        Family::Move => Move { op, row }.do_deed(regs, ac, e, last, m),
        Family::Imul | Family::Mul | Family::Idiv | Family::Div | Family::AddSub => {
            Operation { op, row }.do_deed(regs, ac, e, last, m)
        }
        Family::Shift | Family::DoubleShift => Shift { op, row }.do_deed(regs, ac, e, last, m),
        Family::Jffo => Jffo.do_deed(regs, ac, e, last, m),
        Family::Exch => Exch.do_deed(regs, ac, e, last, m),
        Family::Blt => Blt.do_deed(regs, ac, e, last, m),
        Family::Aobj => Aobj { code }.do_deed(regs, ac, e, last, m),
        Family::Jrst => Jrst.do_deed(regs, ac, e, last, m),
        Family::Jfcl => Jfcl.do_deed(regs, ac, e, last, m),
        Family::Pushj => Pushj.do_deed(regs, ac, e, last, m),
        Family::PushPop => PushPop { code }.do_deed(regs, ac, e, last, m),
        Family::Popj => Popj.do_deed(regs, ac, e, last, m),
        Family::JsrJsp => JsrJsp { code }.do_deed(regs, ac, e, last, m),
        Family::JsaJra => JsaJra { code }.do_deed(regs, ac, e, last, m),
        Family::Compare => Compare { code }.do_deed(regs, ac, e, last, m),
        Family::JumpSkip => JumpSkip { code }.do_deed(regs, ac, e, last, m),
        Family::AddOne => AddOne { code }.do_deed(regs, ac, e, last, m),
        Family::SubOne => SubOne { code }.do_deed(regs, ac, e, last, m),
        Family::Boolean => Boolean { op, row }.do_deed(regs, ac, e, last, m),
        Family::Half => Half { op, row }.do_deed(regs, ac, e, last, m),
        Family::Test => Test { op, row }.do_deed(regs, ac, e, last, m),
        Family::Illegal | Family::Local | Family::Monitor | Family::ByteOp | Family::Xct => {
            regs.pc = next(regs);
            Done::NOTHING
        }
    }
}
