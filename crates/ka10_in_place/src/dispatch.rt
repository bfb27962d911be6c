// Instructions in place, by their opcodes.
ghost use Rattle.std.specs.Prelude.{◌<◌};
ghost use Rattle.machine_names.specs.Bounds.{IsAddress};
ghost use Rattle.ka10_spots.specs.Spots.{IsFetched};
ghost use Rattle.ka10_in_place.specs.InPlace.{Addressee, InPlace};

use crate::blocks::move_word;
use crate::byte_units::byte;
use crate::ending::Quick;
use crate::instruction::Instruction;
use crate::ways::{bare, read, replace, transfer, write};
use ka10_deeds::{
    Act, AddOne, Aobj, Boolean, Compare, Exch, Half, Jfcl, Jffo, Jrst, JsaJra, JsrJsp, JumpSkip,
    Move, Operation, Popj, PushPop, Pushj, Shift, SubOne, Test, act_at, is_executive, pushed,
    word_in,
};
use ka10_spots::{Lead, Spot, Way};
use ka10_table::{Family, OpMode, TableRow, row};
use page_contracts::{Pages, SpaceHandle};
use plain_units::Regs;
use word36::Word;

// A row of the table.
macro_rules! row {
    ($family:ident $mode:ident $code:expr) => {
        TableRow {
            family: Family::$family,
            mode: OpMode::$mode,
            code: $code,
        }
    };
}

// An instruction by its opcode and its row.
macro_rules! one {
    ($kind:ident $op:tt $family:ident $mode:ident $code:expr) => {
        $kind {
            op: $op,
            row: row!($family $mode $code),
        }
    };
}

/// The rest of the unit of an opcode's instruction, behind its effective address. The instructions
/// that programs do most are here, so that these are compiled into the loop of a burst. It is too large for the hint
/// to count: it is compiled into what alone calls it. So the units that are near have a copy of their own: their words
/// are in the page that is kept, and their addresses are those of their words alone.
#[inline(always)]
#[rattlefmt::skip]
pub fn carry<P: Pages, const NEAR: bool>(
    op: u16, it: Instruction, regs: &mut Regs, pages: &mut P, space: SpaceHandle
) -> Quick
    requires op { op < 512 }
    requires fetched { IsFetched P.means space pages.old regs.old it.lead.fetched }
    ensures { InPlace P.means space (Addressee op regs.old it.ac it.e it.last) pages.old pages.new regs.old regs.new result }
{
    let ac = it.ac;
    let e = it.e;
    let code = row(op).code;
    match act_at(op) {
        Act::Jrst if is_executive(ac) => Quick::Slow,
        Act::Jrst => bare(Jrst, it, regs, pages, space),
        Act::Move => read(one!(Move 0o200 Move Basic 0), it, regs, pages, space, e),
        Act::Movei => bare(one!(Move 0o201 Move Immediate 0), it, regs, pages, space),
        Act::Movem => write(one!(Move 0o202 Move Memory 0), it, regs, pages, space, e),
        Act::Pushj => {
            let to = pushed(regs, ac).right();
            write(Pushj, it, regs, pages, space, to)
        }
        Act::Push => {
            let from = e;
            let to = pushed(regs, ac).right();
            transfer(PushPop { code: 0 }, it, regs, pages, space, from, to)
        }
        Act::Pop => {
            let from = word_in(regs, ac).right();
            let to = e;
            transfer(PushPop { code: 1 }, it, regs, pages, space, from, to)
        }
        Act::Popj => {
            let from = word_in(regs, ac).right();
            read(Popj, it, regs, pages, space, from)
        }
        Act::Add => read(one!(Operation 0o270 AddSub Basic 0), it, regs, pages, space, e),
        Act::Addi => bare(one!(Operation 0o271 AddSub Immediate 0), it, regs, pages, space),
        Act::Addm => replace(one!(Operation 0o272 AddSub Memory 0), it, regs, pages, space),
        Act::Sub => read(one!(Operation 0o274 AddSub Basic 1), it, regs, pages, space, e),
        Act::Subi => bare(one!(Operation 0o275 AddSub Immediate 1), it, regs, pages, space),
        Act::Jumpl => bare(JumpSkip { code: 1 }, it, regs, pages, space),
        Act::Jumpe => bare(JumpSkip { code: 2 }, it, regs, pages, space),
        Act::Jumpge => bare(JumpSkip { code: 5 }, it, regs, pages, space),
        Act::Jumpn => bare(JumpSkip { code: 6 }, it, regs, pages, space),
        Act::Skipe => read(JumpSkip { code: 10 }, it, regs, pages, space, e),
        Act::Skipn => read(JumpSkip { code: 14 }, it, regs, pages, space, e),
        Act::Aoja => bare(AddOne { code: 4 }, it, regs, pages, space),
        Act::Aos => replace(AddOne { code: 8 }, it, regs, pages, space),
        Act::Sojge => bare(SubOne { code: 5 }, it, regs, pages, space),
        Act::Sojg => bare(SubOne { code: 7 }, it, regs, pages, space),
        Act::Sos => replace(SubOne { code: 8 }, it, regs, pages, space),
        Act::Boolean => read(one!(Boolean op Boolean Basic code), it, regs, pages, space, e),
        Act::BooleanImmediate => bare(one!(Boolean op Boolean Immediate code), it, regs, pages, space),
        Act::Half => read(one!(Half op Half Basic code), it, regs, pages, space, e),
        Act::TestImmediate => bare(one!(Test op Test Basic code / 16 * 16 + code % 8), it, regs, pages, space),
        _ => carry_other::<P, NEAR>(op, ac, e, it.last, it.lead.fetched, it.lead.way, regs, pages, space),
    }
}

/// The same of the other instructions, whose parts come one by one: a record whose address is handed on would be
/// written to memory for each unit. How the address of a near unit was come by is known when this is compiled, so that
/// its copy is handed nothing for uses that do nothing.
#[inline(never)]
#[rattlefmt::skip]
fn carry_other<P: Pages, const NEAR: bool>(
    op: u16, ac: u8, e: u32, last: Word, fetched: Spot, way: Way, regs: &mut Regs, pages: &mut P, space: SpaceHandle
) -> Quick
    requires op { op < 512 }
    requires ac { ac < 16 }
    requires e { IsAddress e }
    requires fetched { IsFetched P.means space pages.old regs.old fetched }
    ensures { InPlace P.means space (Addressee op regs.old ac e last) pages.old pages.new regs.old regs.new result }
{
    let way = if NEAR { Way::Direct } else { way };
    let it = Instruction { ac, e, last, lead: Lead { fetched, way } };
    let code = row(op).code;
    match act_at(op) {
        Act::Ibp => byte::<P, NEAR>(0o133, 0, it, regs, pages, space),
        Act::Ildb => byte::<P, NEAR>(0o134, 1, it, regs, pages, space),
        Act::Ldb => byte::<P, NEAR>(0o135, 2, it, regs, pages, space),
        Act::Idpb => byte::<P, NEAR>(0o136, 3, it, regs, pages, space),
        Act::Dpb => byte::<P, NEAR>(0o137, 4, it, regs, pages, space),
        Act::Blt => move_word(it, regs, pages, space),
        Act::Moves => replace(one!(Move 0o203 Move Own 0), it, regs, pages, space),
        Act::Addb => replace(one!(Operation 0o273 AddSub Both 0), it, regs, pages, space),
        Act::Subm => replace(one!(Operation 0o276 AddSub Memory 1), it, regs, pages, space),
        Act::Subb => replace(one!(Operation 0o277 AddSub Both 1), it, regs, pages, space),
        Act::Jump => bare(JumpSkip { code: 0 }, it, regs, pages, space),
        Act::Jumple => bare(JumpSkip { code: 3 }, it, regs, pages, space),
        Act::Jumpa => bare(JumpSkip { code: 4 }, it, regs, pages, space),
        Act::Jumpg => bare(JumpSkip { code: 7 }, it, regs, pages, space),
        Act::Skip => read(JumpSkip { code: 8 }, it, regs, pages, space, e),
        Act::Skipl => read(JumpSkip { code: 9 }, it, regs, pages, space, e),
        Act::Skiple => read(JumpSkip { code: 11 }, it, regs, pages, space, e),
        Act::Skipa => read(JumpSkip { code: 12 }, it, regs, pages, space, e),
        Act::Skipge => read(JumpSkip { code: 13 }, it, regs, pages, space, e),
        Act::Skipg => read(JumpSkip { code: 15 }, it, regs, pages, space, e),
        Act::Aoj => bare(AddOne { code: 0 }, it, regs, pages, space),
        Act::Aojl => bare(AddOne { code: 1 }, it, regs, pages, space),
        Act::Aoje => bare(AddOne { code: 2 }, it, regs, pages, space),
        Act::Aojle => bare(AddOne { code: 3 }, it, regs, pages, space),
        Act::Aojge => bare(AddOne { code: 5 }, it, regs, pages, space),
        Act::Aojn => bare(AddOne { code: 6 }, it, regs, pages, space),
        Act::Aojg => bare(AddOne { code: 7 }, it, regs, pages, space),
        Act::Aosl => replace(AddOne { code: 9 }, it, regs, pages, space),
        Act::Aose => replace(AddOne { code: 10 }, it, regs, pages, space),
        Act::Aosle => replace(AddOne { code: 11 }, it, regs, pages, space),
        Act::Aosa => replace(AddOne { code: 12 }, it, regs, pages, space),
        Act::Aosge => replace(AddOne { code: 13 }, it, regs, pages, space),
        Act::Aosn => replace(AddOne { code: 14 }, it, regs, pages, space),
        Act::Aosg => replace(AddOne { code: 15 }, it, regs, pages, space),
        Act::Soj => bare(SubOne { code: 0 }, it, regs, pages, space),
        Act::Sojl => bare(SubOne { code: 1 }, it, regs, pages, space),
        Act::Soje => bare(SubOne { code: 2 }, it, regs, pages, space),
        Act::Sojle => bare(SubOne { code: 3 }, it, regs, pages, space),
        Act::Soja => bare(SubOne { code: 4 }, it, regs, pages, space),
        Act::Sojn => bare(SubOne { code: 6 }, it, regs, pages, space),
        Act::Sosl => replace(SubOne { code: 9 }, it, regs, pages, space),
        Act::Sose => replace(SubOne { code: 10 }, it, regs, pages, space),
        Act::Sosle => replace(SubOne { code: 11 }, it, regs, pages, space),
        Act::Sosa => replace(SubOne { code: 12 }, it, regs, pages, space),
        Act::Sosge => replace(SubOne { code: 13 }, it, regs, pages, space),
        Act::Sosn => replace(SubOne { code: 14 }, it, regs, pages, space),
        Act::Sosg => replace(SubOne { code: 15 }, it, regs, pages, space),
        Act::BooleanMemory => replace(one!(Boolean op Boolean Memory code), it, regs, pages, space),
        Act::BooleanBoth => replace(one!(Boolean op Boolean Both code), it, regs, pages, space),
        Act::HalfImmediate => bare(one!(Half op Half Immediate code), it, regs, pages, space),
        Act::HalfMemory => replace(one!(Half op Half Memory code), it, regs, pages, space),
        Act::HalfOwn => replace(one!(Half op Half Own code), it, regs, pages, space),
        Act::TestMemory => read(one!(Test op Test Basic code / 16 * 16 + 8 + code % 8), it, regs, pages, space, e),
        Act::Movs => read(one!(Move 0o204 Move Basic 1), it, regs, pages, space, e),
        Act::Movsi => bare(one!(Move 0o205 Move Immediate 1), it, regs, pages, space),
        Act::Movsm => write(one!(Move 0o206 Move Memory 1), it, regs, pages, space, e),
        Act::Movss => replace(one!(Move 0o207 Move Own 1), it, regs, pages, space),
        Act::Movn => read(one!(Move 0o210 Move Basic 2), it, regs, pages, space, e),
        Act::Movni => bare(one!(Move 0o211 Move Immediate 2), it, regs, pages, space),
        Act::Movnm => write(one!(Move 0o212 Move Memory 2), it, regs, pages, space, e),
        Act::Movns => replace(one!(Move 0o213 Move Own 2), it, regs, pages, space),
        Act::Movm => read(one!(Move 0o214 Move Basic 3), it, regs, pages, space, e),
        Act::Movmi => bare(one!(Move 0o215 Move Immediate 3), it, regs, pages, space),
        Act::Movmm => write(one!(Move 0o216 Move Memory 3), it, regs, pages, space, e),
        Act::Movms => replace(one!(Move 0o217 Move Own 3), it, regs, pages, space),
        Act::Imul => read(one!(Operation 0o220 Imul Basic 0), it, regs, pages, space, e),
        Act::Imuli => bare(one!(Operation 0o221 Imul Immediate 0), it, regs, pages, space),
        Act::Imulm => replace(one!(Operation 0o222 Imul Memory 0), it, regs, pages, space),
        Act::Imulb => replace(one!(Operation 0o223 Imul Both 0), it, regs, pages, space),
        Act::Mul => read(one!(Operation 0o224 Mul Basic 0), it, regs, pages, space, e),
        Act::Muli => bare(one!(Operation 0o225 Mul Immediate 0), it, regs, pages, space),
        Act::Mulm => replace(one!(Operation 0o226 Mul Memory 0), it, regs, pages, space),
        Act::Mulb => replace(one!(Operation 0o227 Mul Both 0), it, regs, pages, space),
        Act::Idiv => read(one!(Operation 0o230 Idiv Basic 0), it, regs, pages, space, e),
        Act::Idivi => bare(one!(Operation 0o231 Idiv Immediate 0), it, regs, pages, space),
        Act::Idivm => replace(one!(Operation 0o232 Idiv Memory 0), it, regs, pages, space),
        Act::Idivb => replace(one!(Operation 0o233 Idiv Both 0), it, regs, pages, space),
        Act::Div => read(one!(Operation 0o234 Div Basic 0), it, regs, pages, space, e),
        Act::Divi => bare(one!(Operation 0o235 Div Immediate 0), it, regs, pages, space),
        Act::Divm => replace(one!(Operation 0o236 Div Memory 0), it, regs, pages, space),
        Act::Divb => replace(one!(Operation 0o237 Div Both 0), it, regs, pages, space),
        Act::Ash => bare(one!(Shift 0o240 Shift Basic 0), it, regs, pages, space),
        Act::Rot => bare(one!(Shift 0o241 Shift Basic 1), it, regs, pages, space),
        Act::Lsh => bare(one!(Shift 0o242 Shift Basic 2), it, regs, pages, space),
        Act::Jffo => bare(Jffo, it, regs, pages, space),
        Act::Ashc => bare(one!(Shift 0o244 DoubleShift Basic 0), it, regs, pages, space),
        Act::Rotc => bare(one!(Shift 0o245 DoubleShift Basic 1), it, regs, pages, space),
        Act::Lshc => bare(one!(Shift 0o246 DoubleShift Basic 2), it, regs, pages, space),
        Act::Exch => replace(Exch, it, regs, pages, space),
        Act::Aobjp => bare(Aobj { code: 0 }, it, regs, pages, space),
        Act::Aobjn => bare(Aobj { code: 1 }, it, regs, pages, space),
        Act::Jfcl => bare(Jfcl, it, regs, pages, space),
        Act::Jsr => write(JsrJsp { code: 0 }, it, regs, pages, space, e),
        Act::Jsp => bare(JsrJsp { code: 1 }, it, regs, pages, space),
        Act::Jsa => write(JsaJra { code: 0 }, it, regs, pages, space, e),
        Act::Jra => {
            let from = word_in(regs, ac).left();
            read(JsaJra { code: 1 }, it, regs, pages, space, from)
        }
        Act::Cai => bare(Compare { code: 0 }, it, regs, pages, space),
        Act::Cail => bare(Compare { code: 1 }, it, regs, pages, space),
        Act::Caie => bare(Compare { code: 2 }, it, regs, pages, space),
        Act::Caile => bare(Compare { code: 3 }, it, regs, pages, space),
        Act::Caia => bare(Compare { code: 4 }, it, regs, pages, space),
        Act::Caige => bare(Compare { code: 5 }, it, regs, pages, space),
        Act::Cain => bare(Compare { code: 6 }, it, regs, pages, space),
        Act::Caig => bare(Compare { code: 7 }, it, regs, pages, space),
        Act::Cam => read(Compare { code: 8 }, it, regs, pages, space, e),
        Act::Caml => read(Compare { code: 9 }, it, regs, pages, space, e),
        Act::Came => read(Compare { code: 10 }, it, regs, pages, space, e),
        Act::Camle => read(Compare { code: 11 }, it, regs, pages, space, e),
        Act::Cama => read(Compare { code: 12 }, it, regs, pages, space, e),
        Act::Camge => read(Compare { code: 13 }, it, regs, pages, space, e),
        Act::Camn => read(Compare { code: 14 }, it, regs, pages, space, e),
        Act::Camg => read(Compare { code: 15 }, it, regs, pages, space, e),
        _ => Quick::Slow,
    }
}
