// Byte instructions in place, behind their effective address: one part a unit.
ghost use Rattle.std.specs.Prelude.{◌≡◌, ◌<◌, Some, IfSome};
ghost use Rattle.ka10_table.specs.declared.families.Family.TheVariants as family;
ghost use Rattle.ka10_table.specs.declared.families.OpMode.TheVariants.{Basic};
ghost use Rattle.ka10_table.specs.Rows.{row_of};
ghost use Rattle.machine_names.specs.declared.names.ForkName.{ForkName as AForkName};
ghost use Rattle.plain_units.specs.Instructions.{does_pointer};
ghost use Rattle.machine_names.specs.Bounds.{IsAddress};
ghost use Rattle.page_contracts.specs.DrumWords.{DrumWords};
ghost use Rattle.page_contracts.specs.Pages.{HasSpace, OnlyUses};
ghost use Rattle.ka10_spots.specs.Glide.{word_of};
ghost use Rattle.ka10_spots.specs.Spots.{IsFetched, IsSpot};
ghost use Rattle.ka10_in_place.specs.ByteRests.{PointsTo, begun, byte_rest, deposited_word, depositing, loaded_byte, loading};
ghost use Rattle.ka10_in_place.specs.InPlace.{Addressee, InPlace, Rest};

use crate::ending::{Quick, ended};
use crate::instruction::Instruction;
use ka10_deeds::{
    ByteStep, byte_step, do_deposit, do_first_part, do_increment, do_load, forget_first_part,
};
use ka10_spots::{
    Lead, Spot, Way, effective_address, load, load_led, look, spot_to, spot_to_change, store,
};
use machine_names::Kind;
use page_contracts::{Pages, SpaceHandle};
use plain_units::Regs;
use word36::Word;

// A pointer is followed without indirect words.
const NO_INDIRECT_WORD: u32 = 1;

/// The pointer at E is incremented.
#[inline(always)]
fn increment<P: Pages>(it: Instruction, regs: &mut Regs, pages: &mut P, space: SpaceHandle) -> Quick
    requires fetched { IsFetched P.means space pages.old regs.old it.lead.fetched }
    ensures { InPlace P.means space (Rest 13 regs.old (byte_rest ByteStep.Increment regs.old it.ac it.e)) pages.old pages.new regs.old regs.new result }
{
    match spot_to_change(pages, space, it.e) {
        None => Quick::Slow,
        Some(spot) => {
            let p = load_led(it.lead, regs, pages, space, spot, it.e);
            let told = do_increment(regs, it.ac, it.e, p);
            store(regs, pages, space, spot, it.e, told.stored);
            ended(told.post)
        }
    }
}

/// The first part of ILDB and IDPB: the pointer at E is incremented, and the instruction is done
/// again.
#[inline(always)]
fn first_part<P: Pages>(
    it: Instruction,
    regs: &mut Regs,
    pages: &mut P,
    space: SpaceHandle,
) -> Quick
    requires fetched { IsFetched P.means space pages.old regs.old it.lead.fetched }
    ensures { InPlace P.means space (Rest 13 regs.old (byte_rest ByteStep.FirstPart regs.old it.ac it.e)) pages.old pages.new regs.old regs.new result }
{
    match spot_to_change(pages, space, it.e) {
        None => Quick::Slow,
        Some(spot) => {
            let p = load_led(it.lead, regs, pages, space, spot, it.e);
            let told = do_first_part(regs, it.ac, it.e, p);
            store(regs, pages, space, spot, it.e, told.stored);
            ended(told.post)
        }
    }
}

/// The second part of an instruction begins without the mark of the first.
#[inline(always)]
fn begin(second: bool, regs: &mut Regs)
    ensures { regs.new ≡ begun second regs.old }
{
    if second {
        forget_first_part(regs);
    }
}

/// A pointer, where it stands, and the address of its byte's word.
#[derive(Clone, Copy)]
struct Pointed {
    p: Word,
    spot: Spot,
    at: u32,
}

/// The word of a byte, at an address whose spot was found, behind the pages by which the instruction was come by and
/// that of the pointer at E.
#[inline(always)]
fn load_pointed<P: Pages>(
    lead: Lead,
    regs: &Regs,
    pages: &mut P,
    space: SpaceHandle,
    pointer: Spot,
    e: u32,
    spot: Spot,
    at: u32,
) -> Word
    requires fetched { IsFetched P.means space pages.old regs.now lead.fetched }
    requires e { IsAddress e }
    requires address { IsAddress at }
    requires pointer { IsSpot P.means space e pages.old pointer }
    requires spot { IsSpot P.means space at pages.old spot }
    ensures told { (d : DrumWords) (f : AForkName) → P.means.fits pages.old d → P.means.space pages.old f ≡ Some space → result ≡ word_of f (P.means.plain pages.old d) regs.now.ac at }
    ensures only { OnlyUses P.means pages.old pages.new }
{
    load_led(lead, regs, pages, space, pointer, e);
    load(regs, pages, space, spot, at)
}

/// A byte of the word that a pointer at E names goes to AC.
#[inline(always)]
fn load_word<P: Pages>(
    second: bool,
    it: Instruction,
    regs: &mut Regs,
    pages: &mut P,
    space: SpaceHandle,
    to: Pointed,
) -> Quick
    requires fetched { IsFetched P.means space pages.old regs.old it.lead.fetched }
    requires address { IsAddress to.at }
    requires pointer { IsSpot P.means space it.e pages.old to.spot }
    ensures { InPlace P.means space (Rest 14 regs.old (loaded_byte (begun second regs.old) it.ac to.p to.at)) pages.old pages.new regs.old regs.new result }
{
    let at = to.at;
    let p = to.p;
    match spot_to(pages, space, at, Kind::Read) {
        None => Quick::Slow,
        Some(spot) => {
            let w = load_pointed(it.lead, regs, pages, space, to.spot, it.e, spot, at);
            begin(second, regs);
            let told = do_load(regs, it.ac, p, w);
            ended(told.post)
        }
    }
}

/// The low bits of AC go into the word that a pointer at E names.
#[inline(always)]
fn deposit_word<P: Pages>(
    second: bool,
    it: Instruction,
    regs: &mut Regs,
    pages: &mut P,
    space: SpaceHandle,
    to: Pointed,
) -> Quick
    requires fetched { IsFetched P.means space pages.old regs.old it.lead.fetched }
    requires address { IsAddress to.at }
    requires pointer { IsSpot P.means space it.e pages.old to.spot }
    ensures { InPlace P.means space (Rest 14 regs.old (deposited_word (begun second regs.old) it.ac to.p to.at)) pages.old pages.new regs.old regs.new result }
{
    let at = to.at;
    let p = to.p;
    match spot_to_change(pages, space, at) {
        None => Quick::Slow,
        Some(spot) => {
            let w = load_pointed(it.lead, regs, pages, space, to.spot, it.e, spot, at);
            begin(second, regs);
            let told = do_deposit(regs, it.ac, p, at, w);
            store(regs, pages, space, spot, at, told.stored);
            ended(told.post)
        }
    }
}

/// The pointer at E, and the address of its byte's word. Both are looks.
#[inline(always)]
fn follow<P: Pages>(regs: &Regs, pages: &P, space: SpaceHandle, e: u32) -> Option<Pointed>
    requires space { HasSpace P.means pages.now space }
    requires e { IsAddress e }
    ensures below { IfSome result (λ to. IsAddress to.at) }
    ensures pointer { IfSome result (λ to. IsSpot P.means space e pages.now to.spot) }
    ensures told { (d : DrumWords) (f : AForkName) → P.means.fits pages.now d → P.means.space pages.now f ≡ Some space → IfSome result (λ to. PointsTo f (P.means.plain pages.now d) regs.now.ac e to.p to.at) }
{
    match spot_to(pages, space, e, Kind::Read) {
        None => None,
        Some(spot) => {
            let p = look(regs, pages, space, spot, e);
            match effective_address(regs, pages, space, p, NO_INDIRECT_WORD) {
                None => None,
                Some(address) => Some(Pointed {
                    p,
                    spot,
                    at: address.e,
                }),
            }
        }
    }
}

/// LDB, or the second part of ILDB.
#[inline(always)]
fn load_byte<P: Pages>(
    second: bool,
    it: Instruction,
    regs: &mut Regs,
    pages: &mut P,
    space: SpaceHandle,
) -> Quick
    requires fetched { IsFetched P.means space pages.old regs.old it.lead.fetched }
    ensures { InPlace P.means space (Rest 13 regs.old (byte_rest (loading second) regs.old it.ac it.e)) pages.old pages.new regs.old regs.new result }
{
    match follow(regs, pages, space, it.e) {
        None => Quick::Slow,
        Some(to) => load_word(second, it, regs, pages, space, to),
    }
}

/// DPB, or the second part of IDPB.
#[inline(always)]
fn deposit_byte<P: Pages>(
    second: bool,
    it: Instruction,
    regs: &mut Regs,
    pages: &mut P,
    space: SpaceHandle,
) -> Quick
    requires fetched { IsFetched P.means space pages.old regs.old it.lead.fetched }
    ensures { InPlace P.means space (Rest 13 regs.old (byte_rest (depositing second) regs.old it.ac it.e)) pages.old pages.new regs.old regs.new result }
{
    match follow(regs, pages, space, it.e) {
        None => Quick::Slow,
        Some(to) => deposit_word(second, it, regs, pages, space, to),
    }
}

/// A byte instruction by its code. Its parts come one by one, as those of `carry_other` do, and those that are near have
/// a copy of their own here too.
#[inline(always)]
fn step<P: Pages, const NEAR: bool>(
    code: u8,
    ac: u8,
    e: u32,
    last: Word,
    fetched: Spot,
    way: Way,
    regs: &mut Regs,
    pages: &mut P,
    space: SpaceHandle,
) -> Quick
    requires ac { ac < 16 }
    requires e { IsAddress e }
    requires code { code < 5 }
    requires fetched { IsFetched P.means space pages.old regs.old fetched }
    ensures { InPlace P.means space (Rest 13 regs.old (does_pointer code regs.old ac e)) pages.old pages.new regs.old regs.new result }
{
    let way = if NEAR { Way::Direct } else { way };
    let it = Instruction {
        ac,
        e,
        last,
        lead: Lead { fetched, way },
    };
    match byte_step(code, regs) {
        ByteStep::Increment => increment(it, regs, pages, space),
        ByteStep::FirstPart => first_part(it, regs, pages, space),
        ByteStep::Load => load_byte(false, it, regs, pages, space),
        ByteStep::LoadSecond => load_byte(true, it, regs, pages, space),
        ByteStep::Deposit => deposit_byte(false, it, regs, pages, space),
        ByteStep::DepositSecond => deposit_byte(true, it, regs, pages, space),
    }
}

/// The rest of the unit of a byte instruction, by its opcode and its code.
#[inline(always)]
pub fn byte<P: Pages, const NEAR: bool>(
    op: u16,
    code: u8,
    it: Instruction,
    regs: &mut Regs,
    pages: &mut P,
    space: SpaceHandle,
) -> Quick
    requires code { code < 5 }
    requires row { row_of op ≡ record { family = family.ByteOp; mode = Basic; code = code } }
    requires fetched { IsFetched P.means space pages.old regs.old it.lead.fetched }
    ensures { InPlace P.means space (Addressee op regs.old it.ac it.e it.last) pages.old pages.new regs.old regs.new result }
{
    step::<P, NEAR>(
        code,
        it.ac,
        it.e,
        it.last,
        it.lead.fetched,
        it.lead.way,
        regs,
        pages,
        space,
    )
}
