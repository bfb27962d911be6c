// Byte instructions: the pointer, and the word whose byte it names.
ghost use Rattle.std.specs.Prelude.{◌≡◌, ◌<◌, ◌^◌, IfErr};
ghost use Rattle.plain_units.specs.Instructions.{deposits_byte, does_pointer, first_part_done, loads_byte};
ghost use Rattle.machine_names.specs.Bounds.{IsAddress};
ghost use Rattle.ka10_unit.specs.Gathers.{Serves};
ghost use Rattle.ka10_unit.specs.Planning.{DoesEnd, LeavesEnd};
ghost use Rattle.ka10_unit.specs.Taking.{HasSpare, StopsFor};

use crate::addresses::address_of;
use crate::ends::{Ending, finish};
use crate::references::refer;
use crate::taken::{Stop, Taken};
use ka10_deeds::{
    ByteStep, Destination, byte_step, do_deposit, do_first_part, do_increment, do_load,
    forget_first_part,
};
use machine_names::Kind;
use page_contracts::Pages;
use plain_units::Regs;
use word36::Word;

/// The byte that a pointer names goes to AC.
fn load_byte<P: Pages>(
    taken: &mut Taken,
    regs: &Regs,
    pages: &P,
    ac: u8,
    pointer: Word,
) -> Result<Ending, Stop>
    requires serves { Serves P.means pages.now taken.old.fork }
    requires ac { ac < 16 }
    requires pc { regs.now.pc < 2 ^ 18 }
    ensures leaves { LeavesEnd taken.old taken.new result }
    ensures needs { IfErr result (StopsFor P.means pages.now) }
    ensures told { DoesEnd P.means pages.now regs.now.ac taken.old taken.new (loads_byte regs.now ac pointer) result }
{
    let address = address_of(taken, regs, pages, pointer)?;
    let word = refer(taken, regs, pages, address.e, Kind::Read)?;
    let mut after = *regs;
    let told = do_load(&mut after, ac, pointer, word);
    finish(taken, regs, pages, after, ac, Destination::Nowhere, told)
}

/// The low bits of AC go into the word that a pointer names.
fn deposit_byte<P: Pages>(
    taken: &mut Taken,
    regs: &Regs,
    pages: &P,
    ac: u8,
    pointer: Word,
) -> Result<Ending, Stop>
    requires serves { Serves P.means pages.now taken.old.fork }
    requires ac { ac < 16 }
    requires pc { regs.now.pc < 2 ^ 18 }
    requires fetched { HasSpare 1 taken.old }
    ensures leaves { LeavesEnd taken.old taken.new result }
    ensures needs { IfErr result (StopsFor P.means pages.now) }
    ensures told { DoesEnd P.means pages.now regs.now.ac taken.old taken.new (deposits_byte regs.now ac pointer) result }
{
    let address = address_of(taken, regs, pages, pointer)?;
    let word = refer(taken, regs, pages, address.e, Kind::Read)?;
    let mut after = *regs;
    let told = do_deposit(&mut after, ac, pointer, address.e, word);
    let to = Destination::Back(address.e);
    finish(taken, regs, pages, after, ac, to, told)
}

/// The registers with which the second part of ILDB or IDPB begins.
fn second_part(regs: &Regs) -> Regs
    ensures { result ≡ first_part_done regs.now }
{
    let mut second = *regs;
    forget_first_part(&mut second);
    second
}

/// A byte instruction, by its code: its pointer stands at an address.
pub fn byte_instruction<P: Pages>(
    taken: &mut Taken,
    regs: &Regs,
    pages: &P,
    code: u8,
    ac: u8,
    e: u32,
) -> Result<Ending, Stop>
    requires serves { Serves P.means pages.now taken.old.fork }
    requires code { code < 5 }
    requires ac { ac < 16 }
    requires e { IsAddress e }
    requires pc { regs.now.pc < 2 ^ 18 }
    requires fetched { HasSpare 1 taken.old }
    ensures leaves { LeavesEnd taken.old taken.new result }
    ensures needs { IfErr result (StopsFor P.means pages.now) }
    ensures told { DoesEnd P.means pages.now regs.now.ac taken.old taken.new (does_pointer code regs.now ac e) result }
{
    let pointer = refer(taken, regs, pages, e, Kind::Read)?;
    match byte_step(code, regs) {
        ByteStep::Increment => {
            let mut after = *regs;
            let told = do_increment(&mut after, ac, e, pointer);
            finish(taken, regs, pages, after, ac, Destination::Back(e), told)
        }
        ByteStep::FirstPart => {
            let mut after = *regs;
            let told = do_first_part(&mut after, ac, e, pointer);
            finish(taken, regs, pages, after, ac, Destination::Back(e), told)
        }
        ByteStep::Load => load_byte(taken, regs, pages, ac, pointer),
        ByteStep::Deposit => deposit_byte(taken, regs, pages, ac, pointer),
        ByteStep::LoadSecond => {
            let second = second_part(regs);
            load_byte(taken, &second, pages, ac, pointer)
        }
        ByteStep::DepositSecond => {
            let second = second_part(regs);
            deposit_byte(taken, &second, pages, ac, pointer)
        }
    }
}
