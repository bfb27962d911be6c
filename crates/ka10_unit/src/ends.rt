// The end of a unit: the operand of its instruction, and the word that it stores.
ghost use Rattle.std.specs.Prelude.{◌≡◌, ◌<◌, ◌^◌, IfErr, IfOk, IfSome, IsSome, None};
ghost use Rattle.plain_units.specs.declared.registers.Regs.{Regs as ARegs};
ghost use Rattle.plain_units.specs.Deeds.{Deed};
ghost use Rattle.plain_units.specs.Instructions.{does, finishes, storing, takes};
ghost use Rattle.ka10_table.specs.Rows.{IsInLine};
ghost use Rattle.machine_names.specs.declared.names.ForkName.{ForkName as AForkName};
ghost use Rattle.machine_names.specs.Bounds.{IsAddress};
ghost use Rattle.page_contracts.specs.DrumWords.{DrumWords};
ghost use Rattle.ka10_deeds.specs.Done.{GoesBack, LiesBelow, channel_of};
ghost use Rattle.ka10_unit.specs.Gathers.{Serves, framed};
ghost use Rattle.ka10_unit.specs.Planning.{DoesEnd, Ends, IsDone, IsEnding, LeavesEnd, end_of};
ghost use Rattle.ka10_unit.specs.Taking.{Does, HasSpare, Spares, Stands, StopsFor};

use crate::references::{refer, widen};
use crate::taken::{Stop, Taken};
use ka10_deeds::{Address, Destination, Done, Post, destination_of, do_row, operand_address};
use ka10_table::TableRow;
use machine_names::{ACCUMULATORS, Kind};
use page_contracts::Pages;
use plain_units::{Put, Regs};
use word36::Word;

/// How a unit ends that goes through: its registers, the word that it stores last, and its post.
#[derive(Clone, Copy)]
pub struct Ending {
    pub regs: Regs,
    pub put: Option<Put>,
    pub post: Post,
}

/// The word at an address, or 0,,E.
pub fn operand<P: Pages>(
    taken: &mut Taken,
    regs: &Regs,
    pages: &P,
    at: Option<u32>,
    e: u32,
) -> Result<Word, Stop>
    requires serves { Serves P.means pages.now taken.old.fork }
    requires at { IfSome at (λ a. IsAddress a) }
    requires e { IsAddress e }
    ensures fork { taken.new.fork ≡ taken.old.fork }
    ensures kept { taken.new.kept ≡ taken.old.kept }
    ensures read { IsSome at → IfOk result (λ m. Spares 1 taken.old taken.new) }
    ensures needs { IfErr result (StopsFor P.means pages.now) }
    ensures told { Does P.means pages.now regs.now.ac taken.old taken.new (takes at e) result }
{
    match at {
        None => Ok(Word::join(0, e)),
        Some(at) => refer(taken, regs, pages, at, Kind::Read),
    }
}

/// The end of a unit that stores nothing more.
fn end_with(regs: Regs, post: Post) -> Ending
    requires { regs.pc < 2 ^ 18 }
    ensures end { IsEnding result }
    ensures regs { result.regs ≡ regs }
    ensures put { result.put ≡ None }
    ensures post { result.post ≡ post }
{
    Ending {
        regs,
        put: None,
        post,
    }
}

/// The end of a unit that stores a word last; low addresses are the accumulators.
fn end_storing(regs: Regs, at: u32, word: Word, post: Post) -> Ending
    requires at { IsAddress at }
    requires pc { regs.pc < 2 ^ 18 }
    ensures is { end_of result ≡ storing regs at word (channel_of post) }
    ensures end { IsEnding result }
{
    if at < ACCUMULATORS {
        let mut after = regs;
        after.ac[at as usize] = word;
        return end_with(after, post);
    }
    Ending {
        regs,
        put: Some(Put { at, word }),
        post,
    }
}

/// What is left of a unit once its deed is done on its registers: the word that it
/// stores is asked for.
pub fn finish<P: Pages>(
    taken: &mut Taken,
    regs: &Regs,
    pages: &P,
    after: Regs,
    ac: u8,
    to: Destination,
    told: Done,
) -> Result<Ending, Stop>
    requires serves { Serves P.means pages.now taken.old.fork }
    requires to { LiesBelow (2 ^ 18) to }
    requires ac { ac < 16 }
    requires pc { after.pc < 2 ^ 18 }
    requires spare { GoesBack to → HasSpare 2 taken.old }
    ensures leaves { LeavesEnd taken.old taken.new result }
    ensures needs { IfErr result (StopsFor P.means pages.now) }
    ensures told { (d : DrumWords) (f : AForkName) (deed : Deed) (old : ARegs) → P.means.fits pages.now d → Stands f (framed P.means pages.now d) taken.old → IsDone deed ac old after to told
        → Ends f (framed P.means pages.now d) regs.now.ac taken.old taken.new (finishes old ac deed) result }
{
    let Some(word) = told.stored else {
        return Ok(end_with(after, told.post));
    };
    match to {
        Destination::Nowhere => Ok(end_with(after, told.post)),
        Destination::Back(at) => {
            widen(taken, regs, pages, at)?;
            Ok(end_storing(after, at, word, told.post))
        }
        Destination::Into(at) => {
            refer(taken, regs, pages, at, Kind::Write)?;
            Ok(end_storing(after, at, word, told.post))
        }
        Destination::Before(at) => {
            refer(taken, regs, pages, at, Kind::Write)?;
            if at == u32::from(ac) {
                return Ok(end_with(after, told.post));
            }
            Ok(end_storing(after, at, word, told.post))
        }
    }
}

/// The instruction of a row, with its opcode and its effective address: it takes its operand, is
/// done on a copy of the registers, and its word is asked for.
pub fn ordinary<P: Pages>(
    taken: &mut Taken,
    regs: &Regs,
    pages: &P,
    row: TableRow,
    op: u16,
    ac: u8,
    address: &Address,
) -> Result<Ending, Stop>
    requires serves { Serves P.means pages.now taken.old.fork }
    requires line { IsInLine op row }
    requires ac { ac < 16 }
    requires address { IsAddress address.now.e }
    requires pc { regs.now.pc < 2 ^ 18 }
    requires fetched { HasSpare 1 taken.old }
    ensures leaves { LeavesEnd taken.old taken.new result }
    ensures needs { IfErr result (StopsFor P.means pages.now) }
    ensures told { DoesEnd P.means pages.now regs.now.ac taken.old taken.new (does row op regs.now ac address.now.e address.now.last) result }
{
    let at = operand_address(row, regs, ac, address.e);
    let m = operand(taken, regs, pages, at, address.e)?;
    let to = destination_of(row, regs, ac, address.e);
    let mut after = *regs;
    let told = do_row(row, op, &mut after, ac, address.e, address.last, m);
    finish(taken, regs, pages, after, ac, to, told)
}
