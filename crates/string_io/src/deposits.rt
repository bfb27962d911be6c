// Where the next byte of a string is deposited.
ghost use Rattle.std.specs.Prelude.{◌≡◌, ◌≢◌, ◌<◌, ◌≤◌, ◌+◌, ◌^◌, IfErr, IfOk, None, OnErr, length, true};
ghost use Rattle.machine_names.specs.Bounds.{IsAddress};
ghost use Rattle.page_contracts.specs.DrumWords.{DrumWords};
ghost use Rattle.plain_units.specs.Steps.{begun, referred, word_taken};
ghost use Rattle.machine_names.specs.declared.names.Kind.{Kind as AKind};
ghost use Rattle.page_gather.specs.Gathering.{Gathers, left_of};
ghost use Rattle.call_turns.specs.Turns.{FitsEnd, IsRegs};
ghost use Rattle.plain_model.specs.declared.call.End.{End as AEnd};
ghost use Rattle.ka10_unit.specs.Gathers.{IsOf, Serves, framed, weight};
ghost use Rattle.ka10_unit.specs.Taking.{HasPage, Stands, pages_so_far, read_frames};
ghost use Rattle.plain_units.specs.Instructions.{storing as storing_of};
ghost use Rattle.string_io.specs.Depositing.{Deposits, DepositsAt};
ghost use Rattle.string_io.specs.Turning.{StringStops};

use crate::plan::Plan;
use call_turns::accumulator;
use ka10_bytes::deposit;
use ka10_unit::{Stop, Taken, address_of, ask, held_word};
use machine_names::{ACCUMULATORS, ForkName, Kind};
use page_contracts::Pages;
use page_gather::Gather;
use plain_model::call::{ByteChange, End};
use plain_units::{Put, Regs};
use word36::Word;

/// A byte that is to be deposited where a pointer names it, behind which the call is done with a change, and with these registers but for the
/// word that the byte is in.
#[derive(Clone, Copy)]
pub struct NextByte {
    pub pointer: Word,
    pub byte: Word,
    pub change: ByteChange,
    pub regs: Regs,
}

// The word at an address that was referred to.
fn word_at<P: Pages>(gather: &Gather, regs: &Regs, pages: &P, fork: ForkName, at: u32) -> Word
    requires serves { Serves P.means pages.now fork }
    requires regs { IsRegs regs.now }
    requires address { IsAddress at }
    ensures told { (d : DrumWords) → P.means.fits pages.now d → Gathers (P.means.plain pages.now d) (P.means.scene pages.now) gather.now
        → let q = left_of (P.means.plain pages.now d) gather.now in HasPage fork (record { pages = q; scene = P.means.scene pages.now }) at
        → result ≡ word_taken fork (referred (begun q regs.now.ac) at AKind.Read q) at }
{
    if at < ACCUMULATORS {
        return accumulator(regs, at as usize);
    }
    held_word(gather, pages, fork, at)
}

// A word is to be stored at an address behind these references, and the call is done with a change; low addresses are the accumulators.
fn storing(
    fork: ForkName,
    gather: Gather,
    change: ByteChange,
    told: Regs,
    at: u32,
    word: Word,
) -> Plan
    requires own { IsOf fork gather }
    requires regs { IsRegs told }
    requires address { IsAddress at }
    ensures fork { result.fork ≡ fork }
    ensures gather { result.gather ≡ gather }
    ensures put { result.put ≡ (storing_of told at word None).put }
    ensures ending { result.ending ≡ AEnd.Done change (storing_of told at word None).regs None None }
    ensures fits { FitsEnd (λ what. what ≡ change) result.ending }
{
    let mut regs = told;
    let put = if at < ACCUMULATORS {
        regs.ac[at as usize] = word;
        None
    } else {
        Some(Put { at, word })
    };
    let ending = End::Done {
        change,
        regs,
        out: None,
        post: None,
    };
    Plan {
        fork,
        gather,
        put,
        ending,
    }
}

// The byte is to be deposited in the word at an address, behind the references of that address.
fn deposit_at<P: Pages>(
    taken: Taken,
    regs: &Regs,
    pages: &P,
    next: &NextByte,
    e: u32,
) -> Result<Plan, Stop>
    requires serves { Serves P.means pages.now taken.fork }
    requires regs { IsRegs regs.now }
    requires next { IsRegs next.now.regs }
    requires address { IsAddress e }
    requires few { weight taken.gather ≤ read_frames }
    ensures fork { IfOk result (λ plan. plan.fork ≡ taken.fork) }
    ensures fits { IfOk result (λ plan. FitsEnd (λ what. what ≡ next.now.change) plan.ending) }
    ensures needs { IfErr result (StringStops P.means pages.now) }
    ensures told { (d : DrumWords) → P.means.fits pages.now d → Stands taken.fork (framed P.means pages.now d) taken
        → DepositsAt taken.fork (framed P.means pages.now d) (pages_so_far (framed P.means pages.now d) taken) next.now.change regs.now next.now.regs next.now.pointer next.now.byte e result }
{
    let fork = taken.fork;
    let mut gather = taken.gather;
    match ask(&mut gather, pages, fork, e, Kind::Read) {
        Err(stop) => return Err(stop),
        Ok(()) => {}
    }
    let word = word_at(&gather, regs, pages, fork, e);
    match ask(&mut gather, pages, fork, e, Kind::Write) {
        Err(stop) => Err(stop),
        Ok(()) => Ok(storing(
            fork,
            gather,
            next.change,
            next.regs,
            e,
            deposit(next.pointer, word, next.byte),
        )),
    }
}

/// The byte is to be deposited where its pointer names it: the pointer's address is taken, and the word there is referred to, to read and
/// then to write. Nothing is made before the plan is carried out.
pub fn deposits<P: Pages>(
    regs: &Regs,
    who: ForkName,
    pages: &P,
    next: &NextByte,
) -> Result<Plan, Stop>
    requires serves { Serves P.means pages.now who }
    requires regs { IsRegs regs.now }
    requires next { IsRegs next.now.regs }
    ensures fork { IfOk result (λ plan. plan.fork ≡ who) }
    ensures fits { IfOk result (λ plan. FitsEnd (λ what. what ≡ next.now.change) plan.ending) }
    ensures needs { IfErr result (StringStops P.means pages.now) }
    ensures told { (d : DrumWords) → P.means.fits pages.now d → Deposits who (framed P.means pages.now d) next.now.change regs.now next.now.regs next.now.pointer next.now.byte result }
{
    let mut taken = Taken::new();
    taken.restart(who);
    match address_of(&mut taken, regs, pages, next.pointer) {
        Err(stop) => Err(stop),
        Ok(address) => deposit_at(taken, regs, pages, next, address.e),
    }
}
