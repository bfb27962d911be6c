// Programs in the accumulators of a fork, whose pages are made as they come to be referred to.
ghost use Rattle.std.specs.Prelude.{◌<◌, ◌≤◌, ◌^◌};
ghost use Rattle.page_homes.specs.declared.homes.TheConstants.{MOST_HOMES};
ghost use Rattle.ka10_unit.specs.Gathers.{Serves};

use crate::same::same_at;
use crate::top::{TOP, add_top};
use flat_pages::{FlatSlots, FlatStore};
use ka10_deeds::Post;
use ka10_unit::{Outcome, Taken, slow_unit};
use outside::Memory;
use page_contracts::Pages;
use plain_units::Regs;
use std::alloc::Global;
use std::process::Abort;
use word36::{Flags, Word};

const DONE: Outcome = Outcome::Done(Post::Nothing);

const OVERFLOW: Outcome = Outcome::Done(Post::Overflow);

const LEAST: u64 = 0o400000000000;

/// How the last of some units came out, and what they left.
#[derive(Clone, Copy)]
struct Came {
    outcome: Outcome,
    regs: Regs,
    /// How many references the last unit took.
    references: usize,
    live: u32,
}

/// Registers with a program in accumulators 1 to 7, at 1.
fn registers(program: [u64; 7]) -> Regs
    ensures { result.pc < 2 ^ 18 }
{
    let mut ac = [Word::ZERO; 16];
    for at in 0..7usize {
        ac[at + 1] = Word::wrapped(program[at]);
    }
    Regs {
        ac,
        pc: 1,
        flags: Flags::CLEAR,
    }
}

/// The words of accumulators 3 to 6.
fn words_of(regs: &Regs) -> [u64; 4] {
    [
        regs.ac[3].value(),
        regs.ac[4].value(),
        regs.ac[5].value(),
        regs.ac[6].value(),
    ]
}

/// Does so many units, as long as they go through.
fn run<P: Pages>(taken: &mut Taken, pages: &mut P, regs: &mut Regs, units: u32) -> Outcome
    requires serves { Serves P.means pages.old TOP }
    requires serial { P.means.serial pages.old TOP.tty ≤ 1 }
    requires units { units < 100 }
    requires pc { regs.old.pc < 2 ^ 18 }
{
    let mut outcome = DONE;
    for unit in 0..units {
        outcome = slow_unit(taken, regs, pages, TOP);
        let Outcome::Done(_) = outcome else {
            return outcome;
        };
    }
    outcome
}

/// The same from registers on, with one fork and so many pages at most.
fn come_out(alloc: Global, limit: u32, first: Regs, units: u32) -> Result<Came, Memory>
    requires some { 1 ≤ limit }
    requires limit { limit ≤ MOST_HOMES }
    requires units { units < 100 }
    requires pc { first.pc < 2 ^ 18 }
{
    let store = FlatStore::boot(alloc, limit)?;
    let mut pages = FlatSlots::boot(alloc, store, limit)?;
    add_top(&mut pages);
    let mut regs = first;
    let mut taken = Taken::new();
    let outcome = run(&mut taken, &mut pages, &mut regs, units);
    Ok(Came {
        outcome,
        regs,
        references: taken.refs.len(),
        live: pages.live(),
    })
}

/// The last unit came out as was wanted.
fn is_outcome(outcome: Outcome, wanted: Outcome) -> bool {
    match (outcome, wanted) {
        (Outcome::Done(post), Outcome::Done(wanted)) => post == wanted,
        (Outcome::Trap(channel), Outcome::Trap(wanted)) => channel == wanted,
        (Outcome::Call(number), Outcome::Call(wanted)) => number == wanted,
        _ => false,
    }
}

/// The program stands in accumulators 1 to 7, and begins at 1. Each row: how many pages and forks
/// there may be; accumulators 1 to 7; how many units; how the last came out; accumulators 3 to 6
/// then; the program counter; and how many pages and forks there are.
type Row = (u32, [u64; 7], u32, Outcome, [u64; 4], u32, u32);

/// The programs come out so.
fn come_so(rt: &impl Abort, alloc: Global, rows: &[Row]) {
    for &(limit, program, units, outcome, after, pc, live) in rows {
        assert!(rt; limit >= 1 && limit <= 9);
        assert!(rt; units < 100);
        let Ok(left) = come_out(alloc, limit, registers(program), units) else {
            rt.panic("no memory")
        };
        same_at(rt, program, is_outcome(left.outcome, outcome), true);
        same_at(rt, program, words_of(&left.regs), after);
        same_at(rt, program, left.regs.pc, pc);
        same_at(rt, program, left.live, live);
    }
}

#[test]
#[rattlefmt::skip]
fn programs(rt: HostRuntime) {
    come_so(&rt, rt.alloc(), &[
        // XCT of itself, and MOVE through an indirect word of itself: more references than there
        // may be
        (9, [0o256000000001, 0, 0, 0, 0, 0, 0], 1, Outcome::Trap(0o17), [0, 0, 0, 0], 1, 1),
        (9, [0o200160000002, 0o000020000002, 0, 0, 0, 0, 0], 1, Outcome::Trap(0o17), [0, 0, 0, 0], 1, 1),
        // MOVE 3,23 makes a page of zeros
        (9, [0o200140000023, 0, 1, 0, 0, 0, 0], 1, DONE, [0, 0, 0, 0], 2, 2),
        // MOVEM 4,1000 makes a page, and MOVE 5,1000 takes the word from it
        (9, [0o202200001000, 0o200240001000, 0, 0o123, 0, 0, 0], 2, DONE, [0, 0o123, 0o123, 0], 3, 2),
        // the same where there is no room for a page
        (1, [0o202200001000, 0o200240001000, 0, 0o123, 0, 0, 0], 2, Outcome::Trap(0o24), [0, 0o123, 0, 0], 1, 1),
        // a local call whose word at 41 is 0 stores nothing, and makes no page
        (9, [0o001000000005, 0, 0, 0, 0, 0, 0], 1, Outcome::Trap(0o17), [0, 0, 0, 0], 1, 1),
        // MOVEM 4,41, where the word of 4 is MOVE 5,40, and a local call, which the word at 41 sees
        (9, [0o202200000041, 0o001057000006, 0, 0o200240000040, 0, 0, 0], 2, DONE, [0, 0o200240000040, 0o001040000006, 0], 3, 2),
        // BLT 3,3 of the word at 4 into AC itself, which counts up as it then stands
        (9, [0o251140000003, 0, 0o000004000003, 0o000010000020, 0, 0, 0], 1, DONE, [0o000011000021, 0o000010000020, 0, 0], 2, 1),
        // BLT 3,6 of the word at 4 into 5: its block has not ended
        (9, [0o251140000006, 0, 0o000004000005, 0o77, 0, 0, 0], 1, DONE, [0o000005000006, 0o77, 0o77, 0], 1, 1),
        // ILDB 5,6 in its two parts: the first character of the word at 7
        (9, [0o134240000006, 0, 0, 0, 0, 0o440700000007, 0o472031542576], 1, DONE, [0, 0, 0, 0o350700000007], 1, 1),
        (9, [0o134240000006, 0, 0, 0, 0, 0o440700000007, 0o472031542576], 2, DONE, [0, 0, 0o116, 0o350700000007], 2, 1),
        // IDPB 5,6 into the word at 4
        (9, [0o136240000006, 0, 0, 0, 0o101, 0o440700000004, 0], 2, DONE, [0, 0o404000000000, 0o101, 0o350700000004], 2, 1),
        // a monitor call, of E
        (9, [0o104000000170, 0, 0, 0, 0, 0, 0], 1, Outcome::Call(0o170), [0, 0, 0, 0], 1, 1),
        // ADD 5,6 overflows
        (9, [0o270240000006, 0, 0, 0, 0o377777777777, 1, 0], 1, Outcome::Done(Post::Overflow), [0, 0, 0o400000000000, 1], 2, 1),
        // JRST 4, is the executive's
        (9, [0o254200000001, 0, 0, 0, 0, 0, 0], 1, Outcome::Trap(0o17), [0, 0, 0, 0], 1, 1),
    ]);
}

/// A word is its opcode, AC, I, X and Y: bits 0 to 8, 9 to 12, 13, 14 to 17 and 18 to 35.
#[test]
#[rattlefmt::skip]
fn fields_of_words(rt: HostRuntime) {
    come_so(&rt, rt.alloc(), &[
        // MOVE 1,1000, between MOVEM 4,1000 and MOVE 3,1
        (9, [0o202200001000, 0o200040001000, 0o200140000001, 0o123, 0, 0, 0], 3, DONE, [0o123, 0o123, 0, 0], 4, 2),
        // JRST 0,100
        (9, [0o254000000100, 0, 0, 0, 0, 0, 0], 1, DONE, [0, 0, 0, 0], 0o100, 1),
        // 777, which is no instruction
        (9, [0o777777777777, 0, 0, 0, 0, 0, 0], 1, Outcome::Trap(0o17), [0, 0, 0, 0], 1, 1),
    ]);
}

/// A local call stores its opcode and AC at 40, and there I, X and Y become those of its address.
/// MOVEM 4,41 goes before each, and the word at 41 is MOVE 5,40.
#[test]
#[rattlefmt::skip]
fn words_of_local_calls(rt: HostRuntime) {
    come_so(&rt, rt.alloc(), &[
        // 001, of AC 0 and of AC 17, through the word at 5, which is 5
        (9, [0o202200000041, 0o001037000005, 0, 0o200240000040, 5, 0, 0], 2, DONE, [0, 0o200240000040, 0o001000000005, 0], 3, 2),
        (9, [0o202200000041, 0o001777000005, 0, 0o200240000040, 5, 0, 0], 2, DONE, [0, 0o200240000040, 0o001740000005, 0], 3, 2),
        // 037, through the last word, which MOVEM 6,777777 stores
        (9, [0o202300777777, 0o202200000041, 0o037777777777, 0o200240000040, 0, 0o123456, 0], 3, DONE, [0o037777777777, 0o200240000040, 0o037740123456, 0o123456], 4, 3),
        // 012, of 1 plus the right half of accumulator 5
        (9, [0o202200000041, 0o012345000001, 0, 0o200240000040, 0o777777, 0, 0], 2, DONE, [0, 0o200240000040, 0o012340000000, 0], 3, 2),
    ]);
}

/// JRST is the executive's with bit 4 or bit 10 (octal) of AC; a monitor call is illegal behind
/// a local call alone. Behind a local call, MOVEM 4,41 goes before that.
#[test]
#[rattlefmt::skip]
fn illegal_words(rt: HostRuntime) {
    come_so(&rt, rt.alloc(), &[
        (9, [0, 0, 0, 0, 0, 0, 0], 1, Outcome::Trap(0o17), [0, 0, 0, 0], 1, 1),
        (9, [0o040000000000, 0, 0, 0, 0, 0, 0], 1, Outcome::Trap(0o17), [0, 0, 0, 0], 1, 1),
        (9, [0o700000000000, 0, 0, 0, 0, 0, 0], 1, Outcome::Trap(0o17), [0, 0, 0, 0], 1, 1),
        // a monitor call, and one behind a local call
        (9, [0o104000000000, 0, 0, 0, 0, 0, 0], 1, Outcome::Call(0), [0, 0, 0, 0], 1, 1),
        (9, [0o202200000041, 0o001000000000, 0, 0o104000000000, 0, 0, 0], 2, Outcome::Trap(0o17), [0, 0o104000000000, 0, 0], 2, 2),
        // MOVE 14,5 behind a local call
        (9, [0o202200000041, 0o001000000000, 0, 0o200600000005, 0, 0, 0], 2, DONE, [0, 0o200600000005, 0, 0], 3, 2),
        // JRST with 0, 3, 4 and 17 in AC, and with 10 behind a local call
        (9, [0o254000000100, 0, 0, 0, 0, 0, 0], 1, DONE, [0, 0, 0, 0], 0o100, 1),
        (9, [0o254140000100, 0, 0, 0, 0, 0, 0], 1, DONE, [0, 0, 0, 0], 0o100, 1),
        (9, [0o254200000100, 0, 0, 0, 0, 0, 0], 1, Outcome::Trap(0o17), [0, 0, 0, 0], 1, 1),
        (9, [0o254740000100, 0, 0, 0, 0, 0, 0], 1, Outcome::Trap(0o17), [0, 0, 0, 0], 1, 1),
        (9, [0o202200000041, 0o001000000000, 0, 0o254400000100, 0, 0, 0], 2, Outcome::Trap(0o17), [0, 0o254400000100, 0, 0], 2, 2),
        // XCT 6 behind a local call, where MOVEI 5,7 stands
        (9, [0o202200000041, 0o001000000000, 0, 0o256000000006, 0, 0o201240000007, 0], 2, DONE, [0, 0o256000000006, 7, 0o201240000007], 3, 2),
    ]);
}

/// Behind a local call, a monitor call ends a unit at its third reference; another local call does
/// not, and so this one, which is done again and again, runs out of references.
#[test]
fn local_calls_behind_local_calls(rt: HostRuntime) {
    for &(word, references) in &[(0o104000000000, 3), (0o001000000000, 16)] {
        let program = [0o202200000041, 0o001000000000, 0, word, 0, 0, 0];
        let Ok(left) = come_out(rt.alloc(), 9, registers(program), 2) else {
            rt.panic("no memory")
        };
        same_at(
            &rt,
            word,
            is_outcome(left.outcome, Outcome::Trap(0o17)),
            true,
        );
        same_at(&rt, word, left.references, references);
    }
}

/// ADDM 5, of the least word to 400000,,77, which MOVEM 6, stores first, stores 77 last and
/// overflows: at an address below 20 (octal) it goes to that accumulator, else to a page.
#[test]
#[rattlefmt::skip]
fn words_stored_last(rt: HostRuntime) {
    come_so(&rt, rt.alloc(), &[
        // at 3
        (9, [0o202300000003, 0o272240000003, 0, 0, LEAST, LEAST + 0o77, 0], 2, OVERFLOW, [0o77, 0, LEAST, LEAST + 0o77], 3, 1),
        // at 17, and the word from there by MOVE 4,17
        (9, [0o202300000017, 0o272240000017, 0, 0, LEAST, LEAST + 0o77, 0], 2, OVERFLOW, [0, 0, LEAST, LEAST + 0o77], 3, 1),
        (9, [0o202300000017, 0o272240000017, 0o200200000017, 0, LEAST, LEAST + 0o77, 0], 3, DONE, [0o200200000017, 0o77, LEAST, LEAST + 0o77], 4, 1),
        // at 20, and the word from there
        (9, [0o202300000020, 0o272240000020, 0, 0, LEAST, LEAST + 0o77, 0], 2, OVERFLOW, [0, 0, LEAST, LEAST + 0o77], 3, 2),
        (9, [0o202300000020, 0o272240000020, 0o200200000020, 0, LEAST, LEAST + 0o77, 0], 3, DONE, [0o200200000020, 0o77, LEAST, LEAST + 0o77], 4, 2),
    ]);
}
