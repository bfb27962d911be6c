// Programs in place, over pages in memory alone, by themselves and at the end of chains: each is begun at 100
// and runs up to an illegal word, unless it ends before.
ghost use Rattle.std.specs.Prelude.{◌≡◌, ◌<◌, true, false};
ghost use Rattle.page_contracts.specs.Pages.{HasSpace};

use crate::same::same_at;
use crate::spaces::{first_page, space_of};
use crate::top::{TOP, add_top};
use flat_pages::{FlatSlots, FlatStore};
use ka10_in_place::{Burst, BurstEnd, burst};
use machine_names::{Kind, Tty};
use outside::Memory;
use page_contracts::{Pages, SpaceHandle};
use plain_units::Regs;
use std::alloc::Global;
use std::process::Abort;
use word36::{Flags, Word};

fn poke<P: Pages>(pages: &mut P, space: SpaceHandle, at: u32, word: u64)
    requires at { at < 512 }
    requires space { HasSpace P.means pages.old space }
    ensures { HasSpace P.means pages.new space }
{
    match pages.find(space, 0, Kind::Write) {
        None => {}
        Some(found) => pages.store(space, found, at, Word::wrapped(word)),
    }
}

// A program's words by their addresses in the first page, which may stand at the end of a chain.
fn run<P: Pages>(pages: &mut P, program: &[(u32, u64)], is_chained: bool) -> (Burst, Regs)
    requires flat { P.means.flat ≡ true }
    requires room { P.means.count pages.old < P.means.most pages.old }
    requires absent { P.means.lives pages.old TOP ≡ false }
    requires few { P.means.forks_of pages.old TOP.tty < P.means.most_forks }
    requires serial { P.means.serial pages.old Tty.CONSOLE < 900 }
{
    add_top(pages);
    first_page(pages, is_chained);
    let space = space_of(pages);
    for (at, word) in program {
        poke(pages, space, *at % 512, *word);
    }
    let mut regs = Regs {
        ac: [Word::ZERO; 16],
        pc: 0o100,
        flags: Flags::CLEAR,
    };
    let done = burst(&mut regs, pages, space, 100);
    (done, regs)
}

/// A program and what it comes to: how many units post nothing, how the burst ends, the program
/// counter then, and an accumulator with its word.
type Row<'a> = (&'a [(u32, u64)], u32, BurstEnd, u32, usize, u64);

// What the program comes to, over new pages.
fn left(alloc: Global, program: &[(u32, u64)], is_chained: bool) -> Result<(Burst, Regs), Memory> {
    let store = FlatStore::boot(alloc, 8)?;
    let mut pages = FlatSlots::boot(alloc, store, 8)?;
    Ok(run(&mut pages, program, is_chained))
}

// The programs come to that, at the end of chains or by themselves.
fn come_so(rt: &impl Abort, alloc: Global, is_chained: bool, rows: &[Row]) {
    for &(program, units, end, pc, ac, value) in rows {
        assert!(rt; ac < 16);
        let Ok((done, regs)) = left(alloc, program, is_chained) else {
            rt.panic("no memory")
        };
        same_at(rt, program, done, Burst { units, end });
        same_at(rt, program, regs.pc, pc);
        same_at(rt, program, regs.ac[ac], Word::wrapped(value));
    }
}

const PROGRAMS: [Row<'static>; 13] = [
    // MOVEI 1,5; ADDI 1,3; MOVEM 1,200; MOVE 2,200
    (
        &[
            (0o100, 0o201040000005),
            (0o101, 0o271040000003),
            (0o102, 0o202040000200),
            (0o103, 0o200100000200),
        ],
        4,
        BurstEnd::Slow,
        0o104,
        2,
        0o10,
    ),
    // ILDB 2,110, in two units: the first byte of NAME
    (
        &[
            (0o100, 0o134100000110),
            (0o110, 0o440700000200),
            (0o200, 0o472031542576),
        ],
        2,
        BurstEnd::Slow,
        0o101,
        2,
        0o116,
    ),
    // MOVE 1,110; BLT 1,302, a word a unit; MOVE 2,302
    (
        &[
            (0o100, 0o200040000110),
            (0o101, 0o251040000302),
            (0o102, 0o200100000302),
            (0o110, 0o000200000300),
            (0o202, 0o000000000033),
        ],
        5,
        BurstEnd::Slow,
        0o103,
        2,
        0o33,
    ),
    // MOVE 1,110; PUSHJ 1,105; at 105 POPJ 1,
    (
        &[
            (0o100, 0o200040000110),
            (0o101, 0o260040000105),
            (0o105, 0o263040000000),
            (0o110, 0o777770000400),
        ],
        3,
        BurstEnd::Slow,
        0o102,
        1,
        0o777770000400,
    ),
    // MOVEI 3,3; SOJG 3,101
    (
        &[(0o100, 0o201140000003), (0o101, 0o367140000101)],
        4,
        BurstEnd::Slow,
        0o102,
        3,
        0,
    ),
    // MOVE 1,110; ADDI 1,1 overflows
    (
        &[
            (0o100, 0o200040000110),
            (0o101, 0o271040000001),
            (0o110, 0o377777777777),
        ],
        1,
        BurstEnd::Overflow,
        0o102,
        1,
        0o400000000000,
    ),
    // MOVE 1,110; PUSH 1,110 fills the list
    (
        &[
            (0o100, 0o200040000110),
            (0o101, 0o261040000110),
            (0o110, 0o777777000400),
        ],
        1,
        BurstEnd::Pushdown,
        0o102,
        1,
        0o000000000401,
    ),
    // MOVE 1,@200
    (
        &[
            (0o100, 0o200060000200),
            (0o200, 0o000000000201),
            (0o201, 0o000000000007),
        ],
        1,
        BurstEnd::Slow,
        0o101,
        1,
        7,
    ),
    // JSYS 74, a monitor call
    (&[(0o100, 0o104000000074)], 0, BurstEnd::Slow, 0o100, 1, 0),
    // MOVE 1,5000, in a page that isn't made
    (&[(0o100, 0o200040005000)], 0, BurstEnd::Slow, 0o100, 1, 0),
    // MOVE 1,110; JRST 1, where a JRST 102 stands then
    (
        &[
            (0o100, 0o200040000110),
            (0o101, 0o254000000001),
            (0o110, 0o254000000102),
        ],
        3,
        BurstEnd::Slow,
        0o102,
        1,
        0o254000000102,
    ),
    // JRST 1100, to the same place of a page that isn't made
    (&[(0o100, 0o254000001100)], 1, BurstEnd::Slow, 0o1100, 1, 0),
    // JRST 100
    (&[(0o100, 0o254000000100)], 100, BurstEnd::Most, 0o100, 1, 0),
];

#[test]
fn programs(rt: HostRuntime) {
    come_so(&rt, rt.alloc(), false, &PROGRAMS);
}

#[test]
fn programs_at_the_end_of_chains(rt: HostRuntime) {
    come_so(&rt, rt.alloc(), true, &PROGRAMS);
}
