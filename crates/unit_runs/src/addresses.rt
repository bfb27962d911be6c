// Effective addresses of words.
ghost use Rattle.ka10_unit.specs.Gathers.{Serves};

use crate::same::same_at;
use crate::top::{TOP, add_top};
use flat_pages::{FlatSlots, FlatStore};
use ka10_deeds::Address;
use ka10_unit::{Taken, address_of};
use outside::Memory;
use page_contracts::Pages;
use plain_units::Regs;
use std::alloc::Global;
use std::process::Abort;
use word36::{Flags, Word};

// The effective address of a word, unless it traps, and the address of the first indirect word.
fn reached<P: Pages>(pages: &P, regs: &Regs, word: Word) -> (Option<Address>, Option<u32>)
    requires { Serves P.means pages.now TOP }
{
    let mut taken = Taken::new();
    taken.restart(TOP);
    let address = address_of(&mut taken, regs, pages, word);
    let first = match taken.refs.as_slice().first() {
        Some(reference) => Some(reference.address),
        None => None,
    };
    (address.ok(), first)
}

// The same over the new pages of a fork.
fn reached_from(
    alloc: Global,
    regs: &Regs,
    word: Word,
) -> Result<(Option<Address>, Option<u32>), Memory> {
    let store = FlatStore::boot(alloc, 8)?;
    let mut pages = FlatSlots::boot(alloc, store, 8)?;
    add_top(&mut pages);
    Ok(reached(&pages, regs, word))
}

// Accumulator 5 has 123,,000002: X adds its right half to Y, and X 0 adds nothing. The indirect words
// are 0.
#[test]
fn steps_of_addresses(rt: HostRuntime) {
    let mut regs = Regs {
        ac: [Word::ZERO; 16],
        pc: 0o100,
        flags: Flags::CLEAR,
    };
    regs.ac[5] = Word::wrapped(0o000123000002);
    for &(word, e, last, indirect) in &[
        (0o200000001000, 0o1000, 0o200000001000, None),
        (0o200005001000, 0o1002, 0o000123000002, None),
        (0o200005777777, 0o000001, 0o000123000002, None),
        (0o200020001000, 0, 0, Some(0o1000)),
        (0o200025777776, 0, 0, Some(0o000000)),
    ] {
        let Ok((address, first)) = reached_from(rt.alloc(), &regs, Word::wrapped(word)) else {
            rt.panic("no memory")
        };
        let last = Word::wrapped(last);
        same_at(&rt, word, address, Some(Address { e, last }));
        same_at(&rt, word, first, indirect);
    }
}
