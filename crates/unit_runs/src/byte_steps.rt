// Steps of byte instructions.
ghost use Rattle.std.specs.Prelude.{◌<◌, ◌^◌};

use crate::same::same_at;
use ka10_deeds::{
    ByteStep, byte_step, do_deposit, do_first_part, do_increment, do_load, flags_of,
    forget_first_part, half_of_flags,
};
use plain_units::Regs;
use word36::Word;

// The characters N, A, M, E and ?, seven bits each.
const NAME: u64 = 0o472031542576;

// The flags' half with the user bit, and with the mark of a first part.
const NONE: u32 = 0o010000;

const FIRST: u32 = 0o030000;

fn registers(a: u64, half: u32) -> Regs
    requires { half < 2 ^ 18 }
    ensures { result.pc < 2 ^ 18 }
{
    let mut ac = [Word::ZERO; 16];
    ac[3] = Word::wrapped(a);
    Regs {
        ac,
        pc: 0o100,
        flags: flags_of(half),
    }
}

// The program counter, and the flags' half.
fn standing(regs: &Regs) -> (u32, u32) {
    (regs.pc, half_of_flags(regs.flags))
}

#[test]
fn steps(rt: HostRuntime) {
    let clear = registers(0, NONE);
    let marked = registers(0, FIRST);
    for &(code, first, second) in &[
        (0, ByteStep::Increment, ByteStep::Increment),
        (1, ByteStep::FirstPart, ByteStep::LoadSecond),
        (2, ByteStep::Load, ByteStep::Load),
        (3, ByteStep::FirstPart, ByteStep::DepositSecond),
        (4, ByteStep::Deposit, ByteStep::Deposit),
    ] {
        assert!(rt; code < 5);
        same_at(&rt, code, byte_step(code, &clear), first);
        same_at(&rt, code, byte_step(code, &marked), second);
    }
}

#[test]
fn pointers(rt: HostRuntime) {
    let pointer = Word::wrapped(0o010700001000);
    let next = Some(Word::wrapped(0o350700001001));
    let mut regs = registers(5, NONE);
    let told = do_increment(&mut regs, 3, 0o2000, pointer);
    same_at(&rt, "incremented", told.stored, next);
    same_at(&rt, "incremented", standing(&regs), (0o101, NONE));
}

#[test]
fn first_parts(rt: HostRuntime) {
    let pointer = Word::wrapped(0o010700001000);
    let next = Some(Word::wrapped(0o350700001001));
    let mut regs = registers(5, NONE);
    let told = do_first_part(&mut regs, 3, 0o2000, pointer);
    same_at(&rt, "first part", told.stored, next);
    same_at(&rt, "first part", standing(&regs), (0o100, FIRST));
    forget_first_part(&mut regs);
    same_at(&rt, "forgotten", standing(&regs), (0o100, NONE));
}

#[test]
fn bytes_of_words(rt: HostRuntime) {
    let pointer = Word::wrapped(0o260700001000);
    let word = Word::wrapped(NAME);
    let mut regs = registers(0o102, FIRST);
    let told = do_deposit(&mut regs, 3, pointer, 0o1000, word);
    same_at(
        &rt,
        "deposited",
        told.stored,
        Some(Word::wrapped(0o472051542576)),
    );
    same_at(
        &rt,
        "deposited",
        (regs.ac[3].value(), regs.pc),
        (0o102, 0o101),
    );
    let told = do_load(&mut regs, 3, pointer, word);
    same_at(&rt, "loaded", told.stored, None);
    same_at(&rt, "loaded", (regs.ac[3].value(), regs.pc), (0o101, 0o102));
    same_at(&rt, "flags", half_of_flags(regs.flags), FIRST);
}
