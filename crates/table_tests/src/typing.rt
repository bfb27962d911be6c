// What is typed at the terminal of a job.
use crate::made::made;
use crate::same::same;
use machine_names::{ForkName, Tty};
use plain_typing::Typed;
use std::process::Abort;
use tty_lines::{Line, read_as};

// A fork of terminal 2.
fn fork(serial: u32) -> ForkName {
    ForkName {
        tty: Tty(2),
        serial,
    }
}

// The line is let go. What it is made of is taken apart here alone, for all tests.
fn let_go(_line: Line) {}

// Four characters are stored.
fn is_typed(rt: &impl Abort, line: &mut Line) {
    same(rt, line.is_empty(), true);
    same(rt, line.take(), None);
    same(rt, line.typed(b'D'), Typed::Stored);
    same(rt, line.typed(b'O'), Typed::Stored);
    same(rt, line.typed(b'\r'), Typed::Stored);
    same(rt, line.typed(b'~'), Typed::Stored);
    same(rt, line.is_empty(), false);
}

// They are read in their order, and one behind them that is typed meanwhile.
fn is_taken(rt: &impl Abort, line: &mut Line) {
    same(rt, line.take(), Some(b'D'));
    same(rt, line.typed(0o177), Typed::Stored);
    same(rt, line.take(), Some(b'O'));
    same(rt, line.take(), Some(0o37));
    same(rt, line.take(), Some(b'~'));
    same(rt, line.take(), Some(0o177));
    same(rt, line.take(), None);
}

#[test]
fn characters_are_read_as_they_were_typed(rt: HostRuntime) {
    let mut line = made(&rt, Line::boot(rt.alloc()));
    is_typed(&rt, &mut line);
    is_taken(&rt, &mut line);
    let_go(line);
}

// 80 characters are stored, and no more.
fn is_filled(rt: &impl Abort, line: &mut Line) {
    same(rt, line.typed(b'a'), Typed::Stored);
    for _ in 0..79 {
        same(rt, line.typed(b'x'), Typed::Stored);
    }
    same(rt, line.typed(b'y'), Typed::Dropped);
    same(rt, line.typed(0o15), Typed::Dropped);
}

// What interrupts comes through a full line.
fn interrupts(rt: &impl Abort, line: &mut Line) {
    same(rt, line.typed(0o3), Typed::ControlC);
    line.assign(0o7, fork(5), 35);
    same(rt, line.typed(0o7), Typed::Posts(fork(5), 35));
}

// Where one is read, there is room for one.
fn is_read(rt: &impl Abort, line: &mut Line) {
    same(rt, line.take(), Some(b'a'));
    same(rt, line.typed(b'z'), Typed::Stored);
    same(rt, line.typed(b'z'), Typed::Dropped);
    for _ in 0..79 {
        same(rt, line.take(), Some(b'x'));
    }
    same(rt, line.take(), Some(b'z'));
    same(rt, line.take(), None);
}

#[test]
fn the_81st_character_is_lost(rt: HostRuntime) {
    let mut line = made(&rt, Line::boot(rt.alloc()));
    is_filled(&rt, &mut line);
    interrupts(&rt, &mut line);
    is_read(&rt, &mut line);
    let_go(line);
}

// Codes that are assigned, and others.
fn posts(rt: &impl Abort, line: &mut Line) {
    line.assign(0o1, fork(1), 0);
    line.assign(0o32, fork(2), 24);
    line.assign(0o0, fork(1), 35);
    same(rt, line.typed(0o1), Typed::Posts(fork(1), 0));
    same(rt, line.typed(0o32), Typed::Posts(fork(2), 24));
    same(rt, line.typed(0o0), Typed::Posts(fork(1), 35));
    same(rt, line.typed(0o2), Typed::Stored);
    same(rt, line.typed(0o33), Typed::Stored);
}

// A later fork takes a code over, and those of two others are assigned no more.
fn posts_otherwise(rt: &impl Abort, line: &mut Line) {
    line.assign(0o1, fork(3), 4);
    same(rt, line.typed(0o1), Typed::Posts(fork(3), 4));
    line.unassign(0o32);
    same(rt, line.typed(0o32), Typed::Stored);
    line.unassign(0o32);
    line.unassign(0o0);
    same(rt, line.typed(0o0), Typed::Stored);
    same(rt, line.typed(0o1), Typed::Posts(fork(3), 4));
}

#[test]
fn codes_interrupt_the_forks_that_assigned_them(rt: HostRuntime) {
    let mut line = made(&rt, Line::boot(rt.alloc()));
    posts(&rt, &mut line);
    posts_otherwise(&rt, &mut line);
    // A carriage return is read as the end of the line, so that it interrupts nobody.
    line.assign(0o15, fork(3), 5);
    same(&rt, line.typed(0o15), Typed::Stored);
    same(&rt, line.typed(0o3), Typed::ControlC);
    let_go(line);
}

#[test]
fn a_code_is_told_with_its_fork_and_channel(rt: HostRuntime) {
    let mut line = made(&rt, Line::boot(rt.alloc()));
    same(&rt, line.assigned(0o4), None);
    line.assign(0o4, fork(1), 1);
    line.assign(0o5, fork(1), 2);
    same(&rt, line.assigned(0o4), Some((fork(1), 1)));
    same(&rt, line.assigned(0o6), None);
    same(&rt, line.assigned(0o177), None);
    line.unassign(0o4);
    same(&rt, line.assigned(0o4), None);
    same(&rt, line.assigned(0o5), Some((fork(1), 2)));
    let_go(line);
}

#[test]
fn a_line_that_is_cleared_is_a_new_one(rt: HostRuntime) {
    let mut line = made(&rt, Line::boot(rt.alloc()));
    line.assign(0o4, fork(1), 1);
    line.assign(0o32, fork(2), 2);
    same(&rt, line.typed(b'a'), Typed::Stored);
    line.clear();
    same(&rt, line.is_empty(), true);
    same(&rt, line.typed(0o4), Typed::Stored);
    same(&rt, line.typed(0o32), Typed::Stored);
    same(&rt, line.take(), Some(0o4));
    let_go(line);
}

#[test]
fn the_end_of_a_line(rt: HostRuntime) {
    same(&rt, read_as(0o15), 0o37);
    same(&rt, read_as(0o12), 0o12);
    same(&rt, read_as(0o37), 0o37);
    same(&rt, read_as(b'@'), b'@');
}
