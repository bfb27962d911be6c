// What a writer writes, byte for byte.
ghost use Rattle.std.specs.Prelude.{◌≤◌};
ghost use Rattle.script_texts.specs.Follows.{IsTurn};
ghost use Rattle.script_texts.specs.Limits.{FitsItem, FitsStep};

use crate::events::spells;
use crate::made::made;
use crate::same::same;
use crate::sinks::{have, only, sink};
use machine_names::{DirName, ForkName, Tty, TypedText};
use outside::{Failed, MemSink, Sink};
use script_texts::{Event, ForkLine, ForkStatus, Item, Refusal, Step, Taker, WaitOn};
use std::alloc::Global;
use std::process::Abort;
use texts::{Last, Status, Writer};
use word36::Word;

const FORK: ForkName = ForkName {
    tty: Tty(0),
    serial: 1,
};

// The end of a run without transfers.
const DONE: Last = Last::Done {
    reads: 0,
    writes: 0,
};

// A writer of both texts in memory.
type InMemory<'a> = Writer<'a, MemSink, MemSink>;

// A step is taken.
fn take_step<W: Taker>(rt: &impl Abort, writer: &mut W, step: Step)
    requires { FitsStep step }
{
    same(rt, writer.step(step), Ok(()));
}

// So many equal turns are taken.
fn take_turns<W: Taker>(rt: &impl Abort, writer: &mut W, turn: Step, count: u64)
    requires fits { FitsStep turn }
    requires turn { IsTurn turn }
    requires some { 1 ≤ count }
{
    same(rt, writer.turns(turn, count), Ok(()));
}

// An item is taken.
fn take_item<W: Taker>(rt: &impl Abort, writer: &mut W, item: Item)
    requires { FitsItem item }
{
    same(rt, writer.item(item), Ok(()));
}

// A user logs in, and a program is put and started.
fn write_the_events<W: Taker>(rt: &impl Abort, writer: &mut W) {
    take_item(rt, writer, Item::Char(Tty(0), b'@'));
    take_step(
        rt,
        writer,
        Step::Outer(Event::Login(Tty(0), DirName::new(b"SMITH"))),
    );
    let word = Word::wrapped(0o201040000101);
    take_step(rt, writer, Step::Outer(Event::Poke(Tty(0), 0o100, word)));
    take_step(rt, writer, Step::Outer(Event::Start(Tty(0), 0o100)));
}

// It runs three units, of which two print, and the machine is idle then.
fn write_the_turns<W: Taker>(rt: &impl Abort, writer: &mut W) {
    take_step(rt, writer, Step::Unit(FORK));
    take_item(rt, writer, Item::Char(Tty(0), b'A'));
    take_step(rt, writer, Step::Unit(FORK));
    take_item(rt, writer, Item::Char(Tty(0), b'\r'));
    take_item(rt, writer, Item::Char(Tty(0), b'\n'));
    take_item(rt, writer, Item::Char(Tty(0), b'@'));
    take_step(rt, writer, Step::Unit(FORK));
    take_step(rt, writer, Step::Idle);
    take_step(rt, writer, Step::Idle);
}

fn write_a_run(rt: &impl Abort, writer: &mut InMemory<'_>) {
    write_the_events(rt, writer);
    write_the_turns(rt, writer);
    same(rt, writer.finish(DONE), Ok(()));
}

#[test]
fn writes_a_run(rt: HostRuntime) {
    let mut out = sink(&rt, rt.alloc(), 64);
    let mut rec = sink(&rt, rt.alloc(), 256);
    write_a_run(&rt, &mut Writer::new(&mut out, &mut rec));
    have(
        &rt,
        out,
        rec,
        b"T0 @A\\015\\012\nT0 @\n",
        b"LOGIN 0 SMITH\nPOKE 0 100 201040000101\nSTART 0 100\nU 0 1 3\nI 2\nE 0 0\n",
    );
}

// Nine entries and ten characters: two events, five units of two forks, and two idle entries.
fn write_a_tally(rt: &impl Abort, writer: &mut InMemory<'_>) {
    take_step(
        rt,
        writer,
        Step::Outer(Event::Login(Tty(0), DirName::new(b"A"))),
    );
    take_turns(rt, writer, Step::Unit(FORK), 3);
    for code in *b"0123456789" {
        take_item(rt, writer, Item::Char(Tty(1), code));
    }
    take_step(rt, writer, Step::Unit(FORK));
    take_step(rt, writer, Step::Outer(Event::Tick));
    take_item(rt, writer, Item::Refusal(Refusal::Busy(Tty(15))));
    take_turns(rt, writer, Step::Idle, 2);
    let other = ForkName {
        tty: Tty(1),
        serial: 1,
    };
    take_step(rt, writer, Step::Unit(other));
    let summary = Last::Summary {
        reads: 4,
        writes: 5,
    };
    same(rt, writer.finish(summary), Ok(()));
}

#[test]
fn counts_what_it_writes(rt: HostRuntime) {
    let mut out = sink(&rt, rt.alloc(), 64);
    let mut rec = sink(&rt, rt.alloc(), 64);
    write_a_tally(&rt, &mut Writer::new(&mut out, &mut rec));
    have(
        &rt,
        out,
        rec,
        b"T1 0123456789\n?BUSY 15\nS 2 5 2 10\n",
        b"LOGIN 0 A\nU 0 1 4\nTICK\nI 2\nU 1 1 1\nE 4 5\n",
    );
}

// A fork that is forced, and one that sleeps and is frozen.
fn write_forks(rt: &impl Abort, writer: &mut InMemory<'_>) {
    let forced = ForkLine {
        name: FORK,
        superior: 0,
        status: ForkStatus::Forced(15),
        frozen: false,
        address: 0o100,
    };
    take_item(rt, writer, Item::ForkLine(forced));
    let frozen = ForkLine {
        name: FORK,
        superior: 7,
        status: ForkStatus::Wait(WaitOn::Sleep(5)),
        frozen: true,
        address: 0,
    };
    take_item(rt, writer, Item::ForkLine(frozen));
}

fn write_items(rt: &impl Abort, writer: &mut InMemory<'_>) {
    take_item(rt, writer, Item::Char(Tty(3), 0o177));
    take_item(rt, writer, Item::Char(Tty(3), b'\\'));
    take_item(rt, writer, Item::Refusal(Refusal::Busy(Tty(15))));
    take_item(rt, writer, Item::Char(Tty(2), b' '));
    take_item(rt, writer, Item::Char(Tty(3), b'~'));
    write_forks(rt, writer);
    let word = Word::wrapped(0o510040000104);
    take_item(rt, writer, Item::Examined(Tty(0), 1, 3, word));
    take_item(rt, writer, Item::PageWord(0, word));
    take_item(rt, writer, Item::UnitLine(FORK, 0o777));
    let stopped = Last::Stopped(Status::Script, 12);
    same(rt, writer.finish(stopped), Ok(()));
}

#[test]
fn writes_each_item(rt: HostRuntime) {
    let mut out = sink(&rt, rt.alloc(), 256);
    let mut rec = sink(&rt, rt.alloc(), 0);
    write_items(&rt, &mut Writer::new(&mut out, &mut rec));
    have(
        &rt,
        out,
        rec,
        b"T3 \\177\\134\n?BUSY 15\nT2  \nT3 ~\nF 0 1 0 FORCED 15 PC 000100\nF 0 1 7 SLEEP FROZEN PC 000000\nX 0 1 000003 510040000104\nW 000 510040000104\nU 0 1 000777\n?LINE 12\n",
        b"",
    );
}

// A command that ends with this status and this number has this line, and this exit status.
fn closes(rt: &impl Abort, alloc: Global, status: Status, n: u64, line: &[u8], number: u8) {
    let mut out = sink(rt, alloc, 64);
    let mut rec = sink(rt, alloc, 0);
    same(
        rt,
        Writer::new(&mut out, &mut rec).finish(Last::Stopped(status, n)),
        Ok(()),
    );
    have(rt, out, rec, line, b"");
    same(rt, status.number(), number);
}

#[test]
fn closes_with_the_line_of_a_status(rt: HostRuntime) {
    closes(&rt, rt.alloc(), Status::Illegal, 2, b"?ILLEGAL 2\n", 8);
    closes(
        &rt,
        rt.alloc(),
        Status::Illegal,
        u64::MAX,
        b"?ILLEGAL 18446744073709551615\n",
        8,
    );
    closes(&rt, rt.alloc(), Status::Image, 0, b"?IMAGE 0\n", 11);
}

// Writes what is typed behind two pieces of a run.
fn write_pieces(rt: &impl Abort, writer: &mut InMemory<'_>) {
    take_step(rt, writer, Step::Unit(FORK));
    take_step(rt, writer, Step::Unit(FORK));
    take_step(rt, writer, Step::Outer(Event::Tick));
    take_step(rt, writer, Step::Unit(FORK));
    take_step(
        rt,
        writer,
        Step::Outer(Event::TypeIn(Tty(10), TypedText::new(b"A \\\r"))),
    );
    take_step(rt, writer, Step::Outer(Event::Trace(true)));
    let last = Last::Done {
        reads: 3,
        writes: 40,
    };
    same(rt, writer.finish(last), Ok(()));
}

#[test]
fn joins_a_run_over_pieces(rt: HostRuntime) {
    let mut out = sink(&rt, rt.alloc(), 0);
    let mut rec = sink(&rt, rt.alloc(), 256);
    let typed = Event::TypeIn(Tty(10), TypedText::new(b"A \\\r"));
    same(&rt, spells(b"TYPE 10 A \\134\\015", &typed), true);
    write_pieces(&rt, &mut Writer::new(&mut out, &mut rec));
    have(
        &rt,
        out,
        rec,
        b"",
        b"U 0 1 2\nTICK\nU 0 1 1\nTYPE 10 A \\134\\015\nTRACE ON\nE 3 40\n",
    );
}

fn write_turns(rt: &impl Abort, writer: &mut InMemory<'_>) {
    take_step(rt, writer, Step::Unit(FORK));
    take_turns(rt, writer, Step::Unit(FORK), 41);
    take_turns(rt, writer, Step::Idle, 7);
    take_step(rt, writer, Step::Idle);
    same(rt, writer.finish(DONE), Ok(()));
}

#[test]
fn counts_turns_at_once(rt: HostRuntime) {
    let mut out = sink(&rt, rt.alloc(), 0);
    let mut rec = sink(&rt, rt.alloc(), 256);
    write_turns(&rt, &mut Writer::new(&mut out, &mut rec));
    have(&rt, out, rec, b"", b"U 0 1 42\nI 8\nE 0 0\n");
}

// The second write fails, which is counted.
fn fail_to_write(rt: &impl Abort, writer: &mut InMemory<'_>) {
    take_step(rt, writer, Step::Outer(Event::Tick));
    same(rt, writer.step(Step::Outer(Event::Tick)), Err(Failed));
    same(rt, writer.faults(), 1);
}

#[test]
fn names_a_failing_write(rt: HostRuntime) {
    let mut out = sink(&rt, rt.alloc(), 64);
    let failing = only(&rt, rt.alloc(), 2);
    let mut rec = made(&rt, MemSink::new(rt.alloc(), 64, failing));
    fail_to_write(&rt, &mut Writer::new(&mut out, &mut rec));
    same(&rt, rec.faults(), 1);
    have(&rt, out, rec, b"", b"TICK\n");
}

// What is open is shown by a flush as it stands; the flush of the end fails, and both texts are whole.
fn fail_to_flush(rt: &impl Abort, writer: &mut InMemory<'_>) {
    take_item(rt, writer, Item::Char(Tty(0), b'@'));
    take_step(rt, writer, Step::Unit(FORK));
    same(rt, writer.flush(), Ok(()));
    same(rt, writer.finish(DONE), Err(Failed));
    writer.give_up();
    same(rt, writer.faults(), 1);
}

#[test]
fn names_a_failing_flush(rt: HostRuntime) {
    let mut out = sink(&rt, rt.alloc(), 64);
    let failing = only(&rt, rt.alloc(), 2);
    let mut rec = sink(&rt, rt.alloc(), 64).with_failing_flushes(failing);
    fail_to_flush(&rt, &mut Writer::new(&mut out, &mut rec));
    same(&rt, rec.faults(), 1);
    have(&rt, out, rec, b"T0 @\n", b"U 0 1 1\nE 0 0\n");
}
