// Schedules by what is done to them.
ghost use Rattle.std.specs.Prelude.{◌≡◌};

use crate::made::made;
use crate::same::same;
use job_sched::Sched;
use machine_names::{ForkName, QUANTUM, Tty};
use page_contracts::Need;
use page_homes::Home;
use std::process::Abort;

fn fork(tty: u8, serial: u32) -> ForkName
    ensures { result ≡ record { tty = record { 0 = tty }; serial = serial } }
{
    ForkName {
        tty: Tty(tty),
        serial,
    }
}

// What one row of the head comes to, where so many units are left to run: who ran, how many units, and how many quanta
// ended.
fn row(sched: &mut Sched, left: u32) -> Option<(ForkName, u32, u32)> {
    let head = sched.choose()?;
    let units = sched.most_in_row(left);
    Some((head, units, sched.ran_row(units)))
}

// The head, if there is one, waits for something.
fn wait(sched: &mut Sched, need: Need) {
    if let Some(head) = sched.choose() {
        sched.wait(head, need);
    }
}

// The page that a fork waits for.
fn page_of(need: Option<Need>) -> Option<Home> {
    match need {
        Some(Need::Page(home)) => Some(home),
        _ => None,
    }
}

// The schedule is let go. What it is made of is taken apart here alone, for all tests.
fn let_go(_sched: Sched) {}

#[test]
#[tactic(auto, unfolding(job_sched::specs::Rows::up_to))]
fn forks_start_and_stop(rt: HostRuntime) {
    let mut sched = made(&rt, Sched::boot(rt.alloc(), 2));
    let (a, b) = (fork(0, 1), fork(15, 262143));
    same(&rt, (sched.choose(), sched.is_alone()), (None, false));
    sched.start(a);
    same(&rt, (sched.choose(), sched.is_alone()), (Some(a), true));
    sched.start(b);
    same(&rt, (sched.choose(), sched.is_alone()), (Some(a), false));
    same(&rt, (sched.seat(a), sched.seat(b)), (Some(0), Some(1)));
    same(&rt, (sched.member(0), sched.member(1)), (Some(a), Some(b)));
    sched.stop(a);
    sched.stop(a);
    same(&rt, (sched.choose(), sched.is_alone()), (Some(b), true));
    same(&rt, (sched.seat(a), sched.member(0)), (None, None));
    let_go(sched);
}

// Three forks for two numbers: each row ends a quantum or goes on with it.
fn run_in_rows(rt: &impl Abort, sched: &mut Sched) {
    let (a, b, c) = (fork(0, 1), fork(1, 1), fork(1, 2));
    same(rt, (sched.seat(b), sched.seat(c)), (Some(1), None));
    same(rt, row(sched, 1), Some((a, 1, 0)));
    same(rt, sched.quantum_left(), QUANTUM - 1);
    same(rt, row(sched, 1000), Some((a, 199, 1)));
    same(rt, (sched.seat(a), sched.seat(c)), (None, Some(0)));
    same(rt, row(sched, 200), Some((b, 200, 1)));
}

// They stop one by one, until the last runs alone.
fn stop_one_by_one(rt: &impl Abort, sched: &mut Sched) {
    let (a, b, c) = (fork(0, 1), fork(1, 1), fork(1, 2));
    same(rt, row(sched, 150), Some((c, 150, 0)));
    sched.stop(c);
    same(rt, row(sched, 1000), Some((a, 200, 1)));
    same(rt, row(sched, 7), Some((b, 7, 0)));
    sched.stop(a);
    same(rt, row(sched, 1_000_143), Some((b, 1_000_143, 5000)));
    same(rt, sched.quantum_left(), 50);
    sched.stop(b);
    same(rt, row(sched, 1), None);
}

#[test]
#[tactic(auto, unfolding(job_sched::specs::Rows::up_to))]
fn forks_take_turns(rt: HostRuntime) {
    let mut sched = made(&rt, Sched::boot(rt.alloc(), 2));
    sched.start(fork(0, 1));
    sched.start(fork(1, 1));
    sched.start(fork(1, 2));
    run_in_rows(&rt, &mut sched);
    stop_one_by_one(&rt, &mut sched);
    let_go(sched);
}

// Two forks wait for two pages.
fn wait_for_pages(rt: &impl Abort, sched: &mut Sched) {
    wait(sched, Need::Page(Home(1)));
    wait(sched, Need::Page(Home(2)));
    same(rt, sched.choose(), None);
    same(rt, page_of(sched.waits(fork(3, 1))), Some(Home(1)));
    same(rt, page_of(sched.waits(fork(3, 2))), Some(Home(2)));
}

// The pages come, the second first. Whoever waits for a frame goes on with any page.
fn go_on(rt: &impl Abort, sched: &mut Sched) {
    let (a, b) = (fork(3, 1), fork(3, 2));
    sched.arrived(Need::Page(Home(2)));
    same(rt, (sched.choose(), sched.seat(b)), (Some(b), Some(1)));
    same(rt, sched.waits(b).is_none(), true);
    wait(sched, Need::Frame);
    sched.arrived(Need::Page(Home(1)));
    same(rt, sched.choose(), Some(a));
    sched.stop(a);
    same(rt, (sched.choose(), sched.seat(b)), (Some(b), Some(1)));
}

#[test]
#[tactic(auto, unfolding(job_sched::specs::Rows::up_to))]
fn waits_end_in_order(rt: HostRuntime) {
    let mut sched = made(&rt, Sched::boot(rt.alloc(), 4));
    sched.start(fork(3, 1));
    sched.start(fork(3, 2));
    wait_for_pages(&rt, &mut sched);
    go_on(&rt, &mut sched);
    let_go(sched);
}
