// Forks that are looked at.
use crate::bodies::body;
use crate::deeds::{Answer, Deed, T, Word, name};
use fork_tree::Tree;
use machine_names::{ForkName, Tty};
use plain_model::{Body, Fork};

// Whether two bodies are the same, but for how and where they stand, and how many units they have run.
fn is_same(got: &Body, want: &Body) -> bool {
    (got.regs.ac, got.regs.flags) == (want.regs.ac, want.regs.flags)
        && (got.psi.on, got.psi.table, got.psi.active)
            == (want.psi.on, want.psi.table, want.psi.active)
        && (got.psi.pending, got.psi.levels) == (want.psi.pending, want.psi.levels)
        && (got.sleep, got.error) == (want.sleep, want.error)
}

// A fork that there may be.
fn shown(fork: Option<&Fork>) -> Answer {
    match fork {
        Some(fork) => {
            let new = body(fork.body.status);
            Answer::Fork(*fork, is_same(&fork.body, &new))
        }
        None => Answer::Nothing,
    }
}

// The superior of the fork in a slot.
fn superior(tree: &Tree, slot: u8) -> Answer {
    match tree.fork_at(T, slot) {
        Some(fork) => shown(tree.superior(fork)),
        None => Answer::Word(Word::NoFork),
    }
}

// How a fork of a terminal stands.
fn status(tree: &Tree, fork: ForkName) -> Answer {
    match tree.status(fork) {
        Some(status) => Answer::Status(status),
        None => Answer::Nothing,
    }
}

/// What a deed that only looks at forks answers. None where it is no such deed.
pub(crate) fn see(tree: &Tree, deed: &Deed<'_>) -> Option<Answer> {
    let [n, m, _] = deed.numbers;
    match deed.name.as_bytes() {
        b"FORK" => Some(shown(tree.fork(name(n)))),
        b"IN" => Some(shown(tree.fork_at(T, u8::try_from(n).ok()?))),
        b"ABOVE" => Some(superior(tree, u8::try_from(n).ok()?)),
        b"AT" => {
            let tty = Tty(u8::try_from(n).ok()?);
            Some(Answer::serial(tree.at(tty, u8::try_from(m).ok()?)))
        }
        b"STATUS" => {
            let tty = Tty(u8::try_from(n).ok()?);
            Some(status(tree, ForkName { tty, serial: m }))
        }
        b"NAMED" => Some(Answer::serial(tree.named(name(n), m))),
        b"BELOW" => Some(Answer::yes(tree.below(name(n), name(m)))),
        b"LAST" => Some(Answer::serial(tree.last_below(name(n)))),
        b"RUNS" => Some(Answer::yes(tree.runnable(name(n)))),
        _ => None,
    }
}
