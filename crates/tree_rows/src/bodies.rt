// Forks that are changed.
use crate::deeds::{Answer, Deed, T, Word, name};
use fork_tree::Tree;
use machine_names::{ACCUMULATORS, ForkName, Tty};
use plain_model::{Body, Psi};
use plain_units::Regs;
use script_texts::{ForkStatus, WaitOn};
use word36::{Flags, Word as MachineWord};

/// A body with nothing in it but its status.
pub(crate) fn body(status: ForkStatus) -> Body {
    Body {
        status,
        regs: Regs {
            ac: [MachineWord::ZERO; ACCUMULATORS as usize],
            pc: 0,
            flags: Flags::CLEAR,
        },
        psi: Psi::at_rest(),
        sleep: None,
        units: 0,
        error: 0,
    }
}

// A fork has another body, which stands so.
fn stands(tree: &mut Tree, fork: ForkName, status: ForkStatus) -> Option<Answer> {
    tree.set_body(fork, body(status));
    Some(Answer::Done)
}

// Sets or takes away the mark of a fork that lives, and says whether it does.
fn marked(tree: &mut Tree, name: ForkName, on: bool) -> Answer {
    let lives = tree.fork(name).is_some();
    if lives {
        tree.freeze(name, on);
    }
    Answer::yes(lives)
}

// A fork that lives stands at an address.
fn placed(tree: &mut Tree, fork: ForkName, address: u32) -> Answer {
    match tree.body_mut(fork) {
        Some(body) => {
            body.regs.pc = address;
            Answer::Word(Word::Yes)
        }
        None => Answer::Word(Word::No),
    }
}

// The fork in a slot has run so many units.
fn counted(tree: &mut Tree, slot: u8, units: u32) -> Answer {
    let is_there = tree.fork_at(T, slot).is_some();
    if is_there {
        tree.body_at(T, slot).units = u64::from(units);
    }
    Answer::yes(is_there)
}

/// What a deed that changes forks answers. None where it is no such deed.
pub(crate) fn change(tree: &mut Tree, deed: &Deed<'_>) -> Option<Answer> {
    let [n, m, moment] = deed.numbers;
    let fork = name(n);
    match deed.name.as_bytes() {
        b"RUN" => stands(tree, fork, ForkStatus::Run),
        b"HALT" => stands(tree, fork, ForkStatus::Halted),
        b"FORCE" => stands(tree, fork, ForkStatus::Forced(u8::try_from(m).ok()?)),
        b"WAIT" => stands(tree, fork, ForkStatus::Wait(WaitOn::Fork)),
        b"INPUT" => stands(tree, fork, ForkStatus::Wait(WaitOn::Input)),
        b"SLEEP" => {
            let tty = Tty(u8::try_from(n).ok()?);
            let sleep = ForkStatus::Wait(WaitOn::Sleep(u64::from(moment)));
            stands(tree, ForkName { tty, serial: m }, sleep)
        }
        b"FREEZE" => Some(marked(tree, fork, true)),
        b"THAW" => Some(marked(tree, fork, false)),
        b"PLACE" => Some(placed(tree, fork, m)),
        b"COUNT" => Some(counted(tree, u8::try_from(n).ok()?, m)),
        b"CLOCK" => {
            tree.wake_sleepers(u64::from(n));
            Some(Answer::Done)
        }
        b"READERS" => Some(Answer::yes(tree.wake_readers(T))),
        _ => None,
    }
}
