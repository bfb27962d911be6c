// Forks that are made and killed.
use crate::deeds::{Answer, Deed, T, Word, name};
use fork_tree::{NoFork, Tree};
use machine_names::{ForkName, TERMINALS, Tty};

// Makes a fork under the one in a slot, or a top fork of a job without one; slot 0 is none.
fn made(tree: &mut Tree, slot: u8) -> Result<ForkName, NoFork> {
    if slot == 0 {
        if tree.fork_at(T, 1).is_none() {
            return tree.make(T, None);
        }
    } else if tree.fork_at(T, slot).is_some() {
        return tree.make(T, Some(slot));
    }
    Err(NoFork::ForksFull)
}

// Makes the top fork of a terminal that has none.
fn made_on_top(tree: &mut Tree, t: Tty) -> Result<ForkName, NoFork> {
    if t.0 < TERMINALS {
        if tree.fork_at(t, 1).is_none() {
            return tree.make(t, None);
        }
    }
    Err(NoFork::ForksFull)
}

// What comes of making a fork.
fn serial_of(made: Result<ForkName, NoFork>) -> Answer {
    match made {
        Ok(fork) => Answer::Number(fork.serial),
        Err(why) => Answer::refused(why),
    }
}

// Whether one more can be made on a terminal.
fn can_make(tree: &Tree, t: Tty) -> Option<Answer> {
    if t.0 >= TERMINALS {
        return None;
    }
    Some(match tree.can_make(t) {
        Ok(()) => Answer::Word(Word::Yes),
        Err(why) => Answer::refused(why),
    })
}

// The slot of the next fork.
fn slot(tree: &Tree) -> Answer {
    match tree.slot_for(T) {
        Ok(slot) => Answer::Number(u32::from(slot)),
        Err(why) => Answer::refused(why),
    }
}

// Kills a fork that lives and has no inferior, and says whether it did.
fn killed(tree: &mut Tree, name: ForkName) -> bool {
    if tree.fork(name).is_none() {
        return false;
    }
    if tree.last_below(name).is_some() {
        return false;
    }
    tree.kill(name);
    true
}

// Makes forks under the top fork and kills each, one after another, from this serial on to another. Whether each was made and killed.
fn are_used_up(tree: &mut Tree, first: u32, last: u32) -> bool {
    for serial in first..last {
        if made(tree, 1) != Ok(name(serial)) {
            return false;
        }
        if !killed(tree, name(serial)) {
            return false;
        }
    }
    true
}

/// What a deed that makes or kills forks answers. None where it is no such deed.
pub(crate) fn make(tree: &mut Tree, deed: &Deed<'_>) -> Option<Answer> {
    let [n, last, _] = deed.numbers;
    match deed.name.as_bytes() {
        b"MAKE" => Some(serial_of(made(tree, u8::try_from(n).ok()?))),
        b"TOP" => Some(serial_of(made_on_top(tree, Tty(u8::try_from(n).ok()?)))),
        b"MAY-MAKE" => can_make(tree, Tty(u8::try_from(n).ok()?)),
        b"NEXT-SLOT" => Some(slot(tree)),
        b"KILL" => Some(Answer::yes(killed(tree, name(n)))),
        b"USE-UP" => Some(Answer::yes(are_used_up(tree, n, last))),
        _ => None,
    }
}
