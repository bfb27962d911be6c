// A deed, as a row says it, and what it answers.
use fork_tree::NoFork;
use machine_names::{ForkName, Tty};
use plain_model::Fork;
use script_texts::{ForkStatus, WaitOn};
use std::io::{self, Write};

/// The terminal of the forks of which a row tells only the serial.
pub(crate) const T: Tty = Tty(3);

/// What is done, and with which numbers; behind the last of them stand zeros.
#[derive(Drop)]
pub(crate) struct Deed<'a> {
    pub(crate) name: &'a str,
    pub(crate) numbers: [u32; 3],
}

/// A fork of that terminal.
pub(crate) fn name(serial: u32) -> ForkName {
    ForkName { tty: T, serial }
}

/// The deed that a line says: a name, and at most three octal numbers, each behind a space.
pub(crate) fn read_deed(line: &str) -> Option<Deed<'_>> {
    let mut words = line.split(' ');
    let name = words.next()?;
    let mut numbers = [0; 3];
    for place in 0..3 {
        match words.next() {
            Some(word) => numbers[place] = u32::from_str_radix(word, 8).ok()?,
            None => break,
        }
    }
    Some(Deed { name, numbers })
}

/// A word that an answer has.
#[derive(Clone, Copy)]
pub(crate) enum Word {
    Yes,
    No,
    Full,
    UsedUp,
    NoFork,
}

impl Word {
    // Its letters.
    fn letters(self) -> &'static [u8] {
        match self {
            Word::Yes => b" yes",
            Word::No => b" no",
            Word::Full => b" full",
            Word::UsedUp => b" used up",
            Word::NoFork => b" no fork",
        }
    }
}

/// What a deed answers.
#[derive(Drop)]
pub(crate) enum Answer {
    /// It is done.
    Done,
    /// Nothing is there.
    Nothing,
    /// A word.
    Word(Word),
    /// A number.
    Number(u32),
    /// How a fork stands.
    Status(ForkStatus),
    /// A fork, and whether all else of it is as of a new one.
    Fork(Fork, bool),
}

impl Answer {
    /// Whether something is so.
    pub(crate) fn yes(holds: bool) -> Answer {
        Answer::Word(if holds { Word::Yes } else { Word::No })
    }

    /// The serial of a fork that there may be.
    pub(crate) fn serial(fork: Option<ForkName>) -> Answer {
        match fork {
            Some(fork) => Answer::Number(fork.serial),
            None => Answer::Nothing,
        }
    }

    /// Why no fork can be made.
    pub(crate) fn refused(why: NoFork) -> Answer {
        match why {
            NoFork::ForksFull => Answer::Word(Word::Full),
            NoFork::SerialsOut => Answer::Word(Word::UsedUp),
        }
    }

    /// Prints it; each number is octal.
    pub(crate) fn show<W: Write>(&self, out: &mut W) -> io::Result<()> {
        match self {
            Answer::Done => Ok(()),
            Answer::Nothing => out.write_all(b" none"),
            Answer::Word(word) => out.write_all(word.letters()),
            Answer::Number(n) => write!(out, " {n:o}"),
            Answer::Status(status) => show_status(*status, out),
            Answer::Fork(fork, is_new) => show_fork(fork, *is_new, out),
        }
    }
}

// Prints how a fork stands.
fn show_status<W: Write>(status: ForkStatus, out: &mut W) -> io::Result<()> {
    match status {
        ForkStatus::Run => out.write_all(b" runs"),
        ForkStatus::Halted => out.write_all(b" halted"),
        ForkStatus::Forced(channel) => write!(out, " forced {channel:o}"),
        ForkStatus::Wait(WaitOn::Input) => out.write_all(b" waits for input"),
        ForkStatus::Wait(WaitOn::Fork) => out.write_all(b" waits for a fork"),
        ForkStatus::Wait(WaitOn::Sleep(moment)) => write!(out, " sleeps to {moment:o}"),
    }
}

// Prints a fork: its serial, its slot and that of its superior, or 0, how it stands, where, and how many units it has run.
fn show_fork<W: Write>(fork: &Fork, is_new: bool, out: &mut W) -> io::Result<()> {
    let superior = fork.superior.unwrap_or(0);
    write!(out, " {:o} {:o} {superior:o}", fork.name.serial, fork.slot)?;
    show_status(fork.body.status, out)?;
    write!(
        out,
        " at {:o} units {:o}",
        fork.body.regs.pc, fork.body.units
    )?;
    if fork.frozen {
        out.write_all(b" frozen")?;
    }
    if !is_new {
        out.write_all(b" otherwise")?;
    }
    Ok(())
}
