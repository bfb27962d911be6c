// What is done whole of an event, or not at all.
ghost use Rattle.std.specs.Prelude.{◌≡◌};
ghost use Rattle.event_deeds.specs.Deeds.{entries_of};

use machine_names::{FileName, Tty};
use script_texts::Event;

/// For what the inferiors of a job's top fork are killed.
#[derive(Clone, Copy)]
pub enum Purpose {
    /// The program in a file is run, from this address on.
    Run(FileName, u32),
    /// The job ends.
    Logout,
}

/// A part of an event that is done whole, or not at all.
#[derive(Clone, Copy)]
pub enum Deed {
    /// An event that is one deed: any but TYPE.
    Outer(Event),
    /// A character is typed at a terminal. Where it ends a line that runs a program or logs out, the line is taken, and no more is done.
    Typed(Tty, u8),
    /// The address is looked up at which the program in a file starts.
    Begin(Tty, FileName),
    /// Of the inferiors of a job's top fork that have none themselves, the one in the highest slot is killed.
    Kill(Tty, Purpose),
    /// What they were killed for is done.
    End(Tty, Purpose),
}

impl Deed {
    /// How many entries of a run a deed is: a part of a TYPE is none, since that is one entry with all its parts.
    pub fn entries(&self) -> u8
        ensures { result ≡ entries_of self.now }
    {
        match self {
            Deed::Outer(_) => 1,
            _ => 0,
        }
    }
}
