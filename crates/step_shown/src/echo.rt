// What a terminal shows of a character that is typed.
ghost use Rattle.std.specs.Prelude.{◌≡◌};
ghost use Rattle.step_shown.specs.Echoes.{complaint_text};

use crate::shown::Stop;
use machine_names::{DirName, Tty};

/// Why a command isn't done.
#[derive(Clone, Copy, PartialEq, Eq)]
pub enum Complaint {
    /// There is no file of the name.
    NoFile,
    /// No program is there to be run.
    NoProgram,
    /// The top fork can't go on.
    Cannot,
    /// A JFN stands for the file.
    Busy,
    /// The line is no command.
    Unknown,
}

impl Complaint {
    /// How it is printed.
    pub fn text(self) -> &'static [u8]
        ensures { result.now ≡ complaint_text self }
    {
        match self {
            Complaint::NoFile => b"?NO FILE",
            Complaint::NoProgram => b"?NO PROGRAM",
            Complaint::Cannot => b"?CANNOT",
            Complaint::Busy => b"?FILE BUSY",
            Complaint::Unknown => b"?",
        }
    }
}

/// What a command prints behind its line.
#[derive(Clone, Copy)]
pub enum Told {
    /// Nothing: the forks of the job read the terminal now, or the job is gone.
    Nothing,
    /// The prompt alone.
    Prompt,
    /// Why it isn't done, and the prompt.
    Refused(Complaint),
    /// The files of a user's directory, and the prompt.
    Files(DirName),
}

/// What a terminal shows of a character that is typed.
#[derive(Clone, Copy)]
pub enum Echo {
    Nothing,
    /// The character, as it is shown.
    Shows(u8),
    /// The same, and who waits for a character may go on.
    Wakes(u8),
    /// The bell: the character is lost.
    Bell,
    /// Control-C, and the prompt.
    Stops,
    /// How the terminal of a fork shows that it stands, to which a channel was posted: the character is one that it has assigned.
    Posts(Tty, Stop),
    /// The end of a line, and what its command prints.
    Ends(Told),
}
