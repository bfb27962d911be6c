// How a command ends.
ghost use Rattle.std.specs.Prelude.{◌≡◌};
ghost use Rattle.texts.specs.Ends.{status_number};

/// How a command ended, in the order of the exit statuses: 0 to 8, 10 and 11. A run is never `Illegal`, `Assembly` or `Image`.
#[derive(Clone, Copy, PartialEq, Eq)]
pub enum Status {
    /// The script was run to its end, or the generated one was.
    Done,
    /// The words of the command were wrong.
    Usage,
    /// A line of the script is no line of the grammar.
    Script,
    /// A call of the drum failed.
    DrumFault,
    /// There was no memory.
    Memory,
    /// A read of the script failed.
    ReadFault,
    /// A write of a text failed.
    WriteFault,
    /// The script is too long, or another text that a command reads.
    LongScript,
    /// A unit of the record is one of a fork that can't run there.
    Illegal,
    /// The text that was read is no program: the assembler's own line tells its fault.
    Assembly,
    /// What was read is no image of files.
    Image,
}

impl Status {
    /// The exit status of the process: 0 to 8, 10 or 11.
    pub fn number(self) -> u8
        ensures { result ≡ status_number self }
    {
        match self {
            Status::Done => 0,
            Status::Usage => 1,
            Status::Script => 2,
            Status::DrumFault => 3,
            Status::Memory => 4,
            Status::ReadFault => 5,
            Status::WriteFault => 6,
            Status::LongScript => 7,
            Status::Illegal => 8,
            Status::Assembly => 10,
            Status::Image => 11,
        }
    }
}

/// What the last lines tell.
#[derive(Clone, Copy, PartialEq, Eq)]
pub enum Last {
    /// The run is done: how often it read and wrote the drum.
    Done { reads: u64, writes: u64 },
    /// The same, and behind the transcript how many entries the run has, and how many characters it showed.
    Summary { reads: u64, writes: u64 },
    /// How it stopped, and the number that the line of `Script`, `Illegal` and `Image` shows: at which line of what was
    /// read or at which entry of the record, each counted from 1, or behind how many parts of an image.
    Stopped(Status, u64),
}
