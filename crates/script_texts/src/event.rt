// What a script does to the machine, what the machine shows, and what it did.

use crate::ForkStatus;
use machine_names::{DirName, FileName, ForkName, Tty, TypedText};
use word36::Word;

/// One to eight words of a file's page. Those past the count are 0.
#[derive(Clone, Copy)]
pub struct WordRow {
    pub count: u8,
    pub words: [Word; 8],
}

/// One line of the console script, with the line's fields in their order.
#[derive(Clone, Copy)]
pub enum Event {
    /// A user logs in at a terminal.
    Login(Tty, DirName),
    /// Characters are typed at a terminal.
    TypeIn(Tty, TypedText),
    /// An empty file is made.
    File(FileName),
    /// Words are put into a file's page, from an offset on.
    Words(FileName, u16, u16, WordRow),
    /// A word is put at an address of a job's top fork.
    Poke(Tty, u32, Word),
    /// A job's top fork is started at an address.
    Start(Tty, u32),
    /// So many units are run.
    Run(u32),
    /// The clock goes on by one.
    Tick,
    /// A frame's page goes to the drum.
    Evict(u32),
    /// So many transfers of the drum are completed.
    Drum(u32),
    /// Whether a run completes transfers by itself; true is ON.
    Auto(bool),
    /// The word at an address of a fork, named by its serial, is shown.
    Examine(Tty, u32, u32),
    /// A job's forks are shown.
    Forks(Tty),
    /// A file's page is shown.
    Page(FileName, u16),
    /// Whether each unit is shown; true is ON.
    Trace(bool),
}

/// A fork as the machine shows it: its name, its superior's serial or 0, its status, its own
/// freeze mark, and its program counter.
#[derive(Clone, Copy)]
pub struct ForkLine {
    pub name: ForkName,
    pub superior: u32,
    pub status: ForkStatus,
    pub frozen: bool,
    pub address: u32,
}

/// Why an event did nothing.
#[derive(Clone, Copy)]
pub enum Refusal {
    /// The terminal has a job.
    Busy(Tty),
    /// The terminal has no job.
    NoJob(Tty),
    /// The terminal's serials are used up.
    SerialsOut(Tty),
    /// The drum is full.
    Full(Tty),
    /// The fork's map forbids the write.
    Denied(Tty),
    /// The terminal has no fork of this serial.
    NoFork(Tty),
    /// No page is there.
    NoPage(Tty),
    /// There is such a file.
    Exists(FileName),
    /// There are 512 files.
    FilesFull(FileName),
    /// There is no such file.
    NoFile(FileName),
    /// The drum is full.
    FileFull(FileName),
    /// The file has no such page.
    NoFilePage(FileName),
}

/// What the machine shows.
#[derive(Clone, Copy)]
pub enum Item {
    /// A character, printed at a terminal.
    Char(Tty, u8),
    ForkLine(ForkLine),
    /// The word at an address of a fork, named by its serial.
    Examined(Tty, u32, u32, Word),
    PageLine(FileName, u16),
    /// A word of a file's page at an offset.
    PageWord(u16, Word),
    /// A unit of a fork begins, at this address.
    UnitLine(ForkName, u32),
    Refusal(Refusal),
}

/// What the machine did: an event, one unit of a fork, or an idle entry of a run.
#[derive(Clone, Copy)]
pub enum Step {
    Outer(Event),
    Unit(ForkName),
    Idle,
}
