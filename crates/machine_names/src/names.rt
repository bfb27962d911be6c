// The names of what the machine has, and its bounds.
use outside::PAGE_WORDS;

/// How many terminals there are. Terminals are numbered from 0.
pub const TERMINALS: u8 = 16;

/// How many forks a job may have.
pub const MOST_FORKS: u8 = 30;

/// How many units a quantum has: so many a fork runs in a row where another waits for its turn.
pub const QUANTUM: u32 = 200;

/// The last serial of a terminal's forks. Serials begin at 1 and are never used again.
pub const LAST_SERIAL: u32 = 262143;

/// How many pages a fork's space has.
pub const SPACE_PAGES: usize = 512;

/// How many files there may be. They are numbered from 0.
pub const MOST_FILES: usize = 512;

/// How many pages a file may have. They are numbered from 0.
pub const FILE_PAGES: usize = 512;

/// How many addresses a page has: one for each of its words.
pub const PAGE_ADDRESSES: u32 = PAGE_WORDS as u32;

/// How many accumulators a fork has. Addresses below this are the accumulators.
pub const ACCUMULATORS: u32 = 16;

/// A terminal: 0 to 15, or the console.
#[derive(Clone, Copy, PartialEq, Eq)]
pub struct Tty(pub u8);

impl Tty {
    /// Whoever writes the script. It owns pages, and is no terminal.
    pub const CONSOLE: Tty = Tty(255);
}

/// A fork's name: the terminal of its job, and its serial there, 1 to 262,143.
#[derive(Clone, Copy, PartialEq, Eq)]
pub struct ForkName {
    pub tty: Tty,
    pub serial: u32,
}

/// A page's name: the terminal whose fork made it or the console, and its serial there.
#[derive(Clone, Copy, PartialEq, Eq)]
pub struct PageName {
    pub tty: Tty,
    pub serial: u64,
}

/// A file's number, below `MOST_FILES`.
#[derive(Clone, Copy, PartialEq, Eq)]
pub struct FileNo(pub u16);

/// A page of a fork's space, 0 to 511.
#[derive(Clone, Copy, PartialEq, Eq)]
pub struct Slot {
    pub fork: ForkName,
    pub page: u16,
}

/// Where a reference goes: to a page of a fork's space, or to a page of a file.
#[derive(Clone, Copy)]
pub enum Place {
    Fork(Slot),
    File(FileNo, u16),
}

/// What a map entry permits (CACM paper, "The memory management"): to read, to write, to execute;
/// and whether the page is copied before it is written.
#[derive(Clone, Copy, PartialEq, Eq)]
pub struct Access {
    pub r: bool,
    pub w: bool,
    pub x: bool,
    pub c: bool,
}

/// What a reference does with a page. Execute is the fetch of an instruction.
#[derive(Clone, Copy, PartialEq, Eq)]
pub enum Kind {
    Read,
    Write,
    Execute,
}
