//! Monitor calls (JSYS Manual): their numbers under their names, handles of forks, the codes of errors, and how
//! a turn of a call ends.
use crate::{Body, Fork};
use machine_names::{Access, FileName, ForkName, MOST_FORKS, Slot, Tty};
use plain_files::Mode;
use plain_units::Regs;
use script_texts::WaitOn;
use word36::Word;

/// Tells the last error of a fork.
pub const GETER: u32 = 0o12;

/// Tells the time.
pub const TIME: u32 = 0o14;

/// Tells how many units a fork has run.
pub const RUNTM: u32 = 0o15;

/// Takes a JFN for the file of a name, and may make that file.
pub const GTJFN: u32 = 0o20;

/// Opens the file of a JFN.
pub const OPENF: u32 = 0o21;

/// Closes the file of a JFN, and releases the JFN.
pub const CLOSF: u32 = 0o22;

/// Releases a JFN whose file isn't open.
pub const RLJFN: u32 = 0o23;

/// Deletes the file of a JFN, and releases the JFN.
pub const DELF: u32 = 0o26;

/// Moves a JFN to a byte of its file.
pub const SFPTR: u32 = 0o27;

/// Tells the length of a file, and how many pages it has.
pub const SIZEF: u32 = 0o36;

/// Tells the byte at which a JFN stands.
pub const RFPTR: u32 = 0o43;

/// Takes the next byte of a file, or the next character of the terminal.
pub const BIN: u32 = 0o50;

/// Writes the next byte of a file, or prints a character.
pub const BOUT: u32 = 0o51;

/// Takes the bytes of a string from a file, or from the terminal.
pub const SIN: u32 = 0o52;

/// Writes the bytes of a string to a file, or prints them.
pub const SOUT: u32 = 0o53;

/// Maps a page of one place into another, or takes one out of a map.
pub const PMAP: u32 = 0o56;

/// Tells the access of a page.
pub const RPACS: u32 = 0o57;

/// Narrows the access of a page.
pub const SPACS: u32 = 0o60;

/// Tells which page an entry of a map follows.
pub const RMAP: u32 = 0o61;

/// Takes the next character of the terminal.
pub const PBIN: u32 = 0o73;

/// Prints the character in accumulator 1.
pub const PBOUT: u32 = 0o74;

/// Prints the bytes of a string.
pub const PSOUT: u32 = 0o76;

/// Says where the level table and the channel table of a fork are.
pub const SIR: u32 = 0o125;

/// Turns the interrupts of a fork on.
pub const EIR: u32 = 0o126;

/// Turns them off.
pub const DIR: u32 = 0o130;

/// Makes channels of a fork active.
pub const AIC: u32 = 0o131;

/// Posts channels to a fork.
pub const IIC: u32 = 0o132;

/// Makes channels of a fork inactive.
pub const DIC: u32 = 0o133;

/// Goes back to where an interrupt was taken.
pub const DEBRK: u32 = 0o136;

/// Assigns a code that is typed to a channel of the fork.
pub const ATI: u32 = 0o137;

/// Assigns it to nothing.
pub const DTI: u32 = 0o140;

/// Makes an inferior fork.
pub const CFORK: u32 = 0o152;

/// Kills an inferior, and all below it.
pub const KFORK: u32 = 0o153;

/// Freezes an inferior.
pub const FFORK: u32 = 0o154;

/// Resumes an inferior that is frozen.
pub const RFORK: u32 = 0o155;

/// Tells how a fork stands.
pub const RFSTS: u32 = 0o156;

/// Starts an inferior.
pub const SFORK: u32 = 0o157;

/// Sets the accumulators of an inferior.
pub const SFACS: u32 = 0o160;

/// Reads the accumulators of an inferior.
pub const RFACS: u32 = 0o161;

/// Halts an inferior.
pub const HFORK: u32 = 0o162;

/// Waits for an inferior to end.
pub const WFORK: u32 = 0o163;

/// Sleeps for some ticks.
pub const DISMS: u32 = 0o167;

/// Halts the fork.
pub const HALTF: u32 = 0o170;

/// How many of the units in which TIME tells the time a tick has.
pub const UNITS_A_TICK: u32 = 1;

/// The handle by which a fork names itself (JSYS Manual, "Process handles").
pub const FORK_SELF: u32 = 0o400000;

/// The handle by which a fork names its superior.
pub const FORK_SUPERIOR: u32 = 0o777777;

/// The handle of the fork in slot 1, the top fork.
pub const FIRST_HANDLE: u32 = FORK_SELF + 1;

/// The handle of the fork in the last slot.
pub const LAST_HANDLE: u32 = FORK_SELF + MOST_FORKS as u32;

/// The number that stands for the terminal's input where a call on bytes is handed a JFN (JSYS Manual, "Primary files").
pub const TERMINAL_INPUT: u32 = 0o100;

/// The number that stands for the terminal's output there.
pub const TERMINAL_OUTPUT: u32 = 0o101;

/// The error of a handle that names no fork.
pub const NO_HANDLE: u32 = 0o600001;

/// The error of a fork that is no inferior, nor the caller where that is allowed.
pub const NO_INFERIOR: u32 = 0o600002;

/// The error of a job that has thirty forks.
pub const FORKS_FULL: u32 = 0o600003;

/// The error of a terminal whose serials are used up.
pub const SERIALS_OUT: u32 = 0o600004;

/// The error of a drum that is full.
pub const NO_ROOM: u32 = 0o600005;

/// The error of a JFN that isn't held.
pub const NO_JFN: u32 = 0o600006;

/// The error of a file that isn't open in the way wanted, or is to be opened in none.
pub const NOT_OPEN: u32 = 0o600007;

/// The error of a JFN by which its file is open.
pub const JFN_OPEN: u32 = 0o600010;

/// The error of a name that no file has.
pub const NO_FILE: u32 = 0o600011;

/// The error of a text that is no name of a file.
pub const BAD_NAME: u32 = 0o600012;

/// The error of a machine that has 512 files.
pub const FILES_FULL: u32 = 0o600013;

/// The error of a job that holds twenty JFNs.
pub const JFNS_FULL: u32 = 0o600014;

/// The error of a file for which another JFN stands.
pub const FILE_IN_USE: u32 = 0o600015;

/// The error of a page number past 777.
pub const BAD_PAGE: u32 = 0o600016;

/// The error of a page that isn't there.
pub const NO_PAGE: u32 = 0o600017;

/// The error of bytes that are larger than words.
pub const BAD_SIZE: u32 = 0o600020;

/// The error of a position behind the last byte that a file has room for, or at that end where a byte is to be written.
pub const BAD_POSITION: u32 = 0o600021;

/// The error of a code that can't be assigned, or of a channel past 35.
pub const BAD_CODE: u32 = 0o600022;

/// The error of a page of a file that is to be mapped into a file.
pub const FILE_TO_FILE: u32 = 0o600023;

/// How a turn of a monitor call ends.
#[derive(Clone, Copy)]
pub enum End<C> {
    /// The call's change is made, and its fork has these registers; a character may be printed, and a channel posted to that fork.
    Done {
        change: C,
        regs: Regs,
        out: Option<u8>,
        post: Option<u8>,
    },
    /// The fork waits, and makes the call again when it goes on.
    Waits(WaitOn),
    /// The fork halts, behind the call.
    Halts,
    /// The call, which has one return, is refused with the code of an error.
    Refused(u32),
    /// The call, which has two returns, is refused: the code of the error is in accumulator 1, and its fork goes on behind the call.
    Failed(u32),
    /// The unit traps, with a channel.
    Trap(u8),
}

/// What a turn's reference comes to: the page is there, the access forbids it, or the drum is full.
#[derive(Clone, Copy)]
pub enum Touched {
    Granted,
    Denied,
    Full,
}

/// What a turn of a call on maps changes.
#[derive(Clone, Copy)]
pub enum MapChange {
    Nothing,
    /// The entry of a slot becomes empty.
    Unmap(Slot),
    /// The entry of the first slot follows that of the second, of a fork of the same job, with this access.
    Follow(Slot, Slot, Access),
    /// The entry of a slot keeps of its access what is given too, and gets the copy mark where that is given.
    Narrow(Slot, Access),
    /// The entry of a slot names a page of the file of a name, which is there, with this access.
    Map(Slot, FileName, u16, Access),
    /// A page of the file of a name becomes the page at the end of a slot's chain, which is there.
    Put(FileName, u16, Slot),
    /// The file of a name has no such page any more.
    Drop(FileName, u16),
}

/// What a turn of a fork call changes.
#[derive(Clone, Copy)]
pub enum ForkChange {
    Nothing,
    /// A fork with the next serial of its terminal is made, in a free slot of its job.
    Make(Fork),
    /// A fork is killed, and all below it.
    Kill(ForkName),
    /// A fork has the freeze mark, or not.
    Freeze(ForkName, bool),
    /// A fork has another body.
    Become(ForkName, Body),
    /// A fork is halted, whatever its status was.
    Halt(ForkName),
    /// Sixteen words are stored in the space of a fork, from an address on.
    Store(ForkName, u32, [Word; 16]),
}

/// What a turn of a call on JFNs changes. A JFN is one of the job at a terminal.
#[derive(Clone, Copy)]
pub enum FileChange {
    /// A free JFN stands for the file of a name.
    Take(Tty, u32, FileName),
    /// A file of a name is made, without a byte, and a free JFN stands for it.
    Make(Tty, u32, FileName),
    /// The file of a JFN is opened, at its first byte, in bytes of a size; one that is opened to be written alone has no byte left.
    Open(Tty, u32, Mode, u8),
    /// A JFN stands for no file any more.
    Release(Tty, u32),
    /// The file of a JFN is removed, with the names that its pages have there, and the JFN stands for none.
    Delete(Tty, u32),
}

/// What a turn of a call on bytes changes. A JFN is one of the job at a terminal.
#[derive(Clone, Copy)]
pub enum ByteChange {
    Nothing,
    /// The oldest character that is stored for the job at a terminal is taken.
    Take(Tty),
    /// A JFN stands at another byte of its file.
    Move(Tty, u32, u64),
    /// The byte at which a JFN stands becomes the low bits of a word. The file has bytes of the JFN's size then, and reaches
    /// behind that one; and the JFN stands at the next.
    Put(Tty, u32, Word),
}

/// What a turn of a call on pseudo-interrupts changes.
#[derive(Clone, Copy)]
pub enum InterruptChange {
    /// The caller or an inferior has another body.
    Become(ForkName, Body),
    /// The channels of a word are posted to an inferior, in order; bit c of the word is channel c.
    Post(ForkName, Word),
    /// A code is assigned to a channel of a fork, in place of what it was assigned to.
    Assign(u8, ForkName, u8),
    /// A code that is typed at a terminal is assigned to nothing.
    Unassign(Tty, u8),
}

/// What a turn of a call on the clock changes.
#[derive(Clone, Copy)]
pub enum SleepChange {
    Nothing,
    /// A fork, whose sleep is over, sleeps no more.
    Awakes(ForkName),
}
