// The commands of the monitor.
use machine_names::FileName;

/// What a line asks of the monitor.
#[derive(Clone, Copy, PartialEq, Eq)]
pub enum Command {
    /// Nothing: the line has no word.
    Blank,
    /// The program in a file is run.
    Run(FileName),
    /// The last program is started anew.
    Start,
    /// The top fork goes on.
    Continue,
    /// The user's files are listed.
    Directory,
    /// A file is deleted.
    Delete(FileName),
    /// The job ends.
    Logout,
    /// The line is none of these.
    Unknown,
}
