// An event of a terminal's job.
use word36::Word;

/// An event that a terminal's job does, or that is refused where the terminal has none.
#[derive(Clone, Copy, PartialEq, Eq)]
pub enum JobEvent {
    /// A word is put at an address of the top fork.
    Poke(u32, Word),
    /// The top fork is started at an address.
    Start(u32),
    /// The word at an address of a fork, named by its serial, is shown.
    Examine(u32, u32),
    /// The job's forks are shown.
    Forks,
}
