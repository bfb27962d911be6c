// Where a generated script stands.

/// What comes next of a terminal's program: a word of its code, what it has in its accumulators, or its start.
#[derive(Clone, Copy, PartialEq, Eq)]
pub(crate) enum Loading {
    /// The word of this number.
    Code(u8),
    /// The address of the first word that it counts up.
    Address,
    /// How many turns it makes.
    Turns,
    /// How far apart the words are that it counts up.
    Stride,
    Start,
}

/// What comes next of a generated script.
#[derive(Clone, Copy, PartialEq, Eq)]
pub(crate) enum ScriptStage {
    /// The user of this terminal logs in.
    Login(u8),
    MakeFile,
    /// This page of the file gets its word.
    Fill(u8),
    /// A part of this terminal's program.
    Load(u8, Loading),
    /// A frame is evicted, so many having been before.
    Evict(u8),
    /// Units are run behind the eviction of this number.
    Run(u8),
    Tick,
    /// The forks of this terminal are shown.
    Show(u8),
    Over,
}
