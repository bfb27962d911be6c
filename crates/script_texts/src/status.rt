// How forks stand, and what they wait for.

/// What a waiting fork waits for.
#[derive(Clone, Copy, PartialEq, Eq)]
pub enum WaitOn {
    /// A character of its terminal.
    Input,
    /// The end of another fork of its job.
    Fork,
    /// A moment of the clock, in ticks.
    Sleep(u64),
}

/// How a fork stands (JSYS Manual, RFSTS).
#[derive(Clone, Copy, PartialEq, Eq)]
pub enum ForkStatus {
    Run,
    Wait(WaitOn),
    Halted,
    /// Stopped by the channel of a pseudo-interrupt.
    Forced(u8),
}
