// What a unit shows at a terminal.
ghost use Rattle.std.specs.Prelude.{◌≡◌};
ghost use Rattle.step_shown.specs.Shown.{is_nothing as is_nothing_of, is_stopped, stop_of};

use script_texts::ForkStatus;

/// How a fork stands behind a unit, as far as a terminal shows it.
#[derive(Clone, Copy)]
pub enum Stop {
    /// It goes on, or waits.
    GoesOn,
    Halted,
    /// It was forced by a channel.
    Forced(u8),
}

impl Stop {
    /// Whether the fork has stopped.
    #[inline]
    pub fn is_stop(&self) -> bool
        ensures { result ≡ is_stopped self.now }
    {
        match self {
            Stop::Halted | Stop::Forced(_) => true,
            Stop::GoesOn => false,
        }
    }
}

/// What one unit shows, at the terminal of its job: a character that it prints, and then that the top fork has stopped.
#[derive(Clone, Copy)]
pub struct Shown {
    pub out: Option<u8>,
    pub stop: Stop,
}

impl Shown {
    /// Nothing is shown.
    pub const NOTHING: Shown = Shown {
        out: None,
        stop: Stop::GoesOn,
    };

    /// Whether it is nothing.
    #[inline]
    pub fn is_nothing(&self) -> bool
        ensures { result ≡ is_nothing_of self.now }
    {
        match self.out {
            Some(_) => false,
            None => !self.stop.is_stop(),
        }
    }
}

/// How a fork of this status stands.
pub fn stop_of(status: ForkStatus) -> Stop
    ensures { result ≡ stop_of status }
{
    match status {
        ForkStatus::Run => Stop::GoesOn,
        ForkStatus::Wait(_) => Stop::GoesOn,
        ForkStatus::Halted => Stop::Halted,
        ForkStatus::Forced(channel) => Stop::Forced(channel),
    }
}
