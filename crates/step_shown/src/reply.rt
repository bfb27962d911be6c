// What a step shows.
ghost use Rattle.std.specs.Prelude.{◌≡◌};
ghost use Rattle.step_shown.specs.Replies.{is_silent as is_silent_of};

use crate::shown::Shown;
use machine_names::{FileName, ForkName, Tty};
use script_texts::Item;

/// What a step shows. Its items are made as they are given, one by one, so that it is small however many they are.
#[derive(Clone, Copy)]
pub enum Reply {
    Nothing,
    One(Item),
    /// The last of units of a fork: its program counter before it, where each unit is shown, and what its terminal shows.
    Ran(ForkName, Option<u32>, Shown),
    /// The forks of a terminal's job, by slot.
    Forks(Tty),
    /// A file's page, and each of its words that isn't 0.
    Page(FileName, u16),
}

impl Reply {
    /// Whether it shows nothing, whatever the state.
    #[inline]
    pub fn is_silent(&self) -> bool
        ensures { result ≡ is_silent_of self.now }
    {
        match self {
            Reply::Nothing => true,
            Reply::Ran(_, None, shown) => shown.is_nothing(),
            _ => false,
        }
    }
}
