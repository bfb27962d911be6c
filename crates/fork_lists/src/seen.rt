// What is seen of a slot of a job.
ghost use Rattle.std.specs.Prelude.{◌≡◌, ◌&&◌};
ghost use Rattle.std.specs.Option.{option_copied};
ghost use Rattle.plain_model.specs.Moves.{waits_for_one as waits_for_one_of};
ghost use Rattle.fork_lists.specs.Seeing.{is_seen, seen_of as seen_of_fork};

use machine_names::ForkName;
use plain_model::Fork;
use script_texts::{ForkStatus, WaitOn};

/// What was seen of a slot of a job when its forks were last looked at: the fork in it, and whether that waited for a fork.
#[derive(Clone, Copy)]
pub struct Seen {
    pub fork: Option<ForkName>,
    pub waits: bool,
}

impl Seen {
    // Whether a fork of this name was seen.
    fn is_seen(&self, name: ForkName) -> bool
        ensures { result ≡ is_seen name self.now }
    {
        match self.fork {
            Some(fork) => fork == name,
            None => false,
        }
    }

    /// Whether a fork of this name was seen, and waited for one.
    pub fn has_waited(&self, name: ForkName) -> bool
        ensures { result ≡ (self.now.waits && is_seen name self.now) }
    {
        self.waits && self.is_seen(name)
    }
}

/// No fork is in a slot.
pub const NOBODY: Seen = Seen {
    fork: None,
    waits: false,
};

// Whether a fork of this status waits for one.
fn waits_for_one(status: ForkStatus) -> bool
    ensures { result ≡ waits_for_one_of status }
{
    match status {
        ForkStatus::Wait(on) => match on {
            WaitOn::Fork => true,
            WaitOn::Input => false,
            WaitOn::Sleep(_) => false,
        },
        ForkStatus::Run => false,
        ForkStatus::Halted => false,
        ForkStatus::Forced(_) => false,
    }
}

/// What is seen of a slot in which this fork is, if one is.
pub fn seen_of(fork: Option<&Fork>) -> Seen
    ensures { result ≡ seen_of_fork (option_copied fork.entry) }
{
    match fork {
        Some(fork) => Seen {
            fork: Some(fork.name),
            waits: waits_for_one(fork.body.status),
        },
        None => NOBODY,
    }
}
