// What failed of the outside.
ghost use Rattle.std.specs.Prelude.{◌≡◌};
ghost use Rattle.paged_events.specs.Faults.{ended_by};

use event_items::Ended;

/// What failed of the outside.
#[derive(Clone, Copy)]
pub enum Fault {
    Drum,
    Taker,
}

impl Fault {
    /// How an event ends by it.
    pub fn ended(self) -> Ended
        ensures { result ≡ ended_by self }
    {
        match self {
            Fault::Drum => Ended::DrumFault,
            Fault::Taker => Ended::TakerFault,
        }
    }
}
