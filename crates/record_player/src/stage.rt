// A system on which the entries of a record are played.
ghost use Rattle.std.specs.Prelude.{◌≡◌, true};
ghost use Rattle.monitor_core.specs.Systems.{IsWithin};

use monitor_core::System;
use page_contracts::Pages;

/// A system on which entries are played, over pages in memory. Whose turn it is the record tells, so it has no lists.
#[derive(Drop)]
pub(crate) struct Stage<P: Pages> {
    pub system: System<P>,
    /// How many entries were played.
    pub done: u64,
    ghost flat: { P.means.flat ≡ true },
    ghost within: { IsWithin system done },
}

mod events;
mod lines;
mod opened;
mod turns;

pub(crate) use opened::boot;
