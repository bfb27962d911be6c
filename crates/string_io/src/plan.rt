// How a turn is to end, before anything changes.
ghost use Rattle.std.specs.Prelude.{◌^◌};
ghost use Rattle.ka10_unit.specs.Gathers.{IsOf, IsPutBelow, put_below_prop};

use machine_names::ForkName;
use page_gather::Gather;
use plain_model::call::{ByteChange, End};
use plain_units::Put;

/// How a turn of a fork is to end: what it refers to, whose pages are made then; a word of the fork's that is stored behind that; and its
/// end, whose change is made last.
#[derive(Drop)]
pub struct Plan {
    pub fork: ForkName,
    pub gather: Gather,
    pub put: Option<Put>,
    pub ending: End<ByteChange>,
    pub ghost own: { IsOf fork gather },
    pub ghost below: { IsPutBelow (2 ^ 18) put } by { put_below_prop (2 ^ 18) put },
}
