// The first step of a fork call: it ends, or it refers to words of its caller first.
use plain_model::Fork;
use plain_model::call::{End, ForkChange};

/// What a call does once it is known whom it is about.
#[derive(Clone, Copy)]
pub enum FirstStep {
    Ends(End<ForkChange>),
    /// CFORK makes a fork in this slot, where there is room for its map.
    Makes(u8),
    /// SFACS takes sixteen words for the accumulators of this inferior.
    Sets(Fork),
    /// RFACS stores the accumulators of this inferior.
    Stores(Fork),
}
