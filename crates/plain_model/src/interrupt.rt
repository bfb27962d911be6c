//! Pseudo-interrupts (JSYS Manual, "Pseudo-interrupt system"): their channels and levels, and what comes of looking at them.

/// How many channels a fork has.
pub const CHANNELS: u8 = 36;

/// How many levels a fork has; a lower one goes before a higher.
pub const LEVELS: u8 = 3;

/// A channel that a fork can take: its level, 1 to 3, and the address to which the fork goes.
#[derive(Clone, Copy)]
pub struct Found {
    pub channel: u8,
    pub level: u8,
    pub to: u32,
}

/// A channel that a fork takes, and the address at which its PC word is stored.
#[derive(Clone, Copy)]
pub struct Delivery {
    pub found: Found,
    pub at: u32,
}

/// What comes of looking at the channels of a fork that are active and pending.
#[derive(Clone, Copy)]
pub enum Inspected {
    /// None can be taken now.
    Nothing,
    /// One is taken.
    Delivers(Delivery),
    /// The fork is forced by a channel.
    Forces(u8),
}
