//! Pseudo-interrupts: which channel of a fork is taken before its next unit, and what it comes to that one is taken.
//! To the machine an inspection and a delivery are functions: they are those of the plain machine, or say what they need first.
//! Stands on `text_pointers` for words that are read one behind the other, on `ka10_alu` for channels as bits, and on `plain_model`.
#![tactic(auto)]

mod channels;
mod delivering;
mod inspecting;
mod judging;
mod laws;

pub use channels::is_interrupted;
pub use delivering::deliver;
pub use inspecting::{inspect, level_at};
pub use laws::{
    delivered_channels_are_taken_up, levels_nest, nothing_is_looked_at_with_interrupts_off,
    the_least_level_is_delivered,
};
