//! Events of a machine over pages of which a part is in core: each is given to a taker as legal steps.
//! To the layers above an event is what it is over pages in memory; what it needs is brought in first, and only the drum can fail besides.
//! Stands on `page_waits` for turns and deeds whose pages come first, and on `script_texts` for the contracts of takers.
#![tactic(auto)]

mod acting;
mod fault;
mod giving;
mod laws;
mod machine;
mod running;
mod typing;

pub use laws::{calm_turns_over_frames_pass_nobody_over, turns_over_frames_are_of_the_head};
pub use machine::Machine;
