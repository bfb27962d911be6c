//! The system over pages of which a part is in core, as the layer of page waits asks it: units and deeds that are done whole, and whose lists follow, or
//! what they need first; and transfers, which leave the plain state.
//! To the layer above it is a `System`. Stands on `monitor_core` for what units and deeds do, on `step_wants` for what they refer to, and on `fork_lists`.
#![tactic(auto)]

mod asked;
mod booting;
mod deeds;
mod doing;
mod following;
mod giving;
mod paged;

pub use booting::boot;
pub use paged::Paged;
