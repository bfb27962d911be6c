//! Units of a fork in a row, with the monitor calls that they make, over the tree of forks, pages, files and what was typed.
//! To the layer above so many units leave what the plain machine's leave, and say what they show and how far they reach.
//! Stands on `ka10_in_place` and `ka10_unit` for units, on `psi_system` for interrupts, and on a crate for each family of calls.
#![tactic(auto)]

mod calls;
mod job;
mod row;
mod typing;
mod units;

pub use job::{Job, empty_jobs, seen, seen_stop};
pub use row::channel_of;
pub use typing::{Typing, empty_typings};
pub use units::{Units, units_with_call};
