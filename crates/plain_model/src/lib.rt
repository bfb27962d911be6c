//! The plain machine: its state, its forks, monitor calls, the events of a script, and the run over entries.
//! To the layers above every promise is about these definitions, which know no frames and no drum.
//! Stands on `plain_pages` for pages, on `plain_units` for units, and on `script_texts` for events and entries.
#![tactic(auto)]

mod bounds;
pub mod call;
pub mod command;
mod fork;
pub mod interrupt;
pub mod text;

pub use bounds::{MOST_PASSED, start_bounds_hold};
pub use fork::{Body, Fork, Psi, TerminalMode};
