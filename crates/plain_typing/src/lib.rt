//! What users type: characters as they are stored, dropped or taken as interrupts, and lines as commands.
//! To the layers above it says what becomes of a character, and which command a line is.
//! Stands on machine_names, for the names of forks and the grammar of names of files.
#![tactic(auto)]

mod command;
mod typed;

pub use command::Command;
pub use typed::{ASSIGNABLE_CODES, BELL, CONTROL_C, MOST_STORED, Typed};
