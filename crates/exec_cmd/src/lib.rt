//! The lines that a user types to the monitor, read as commands.
//! To the layers above each line is one command, said by its words alone.
//! Stands on `plain_typing` for what commands are, and on `script_lang` for the names of files.
#![tactic(auto)]

mod laws;
mod line;
mod words;

pub use laws::{one_command, words_between_spaces};
pub use line::read;
