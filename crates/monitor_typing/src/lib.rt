//! What users type, over any pages: each character by its parts, which are done whole or not at all, and the commands that lines are.
//! To the layer above each part leaves the plain state that its deed leaves, and says what it shows, what comes next and how far it reached.
//! Stands on `monitor_core` for the system that it changes, and on `job_commands` for what commands do to forks, pages and files.
#![tactic(auto)]

mod characters;
mod commands;
mod deeds;
mod typing;

pub use deeds::part;
pub use typing::type_one;
