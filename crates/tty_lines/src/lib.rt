//! What is typed at the terminal of a job while its forks read it: stored, dropped, or taken as an interrupt.
//! To the layers above a line is a list of characters and a finite map of the codes that forks have assigned.
//! Stands on `plain_typing` for what becomes of a character, and on `number_map` for the codes.
#![tactic(auto)]

mod laws;
mod line;
mod typing;

pub use laws::{oldest_first, typed_in_order};
pub use line::Line;
pub use typing::read_as;
