//! What the deeds of an event come to, one behind the other.
//! To the layers above the deeds of a character that is typed are that character, and an event that is one deed is that deed.
//! Stands on `event_deeds` for the deeds, on `plain_model` for what a character does, and on `fork_tree` for forks that are killed one by one.
#![tactic(auto)]

mod laws;

pub use laws::{a_deed_is_its_event, deeds_are_their_character};
