//! The deeds of an event of the console: its parts, each of which is done whole or not at all.
//! To the layers above a character that is typed is its deeds, one behind the other, and any other event is one deed.
//! Stands on `plain_model` for what events and commands do, and on `step_shown` for what they show.
#![tactic(auto)]

mod answer;
mod deed;

pub use answer::{Answer, Showing};
pub use deed::{Deed, Purpose};
