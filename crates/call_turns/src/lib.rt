//! Turns of monitor calls: what a turn asks of the pages, before anything changes, and how it ends.
//! To the crates of the calls a call is its first step, as a value; what it asks is asked here, and no page is changed.
//! Stands on `plain_model` for the definitions of turns, on `page_contracts` for the contract of pages, and on `ka10_unit` for why a reference stops.
#![tactic(auto)]

mod answer;
mod asking;
mod driving;
mod ending;
mod family;
mod touching;
mod turn;

pub use answer::Answer;
pub use asking::{entry_of, word_of};
pub use driving::{Rest, driven};
pub use ending::{accumulator, answer_of, behind, returning, stopped, with_ac};
pub use family::{CallFamily, family_of};
pub use touching::fill;
pub use turn::{Ask, Grant, Outcome, Told, Turn, WhenFull};
