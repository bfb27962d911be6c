//! The plain pages: pages of words, the maps of forks that name them or follow each other, and what a reference makes.
//! To the layers above this is what a read, a write and a change of a map mean; it knows no frames and no drum.
//! Stands on `machine_names` for names.
#![tactic(auto)]

mod bounds;
mod map;

pub use bounds::page_bounds_hold;
pub use map::{MapEntry, NewEntry, NewMap};
