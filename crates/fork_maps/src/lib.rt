//! What the maps of forks are, be they in memory or in pages: their numbers, which stand under the names of forks, and the sum of access along a chain of their entries.
//! To the layers above, the map of a fork is found in one step, and a walk adds up the access, wherever its entries stand.
//! Stands on `machine_names` for the names of forks, and on `page_homes` for the homes of pages.
#![tactic(auto)]

mod chain_walk;
mod finding;
mod map_numbers;

pub use chain_walk::{CHAIN, FULL_ACCESS, Walk, ends, goes_on};
pub use finding::ForkMap;
pub use map_numbers::{MOST_MAPS, MapNumbers};
