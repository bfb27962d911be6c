//! Keys under numbers, of which the least is at hand: a tree in which the lesser of each two keys goes on.
//! To the layers above it is a list of keys, some of them absent; to change one and to find the least are a step a level each.
//! Stands on `outside` for want of memory.
#![tactic(auto)]

mod tournament;

pub use tournament::Tournament;
