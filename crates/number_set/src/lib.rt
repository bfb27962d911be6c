//! Sets of numbers below a bound, in room that is taken once.
//! To the layers above it is a finite set; to add a number, to take one away and to find the least one that isn't there are a few steps each.
//! Stands on `outside` for want of memory.
#![tactic(auto)]

mod number_set;

pub use number_set::NumberSet;
