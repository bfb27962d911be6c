//! Values under numbers below a bound, in room that is taken once.
//! To the layers above it is a finite map, changed at one number at a time.
//! Stands on `number_set` for the numbers that have no value, and on `outside` for want of memory.
#![tactic(auto)]

mod number_map;

pub use number_map::NumberMap;
