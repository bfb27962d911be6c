//! How often memories of each size, and windows of each length, miss a page, over a run's references.
//! To the layers above it is these numbers for each size at once, after any references.
//! Stands on `machine_names` for the names of pages, on `sum_tree` for places in order, and on `outside` for want of memory.
#![tactic(auto)]

mod latest_pages;
mod laws;
mod seats;
mod stack;

pub use laws::{larger_memories_miss_no_more, worked_traces};
pub use stack::{MOST_PAGES, MOST_REFERENCES, Stack};
