//! Marks at numbers below a bound, and how many of them stand below a number: a tree of sums.
//! To the layers above it is a list of marks; to set one, to clear one and to count those below a number are a step a level each.
//! Stands on `outside` for want of memory.
#![tactic(auto)]

mod sum_tree;
mod sums;

pub use sum_tree::SumTree;
