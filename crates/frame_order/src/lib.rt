//! Frames in an order, each once at most: a list that is threaded through two arrays by frame.
//! To the layers above it is that list alone: to put a frame at its end and to take any frame out are one step each.
//! Stands on outside, for the answer that there is no memory.
#![tactic(auto)]

mod order;

pub use order::{FrameOrder, Iter};
