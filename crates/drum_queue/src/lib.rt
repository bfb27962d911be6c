//! What is to be read from the drum and written to it: transfers of frames, one a frame at most.
//! To the layers above it is a list of transfers, the oldest first; any of them can be taken back, in one step.
//! Stands on frame_order for the order of frames, and on page_homes for the numbers of frames and homes.
#![tactic(auto)]

mod laws;
mod queue;
mod transfer;

pub use laws::transfers_end_in_order;
pub use queue::Queue;
pub use transfer::Transfer;
