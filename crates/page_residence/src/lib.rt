//! Which home's page is in which frame of core, and which pages come from the drum and go to it: frames and transfers as one.
//! To the layers above a home has one frame at most and a frame one transfer, and a page is in its frame once its words have been read.
//! Stands on frame_table and drum_queue, and on page_contracts for what the places of pages are.
#![tactic(auto)]

mod residence;

pub use residence::Residence;
