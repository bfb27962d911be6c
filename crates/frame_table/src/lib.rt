//! The frames of core: which home's page each of them holds, who holds on to it, and which one goes next.
//! To the layers above it is the list of the frames with their words and their ages, the numbers of their last uses.
//! Stands on tournament for the least ages that are known, number_set for the least free frame, number_map for the frames by home, and page_homes for homes and frames.
#![tactic(auto)]

mod frames;
mod laws;
mod pages;
mod tenant;
mod victims;

pub use frames::{Frames, MOST_HOLDS};
pub use laws::{
    a_victim_is_not_held, held_frames_keep_their_pages, spent_holds_leave_no_trace, uses_renew_ages,
};
pub use tenant::{Hold, MOST_PINS};
