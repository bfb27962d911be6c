//! Where the words of pages stand: homes on the drum, and frames of core.
//! To the layers above each is a number; the plain machine knows neither.
//! Stands on `outside` for how many pages a drum has.
#![tactic(auto)]

mod homes;

pub use homes::{FrameId, Home, MOST_HOMES};
