//! Units in place: done on the registers and pages of a fork at once, where each reference is ready as the pages are.
//! To the layers above such a unit leaves what the plain machine's leaves, or nothing has changed; so do many in a row.
//! Stands on `ka10_spots` for the words of a space and `ka10_deeds` for what instructions do, and on `page_contracts` for the contract of pages.
#![tactic(auto)]

mod blocks;
mod bursts;
mod byte_units;
mod dispatch;
mod ending;
mod fetch_page;
mod fetches;
mod in_place;
mod instruction;
mod ways;

pub use bursts::burst;
pub use ending::{Burst, BurstEnd, Quick};
pub use fetch_page::FetchPage;
pub use in_place::quick;
