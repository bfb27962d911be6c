//! Words of a fork's space in place, and effective addresses over them.
//! To the layers above a word is taken or put where each reference to it is ready as the pages are, or nothing has changed.
//! Stands on `ka10_deeds` for steps of addresses, and on `page_contracts` for the contract of pages.
#![tactic(auto)]

mod addressing;
mod leads;
mod spots;

pub use addressing::{effective_address, own_address, use_indirect};
pub use leads::{INDIRECT_WORDS, Lead, Way, load_led, take_led, use_lead};
pub use spots::{Spot, load, look, look_at, page_of, spot_to, spot_to_change, store, use_spot};
