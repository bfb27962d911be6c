//! The pages of forks and files over maps that are pages, with what is known of the walks along their chains.
//! To the layers above it is pages whose every answer is that of the plain pages; a page that was used is found again in a few steps.
//! Stands on `slot_paged` for the pages, and on `page_contracts` for the contracts.
#![tactic(auto)]

mod known_slots;
mod known_walks;
mod pages;
mod settling;

pub use known_slots::KnownSlots;
