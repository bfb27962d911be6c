//! Laws of pages under maps that are pages, in frames of core and on a drum: where each page and each map stands.
//! To a reader a page and the map of a fork have one home each, and there one frame or the drum; nothing that runs stands on it.
//! Stands on known_slots for the pages, on paged_store for what they stand in, and on page_contracts for what both mean.
#![tactic(auto)]

mod laws;

pub use laws::{
    frames_are_left_over, frames_are_shared_out, pages_and_maps_have_one_place,
    pages_and_maps_stand_apart, who_waits_has_a_victim,
};
