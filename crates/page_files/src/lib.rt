//! What files hold: their pages, their lengths, and where each byte stands.
//! To the layers above it is a finite map from pages of files, and a list of lengths and byte sizes.
//! Stands on `number_map`, and on `machine_names` for the names of files and pages.
#![tactic(auto)]

mod bytes;
mod files;
mod laws;
mod lengths;

pub use bytes::{most_bytes, place};
pub use files::Files;
pub use laws::{bytes_follow_each_other, others_keep_their_pages};
pub use lengths::Lengths;
