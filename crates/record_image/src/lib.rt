//! The image of the files that a record leaves.
//! To the layer above what was written is the image of all files in the last state of the record's entries, or the line that tells why there is none.
//! Stands on `record_player`, which plays the record, on `file_image` for the image, and on `texts` for that line.
#![tactic(auto)]

mod imaging;
mod unheard;

pub use imaging::image;
