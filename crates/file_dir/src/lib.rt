//! The directory: the files that there are, by number and by name, and names as they are typed.
//! To the layers above it is a finite map from numbers to full names; no name stands there twice.
//! Stands on `number_map`, and on `plain_files` and `script_lang` for what files and names are.
#![tactic(auto)]

mod dir;
mod laws;
mod order;
mod reading;

pub use dir::{Dir, FilesFull};
pub use laws::{a_created_file_is_found, a_listing_is_whole};
pub use reading::read_name;
