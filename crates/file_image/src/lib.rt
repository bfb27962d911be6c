//! The image of all files: one text from which they can be made again.
//! To the layers above a sink has then taken the image of the files that the plain machine has.
//! Stands on `file_tables` and `page_contracts` for the files and their pages, and on `byteorder` for numbers as bytes.
#![tactic(auto)]

mod file;
mod laws;
mod page;
mod put;
mod write;

pub use laws::images_are_images;
pub use write::write_image;
