//! The text at a byte pointer that a call is handed, up to a zero byte, and the byte at one, read in the space of a fork.
//! To the layers above what was read is that of the plain machine's turn, or it traps, or needs a page or a frame first; pages are made later.
//! Stands on `ka10_unit` for the pointer's address, on `ka10_bytes` for bytes, and on `page_gather` for the references.
#![tactic(auto)]

mod byte;
mod laws;
mod reader;
mod scratch;
mod text;
mod words;

pub use byte::{PointedByte, byte_at, next_pointer};
pub use laws::texts_are_read_in_order;
pub use reader::Reader;
pub use scratch::Scratch;
pub use text::{Text, text_at};
