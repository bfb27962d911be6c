//! Byte pointers: incrementing them, and loading and depositing the bytes that they name.
//! To the layers above a byte instruction is one of these three functions and its references.
//! Stands on words alone; every word is a pointer, with fields that reach past the word too.
#![tactic(auto)]

mod bytes;
mod laws;
mod pointers;

pub use bytes::{deposit, load};
pub use laws::{
    bytes_come_in_order, comes_to_next_word, loads_what_is_deposited, other_bits_stay,
    stays_as_loaded,
};
pub use pointers::increment;
