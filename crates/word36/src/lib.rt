//! Words of 36 bits, their halves, signed values and octal texts, the processor's flags, and opcodes.
//! To the layers above a word is a number below 2^36.
//! Stands on no other crate.
#![tactic(auto)]

mod flags;
mod laws;
mod octal;
pub mod opcodes;
mod word;

pub use flags::Flags;
pub use laws::constants_hold;
pub use octal::{WORD_DIGITS, fill_octal, read_back, read_octal};
pub use word::Word;
