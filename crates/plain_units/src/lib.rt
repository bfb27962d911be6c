//! Units of a fork as steps over the plain pages: what each instruction refers to, does and stores, and where a unit traps.
//! To the layers above this is what one unit comes to, given pages and registers; it knows no other fork.
//! Stands on `plain_pages`, on `ka10_table` for the rows of the opcodes, and on `word36` for the operations.
#![tactic(auto)]

pub mod channel;
mod registers;
mod unit;

pub use registers::Regs;
pub use unit::{MOST_REFERENCES, Put, Reference};
