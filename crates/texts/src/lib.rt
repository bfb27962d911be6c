//! The transcript and the record of a run, written to two sinks as the run goes.
//! To the layers above the sinks have then taken the texts of the items and the steps that were given.
//! Stands on `script_texts` for both texts' definitions, on `outside` for sinks, on `script_lang` for canonical lines and digits.
#![tactic(auto)]

mod closing;
mod end_line;
mod entry;
mod item_line;
mod last;
pub mod laws;
mod line;
mod put;
mod tally;
mod turns;
mod writer;

pub use closing::write_closing;
pub use last::{Last, Status};
pub use tally::Tally;
pub use writer::Writer;
