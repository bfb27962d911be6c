//! A record, of either version, read back line by line from a source that gives its bytes in pieces.
//! To the layers above an answer is about the whole bytes of a record, in whatever pieces they came.
//! Stands on `script_lang` for the lines of events, on `texts` for what tells lines apart, and on `outside` for sources.
#![tactic(auto)]

mod laws;
mod line;
mod number;
mod passed;
mod reader;
mod whole_reading;

pub use laws::{one_reading, records_read_back};
pub use line::Said;
pub use passed::MOST_RECORD_BYTES;
pub use reader::{NextStep, RecordReader};
pub use whole_reading::{WholeReading, read_record};
