//! Bytes that were read from a source in pieces and not yet given, where lines end in them, and lines that are passed over.
//! To the layers above a line is found, or isn't, in the whole bytes that the source had left.
//! Stands on `outside` for sources and on `script_texts` for line feeds.
#![tactic(auto)]

mod buffer;

pub use buffer::{Buffer, Found, MOST_LINE, Passed, line_end};
