//! What a run reads from, writes to and pages on: a source and a sink of bytes, and a drum of pages.
//! To the layers above an answer of failure comes only with a rise of that object's count of faults.
//! Stands on word36, for what a word of a page is, and on byteorder, for a drum in a file.
#![tactic(auto)]

mod drum;
mod failing_calls;
mod failure;
mod file_drum;
mod memory_drum;
mod memory_sink;
mod memory_source;
mod sink;
mod source;
mod streams;

pub use drum::Drum;
pub use failure::{Failed, Memory};
pub use file_drum::{FileDrum, WORD_BYTES, words_come_back};
pub use memory_drum::{MemDrum, SureDrum};
pub use memory_sink::{MemSink, SureSink};
pub use memory_source::{MemSource, SureSource};
pub use sink::Sink;
pub use source::Source;
pub use streams::{StdSink, StdSource};

/// How many words a page has.
pub const PAGE_WORDS: usize = 512;

/// How many pages of a drum a run uses at most.
pub const MOST_DRUM_PAGES: u32 = 16384;
