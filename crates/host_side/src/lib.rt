//! What the program does at its host: the files that a run makes there, and what standard error says to a person.
//! To the program a source that is watched, or kept, is read as if it were the source alone, and knows behind it which line is bad.
//! Stands on `script_lang` for the lines of a script, on `asm_core` for why a text is no program, on `texts` for statuses, and on
//! `outside` for sources.
#![tactic(auto)]

mod drum_file;
mod messages;
mod program_text;
mod recording;
mod watch;

pub use drum_file::{DRUM, make_drum};
pub use messages::{explain, explain_error, explain_fault, explain_line, usage};
pub use program_text::Kept;
pub use recording::{RECORD, Record, make_record};
pub use watch::{BadLine, TextKind, Watched, Wrong};
