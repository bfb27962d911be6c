//! The words of the command, read with `clap`: which of them ask for a run, of which events and of what sizes, and which for what is made of a text.
//! To the layers above the words ask for one run, for one thing of a record or of another text, or they are wrong.
//! Stands on `script_lang` for numbers and on `outside` for the most pages of a drum.
#![tactic(auto)]

mod parser;
mod record_command;
mod record_words;
mod request;
mod sizes;
mod text_command;
mod text_words;
mod verb;
mod words;

pub use record_command::RecordCommand;
pub use record_words::{asked_record, one_record_asking};
pub use request::{EventSource, RecordRequest, Request, TextRequest};
pub use sizes::{
    LEAST_DRUM_PAGES, LEAST_FRAMES, MOST_FRAMES, STANDARD_DRUM_PAGES, STANDARD_FRAMES, Sizes,
};
pub use text_command::TextCommand;
pub use text_words::{asked_text, one_text_asking};
pub use words::{asked_run, one_asking};
