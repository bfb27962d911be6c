//! The console script: lines as events, events as canonical lines, the names of files, and the generated script.
//! To the layers above an answer is about the whole bytes of a script, in whatever pieces they came.
//! Stands on `script_texts` for events, on `outside` for sources, and on `word36` for words.
#![tactic(auto)]

mod big;
mod big_laws;
mod canonical;
pub mod digits;
mod draws;
mod events;
mod fields;
mod grammar;
mod keywords;
mod lines;
mod named;
mod names;
mod reached;
mod rows;
mod stages;
mod typed;
mod verdicts;

pub use big::{Big, big_from};
pub use big_laws::big_script;
pub use canonical::{LineRoom, canonical_lines, write_line};
pub use fields::{cut, read_decimal};
pub use grammar::{Read, one_spelling, read_line, script_fits};
pub use lines::{Lines, Next};
pub use named::{full_names, read_name};
pub use names::MOST_FILE;
pub use reached::{MOST_BYTES, MOST_TURNS};
pub use verdicts::one_verdict;
