//! The monitor calls on bytes: SFPTR, SIZEF, RFPTR, BIN, BOUT, PBIN, over files and over the terminal.
//! To the machine a turn of one is a function: its answer, and the characters, files, JFNs and pages that it leaves, are those of the plain call.
//! Stands on `file_bytes` for JFNs and for changes of files, on `tty_lines` for what is typed, on `call_turns` for turns, and on `plain_model`.
#![tactic(auto)]

mod characters;
mod ends;
mod positions;
mod reading;
mod turn;
mod writing;

pub use turn::call;
