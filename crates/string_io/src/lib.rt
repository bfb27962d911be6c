//! The monitor calls on strings of bytes: SIN, SOUT, PSOUT, over files and over the terminal. A turn takes one byte.
//! To the machine a turn of one is a function: its answer, and the characters, files, JFNs and pages that it leaves, are those of the plain call.
//! Stands on `text_pointers` for the bytes at pointers, on `file_bytes` for JFNs and for changes of files, on `call_turns` for turns, and on `plain_model`.
#![tactic(auto)]

mod carrying;
mod deposits;
mod ends;
mod filling;
mod plan;
mod printing;
mod taking;
mod turn;
mod writing;

pub use turn::call;
