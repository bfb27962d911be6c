//! The bytes of files by their JFNs, and the characters of a line, as calls on bytes and on strings name and change them.
//! To the layers above a change is the plain call's, over files, the job that calls, and pages; and a JFN is one of a file that is there.
//! Stands on `file_tables` for files and JFNs, on `page_files` and `ka10_bytes` for the places of bytes, on `tty_lines` for what is typed, and on `plain_model`.
#![tactic(auto)]

mod changing;
mod naming;
mod sizes;

pub use changing::change;
pub use naming::{Way, jfn_held, jfn_number, jfn_open};
pub use sizes::{count_of, end_of, length_of};
