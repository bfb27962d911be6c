//! The files and the JFNs of all jobs: the directory, the lengths and the JFNs, as one.
//! To the layers above it is the plain machine's files by name, and the JFNs of each job by the names of their files.
//! Stands on `file_dir`, `page_files` and `jfn_table`, which keep them by number, and on `plain_files` for what they mean.
#![tactic(auto)]

mod laws;
mod tables;

pub use laws::{numbers_follow_the_names, pages_follow_the_names, times_follow_the_jfns};
pub use tables::FileTables;
