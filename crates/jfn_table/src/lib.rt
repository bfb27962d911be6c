//! The JFNs of each job: the files that its programs have named, under small numbers.
//! To the layers above it is a finite map from numbers to JFNs for each terminal.
//! Stands on `number_map`, and on `plain_files` for what JFNs are and the bounds of files.
#![tactic(auto)]

mod jfns;
mod job_jfns;
mod laws;

pub use jfns::{Jfns, JfnsFull};
pub use job_jfns::JobJfns;
pub use laws::{a_file_without_names_has_no_jfn, names_follow_the_jfns};
