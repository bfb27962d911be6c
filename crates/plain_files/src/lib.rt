//! Files as the plain machine has them: the directory, lengths and bytes, and the JFNs of jobs.
//! To the layers above it says which file has a name, where a byte stands, and what a JFN is.
//! Stands on machine_names, and on number_map for the least number that is free.
#![tactic(auto)]

mod bounds;
mod jfn;

pub use bounds::{LARGEST_BYTE, MOST_JFNS};
pub use jfn::{Jfn, Mode};
