//! What the console does to forks and files: a word is put or looked at, a fork is started, a file reaches further.
//! To the layer above each leaves the forks, pages and lengths that the definition of its event leaves, or says what bars it.
//! Stands on `page_contracts` for pages, and on `fork_tree` and `file_tables` for forks and files.
#![tactic(auto)]

mod address;
mod file_end;
mod forks;
mod looking;
mod readying;
mod writing;

pub use file_end::reach;
pub use forks::{examined, poke, start};
pub use writing::{Barred, write_row, write_word};
