//! The commands of a job to the monitor: RUN, CONTINUE, DIRECTORY, DELETE and LOGOUT.
//! To the machine each leaves the forks, pages and files that its definition leaves; each is done whole, or answers first which page or map it needs.
//! Stands on `job_forks`, which kills forks, on `fork_tree`, on `file_tables`, on `page_contracts` for pages, and on `plain_model` for the definitions.
#![tactic(auto)]

mod deleting;
mod going;
mod leaving;
mod listing;
mod program;
mod running;

pub use deleting::{Busy, delete};
pub use going::go_on;
pub use leaving::{kill_next, kill_top};
pub use listing::{file_part, next_listed};
pub use program::start_of;
pub use running::begin_program;
