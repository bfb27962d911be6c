//! The console of a run: a console script is run, or a generated one, and its transcript and its record are written.
//! To the layers above both texts are those of the plain machine, and each status has its cause.
//! Stands on `script_driver` for the driving of the machine and both texts, on `paged_events` for the machine, on `paged_system` for its
//! system, and on `known_slots` and `paged_store` for its pages.
#![tactic(auto)]

mod asked;
mod call;
mod faultless;
mod in_memory;
mod laws;

pub use call::run_command;
pub use faultless::run_faultless;
pub use in_memory::run_in_memory;
pub use laws::a_record_is_of_one_run;
pub use texts::Status;
