//! The driving of a machine: the events of a script, as its lines are read, or those of a generated script are run, and its
//! transcript and its record are written. To the top call what both texts and the status tell is what the plain machine does.
//! Stands on `paged_events` for the machine, on `script_lang` for the script and on `texts` for both texts.
#![tactic(auto)]

mod driver;
mod generated;
mod lines;
mod whole_run;

pub use whole_run::{close, run};
