//! What a script says, what a run shows and what it did, as data and as text: events, items and steps, the lines of a
//! script, the transcript and the record, and the contract of who takes them. To the layers above these are the texts
//! that are promised, and no state of a machine is in them. Stands on `machine_names`, and on `outside` for counts of faults.
#![tactic(auto)]

mod event;
mod status;
mod taker;

pub use event::{Event, ForkLine, Item, Refusal, Step, WordRow};
pub use status::{ForkStatus, WaitOn};
pub use taker::Taker;
