//! What a step shows, and how far it reached among the forks, as data.
//! To the layers above a step of the machine is one small value: its items are made from it as they are given.
//! Stands on `plain_model` for the items that the plain machine shows, and on `fork_tree` for the forks that a step reaches.
#![tactic(auto)]

mod echo;
mod progress;
mod reach;
mod reply;
mod runner;
mod shown;

pub use echo::{Complaint, Echo, Told};
pub use progress::Progress;
pub use reach::Reach;
pub use reply::Reply;
pub use runner::Runner;
pub use shown::{Shown, Stop, stop_of};
