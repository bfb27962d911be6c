//! A record is played: its entries are done again on a new system, and what they show is written as a transcript.
//! To the layers above what is played is what the plain machine does with the entries that the record tells.
//! Stands on `record_reader` for the lines of a record, on `monitor_core` and `event_items` for the steps and what is given of them, and on
//! `texts` for the transcript.
#![tactic(auto)]

mod halt;
mod laws;
mod playing;
mod replay_end;
mod replaying;
mod stage;

pub use laws::a_replay_shows_the_run;
pub use playing::play;
pub use replay_end::ReplayEnd;
pub use replaying::replay;
