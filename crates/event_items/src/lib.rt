//! What an event shows, given to a taker item by item, and how an event ends.
//! To the layers above `give_all` gives a taker the items of a reply and the steps behind them, `give_echo` what a terminal shows of a character, and
//! `event_terminal` and `echo_terminal` tell of whose job an event or a character may change forks.
//! Stands on `monitor_core` for the system whose items are given, on `step_shown` for what a step shows, and on `script_texts` for the contracts of takers.
#![tactic(auto)]

mod ended;
mod giving;
mod terminals;

pub use ended::Ended;
pub use giving::{give_all, give_echo, give_reply, give_told};
pub use terminals::{echo_terminal, event_terminal};
