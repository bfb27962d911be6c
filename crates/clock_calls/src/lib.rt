//! The calls on the clock: TIME, RUNTM, DISMS.
//! To the machine a turn of one is a function: its answer, and the forks that it leaves, are those of the plain call.
//! Stands on `fork_calls` for whom a call names, on `fork_tree` for the forks, and on `call_turns` for how a turn ends.
#![tactic(auto)]

mod calls;
mod turn;

pub use turn::call;
