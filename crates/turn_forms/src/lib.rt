//! Whose each unit of a run is, and how the scheduler's lists move from one entry to the next.
//! To a reader the turn is that of the head of the ready list, and the lists move by who stops and who starts, by units that are counted, by waits and arrivals.
//! Stands on `job_sched` and `fork_lists` for the lists, and on `plain_model` for what a step does to the forks.
#![tactic(auto)]

mod laws;

pub use laws::{calm_turns_pass_nobody_over, following_is_moving, turns_are_of_the_head};
