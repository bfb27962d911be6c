//! Tests of whose turn it is, and the laws of the forks of jobs.
//! No layer stands above; to a reader each test is the life of a schedule, step by step.
//! Stands on fork_tree and job_sched.
#![tactic(auto)]

#[cfg(test)]
mod laws;
#[cfg(test)]
mod made;
#[cfg(test)]
mod same;
#[cfg(test)]
mod schedules;
