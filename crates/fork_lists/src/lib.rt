//! Which fork of all jobs runs next: the scheduler's lists, kept to the forks of a tree.
//! To the layers above the forks in the lists are exactly those that can run, and the one that is chosen is the head of the ready list.
//! Stands on `job_sched` for the lists, on `fork_tree` for the forks, and on `plain_model` for what it means that one can run.
#![tactic(auto)]

mod choosing;
mod following;
mod lists;
mod seen;
mod waiting;

pub use lists::ForkLists;
