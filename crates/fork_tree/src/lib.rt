//! The forks of all jobs: which live, in which slots, and who is whose superior.
//! To the layers above a tree is the plain machine's finite map of forks, with the next serial of each terminal.
//! Stands on `plain_model` for forks and for that map.
#![tactic(auto)]

mod fork_table;
mod handle;
mod inferiors;
mod laws;
mod making;
mod notes;
mod posting;
mod runnable;
mod tree;
mod waiters;

pub use laws::{
    a_branch_is_killed_from_below, a_full_job_has_thirty_forks, a_killed_fork_takes_its_branch,
    a_made_fork_is_found, a_posted_channel_is_pending, ancestors_are_older,
    forks_are_frozen_from_above, inferiors_have_it_above, trees_from_the_opening,
    waiters_of_a_job_run_again,
};
pub use posting::{channel_word, has_channel, is_panic, listens, post, post_all, wants_one};
pub use tree::{NoFork, Tree};
