//! Which fork runs next: a ready list, the members of the balance set that are in page wait, and those that stand outside.
//! To the layers above it is these lists; a fork enters, is chosen, waits or leaves in a few steps, however many there are.
//! Stands on frame_order for the order of numbers, on machine_names for the names of forks, and on page_contracts for what they wait for.
#![tactic(auto)]

mod laws;
mod member;
mod rows;
mod sched;

pub use laws::{
    a_fork_in_line_comes_closer, a_fork_more_has_room, a_row_is_of_one_fork,
    lists_follow_the_forks, no_ready_fork_is_passed_over, the_head_stays,
};
pub use sched::Sched;
