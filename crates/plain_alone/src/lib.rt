//! Isolation: what a terminal is shown comes of its own typing and its own units alone, where nobody else writes what it uses, it asks for
//! no clock, and it meets no full drum and no full directory. To the layers above these are facts to cite; nothing that runs stands on it.
//! Stands on `plain_laws` for what holds of states wherever a run comes, on `fork_tree` for who can run, and on the definitions below.
#![tactic(auto)]

mod laws;

pub use laws::{
    busy_jobs_are_apart, legal_entries_can_be_run, names_that_are_read_are_used,
    one_terminal_is_shown_all, terminals_see_their_own_work_alone, units_leave_other_jobs,
    what_breaks_a_premise_is_noted,
};
