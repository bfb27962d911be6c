//! Refusals: which events and monitor calls are refused, for which causes, and that a refusal leaves all that its rule doesn't name.
//! To the layers above these are facts to cite; nothing that runs stands on it.
//! Stands on `plain_laws` for who calls and what is typed, and on the definitions below it.
#![tactic(auto)]

mod laws;

pub use laws::{
    calls_are_answered_as_the_table_has_it, refused_calls_leave_all_else,
    refused_commands_leave_all_but_their_line, refused_events_change_nothing,
    units_make_few_references, units_of_calls_take_one_byte, units_of_pmap_go_over_one_page,
    who_names_none_is_refused,
};
