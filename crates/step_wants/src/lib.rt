//! To which pages and maps a unit of a fork and a deed of the console refer.
//! To the layers above what is needed first is the home of one of few names, which the plain state alone tells.
//! Stands on `plain_model` for what units do, on the families of calls for what their turns need first, and on `event_deeds` for the deeds of an event.
#![tactic(auto)]

mod laws;

pub use laws::{
    a_deed_refers_to_few, a_task_wants_few, a_way_has_five_names, homes_are_of_pages,
    names_are_the_same, steps_refer_to_few, the_tables_tell, wants_are_named,
    what_deeds_need_is_named, what_fork_turns_need_is_named, what_is_away_is_named,
    what_is_needed_is_wanted, what_steps_need_is_named, what_turns_need_is_named,
    what_units_need_is_named,
};
