//! Laws of the plain machine: what its definitions say of pages, of forks, of interrupts, of the clock, of what users type and of runs, in
//! the words of those who use them, and two scripts computed. To the layers above they are facts to cite; nothing that runs stands on them.
//! Stands on `plain_model`, on `fork_tree` for the law of trees, on `ka10_bytes` for bytes of words, and on the definitions below it.
#![tactic(auto)]

mod byte_laws;
mod clock_laws;
mod command_laws;
mod entries;
mod example;
mod file_laws;
mod fork_laws;
mod interrupt_laws;
mod jfn_laws;
mod laws;
mod mapped_laws;
mod string_laws;
mod type_laws;

pub use byte_laws::{
    bytes_are_read, bytes_are_read_back, bytes_are_written, characters_come_in_their_order,
    files_reach_the_furthest_byte, positions_are_set_and_told,
};
pub use clock_laws::{
    frozen_sleepers_do_not_run, interrupted_sleeps_begin_anew, sleeps_are_over_at_their_moment,
    the_clock_and_the_units_are_told, ticks_awake_who_is_due,
};
pub use command_laws::{
    files_in_use_are_not_deleted, nothing_is_left_of_who_logs_out, programs_are_run_from_files,
};
pub use entries::{entries_fit, runs_are_whole};
pub use example::{empty_script, first_script};
pub use file_laws::{files_are_made_once, pages_are_shown, words_are_put};
pub use fork_laws::{
    frozen_forks_run_when_resumed, killed_forks_take_their_pages, moves_are_who_can_run,
    waiters_go_on_when_a_fork_has_ended,
};
pub use interrupt_laws::{
    assigned_characters_reach_their_fork, channels_are_pending_until_they_are_delivered,
    codes_do_not_outlive_their_forks, debrk_undoes_a_delivery, forced_forks_make_no_page,
    interrupts_come_before_instructions, interrupts_that_are_off_change_nothing, levels_nest,
    panic_channels_force_who_does_not_take_them, posted_channels_are_delivered_next,
    the_least_level_is_delivered_first, waiting_calls_are_made_again,
};
pub use jfn_laws::{
    files_go_with_their_one_jfn, mapped_pages_outlive_their_file,
    refused_calls_leave_all_but_an_error, released_jfns_are_free, the_least_free_jfn_is_taken,
};
pub use laws::{
    access_is_that_of_all_entries, chains_are_short, copies_are_made_once,
    followers_read_the_followed, narrowing_never_widens, pages_go_with_their_last_name,
    references_change_no_word,
};
pub use mapped_laws::{
    copies_leave_the_file, mapping_and_unmapping_take_no_room, pages_of_files_are_mapped_and_put,
    pages_put_and_mapped_are_the_same, written_words_are_the_files,
};
pub use string_laws::{
    strings_are_printed, strings_are_read_by_their_pointers, strings_are_taken,
    strings_are_written, strings_come_back_whole, strings_end_by_their_counts,
    written_strings_are_taken_back,
};
pub use type_laws::{control_c_always_comes_through, typed_characters_are_stored_in_their_order};
