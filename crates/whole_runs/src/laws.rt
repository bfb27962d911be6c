use number_laws::{
    bounds_are_these, calls_have_these_numbers, channels_have_these_numbers, characters_are_these,
    errors_have_these_codes, handles_are_these, names_of_calls_mean_their_numbers, sizes_are_these,
    turns_are_this_long,
};
use plain_laws::{
    access_is_that_of_all_entries, chains_are_short, copies_are_made_once, empty_script,
    entries_fit, first_script, followers_read_the_followed, frozen_forks_run_when_resumed,
    killed_forks_take_their_pages, narrowing_never_widens, pages_go_with_their_last_name,
    references_change_no_word, runs_are_whole, waiters_go_on_when_a_fork_has_ended,
};
use plain_model::start_bounds_hold;
use plain_pages::page_bounds_hold;
use std::test::Fail;

#[test]
fn the_laws_are_called(_rt: HostRuntime) -> Result<(), Fail> {
    empty_script();
    first_script();
    page_bounds_hold();
    start_bounds_hold();
    entries_fit();
    runs_are_whole();
    chains_are_short();
    access_is_that_of_all_entries();
    followers_read_the_followed();
    copies_are_made_once();
    references_change_no_word();
    pages_go_with_their_last_name();
    narrowing_never_widens();
    waiters_go_on_when_a_fork_has_ended();
    killed_forks_take_their_pages();
    frozen_forks_run_when_resumed();
    Ok(())
}

#[test]
fn the_numbers_are_told(_rt: HostRuntime) -> Result<(), Fail> {
    characters_are_these();
    bounds_are_these();
    turns_are_this_long();
    sizes_are_these();
    calls_have_these_numbers();
    names_of_calls_mean_their_numbers();
    errors_have_these_codes();
    handles_are_these();
    channels_have_these_numbers();
    Ok(())
}
