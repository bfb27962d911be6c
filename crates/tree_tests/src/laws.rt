use fork_tree::{
    a_branch_is_killed_from_below, a_full_job_has_thirty_forks, a_made_fork_is_found,
    ancestors_are_older, forks_are_frozen_from_above, inferiors_have_it_above,
    trees_from_the_opening,
};

#[test]
fn the_laws_are_called(_rt: HostRuntime) {
    trees_from_the_opening();
    a_made_fork_is_found();
    a_full_job_has_thirty_forks();
    ancestors_are_older();
    inferiors_have_it_above();
    forks_are_frozen_from_above();
    a_branch_is_killed_from_below();
}
