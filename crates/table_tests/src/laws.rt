// The laws of the tables.

#[test]
fn the_laws_are_called(_rt: HostRuntime) {
    page_files::bytes_follow_each_other();
    page_files::others_keep_their_pages();
    jfn_table::names_follow_the_jfns();
    jfn_table::a_file_without_names_has_no_jfn();
    file_dir::a_created_file_is_found();
    file_dir::a_listing_is_whole();
    file_tables::numbers_follow_the_names();
    file_tables::pages_follow_the_names();
    file_tables::times_follow_the_jfns();
    tty_lines::oldest_first();
    tty_lines::typed_in_order();
    exec_cmd::one_command();
    exec_cmd::words_between_spaces();
}
