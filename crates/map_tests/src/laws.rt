use pager_walk::{
    a_map_is_its_page, refused_words_lead_nowhere, transfers_change_no_map, walks_go_by_the_chain,
};

#[test]
fn the_laws_are_called(_rt: HostRuntime) {
    walks_go_by_the_chain();
    refused_words_lead_nowhere();
    a_map_is_its_page();
    transfers_change_no_map();
}
