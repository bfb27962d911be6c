//! Maps of forks that are pages of any store, and the walk along a chain over them.
//! To the layers above a walk is the chain of the plain maps that the words of a drum make, or the first map on the way that is in no frame.
//! Stands on `share_table` for the words of entries, on `page_contracts` for stores, and on `plain_pages` for chains.
#![tactic(auto)]

mod chain_walk;
mod laws;
mod map_changes;
mod map_pages;
mod paged_entry;

pub use chain_walk::{Walked, Way, walk};
pub use fork_maps::{CHAIN, FULL_ACCESS, MOST_MAPS};
pub use laws::{
    a_map_is_its_page, refused_words_lead_nowhere, transfers_change_no_map, walks_go_by_the_chain,
};
pub use map_changes::{begin, begin_following, copy_page, end, make_page, set};
pub use map_pages::{KeptMaps, MapPage};
pub use paged_entry::{Looked, MapTables, PagedEntry, entry, seen};
