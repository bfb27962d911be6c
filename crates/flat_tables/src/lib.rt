//! Maps of forks in memory, the chains along them, and the tables of the names and shares of the pages that they name.
//! To the layer above, `MapTables` are the tables beside a store: each of their calls is one change of the tables, or one look along a chain.
//! Stands on `plain_pages` for the definitions, and on `page_files` for the pages of files.
#![tactic(auto)]

mod chain_walk;
mod file_tables;
mod held_entry;
mod held_map;
mod kept_maps;
mod look;
mod map_tables;
mod page_serials;

pub use chain_walk::Use;
pub use fork_maps::FULL_ACCESS;
pub use held_entry::{EntryAt, HeldEntry, Link};
pub use held_map::free_map_of;
pub use map_tables::MapTables;
pub use page_serials::PageSerials;
