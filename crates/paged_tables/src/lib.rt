//! What is kept in memory beside a store whose pages are the maps and pages of forks and of files: maps, names, shares, files, numbers.
//! To the layers above the tables say, with the words of maps, which plain pages there are, over the words that a drum tells.
//! Stands on `pager_walk` for maps and walks, on `share_table` for shares, and on `flat_pages` for what such tables mean in memory.
#![tactic(auto)]

mod file_tables;
mod known_page;
mod page_home;
mod paged_tables;

pub use known_page::KnownPage;
pub use page_home::PageHome;
pub use paged_tables::PagedTables;
