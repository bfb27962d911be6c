//! The pages of forks in memory, and maps of forks in memory over any store of pages.
//! To the layers above `FlatSlots` is a `Pages`, and `FlatStore` a `Store` in which nothing is ever away.
//! Stands on `plain_pages` for the definitions, and on `page_contracts` for the contracts of both.
#![tactic(auto)]

mod flat_slots;
mod flat_store;
mod stored_page;

pub use flat_slots::FlatSlots;
pub use flat_store::FlatStore;
pub use flat_tables::PageSerials;
