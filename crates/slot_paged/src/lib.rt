//! Pages under the maps of forks, which are pages of any store, and under files.
//! To the layers above each answer is that of the plain pages that the words of maps make, over the words that a drum tells.
//! Stands on `paged_tables` for what is kept beside the store, on `pager_walk` for walks, and on `page_contracts` for the contracts.
#![tactic(auto)]

mod entry_changes;
mod file_places;
mod fork_ends;
mod laws;
mod looked_up;
mod settling;
mod slot_paged;

pub use laws::{counts_are_exact, references_without_a_chain_are_denied};
pub use slot_paged::SlotPaged;
