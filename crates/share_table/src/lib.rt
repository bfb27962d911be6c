//! The entries of maps as words, and the pages that entries and files name more than once.
//! To the layers above a pointer is its word and back, and shared pages are a finite map from shares to homes and counts.
//! Stands on slab for the numbers of shares, on page_homes for homes, on machine_names for access, and on word36 for words.
#![tactic(auto)]

mod laws;
mod pointer;
mod shares;

pub use laws::{pointers_come_back, what_joins_may_leave, words_come_back};
pub use pointer::{Pointer, decode, encode};
pub use shares::{MOST_SHARES, Share, ShareTable};
