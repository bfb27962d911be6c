//! The references of one unit to pages, judged together before a page is made.
//! To the layers above each reference is as on the pages that those before it leave, and what they make is made at once.
//! Stands on plain_pages and page_contracts for pages and their contract; it sees them by the trait `Pages` alone.
#![tactic(auto)]

mod chains;
mod change;
mod gather;
mod judging;
mod making;
mod makings;
mod reference;
mod seeing;
mod walk;

pub use change::Change;
pub use gather::{Gather, MOST_GATHERED};
pub use reference::{Added, PageReference};
pub use walk::Walked;
