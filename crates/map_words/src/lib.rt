//! The accumulators of the calls on maps: how PMAP goes over pages that are counted, and access in a word, asked for and told.
//! To the layers above an answer is the plain machine's. Stands on `call_turns` for registers and on `plain_model` for its definitions.
#![tactic(auto)]

mod access;
mod paging;

pub use access::{access_in, access_told, file_access, needs_no_more};
pub use paging::{NO_SOURCE, behind_page, is_counted, pages_left};
