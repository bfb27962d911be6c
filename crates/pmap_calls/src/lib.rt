//! The monitor calls on maps: PMAP, RPACS, SPACS, RMAP.
//! To the machine a turn of one is a function: its answer and the pages that it leaves are those of the plain call.
//! Stands on `call_turns` for turns, on `fork_tree` for handles, on `file_tables` for JFNs, on `plain_model` for the definitions, and on `page_contracts` for the pages.
#![tactic(auto)]

mod calls;
mod laws;
mod mapping;
mod naming;
mod pmap;
mod stage;
mod table;
mod turn;

pub use laws::{
    access_comes_back, file_pages_are_shared, mapped_pages_read_their_source,
    pages_are_counted_down, refusals_leave_an_error_alone,
};
pub use turn::call;
