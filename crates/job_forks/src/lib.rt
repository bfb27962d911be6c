//! The forks of a job as calls and commands go over them: whom the handle of a caller names, and a branch that is killed.
//! To the layers above pages and a tree have the same forks, and what any call leaves of both is one relation.
//! Stands on `fork_tree` for the forks, on `page_contracts` for their maps, and on `plain_model` for whom a handle names.
#![tactic(auto)]

mod killing;
mod naming;

pub use killing::{ask_maps, kill_bare, kill_below};
pub use naming::{inferior_named, own_named, same_fork};
