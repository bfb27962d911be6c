//! The contracts of pages: pages under homes (`Store`), and under the maps of forks (`Pages`), in frames and on a drum.
//! To the layers above each answer is that of the plain pages, over the words that a drum tells.
//! Stands on `plain_pages` for what pages are, and on `outside` for drums.
#![tactic(auto)]

mod answers;
mod pages;
mod store;

pub use answers::{Found, Need, Peeked, Seen, SpaceHandle, Touch};
pub use pages::Pages;
pub use store::{
    CONSOLE_HOLDER, Completed, MOST_HELD, MOST_HELD_FOR_CONSOLE, MOST_HOLDERS, Room, Store,
};
