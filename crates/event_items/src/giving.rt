// What a step shows, given to a taker item by item.
mod echo;
mod forks;
mod listing;
mod page;
mod reply;
mod text;
mod unit;

pub use echo::{give_echo, give_told};
pub use reply::{give_all, give_reply};
