// What units of a fork came to.
use crate::reach::Reach;
use crate::reply::Reply;

/// What units of a fork in a row came to: how many they were, at least one, what they show, and how far they reached among the forks.
#[derive(Clone, Copy)]
pub struct Progress {
    pub count: u32,
    pub reply: Reply,
    pub reach: Reach,
}
