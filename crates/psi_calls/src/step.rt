// The first step of a call on pseudo-interrupts: it ends, or it reads the word of a level first.
use plain_model::Fork;
use plain_model::call::{End, InterruptChange};
use word36::Word;

/// The least level of a fork that is in progress, 1 to 3, and the fork's table, LEVTAB,,CHNTAB.
#[derive(Clone, Copy)]
pub struct LevelToEnd {
    pub fork: Fork,
    pub table: Word,
    pub level: u8,
}

/// What a call does once it is known whom it is about.
#[derive(Clone, Copy)]
pub enum FirstStep {
    Ends(End<InterruptChange>),
    /// DEBRK reads the word that the delivery at this level has stored.
    Dismisses(LevelToEnd),
}
