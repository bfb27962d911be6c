//! The unit of any instruction, planned over any pages before anything is changed, and blocks of words.
//! To the layers above a plan says what the unit comes to or needs first, and what is carried out leaves what the plain machine's unit leaves.
//! Stands on `page_gather` for references, on `ka10_deeds` for what instructions do, and on `plain_units` for the definitions.
#![tactic(auto)]

mod addresses;
mod at_hand;
mod carry;
mod ends;
mod laws;
mod plans;
mod pointed;
mod references;
mod slow;
mod taken;
mod word_blocks;

pub use addresses::address_of;
pub use carry::store;
pub use ends::Ending;
pub use laws::{
    blocks_are_copied, blocks_move_by_words, exchanged_words_change_places, pushed_calls_return,
    pushed_words_come_back, stored_calls_return, units_are_plain_or_wait, vectors_are_gone_over,
};
pub use plans::{Planned, plan};
pub use references::{ask, held_word};
pub use slow::{Outcome, slow_unit};
pub use taken::{Stop, Taken};
pub use word_blocks::{make_block, refer_block, store_block};
