//! What each instruction does: to the registers, with the word that it takes and the word that it stores.
//! To the layers above a row of the instruction table is one deed on registers, that of its definition; no page is known here.
//! Stands on `plain_units` for the definitions, and on the `ka10_` crates for rows and operations.
#![tactic(auto)]

mod acts;
mod bytes;
mod conditions;
mod done;
mod has_deed;
mod jumps;
mod known_sums;
mod moves;
mod operands;
mod operations;
mod program_words;
mod registers;
mod rows;
mod stacks;
mod word_fields;
mod words;

pub use acts::{Act, act_at};
pub use bytes::{
    ByteStep, byte_step, do_deposit, do_first_part, do_increment, do_load, forget_first_part,
};
pub use conditions::{AddOne, Compare, JumpSkip, SubOne};
pub use done::{Done, Post};
pub use has_deed::HasDeed;
pub use jumps::{Aobj, Jfcl, Jffo, Jrst, JsaJra, JsrJsp};
pub use moves::Move;
pub use operands::{Destination, destination_of, operand_address};
pub use operations::{Operation, Shift};
pub use program_words::{flags_of, half_of_flags, pc_word};
pub use registers::word_in;
pub use rows::do_row;
pub use stacks::{Popj, PushPop, Pushj, pushed};
pub use word_fields::{
    Address, MOST_WORDS, ac_field, is_executive, is_indirect, is_plain, opcode, step_of,
};
pub use words::{Blt, Boolean, Exch, Half, Test};
