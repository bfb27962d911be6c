//! How far a string has come whose call counts its bytes, as SIN and SOUT do: the registers behind a byte, and whether the string ends there.
//! To the layers above an answer is the plain machine's. Stands on `call_turns` for registers and on `plain_model` for its definitions.
#![tactic(auto)]

mod counting;

pub use counting::{behind_byte, ends_before};
