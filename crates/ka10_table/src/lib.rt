//! The 512 rows of the instruction table.
//! To the layers above a row says which family an opcode belongs to, where its result goes, and
//! which of the family it is. Stands on no operation of the machine.
#![tactic(auto)]

mod families;
mod rows;

pub use families::{Family, OpMode, TableRow};
pub use rows::{ROWS, row};
