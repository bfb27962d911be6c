//! An assembler of the machine's programs: a text of lines becomes words, each at its address.
//! To the layers above a program is the list of its words, or the first fault in it.
//! Stands on `word36` for words and octal texts, on `machine_names` for texts of fixed room, and on `ka10_table` for the rows that have names.
#![tactic(auto)]

mod cutting;
mod half;
mod laws;
mod line;
mod names;
mod numbers;
mod operands;
mod program;
mod statements;
mod survey;
mod symbols;
mod words;

pub use half::Half;
pub use laws::{
    characters_come_back, first_fault_decides, instructions_have_fields, listings_are_read,
    programs_join, rows_have_names,
};
pub use line::{AsmFault, Line, LineText, Placed, Statement, Symbol, Value};
pub use program::assemble;
pub use statements::read_line;
pub use survey::PROGRAM_BYTES;
