//! The assembly of a text: the text of a program is read, and the lines of a script that put its words are written.
//! To the layers above these lines are those of the program that the text is, and each end has its cause.
//! Stands on `asm_core` for programs, on `script_lang` for the lines of a script, on `texts` for what it is to write
//! a part, and on `outside` for what is read and written.
#![tactic(auto)]

mod asm_end;
mod call;
mod closing;
mod laws;
mod lines;
mod program;
mod put;
mod reading;

pub use asm_end::{AsmEnd, Stopped};
pub use call::asm;
pub use laws::lines_are_read;
