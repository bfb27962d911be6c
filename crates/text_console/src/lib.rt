//! The commands that read one text and write another: `replay` and `image` read a record, and `asm` a program.
//! To the layer above what was written is what the command makes of the text, or the line that tells why not, and each status has its cause.
//! Stands on `command_words` for words, on `record_player`, `record_image` and `asm_console` for what is made of a text, and on `texts` for statuses
//! and their lines.
#![tactic(auto)]

mod call;
mod making;
mod text_end;

pub use call::text_command;
pub use text_end::TextEnd;
