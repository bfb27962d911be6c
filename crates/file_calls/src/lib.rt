//! The calls on files: GETER, which tells why a call of a fork was refused last, and those on JFNs: GTJFN, OPENF, CLOSF, RLJFN, DELF.
//! To the machine a turn of one is a function: its answer, and the files, JFNs and pages that it leaves, are those of the plain call.
//! Stands on `file_tables` for files and JFNs, on `text_pointers` for the text of a name, on `call_turns` for how a turn ends, and on `plain_model`.
#![tactic(auto)]

mod changing;
mod errors;
mod jfn_turn;
mod jfns;
mod laws;
mod naming;
mod turn;

pub use jfn_turn::jfn_call;
pub use laws::jobs_hold_the_jfns;
pub use turn::call;
