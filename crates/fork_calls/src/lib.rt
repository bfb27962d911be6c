//! The fork calls: CFORK, KFORK, FFORK, RFORK, RFSTS, SFORK, SFACS, RFACS, HFORK, WFORK, HALTF.
//! To the machine a turn of one is a function: its answer, and the forks and pages that it leaves, are those of the plain call.
//! Stands on `job_forks` for whom a call names, on `ka10_unit` for blocks of words, on `call_turns` for how a turn ends, and on `plain_model`.
#![tactic(auto)]

mod calls;
mod changing;
mod ending;
mod killing;
mod making;
mod standing;
mod step;
mod storing;
mod table;
mod turn;
mod words;

pub use turn::call;
