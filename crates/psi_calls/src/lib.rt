//! The calls on pseudo-interrupts: SIR, EIR, DIR, AIC, DIC, IIC, DEBRK, ATI, DTI; and the codes of forks that live no more.
//! To the machine a turn of one is a function: its answer, and the forks, codes and pages that it leaves, are those of the plain call.
//! Stands on `fork_calls` for whom a call names, on `fork_tree` for posting and channels, on `text_pointers` for words of the caller, on `tty_lines` for codes.
#![tactic(auto)]

mod bodies;
mod calls;
mod changing;
mod codes;
mod ending;
mod laws;
mod levels;
mod step;
mod stored;
mod table;
mod turn;

pub use codes::forget_lost;
pub use laws::{channels_are_added_and_taken, deliveries_are_undone};
pub use turn::call;
