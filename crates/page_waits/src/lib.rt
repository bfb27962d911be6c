//! Turns of a run and deeds of the console over pages of which a part is in core: who needs something first waits for it, and transfers end.
//! To the layers above a turn is a row of steps of the plain machine, and a deed is done, whatever was transferred before.
//! Stands on `fork_lists` for whose turn is next and who waits, on `page_contracts` for transfers, and on `event_deeds` for the deeds of an event.
#![tactic(auto)]

mod completing;
mod head;
mod holders;
mod laws;
mod machine;
mod system;
mod turn;
mod waking;

pub use head::Head;
pub use laws::{waits_are_awaited, who_waits_is_ready_again};
pub use machine::Machine;
pub use system::System;
pub use turn::{Done, Turn};
