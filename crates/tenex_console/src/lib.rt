//! The emulator's top call: a console script is run, or what another command makes of a text is written.
//! To the program what the words ask for decides: of a run both texts are those of the plain machine, and of a text its own command's.
//! Stands on `run_console` for runs, on `text_console` for the other commands, and on `command_words` for telling them apart.
#![tactic(auto)]

mod call;

pub use call::tenex;
pub use texts::Status;
