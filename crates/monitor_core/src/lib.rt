//! The system, over any pages: jobs and their forks, files, and what was typed; its units and events are those of the plain machine.
//! To the layer above each step leaves the plain state that its definition leaves, and says what it shows and how far it reached.
//! Stands on `plain_model` for the definitions, on `page_contracts` for the contracts of pages, on `monitor_calls` for units with their
//! calls, and on `console_access` for what the console does to forks and files.
#![tactic(auto)]

mod job_event;
mod panel;
mod system;

pub use system::System;
