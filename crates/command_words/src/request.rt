// What a command asks for: which events are run, on a machine of which sizes, or what is made of a text.
use crate::record_command::RecordCommand;
use crate::sizes::Sizes;
use machine_names::Tty;

/// Where the events of a run come from.
#[derive(Clone, Copy, PartialEq, Eq)]
pub enum EventSource {
    /// The lines of the script.
    Script,
    /// The generated script of this seed, below 10^9.
    Generated(u32),
}

/// A run that is asked for.
#[derive(Clone, Copy, PartialEq, Eq)]
pub struct Request {
    /// The events that are run.
    pub events: EventSource,
    /// How large the machine is.
    pub sizes: Sizes,
}

/// What is asked to be made of a record.
#[derive(Clone, Copy, PartialEq, Eq)]
pub struct RecordRequest {
    /// What is made of it.
    pub command: RecordCommand,
    /// The drum's pages, 256 to 16,384, where the record doesn't tell them.
    pub drum: u32,
}

/// What is asked to be made of a text.
#[derive(Clone, Copy, PartialEq, Eq)]
pub enum TextRequest {
    /// This, of a record.
    Record(RecordRequest),
    /// Of a program, the lines of a script that put its words at the job of this terminal.
    Assemble(Tty),
}
