// What units and a deed show, and which deed comes next.
use crate::deed::Deed;
use machine_names::Tty;
use step_shown::{Echo, Reply, Told};

/// What units in a row or a deed show.
#[derive(Clone, Copy)]
pub enum Showing {
    /// A reply.
    Reply(Reply),
    /// What a terminal shows of a character that is typed.
    Echo(Tty, Echo),
    /// What a command prints at a terminal.
    Told(Tty, Told),
}

/// What a deed shows, and the deed that comes next for its event, if one does.
#[derive(Clone, Copy)]
pub struct Answer {
    pub showing: Showing,
    pub next: Option<Deed>,
}
