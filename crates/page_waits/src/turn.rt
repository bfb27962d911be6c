// Turns of a run.
use machine_names::ForkName;
use step_shown::Progress;

/// Units of a fork in a row, with what they show, and whether its quantum has ended by them.
#[derive(Clone, Copy)]
pub struct Done {
    pub fork: ForkName,
    pub progress: Progress,
    pub ended: bool,
}

/// Turns of a run: units in a row, or so many idle entries.
#[derive(Clone, Copy)]
pub enum Turn {
    Ran(Done),
    Idle(u32),
}
