// What a script sets of the whole machine.

/// What the lines TICK and TRACE set: how many ticks there were, and whether each unit is shown.
#[derive(Clone, Copy)]
pub struct Panel {
    pub clock: u64,
    pub trace: bool,
}

impl Panel {
    /// No tick was, and no unit is shown.
    pub const FIRST: Panel = Panel {
        clock: 0,
        trace: false,
    };
}
