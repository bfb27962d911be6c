// What becomes of a character that is typed, and the bounds of a line.
use machine_names::ForkName;

/// How many characters a line stores at most.
pub const MOST_STORED: usize = 80;

/// Codes below this may be assigned, but for control-C.
pub const ASSIGNABLE_CODES: usize = 0o33;

/// What stops a program. It is never stored or assigned.
pub const CONTROL_C: u8 = 0o3;

/// What a terminal rings at a character that is lost.
pub const BELL: u8 = 0o7;

/// What becomes of a character that is typed.
#[derive(Clone, Copy, PartialEq, Eq)]
pub enum Typed {
    /// It stands last among the stored ones, and is echoed.
    Stored,
    /// The line is full: it is lost, and the bell rings.
    Dropped,
    /// A fork has assigned it, and gets this channel, 0 to 35. It is neither stored nor echoed.
    Posts(ForkName, u8),
    /// It stops the program.
    ControlC,
}
