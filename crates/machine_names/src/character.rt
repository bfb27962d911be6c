//! The characters that the monitor treats by themselves.

/// What ends a line that is typed. It prints as carriage return and line feed.
pub const LINE_END: u8 = 0o37;

/// Back to the start of the line.
pub const CARRIAGE_RETURN: u8 = 0o15;

/// To the next line.
pub const LINE_FEED: u8 = 0o12;

/// The monitor waits for a command.
pub const PROMPT: u8 = b'@';
