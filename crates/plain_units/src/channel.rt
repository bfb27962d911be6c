//! The channels of pseudo-interrupts that the machine posts by itself (JSYS Manual, "Pseudo-interrupt
//! system"). Texts show them in decimal.

/// Channel 6: an arithmetic result overflowed.
pub const OVERFLOW: u8 = 0o6;

/// Channel 9: a pushdown list ran over, or under.
pub const PUSHDOWN_OVERFLOW: u8 = 0o11;

/// Channel 10: a file was read to its end.
pub const END_OF_FILE: u8 = 0o12;

/// Channel 15: an illegal instruction, or a monitor call that was refused.
pub const ILLEGAL_INSTRUCTION: u8 = 0o17;

/// Channel 16: a page that may not be read.
pub const DENIED_READ: u8 = 0o20;

/// Channel 17: a page that may not be written.
pub const DENIED_WRITE: u8 = 0o21;

/// Channel 18: a page that may not be executed.
pub const DENIED_EXECUTE: u8 = 0o22;

/// Channel 19: an inferior halted, or was forced.
pub const INFERIOR_ENDED: u8 = 0o23;

/// Channel 20: a page had to be made, and the drum was full.
pub const DRUM_FULL: u8 = 0o24;
