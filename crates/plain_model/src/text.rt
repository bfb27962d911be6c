//! Byte pointers to texts that calls are handed (JSYS Manual, "String pointers").

/// How many bytes of a text a call reads in one unit at most.
pub const MOST_BYTES: usize = 40;

/// The left half of a pointer in short: one to bytes of seven bits, from the left of a word on.
pub const SHORT_POINTER: u32 = 0o777777;

/// What such a pointer has in its left half when it is written out: P is 36, S is 7.
pub const SEVEN_BIT_POINTER: u32 = 0o440700;
