//! Programs that the monitor runs out of files.

/// The word of a program's first page whose right half is the address at which it starts (the job data area's JOBSA).
pub const START_WORD: u16 = 0o120;
