// How many bits of a byte and JFNs there are.

/// How many bits a byte has at most: those of a word.
pub const LARGEST_BYTE: u8 = 36;

/// How many JFNs a job may hold. They are numbered from 1.
pub const MOST_JFNS: usize = 20;
