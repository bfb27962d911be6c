// The registers of a fork.
use word36::{Flags, Word};

/// The registers of a fork: 16 accumulators, the program counter below 2^18, and the flags.
#[derive(Clone, Copy)]
pub struct Regs {
    pub ac: [Word; 16],
    pub pc: u32,
    pub flags: Flags,
}
