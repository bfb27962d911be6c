// What a call answers that did not do its work.
use std::alloc::AllocError;

/// An object of the outside did not do what it was asked. Its count of faults has risen in that call,
/// or stands at its last value, 2^64 - 1.
#[derive(Clone, Copy, PartialEq, Eq)]
pub struct Failed;

/// A call found no memory.
#[derive(Clone, Copy, PartialEq, Eq)]
pub struct Memory;

impl From<AllocError> for Memory {
    fn from(_error: AllocError) -> Self {
        Memory
    }
}
