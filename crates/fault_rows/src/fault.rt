// Which call of which object of a run fails.
use std::alloc::{AllocError, Global};

/// The calls of the objects of a run.
#[derive(Clone, Copy, PartialEq, Eq)]
pub(crate) enum Call {
    /// None: the script ends behind as many bytes as the number tells.
    Cut,
    /// Reads of the script, each of which gives one line.
    Read,
    /// Reads of the script, each of which gives one byte.
    ReadByte,
    OutWrite,
    OutFlush,
    RecordWrite,
    RecordFlush,
    DrumRead,
    DrumWrite,
    /// None: the drum has as many pages as the number tells.
    Pages,
    /// None: the drum gives another word than was written.
    Changing,
}

/// The call of this number, counted from 1, fails.
#[derive(Clone, Copy)]
pub(crate) struct Fault {
    pub call: Call,
    pub number: u64,
}

impl Fault {
    /// No call fails.
    pub(crate) const NONE: Fault = Fault {
        call: Call::Read,
        number: 0,
    };

    /// The number of the call that fails, where it is one of these; else 0.
    pub(crate) fn number_of(self, call: Call) -> u64 {
        if self.call == call { self.number } else { 0 }
    }

    /// How many pages the drum has, where it has so many else.
    pub(crate) fn pages(self, pages: u32) -> u32 {
        match self.call {
            Call::Pages => u32::try_from(self.number).unwrap_or(pages),
            _ => pages,
        }
    }

    /// The numbers of these calls that fail, as objects in memory take them.
    pub(crate) fn list(self, call: Call, alloc: Global) -> Result<Vec<u64>, AllocError> {
        Vec::from_slice(alloc, &[self.number_of(call)])
    }
}
