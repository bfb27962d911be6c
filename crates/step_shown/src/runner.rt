// A fork that can run.
use machine_names::ForkName;

/// A fork that can run, with its slot in its job.
#[derive(Clone, Copy, PartialEq, Eq)]
pub struct Runner {
    pub fork: ForkName,
    pub slot: u8,
}
