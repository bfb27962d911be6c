// Why entries were not all played.
/// Why the entries of a line were not all played.
#[derive(Clone, Copy)]
pub(crate) enum Halt {
    /// The next one is a unit of a fork that can't run.
    Illegal,
    /// The taker failed.
    Fault,
}
