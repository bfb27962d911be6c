// How the playing of a record ends.
/// How the playing of a record ended.
#[derive(Clone, Copy, PartialEq, Eq)]
pub enum ReplayEnd {
    /// The record was read to its end, and all its entries were played.
    Done,
    /// The line of this number, counted from 1, is bad.
    Bad(u64),
    /// The entry of this number, counted from 1, each unit counted, can't be played: it is a unit of a fork that can't run there.
    Illegal(u64),
    /// The record is too long.
    Long,
    /// The source failed.
    ReadFault,
    /// What takes the items and the steps failed.
    WriteFault,
    /// There was no memory for the system.
    Memory,
}
