// How an event of a machine ended.

/// How an event ended.
#[derive(Clone, Copy, PartialEq, Eq)]
pub enum Ended {
    Went,
    DrumFault,
    TakerFault,
}
