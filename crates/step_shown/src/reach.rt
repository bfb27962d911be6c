// How far units reached.

/// How far units of a fork have reached among the forks.
#[derive(Clone, Copy)]
pub enum Reach {
    /// Only the fork that ran may stand otherwise.
    Own,
    /// Besides, a fork may have been made in its job.
    Made,
    /// Forks of its job may stand otherwise.
    Job,
}
