// How a run of rounds ended.

/// How a run of rounds ended.
#[derive(Clone, Copy, PartialEq, Eq, Drop)]
pub enum Ended {
    /// In the last round no turn did anything, and none was idle.
    Quiet,
    /// All rounds were run, and the last one wasn't quiet.
    RoundsSpent,
    /// A turn of the last round found no memory.
    NoMemory,
}
