// How much is held, and what a finish comes to.

/// How much an outlet holds at most.
#[derive(Clone, Copy, Drop)]
pub struct Limits {
    /// The bytes that the held frames take as entries of the store, 6 and its length for each; what
    /// the store holds at the opening may exceed it. At most 2^30.
    pub capacity: u64,
    /// The frames in memory between two calls; 1 at least.
    pub memory: u32,
}

/// What a finish comes to.
#[derive(Clone, Copy, PartialEq, Eq, Drop)]
pub enum Finished {
    /// Nothing is held.
    Empty,
    /// The outlet failed or waited three times in a row; all held frames are in the store.
    Outlet,
    /// The store failed.
    Store,
}
