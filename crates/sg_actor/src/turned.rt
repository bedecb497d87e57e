// What a turn came to.

/// What a turn came to. A round in which each turn did nothing, and none was idle, is quiet.
#[derive(Clone, Copy, PartialEq, Eq, Drop)]
pub struct Turned {
    pub did: bool,
    /// The inlet had nothing at present, or it was too early to reopen the outlet, or for all frames
    /// of a send.
    pub idle: bool,
}

/// Why a destination is given up.
#[derive(Clone, Copy, PartialEq, Eq, Drop)]
pub enum GivenUp {
    /// Three sends or reopenings failed, and no frame was taken between them.
    Outlet,
    /// The store of its disk-buffer has failed.
    Store,
}
