// How a plan's run ends.

use crate::counts::Counts;
use sg_turns::Ended;

/// A device that couldn't be opened, by its number in the order of the configuration.
#[derive(Clone, Copy, PartialEq, Eq, Drop)]
pub enum Device {
    Store(u32),
    Inlet(u32),
    Dest(u32),
}

/// Why the rounds didn't begin.
#[derive(Clone, Copy, PartialEq, Eq, Drop)]
pub enum Early {
    /// A device couldn't be opened.
    OpenFault(Device),
    /// The bytes of a store can't be read from this place on.
    Damage { store: u32, at: u64 },
    /// A store failed.
    DiskFault(u32),
    /// Memory ran out.
    NoMemory,
}

/// How a plan's run ends.
#[derive(Drop)]
pub enum PlanEnded {
    /// The rounds didn't begin.
    Before(Early),
    /// The rounds were run, and ended so. What they have come to is lacking where memory ran out.
    Ran(Ended, Option<Counts>),
}
