// What turns of a round came to.

use crate::worker::Worker;
use sg_device::Disk;

/// What the turns of some workers came to.
#[derive(Clone, Copy, Drop)]
pub(crate) struct Came {
    /// How many did something, or were idle.
    pub(crate) busy: u64,
    /// One found no memory.
    pub(crate) starved: bool,
    /// How many records were brought in, and how many of them by the source that brought most.
    pub(crate) records: u64,
    pub(crate) top: u64,
}

/// With one worker's last turn more.
pub(crate) fn with_one<A, D: Disk>(came: Came, worker: &Worker<A, D>) -> Came {
    let records = worker.passed.brought as u64;
    Came {
        busy: match worker.turn {
            Some(turned) if turned.did || turned.idle => came.busy.saturating_add(1),
            _ => came.busy,
        },
        starved: came.starved || worker.turn.is_none(),
        records: came.records.saturating_add(records),
        top: came.top.max(records),
    }
}

/// What no turns come to.
pub(crate) fn nothing() -> Came {
    Came {
        busy: 0,
        starved: false,
        records: 0,
        top: 0,
    }
}
