// What a core answers.

use sg_list::Seq;
use sg_machine::Admission;
use sg_msg::Message;

/// Why records weren't admitted. They come back.
#[derive(Drop)]
pub enum Refused {
    /// The source has credit for fewer: with them more of its records would be outstanding than its
    /// window has.
    NoCredit(Seq<Admission>),
    NoMemory(Seq<Admission>),
}

/// What stands at the front of a destination.
#[derive(Drop)]
pub enum CoreFront {
    /// The first entries that are left, in order: the place of the first one among all that the
    /// destination was given, from 0, and their messages.
    Entries { place: u64, messages: Seq<Message> },
    /// No entry is left.
    Empty,
    /// The store of the destination's disk-buffer has failed.
    Broken,
}

/// What became of entries that a destination took.
#[derive(Clone, Copy, PartialEq, Eq, Drop)]
pub enum Settled {
    Done,
    /// The place is not that of the first entry that is left, or fewer are left. Nothing changed.
    NotFront,
    /// The entries are settled, and the store of the disk-buffer has failed.
    DiskFailed,
}

/// What became of the entries that wait for room in a disk-buffer.
#[derive(Clone, Copy, PartialEq, Eq, Drop)]
pub enum Refill {
    /// So many of the first went in, 1 to 1,000.
    Moved(u32),
    /// No entry waits.
    NoneWaits,
    /// The first one doesn't fit.
    NoRoom,
    /// The store of the disk-buffer has failed.
    Broken,
}

/// What became of a position.
#[derive(Clone, Copy, PartialEq, Eq, Drop)]
pub enum Stored {
    /// It was written, and is stable.
    Wrote(u64),
    /// It is the stored one.
    Unchanged,
    /// The store has failed. The old position or the one that was written may stand in it.
    Broken,
}
