// What the calls of a disk-buffer answer.
ghost use Rattle.std.specs.Prelude.{◌≡◌};
ghost use Rattle.sg_spool.specs.declared.answers.RewriteRefusal.TheVariants.{DiskFault as RewriteFault, NoMemory};

use sg_device::DiskFault;
use std::alloc::AllocError;
use thiserror::Error;

/// What an append answers.
#[derive(Clone, Copy, PartialEq, Eq, Drop)]
pub enum Appended {
    /// The entry is on the disk.
    Done,
    /// It doesn't fit the capacity. Nothing changed.
    NoRoom,
    /// The disk failed, now or earlier.
    DiskFailed,
}

/// The first entry of a list.
#[derive(Drop)]
pub enum Front {
    /// Its payload.
    Item(Vec<u8>),
    /// The list has no entry.
    Empty,
    /// The disk failed, now or earlier.
    DiskFailed,
}

/// What stands at a gate.
#[derive(Drop)]
pub enum Walked {
    /// An entry, and the place of the next gate.
    Item { payload: Vec<u8>, next: u64 },
    /// The end of the list.
    Empty,
    /// The disk failed, now or earlier.
    DiskFailed,
}

/// Why entries weren't read or spelled anew.
#[derive(Clone, Copy, Debug, PartialEq, Eq, Drop, Error)]
pub enum RewriteRefusal {
    #[error("the disk failed")]
    DiskFault,
    #[error("no memory")]
    NoMemory,
}

impl From<DiskFault> for RewriteRefusal {
    ghost from_gives = { λ _ refusal. refusal ≡ RewriteFault };

    fn from(_: DiskFault) -> Self {
        RewriteRefusal::DiskFault
    }
}

impl From<AllocError> for RewriteRefusal {
    ghost from_gives = { λ _ refusal. refusal ≡ NoMemory };

    fn from(_: AllocError) -> Self {
        RewriteRefusal::NoMemory
    }
}
