// What happened to a disk in memory.
ghost use Rattle.std.specs.Prelude.{◌≡◌, IfOk};
ghost use Rattle.sg_memory_disk.specs.DiskChange.{event_of};

use crate::{DiskWrite, TornWrite};
use sg_device::NoMemory;
use std::alloc::Global;

/// What a call of a disk left.
#[derive(Drop)]
pub enum DiskChange {
    /// A write that was done.
    Wrote(DiskWrite),
    /// A write that failed and left some bytes.
    Tore(TornWrite),
    /// A sync that was done.
    Synced,
    /// A sync that failed, and the bytes that a read gives since.
    Lost(Vec<u8>),
}

impl DiskChange {
    /// An equal one.
    pub fn copy(&self, alloc: Global) -> Result<DiskChange, NoMemory>
        ensures { IfOk result (λ change. event_of change ≡ event_of self.now) }
    {
        match self {
            DiskChange::Wrote(written) => Ok(DiskChange::Wrote(DiskWrite {
                at: written.at,
                bytes: written.bytes.to_vec(alloc)?,
            })),
            DiskChange::Tore(torn) => Ok(DiskChange::Tore(TornWrite {
                at: torn.at,
                size: torn.size,
                bytes: torn.bytes.to_vec(alloc)?,
            })),
            DiskChange::Synced => Ok(DiskChange::Synced),
            DiskChange::Lost(left) => Ok(DiskChange::Lost(left.to_vec(alloc)?)),
        }
    }
}
