// Copies of disks in memory.
ghost use Rattle.std.specs.Prelude.{◌≡◌, [], false, IfOk};
ghost use Rattle.sg_memory_disk.specs.DiskChange.{events_of};
ghost use Rattle.sg_memory_disk.specs.MemoryDisk.{disk_of};
ghost use Rattle.sg_memory_disk.specs.DiskPlan.{IsDiskQuiet};

use crate::{DiskCalls, DiskChange, DiskPlan, MemoryDisk};
use sg_device::NoMemory;
use std::alloc::Global;

impl MemoryDisk {
    /// A disk with the same bytes, the same past and the same count of faults, of which no call fails.
    pub fn copy(&self, alloc: Global) -> Result<MemoryDisk, NoMemory>
        ensures state { IfOk result (λ disk. disk_of disk ≡ disk_of self.now) }
        ensures quiet { IfOk result (λ disk. IsDiskQuiet disk.calls.plan) }
        ensures fed { IfOk result (λ disk. disk.calls.starved ≡ false) }
    {
        Ok(MemoryDisk {
            alloc,
            first: self.first.to_vec(alloc)?,
            bytes: self.bytes.to_vec(alloc)?,
            changes: copies(alloc, &self.changes)?,
            calls: DiskCalls {
                plan: DiskPlan::never(alloc),
                faults: self.calls.faults,
                starved: false,
            },
        })
    }
}

fn copies(alloc: Global, changes: &[DiskChange]) -> Result<Vec<DiskChange>, NoMemory>
    ensures { IfOk result (λ copies. events_of [] copies.items ≡ events_of [] changes.now) }
{
    let mut copies = Vec::with_capacity(alloc, changes.len())?;
    for change in changes {
        copies.push(change.copy(alloc)?)?;
    }
    Ok(copies)
}
