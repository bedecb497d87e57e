// What a crash leaves of a disk in memory.
ghost use Rattle.std.specs.Prelude.{◌≡◌, ◌+◌, ◌-◌, ◌<◌, ◌≤◌, ◌^◌, [], IfOk, OnOk};
ghost use Rattle.sg_device.specs.Disk.{IsImage};
ghost use Rattle.sg_memory_disk.specs.DiskChange.{event_of, events_of};
ghost use Rattle.sg_memory_disk.specs.MemoryDisk.{disk_of};
ghost use Rattle.sg_memory_disk.specs.Pick.{pick_at, picked, replayed, reread, unsynced, unsynced_after};

use crate::laying::{lay, overlay};
use crate::{DiskChange, MemoryDisk, Pick};
use sg_device::NoMemory;
use std::alloc::{AllocError, Global};

impl MemoryDisk {
    /// The image that a crash now may leave by a pick for each write since the last sync, in order; the
    /// last pick counts for those behind it too, and where there is none nothing was written.
    pub fn image(&self, picks: &[Pick]) -> Result<Vec<u8>, NoMemory>
        ensures picked { IfOk result (λ bytes. bytes.items
            ≡ picked picks.now self.now.first.items (events_of [] self.now.changes.items)) }
        ensures image { IfOk result (λ bytes. IsImage (disk_of self.now) bytes.items) }
    {
        let mut bytes = self.first.to_vec(self.alloc)?;
        let mut image = self.first.to_vec(self.alloc)?;
        let mut number = 0;
        for change in &self.changes {
            replay(picks, number, &mut image, &bytes, self.alloc, change)?;
            read_on(self.alloc, &mut bytes, change)?;
            number = number_after(number, change);
        }
        Ok(image)
    }

    /// The number of the writes since the last sync, done or torn.
    pub fn unsynced(&self) -> usize
        ensures { result ≡ unsynced (events_of [] self.now.changes.items) }
    {
        let mut number = 0;
        for change in &self.changes {
            number = number_after(number, change);
        }
        number
    }
}

// One change more to the image, where a read gives these bytes.
fn replay(
    picks: &[Pick],
    number: usize,
    image: &mut Vec<u8>,
    bytes: &[u8],
    alloc: Global,
    change: &DiskChange,
) -> Result<(), AllocError>
    ensures { OnOk result (image.new.items
        ≡ replayed (pick_at picks.now number) (event_of change.now) bytes.now image.old.items) }
{
    match change {
        DiskChange::Wrote(written) => {
            let size = written.bytes.len() as u64;
            lay(picks, number, image, written.at, size, &written.bytes)?;
        }
        DiskChange::Tore(torn) => {
            lay(picks, number, image, torn.at, torn.size, &torn.bytes)?;
        }
        DiskChange::Synced => {
            *image = bytes.to_vec(alloc)?;
        }
        DiskChange::Lost(_) => {}
    }
    Ok(())
}

// One change more to the bytes as a read gives them.
fn read_on(alloc: Global, bytes: &mut Vec<u8>, change: &DiskChange) -> Result<(), AllocError>
    ensures { OnOk result (bytes.new.items ≡ reread (event_of change.now) bytes.old.items) }
{
    match change {
        DiskChange::Wrote(written) => overlay(bytes, written.at as usize, &written.bytes)?,
        DiskChange::Tore(torn) => overlay(bytes, torn.at as usize, &torn.bytes)?,
        DiskChange::Synced => {}
        DiskChange::Lost(left) => {
            *bytes = left.to_vec(alloc)?;
        }
    }
    Ok(())
}

// The number of the writes since the last sync, after one change more.
fn number_after(number: usize, change: &DiskChange) -> usize
    requires { number < 2 ^ 64 - 1 }
    ensures counted { result ≡ unsynced_after (event_of change.now) number }
    ensures few { result ≤ number + 1 }
{
    match change {
        DiskChange::Wrote(_) => number + 1,
        DiskChange::Tore(_) => number + 1,
        DiskChange::Synced => 0,
        DiskChange::Lost(_) => number,
    }
}
