// Opening a disk-buffer's store.
ghost use Rattle.std.specs.Prelude.{◌≡◌, ◌<◌, ◌≤◌, IfOk, IfErr, OnOk};
ghost use Rattle.sg_stable.specs.Opening.{IsSynced, IsUnwritten};
ghost use Rattle.sg_spool.specs.Opening.{FindsRing, HasRingReason};

use crate::Places;
use crate::walk::walk_from;
use sg_device::Disk;
use sg_stable::{Pair, StoreRefusal, first_nonzero};

/// What an opening finds: the cell, the places and the number of entries.
#[derive(Clone, Copy)]
pub struct OpenedRing {
    pub cell: Pair,
    pub places: Places,
    pub count: u64,
}

// What a store that is whole holds. It is made stable first, and each byte is read once.
pub(crate) fn look<D: Disk>(disk: &mut D) -> Result<OpenedRing, StoreRefusal>
    ensures found { IfOk result (FindsRing (D.state disk.old)) }
    ensures synced { OnOk result (IsSynced (D.state disk.old) (D.state disk.new)) }
    ensures unwritten { IsUnwritten (D.state disk.old) (D.state disk.new) }
    ensures reason { IfErr result (HasRingReason (D.state disk.old) (D.state disk.new)) }
{
    disk.sync()?;
    inspect(disk)
}

// What a store that is whole holds.
fn inspect<D: Disk>(disk: &mut D) -> Result<OpenedRing, StoreRefusal>
    ensures found { IfOk result (FindsRing (D.state disk.old)) }
    ensures told { (D.state disk.new).told ≡ (D.state disk.old).told }
    ensures later { (D.state disk.old).faults ≤ (D.state disk.new).faults }
    ensures well { OnOk result ((D.state disk.new).faults ≡ (D.state disk.old).faults) }
    ensures reason { IfErr result (HasRingReason (D.state disk.old) (D.state disk.new)) }
{
    let len = disk.len()?;
    let mut bytes = [0; 64];
    disk.read_at(0, &mut bytes)?;
    if let Some(at) = first_nonzero(&bytes) {
        return Err(StoreRefusal::Damage(at as u64));
    }
    if len < 128 {
        return Err(StoreRefusal::Damage(len));
    }
    let cell = Pair::at_front(&bytes);
    let head = cell.value.saturating_add(64);
    if head >= len {
        return Err(StoreRefusal::Damage(head));
    }
    let place = walk_from(disk, head, len)?;
    Ok(OpenedRing {
        cell,
        places: Places {
            jump: place.jump,
            head,
            end: place.gate,
        },
        count: place.count,
    })
}
