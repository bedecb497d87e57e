// What calls of a disk in memory leave that fail.
ghost use Rattle.std.specs.Prelude.{◌≡◌, ◌⊎◌, ◌+◌, ◌≤◌, ◌<◌, ◌^◌, ◌∷◌, [], length, IfOk, IfSome, MatchResult};
ghost use Rattle.sg_device.specs.DiskBytes.{overwritten};
ghost use Rattle.sg_device.specs.Disk.{Lost, Tore};
ghost use Rattle.sg_memory_disk.specs.DiskChange.{events_of};
ghost use Rattle.sg_memory_disk.specs.DiskPlan.{with_starved};
ghost use Rattle.sg_memory_disk.specs.Tear.{Tears, Loses};

use crate::disk::{add, put};
use crate::{DiskChange, MemoryDisk, Pick, TornWrite};
use std::alloc::{AllocError, Global};

impl MemoryDisk {
    // What a write that fails leaves.
    pub(crate) fn tear(&mut self, at: u64, from: &[u8])
        ensures told { Tears self.old self.new at (length from.now) }
        ensures calls { (self.new.calls ≡ self.old.calls)
            ⊎ (self.new.calls ≡ with_starved self.old.calls) }
    {
        if at >= 1 << 63 || from.len() as u64 >= (1 << 63) - at {
            return;
        }
        let torn = match torn_bytes(self.alloc, self.next_pick(), from) {
            Ok(Some(torn)) => torn,
            Ok(None) => return,
            Err(_) => {
                self.calls.starve();
                return;
            }
        };
        let size = from.len() as u64;
        if tear_over(
            self.alloc,
            &mut self.bytes,
            &mut self.changes,
            at,
            size,
            &torn,
        )
        .is_err()
        {
            self.calls.starve();
        }
    }

    // The pick for the next write, if there is one.
    fn next_pick(&self) -> Option<&Pick> {
        let tears = &self.calls.plan.tears;
        tears.get(self.unsynced().min(tears.len().saturating_sub(1)))
    }

    // What a sync that fails leaves to be read.
    pub(crate) fn lose(&mut self)
        ensures told { Loses self.old self.new }
        ensures calls { (self.new.calls ≡ self.old.calls)
            ⊎ (self.new.calls ≡ with_starved self.old.calls) }
    {
        if self.calls.plan.tears.is_empty() {
            return;
        }
        let Ok(left) = self.image(&self.calls.plan.tears) else {
            self.calls.starve();
            return;
        };
        if lose_to(self.alloc, &mut self.bytes, &mut self.changes, left).is_err() {
            self.calls.starve();
        }
    }
}

// What a write of these bytes leaves in its range by a pick, if anything.
fn torn_bytes(
    alloc: Global,
    pick: Option<&Pick>,
    from: &[u8],
) -> Result<Option<Vec<u8>>, AllocError>
    ensures { IfOk result (λ torn. IfSome torn (λ bytes. length bytes.items ≤ length from.now)) }
{
    match pick {
        None => Ok(None),
        Some(Pick::Old) => Ok(None),
        Some(Pick::New) => Ok(Some(from.to_vec(alloc)?)),
        Some(Pick::Ones) => Ok(Some(vec![in alloc; 255u8; from.len()]?)),
        Some(Pick::Zeros) => Ok(Some(vec![in alloc; 0u8; from.len()]?)),
        Some(Pick::Bytes(torn)) => Ok(Some(torn[..torn.len().min(from.len())].to_vec(alloc)?)),
    }
}

// A torn write and its event, or neither where there is no memory for both.
fn tear_over(
    alloc: Global,
    bytes: &mut Vec<u8>,
    changes: &mut Vec<DiskChange>,
    at: u64,
    size: u64,
    torn: &[u8],
) -> Result<(), AllocError>
    requires whole { at + size < 2 ^ 63 }
    requires fits { length torn.now ≤ size }
    ensures bytes { MatchResult result
        (λ _. bytes.new.items ≡ overwritten at torn.now bytes.old.items)
        (λ _. bytes.new.items ≡ bytes.old.items) }
    ensures events { MatchResult result (λ _. events_of [] changes.new.items
        ≡ Tore at size torn.now ∷ events_of [] changes.old.items)
        (λ _. changes.new.items ≡ changes.old.items) }
{
    let change = DiskChange::Tore(TornWrite {
        at,
        size,
        bytes: torn.to_vec(alloc)?,
    });
    put(bytes, changes, change, at, torn)?;
    Ok(())
}

// These bytes in place of all, and the event that left them, or neither where there is no memory.
fn lose_to(
    alloc: Global,
    bytes: &mut Vec<u8>,
    changes: &mut Vec<DiskChange>,
    left: Vec<u8>,
) -> Result<(), AllocError>
    ensures bytes { MatchResult result (λ _. bytes.new.items ≡ left.items)
        (λ _. bytes.new.items ≡ bytes.old.items) }
    ensures events { MatchResult result
        (λ _. events_of [] changes.new.items ≡ Lost left.items ∷ events_of [] changes.old.items)
        (λ _. changes.new.items ≡ changes.old.items) }
{
    let copy = left.to_vec(alloc)?;
    add(changes, DiskChange::Lost(copy))?;
    *bytes = left;
    Ok(())
}
