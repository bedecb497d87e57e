// Frames of memory that are staged in the store.
ghost use Rattle.std.specs.Prelude.{◌≡◌, ◌≤◌, ◌^◌, [], length, false};
ghost use Rattle.sg_device.specs.Disk.{Within};
ghost use Rattle.sg_spool.specs.Calls.{SpoolLasts};
ghost use Rattle.sg_spool.specs.Ring.{Entries};
ghost use Rattle.sg_spool.specs.View.{RingHolds};
ghost use Rattle.sg_overflow.specs.Memory.{size_of};
ghost use Rattle.sg_overflow.specs.Staging.{IsListWith, StagesFirst, StageStop, WritesFirst};

use crate::payload::block_of;
use crate::{Memory, Stop};
use sg_device::Disk;
use sg_spool::{Appended, Spool};
use std::alloc::Global;

// Stages the first frames of memory, so many, and tells how many were, and why no more. They were taken
// where there was room for them, so that the store has it.
fn stage_first<D: Disk>(
    alloc: Global,
    spool: &mut Spool<D>,
    memory: &Memory,
    n: usize,
) -> (usize, Stop)
    requires open { spool.old.closed ≡ false }
    requires unstaged { spool.old.rows.staged ≡ 0 }
    requires there { n ≤ length memory.now }
    requires small { size_of memory.now ≤ 2 ^ 30 }
    ensures lasts { SpoolLasts D.state spool.old spool.new }
    ensures images { (list : Entries) → RingHolds D.state spool.old list []
        → Within (D.state spool.old.disk) (D.state spool.new.disk) (IsListWith list memory.now) }
    ensures staged { StagesFirst D.state spool.old spool.new memory.now result.0 result.1 }
    ensures stop { StageStop n result.0 result.1 }
{
    for place in 0..n {
        let Some(frame) = memory.get(place) else {
            return (place, Stop::NoMemory);
        };
        let Ok(block) = block_of(alloc, frame) else {
            return (place, Stop::NoMemory);
        };
        match spool.stage(&block) {
            Appended::Done => {}
            Appended::NoRoom => return (place, Stop::NoMemory),
            Appended::DiskFailed => return (place, Stop::Store),
        }
    }
    (n, Stop::Open)
}

/// Puts the first frames of memory, so many, behind the store's list by one commit. Tells how many those
/// are, and why no more.
pub(crate) fn write_first<D: Disk>(
    alloc: Global,
    spool: &mut Spool<D>,
    memory: &Memory,
    n: usize,
) -> (usize, Stop)
    requires open { spool.old.closed ≡ false }
    requires unstaged { spool.old.rows.staged ≡ 0 }
    requires some { 1 ≤ n }
    requires there { n ≤ length memory.now }
    requires small { size_of memory.now ≤ 2 ^ 30 }
    ensures lasts { SpoolLasts D.state spool.old spool.new }
    ensures images { (list : Entries) → RingHolds D.state spool.old list []
        → Within (D.state spool.old.disk) (D.state spool.new.disk) (IsListWith list memory.now) }
    ensures written { WritesFirst D.state spool.old spool.new memory.now result.0 result.1 }
    ensures stop { StageStop n result.0 result.1 }
{
    let (staged, stop) = stage_first(alloc, spool, memory, n);
    if stop.is_store() {
        return (staged, Stop::Store);
    }
    match spool.commit() {
        Ok(()) => (staged, stop),
        Err(_) => (0, Stop::Store),
    }
}
