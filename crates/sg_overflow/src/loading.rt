// What a store has at the opening.
ghost use Rattle.std.specs.Prelude.{◌≡◌, ◌≤◌, ◌^◌, false, OnOk, IfOk, IfErr};
ghost use Rattle.sg_device.specs.Disk.{content, WhereTold};
ghost use Rattle.sg_spool.specs.Calls.{OnlyReadsSpool};
ghost use Rattle.sg_overflow.specs.Opening.{AreFrames, CheckReason, HasReason, IsHeldOpened, IsLoaded};

use crate::Limits;
use crate::held::Held;
use crate::payload::is_tagged;
use sg_device::Disk;
use sg_spool::{Spool, Walked};
use sg_stable::StoreRefusal;
use std::alloc::Global;

// Each payload of a store that was just opened is that of a frame. Damage comes at the gate of the first
// that isn't. Nothing on the disk changes.
fn check<D: Disk>(alloc: Global, spool: &mut Spool<D>) -> Result<(), StoreRefusal>
    requires open { spool.old.closed ≡ false }
    requires unstaged { spool.old.rows.staged ≡ 0 }
    ensures reads { OnlyReadsSpool D.state spool.old spool.new }
    ensures frames { OnOk result (AreFrames (D.state spool.old.disk)) }
    ensures open { OnOk result (spool.new.closed ≡ false) }
    ensures reason { IfErr result
        (CheckReason (D.state spool.old.disk) (D.state spool.new.disk)) }
{
    let mut gate = spool.head();
    for _turn in 0..spool.count() {
        match spool.item(alloc, gate)? {
            Walked::Item { payload, next } => {
                if !is_tagged(&payload) {
                    return Err(StoreRefusal::Damage(gate));
                }
                gate = next;
            }
            Walked::Empty => return Err(StoreRefusal::Damage(gate)),
            Walked::DiskFailed => return Err(StoreRefusal::DiskFault),
        }
    }
    Ok(())
}

/// Opens a store whose payloads are all those of frames, under the capacity of these limits. Damage comes at the
/// gate of the first that isn't. A refusal gives the disk back.
pub(crate) fn open_held<D: Disk>(
    alloc: Global,
    disk: D,
    limits: Limits,
) -> Result<Held<D>, (D, StoreRefusal)>
    requires { limits.capacity ≤ 2 ^ 30 }
    ensures opened { IfOk result (IsHeldOpened D.state disk limits) }
    ensures reason { IfErr result (λ e. HasReason (D.state disk) (D.state e.0) e.1) }
{
    match Spool::open(disk, limits.capacity) {
        Err((disk, refusal)) => Err((disk, refusal)),
        Ok(spool) => look(alloc, spool, limits),
    }
}

// The same of one that is open.
fn look<D: Disk>(
    alloc: Global,
    spool: Spool<D>,
    limits: Limits,
) -> Result<Held<D>, (D, StoreRefusal)>
    requires open { spool.closed ≡ false }
    requires unstaged { spool.rows.staged ≡ 0 }
    requires limit { spool.capacity ≡ limits.capacity }
    requires small { limits.capacity ≤ 2 ^ 30 }
    requires list { WhereTold (content (D.state spool.disk)) (IsLoaded D.state spool) }
    ensures opened { IfOk result (IsHeldOpened D.state spool.disk limits) }
    ensures reason { IfErr result (λ e. HasReason (D.state spool.disk) (D.state e.0) e.1) }
{
    let mut spool = spool;
    match check(alloc, &mut spool) {
        Ok(()) => Ok(Held::new(alloc, spool, limits)),
        Err(refusal) => Err((spool.into_disk(), refusal)),
    }
}
