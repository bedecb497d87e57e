// Reading the store's first frames.
ghost use Rattle.std.specs.Prelude.{◌≡◌, ◌≤◌, [], ◌∷◌, ◌++◌, length, false, OnOk, IfOk, IfErr};
ghost use Rattle.sg_spool.specs.Calls.{OnlyReadsSpool};
ghost use Rattle.sg_overflow.specs.Held.{AreFirst, ReadStop};

use crate::payload::frame_of;
use sg_device::{Disk, Frames, NoMemory};
use sg_spool::{RewriteRefusal, Spool, Walked};
use std::alloc::Global;

/// No more frames are read once they have so many bytes.
const ENOUGH: usize = 1 << 20;

/// The first frames of a store, so many at most, and one at least. Nothing on the disk changes. Where a
/// store that was cut while it was open has no entry, an empty frame stands for it.
pub(crate) fn read_first<D: Disk>(
    alloc: Global,
    spool: &mut Spool<D>,
    most: u64,
) -> Result<Frames, RewriteRefusal>
    requires open { spool.old.closed ≡ false }
    requires enough { most ≤ spool.old.rows.count }
    requires unstaged { spool.old.rows.staged ≡ 0 }
    ensures reads { OnlyReadsSpool D.state spool.old spool.new }
    ensures frames { IfOk result (λ frames. AreFirst (D.state spool.old.disk) frames) }
    ensures number { IfOk result (λ frames. (length frames ≤ most)
        × (1 ≤ most → 1 ≤ length frames)) }
    ensures open { IfOk result (λ _. spool.new.closed ≡ false) }
    ensures cause { IfErr result (ReadStop spool.new.closed) }
{
    let mut frames = Frames::new(alloc);
    let _count = spool.count();
    let mut gate = spool.head();
    for _turn in 0..most {
        if frames.bytes().len() >= ENOUGH {
            return Ok(frames);
        }
        match spool.item(alloc, gate)? {
            Walked::Item { payload, next } => {
                put(&mut frames, frame_of(&payload))?;
                gate = next;
            }
            Walked::Empty => {
                put(&mut frames, &[])?;
                continue;
            }
            Walked::DiskFailed => return Err(RewriteRefusal::DiskFault),
        }
    }
    Ok(frames)
}

fn put(frames: &mut Frames, frame: &[u8]) -> Result<(), NoMemory>
    ensures { OnOk result (frames.new ≡ frames.old ++ frame.now ∷ []) }
{
    frames.push(frame)
}
