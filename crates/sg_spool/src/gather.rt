// Moving the list behind its jump, so that it stands in one row.
ghost use Rattle.std.specs.Prelude.{◌≡◌, ◌≤◌, ◌<◌, ◌+◌, ◌-◌, ◌^◌, length, OnOk, IfOk, Some, None, false};
ghost use Rattle.sg_device.specs.Disk.{content, IsImage, Within, EachNow, HasCause, Changes, Elapses};
ghost use Rattle.sg_stable.specs.Cell.{HasCell};
ghost use Rattle.sg_spool.specs.Calls.{LeavesOpen};
ghost use Rattle.sg_spool.specs.Lists.{ListStays};
ghost use Rattle.sg_spool.specs.Places.{IsOrdered, IsInOneRow};
ghost use Rattle.sg_spool.specs.Ring.{Entries};
ghost use Rattle.sg_spool.specs.Steps.{Stems, After};
ghost use Rattle.sg_spool.specs.View.{IsRing};
ghost use Rattle.sg_spool.specs.Copying.{Copies, Beyond};

use crate::Places;
use sg_device::{Disk, DiskFault};
use sg_stable::Pair;

const PIECE: u64 = 4096;

// Moves the list of a ring with this jump to the place behind the jump, where it stands in one row: it
// is copied there and made stable, and then the cell is put.
pub(crate) fn gather<D: Disk>(
    disk: &mut D,
    cell: &mut Pair,
    places: Places,
    jump: u64,
) -> Result<Places, DiskFault>
    requires jumps { places.jump ≡ Some jump }
    requires ordered { IsOrdered places }
    requires cell_open { cell.old.closed ≡ false }
    requires has_cell { EachNow (D.state disk.old) (HasCell cell.old.selector cell.old.value) }

    ensures within { (es : Entries) → EachNow (D.state disk.old) (IsRing cell.old places es)
        → Within (D.state disk.old) (D.state disk.new)
        (Stems (IsImage (D.state disk.old)) (After ListStays es)) }

    ensures ring { IfOk result (λ moved. (es : Entries)
        → EachNow (D.state disk.old) (IsRing cell.old places es)
        → EachNow (D.state disk.new)
        (Stems (IsImage (D.state disk.old)) (IsRing cell.new moved es))) }

    ensures row { IfOk result (IsInOneRow places) }
    ensures answer { LeavesOpen cell.new (D.state disk.old).faults (D.state disk.new).faults
        result }
{
    let head = jump + 5;
    let middle = head + (jump - places.head);
    let end = middle + (places.end - 64);
    copy(disk, places.head, head, jump - places.head)?;
    copy(disk, 64, middle, places.end - 63)?;
    disk.sync()?;
    cell.put(disk, head - 64)?;
    Ok(Places {
        jump: None,
        head,
        end,
    })
}

// Copies so many bytes from one place to another, behind them, piece by piece.
fn copy<D: Disk>(disk: &mut D, from: u64, to: u64, size: u64) -> Result<(), DiskFault>
    requires apart { from + size ≤ to }
    requires small { to + size < 2 ^ 64 }
    ensures copied { OnOk result
        (Changes (Copies from to size) (content (D.state disk.old)) (content (D.state disk.new))) }
    ensures images { Elapses (Beyond to) (D.state disk.old) (D.state disk.new) }
    ensures inside { OnOk result (0 < size → to + size < 2 ^ 63) }
    ensures cause { HasCause (D.state disk.old).faults (D.state disk.new).faults result }
{
    let mut done = 0;
    while done < size {
        let count = PIECE.min(size - done);
        copy_piece(disk, from + done, to + done, count as usize)?;
        done += count;
    }
    Ok(())
}

// Copies one piece.
fn copy_piece<D: Disk>(disk: &mut D, from: u64, to: u64, size: usize) -> Result<(), DiskFault>
    requires piece { size ≤ 4096 }
    requires apart { from + size ≤ to }
    ensures copied { OnOk result
        (Changes (Copies from to size) (content (D.state disk.old)) (content (D.state disk.new))) }
    ensures images { Elapses (Beyond to) (D.state disk.old) (D.state disk.new) }
    ensures inside { OnOk result (to + size < 2 ^ 63) }
    ensures cause { HasCause (D.state disk.old).faults (D.state disk.new).faults result }
{
    let mut bytes = [0; 4096];
    copy_through(disk, from, to, &mut bytes[..size])?;
    Ok(())
}

// Copies as many bytes as the buffer has.
fn copy_through<D: Disk>(
    disk: &mut D,
    from: u64,
    to: u64,
    buffer: &mut [u8],
) -> Result<(), DiskFault>
    ensures copied { OnOk result (Changes (Copies from to (length buffer.old))
        (content (D.state disk.old)) (content (D.state disk.new))) }
    ensures images { Elapses (Beyond to) (D.state disk.old) (D.state disk.new) }
    ensures inside { OnOk result (to + length buffer.old < 2 ^ 63) }
    ensures cause { HasCause (D.state disk.old).faults (D.state disk.new).faults result }
{
    disk.read_at(from, buffer)?;
    disk.write_at(to, buffer)?;
    Ok(())
}
