// Where an entry goes.
ghost use Rattle.std.specs.Prelude.{◌≡◌, ◌≤◌, ◌<◌, ◌+◌, ◌-◌, ◌^◌, ◌++◌, [], ◌∷◌, length, IfOk, Some, None, false, IsTrue, ◌↔◌};
ghost use Rattle.sg_device.specs.Disk.{Within, EachNow, Elapses};
ghost use Rattle.sg_stable.specs.Cell.{HasCell};
ghost use Rattle.sg_spool.specs.Calls.{LeavesOpen, SparesList};
ghost use Rattle.sg_spool.specs.Lists.{IsEitherList};
ghost use Rattle.sg_spool.specs.Places.{IsOrdered, IsInOneRow, live, FitsRing, HasRoom, AreCompact, bound};
ghost use Rattle.sg_spool.specs.Ring.{Entries};
ghost use Rattle.sg_spool.specs.Rows.{AreRows, HasRoomFor, HasOneMore, listed, total};
ghost use Rattle.sg_spool.specs.Steps.{FileGrows};
ghost use Rattle.sg_spool.specs.View.{IsRing, AreImagesHeld, AreHeldAfter};

use crate::commit::commit_rows;
use crate::gather::gather;
use crate::stage::stage_entry;
use crate::{Block, Places, Rows};
use sg_device::{Disk, DiskFault};
use sg_stable::Pair;

// Whether a payload of this length is within the capacity.
pub(crate) fn fits(places: Places, capacity: u64, size: u64) -> bool
    requires ordered { IsOrdered places }
    requires small { size ≤ 2 ^ 62 }
    ensures { IsTrue result ↔ FitsRing capacity places size }
{
    places.live() + size + 6 <= capacity
}

// Writes an entry behind what is staged, where it fits the capacity: the room for it is made, and then it
// is put there.
pub(crate) fn stage_block<D: Disk>(
    disk: &mut D,
    cell: &mut Pair,
    rows: Rows,
    capacity: u64,
    block: &Block,
) -> Result<Rows, DiskFault>
    requires rows { AreRows rows }
    requires fits { FitsRing capacity rows.ahead (length block.now) }
    requires cell_open { cell.old.closed ≡ false }
    requires has_cell { EachNow (D.state disk.old) (HasCell cell.old.selector cell.old.value) }

    ensures within { (list staged : Entries)
        → AreImagesHeld (D.state disk.old) cell.old rows list staged
        → Within (D.state disk.old) (D.state disk.new) (IsEitherList list (list ++ staged)) }

    ensures staged { IfOk result (λ next. (list staged : Entries)
        → AreImagesHeld (D.state disk.old) cell.old rows list staged
        → AreHeldAfter (D.state disk.new) cell.new rows next list staged (block.now ∷ [])) }

    ensures rows { IfOk result (HasOneMore capacity (length block.now) rows) }

    // Where there is room, the images keep the ring, and nothing grows past the bound.
    ensures spared { HasRoom rows.ahead.jump rows.ahead.head rows.ahead.end (length block.now)
        → SparesList rows (D.state disk.old) (D.state disk.new) result }
    ensures short { AreCompact capacity rows.ahead.jump rows.ahead.head rows.ahead.end
        → Elapses (FileGrows (bound capacity)) (D.state disk.old) (D.state disk.new) }
    ensures answer { LeavesOpen cell.new (D.state disk.old).faults (D.state disk.new).faults
        result }
{
    let roomy = make_room(disk, cell, rows, block.size())?;
    let ahead = stage_entry(disk, roomy, capacity, block)?;
    Ok(Rows {
        list: roomy.list,
        ahead,
        count: roomy.count,
        staged: roomy.staged.saturating_add(1),
    })
}

// Makes room behind what is staged for a payload of this length: where it would come to the head, what is
// staged is put into the list, and the list is moved behind its jump.
fn make_room<D: Disk>(
    disk: &mut D,
    cell: &mut Pair,
    rows: Rows,
    size: u64,
) -> Result<Rows, DiskFault>
    requires rows { AreRows rows }
    requires small { size ≤ 2 ^ 62 }
    requires cell_open { cell.old.closed ≡ false }
    requires has_cell { EachNow (D.state disk.old) (HasCell cell.old.selector cell.old.value) }

    ensures within { (list staged : Entries)
        → AreImagesHeld (D.state disk.old) cell.old rows list staged
        → Within (D.state disk.old) (D.state disk.new) (IsEitherList list (list ++ staged)) }

    ensures held { IfOk result (λ next. (list staged : Entries)
        → AreImagesHeld (D.state disk.old) cell.old rows list staged
        → AreHeldAfter (D.state disk.new) cell.new rows next list staged []) }

    ensures rows { IfOk result (HasRoomFor size rows) }
    ensures untouched { HasRoom rows.ahead.jump rows.ahead.head rows.ahead.end size
        → disk.new ≡ disk.old }
    ensures stays { IfOk result
        (λ next. HasRoom rows.ahead.jump rows.ahead.head rows.ahead.end size → next ≡ rows) }
    ensures answer { LeavesOpen cell.new (D.state disk.old).faults (D.state disk.new).faults
        result }
{
    match rows.ahead.jump {
        None => Ok(rows),
        Some(jump) => {
            if rows.ahead.end + size + 6 <= rows.ahead.head {
                return Ok(rows);
            }
            let moved = gather_rows(disk, cell, rows, jump)?;
            Ok(moved)
        }
    }
}

// Puts what is staged into the list, and moves the list behind its jump.
fn gather_rows<D: Disk>(
    disk: &mut D,
    cell: &mut Pair,
    rows: Rows,
    jump: u64,
) -> Result<Rows, DiskFault>
    requires rows { AreRows rows }
    requires jumps { rows.ahead.jump ≡ Some jump }
    requires cell_open { cell.old.closed ≡ false }
    requires has_cell { EachNow (D.state disk.old) (HasCell cell.old.selector cell.old.value) }

    ensures within { (list staged : Entries)
        → AreImagesHeld (D.state disk.old) cell.old rows list staged
        → Within (D.state disk.old) (D.state disk.new) (IsEitherList list (list ++ staged)) }

    ensures ring { IfOk result (λ next. (list staged : Entries)
        → AreImagesHeld (D.state disk.old) cell.old rows list staged
        → EachNow (D.state disk.new) (IsRing cell.new next.list (list ++ staged))) }

    ensures rows { IfOk result (λ next. next ≡ listed next.list (total rows)) }
    ensures row { IfOk result (λ next. IsInOneRow rows.ahead next.list) }
    ensures answer { LeavesOpen cell.new (D.state disk.old).faults (D.state disk.new).faults
        result }
{
    let whole = commit_rows(disk, rows)?;
    let moved = gather(disk, cell, whole.list, jump)?;
    Ok(Rows::listed(moved, whole.count))
}
