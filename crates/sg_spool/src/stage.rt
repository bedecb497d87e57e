// Writing an entry behind what is staged.
ghost use Rattle.std.specs.Prelude.{◌≡◌, ◌≤◌, ◌<◌, ◌+◌, ◌-◌, ◌*◌, ◌^◌, ◌++◌, [], ◌∷◌, ℕ, length, OnOk, IfOk, Some, None, true, false, IsTrue, ◌↔◌};
ghost use Rattle.sg_device.specs.Disk.{content, Changes, Elapses, HasCause, WhereTold};
ghost use Rattle.sg_stable.specs.declared.cell.Pair.{Pair};
ghost use Rattle.sg_spool.specs.Places.{FitsRing, HasRoom, AreCompact, bound};
ghost use Rattle.sg_spool.specs.Ring.{Entries};
ghost use Rattle.sg_spool.specs.Rows.{AreRows, IsLonger};
ghost use Rattle.sg_spool.specs.Steps.{Spares, FileGrows};
ghost use Rattle.sg_spool.specs.Staging.{IsStaged, Lays, LaysTorn};

use crate::{Block, Places, Rows};
use sg_device::{Disk, DiskFault};

// Writes an entry behind what is staged, into the room that there is: behind its end, or over the end of
// the ring. The list's last gate stays closed. Answers the places of the list with all that is staged.
pub(crate) fn stage_entry<D: Disk>(
    disk: &mut D,
    rows: Rows,
    capacity: u64,
    block: &Block,
) -> Result<Places, DiskFault>
    requires rows { AreRows rows }
    requires fits { FitsRing capacity rows.ahead (length block.now) }
    requires room { HasRoom rows.ahead.jump rows.ahead.head rows.ahead.end (length block.now) }

    // Nothing that the list uses is written.
    ensures images { Elapses (Spares rows.list.jump rows.list.head rows.list.end) (D.state disk.old)
        (D.state disk.new) }
    ensures staged { IfOk result (λ ahead. (cell : Pair) (list staged : Entries)
        → rows.staged ≡ length staged
        → WhereTold (content (D.state disk.old)) (IsStaged cell rows.list rows.ahead list staged)
        → WhereTold (content (D.state disk.new))
        (IsStaged cell rows.list ahead list (staged ++ block.now ∷ []))) }

    ensures places { IfOk result (IsLonger capacity (length block.now) rows) }

    // The bound on the file's length goes on.
    ensures short { AreCompact capacity rows.ahead.jump rows.ahead.head rows.ahead.end
        → Elapses (FileGrows (bound capacity)) (D.state disk.old) (D.state disk.new) }

    ensures cause { HasCause (D.state disk.old).faults (D.state disk.new).faults result }
{
    let size = block.size();
    let ahead = rows.ahead;
    if wraps(ahead, capacity, size) {
        stage_in_front(disk, rows, block)?;
        return Ok(Places {
            jump: Some(ahead.end),
            head: ahead.head,
            end: 69 + size,
        });
    }
    stage_behind(disk, rows, block)?;
    Ok(Places {
        jump: ahead.jump,
        head: ahead.head,
        end: ahead.end + 5 + size,
    })
}

// Writes an entry at the front of the ring, and a jump to it at the end of what is staged.
fn stage_in_front<D: Disk>(disk: &mut D, rows: Rows, block: &Block) -> Result<(), DiskFault>
    requires rows { AreRows rows }
    requires row { rows.ahead.jump ≡ None }
    requires room { 64 + length block.now + 6 ≤ rows.ahead.head }
    ensures images { Elapses (Spares rows.list.jump rows.list.head rows.list.end) (D.state disk.old)
        (D.state disk.new) }
    ensures staged { OnOk result ((cell : Pair) (list staged : Entries)
        → rows.staged ≡ length staged
        → WhereTold (content (D.state disk.old)) (IsStaged cell rows.list rows.ahead list staged)
        → WhereTold (content (D.state disk.new)) (IsStaged cell rows.list
        (record { jump = Some rows.ahead.end; head = rows.ahead.head; end = 69 + length block.now })
        list (staged ++ block.now ∷ []))) }
    ensures short { (most : ℕ) → 64 + length block.now + 6 ≤ most → rows.ahead.end + 5 ≤ most
        → Elapses (FileGrows most) (D.state disk.old) (D.state disk.new) }
    ensures inside { OnOk result (rows.ahead.end + 5 < 2 ^ 63) }
    ensures cause { HasCause (D.state disk.old).faults (D.state disk.new).faults result }
{
    disk.write_at(64, block.bytes())?;
    lay(disk, rows.staged == 0, rows.ahead.end, &[1, 0, 0, 0, 0])?;
    Ok(())
}

// Writes an entry behind what is staged.
fn stage_behind<D: Disk>(disk: &mut D, rows: Rows, block: &Block) -> Result<(), DiskFault>
    requires rows { AreRows rows }
    requires room { HasRoom rows.ahead.jump rows.ahead.head rows.ahead.end (length block.now) }
    ensures images { Elapses (Spares rows.list.jump rows.list.head rows.list.end) (D.state disk.old)
        (D.state disk.new) }
    ensures staged { OnOk result ((cell : Pair) (list staged : Entries)
        → rows.staged ≡ length staged
        → WhereTold (content (D.state disk.old)) (IsStaged cell rows.list rows.ahead list staged)
        → WhereTold (content (D.state disk.new)) (IsStaged cell rows.list
        (record {
          jump = rows.ahead.jump;
          head = rows.ahead.head;
          end = rows.ahead.end + 5 + length block.now;
        })
        list (staged ++ block.now ∷ []))) }
    ensures short { (most : ℕ) → rows.ahead.end + length block.now + 6 ≤ most
        → Elapses (FileGrows most) (D.state disk.old) (D.state disk.new) }
    ensures inside { OnOk result (rows.ahead.end + length block.now + 6 < 2 ^ 63) }
    ensures cause { HasCause (D.state disk.old).faults (D.state disk.new).faults result }
{
    lay(disk, rows.staged == 0, rows.ahead.end, block.bytes())?;
    Ok(())
}

// Writes these bytes from a gate on; the first of them opens it. The gate at the list's end stays closed:
// there all but the first are written.
fn lay<D: Disk>(disk: &mut D, first: bool, gate: u64, bytes: &[u8]) -> Result<(), DiskFault>
    requires small { gate < 2 ^ 63 }
    requires some { 1 ≤ length bytes.now }
    ensures written { OnOk result (Changes (Lays first gate bytes.now) (content (D.state disk.old))
        (content (D.state disk.new))) }
    ensures images { Elapses (LaysTorn first gate (length bytes.now)) (D.state disk.old)
        (D.state disk.new) }
    ensures inside { OnOk result (gate + length bytes.now < 2 ^ 63) }
    ensures cause { HasCause (D.state disk.old).faults (D.state disk.new).faults result }
{
    if first {
        disk.write_at(gate + 1, &bytes[1..])?;
        return Ok(());
    }
    disk.write_at(gate, bytes)?;
    Ok(())
}

// Whether a place is past the end of the ring, which is 64 and twice the capacity.
fn is_past(place: u64, capacity: u64) -> bool
    requires { place < 2 ^ 64 - 1 }
    ensures { IsTrue result ↔ 64 + 2 * capacity < place }
{
    place > capacity.saturating_mul(2).saturating_add(64)
}

// Whether an entry behind the end would come past the end of the ring.
fn wraps(places: Places, capacity: u64, size: u64) -> bool
    requires { places.end + size + 6 < 2 ^ 64 - 1 }
    ensures yes { result ≡ true
        → (places.jump ≡ None) × (64 + 2 * capacity < places.end + size + 6) }
    ensures no { result ≡ false → places.jump ≡ None → places.end + size + 6 ≤ 64 + 2 * capacity }
{
    match places.jump {
        None => is_past(places.end + size + 6, capacity),
        Some(_) => false,
    }
}
