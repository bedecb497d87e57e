// Taking the first entries off the list.
ghost use Rattle.std.specs.Prelude.{◌≡◌, ◌⊎◌, ◌≤◌, ◌<◌, ◌+◌, ◌-◌, List, ℕ, length, take, drop, IfOk, Some, None, Option, false};
ghost use Rattle.sg_device.specs.Disk.{content, Within, EachNow, HasCause, WhereTold};
ghost use Rattle.sg_stable.specs.Cell.{HasCell};
ghost use Rattle.sg_spool.specs.Calls.{LeavesOpen};
ghost use Rattle.sg_spool.specs.Advancing.{IsSkipped, HasRingEntries, IsAdvanced, IsFirstSize};
ghost use Rattle.sg_spool.specs.Places.{IsOrdered, gate_past, live};
ghost use Rattle.sg_spool.specs.Ring.{Entries, IsEntry, IsLaid, space};
ghost use Rattle.sg_spool.specs.View.{IsRing};

use crate::Places;
use crate::read::read_size;
use sg_device::{Disk, DiskFault};
use sg_stable::Pair;

// Puts the place behind the first entries, which take so many bytes, into the cell.
pub(crate) fn advance_past<D: Disk>(
    disk: &mut D,
    cell: &mut Pair,
    places: Places,
    size: u64,
) -> Result<Places, DiskFault>
    requires ordered { IsOrdered places }
    requires enough { size ≤ live places }
    requires cell_open { cell.old.closed ≡ false }
    requires has_cell { EachNow (D.state disk.old) (HasCell cell.old.selector cell.old.value) }

    ensures within { (n : ℕ) (entries : Entries)
        → EachNow (D.state disk.old) (HasRingEntries cell.old places n size entries)
        → Within (D.state disk.old) (D.state disk.new) (IsAdvanced places n entries) }

    ensures ring { IfOk result (λ next. (n : ℕ) (entries : Entries)
        → EachNow (D.state disk.old) (HasRingEntries cell.old places n size entries)
        → EachNow (D.state disk.new) (IsRing cell.new next (drop n entries))) }

    ensures places { IfOk result (IsSkipped size places) }
    ensures short { (most : ℕ) → EachNow (D.state disk.old) (λ bytes. length bytes ≤ most)
        → Within (D.state disk.old) (D.state disk.new) (λ bytes. length bytes ≤ most) }
    ensures answer { LeavesOpen cell.new (D.state disk.old).faults (D.state disk.new).faults
        result }
{
    let next = places.skip(size);
    cell.put(disk, next.head - 64)?;
    Ok(next)
}

// What the first entries take, so many: their lengths are read, but the first one's where it is known.
pub(crate) fn space_of<D: Disk>(
    disk: &mut D,
    places: Places,
    n: u64,
    first: Option<u64>,
) -> Result<u64, DiskFault>
    requires ordered { IsOrdered places }
    ensures sized { IfOk result (λ size. WhereTold (content (D.state disk.old))
        (λ b. (entries : Entries) → n ≤ length entries → IsFirstSize first entries
        → IsLaid places.jump places.head places.end entries b → size ≡ space (take n entries))) }
    ensures inside { IfOk result (λ size. size ≤ live places) }
    ensures told { (D.state disk.new).told ≡ (D.state disk.old).told }
    ensures cause { HasCause (D.state disk.old).faults (D.state disk.new).faults result }
{
    let most = places.live();
    let mut size = 0;
    let mut gate = places.gate_past(places.head);
    let mut known = first;
    let mut left = n;
    while left > 0 {
        let length = first_size(disk, gate, known)?;
        size = past(size, length, most);
        gate = places.gate_past(gate.saturating_add(5).saturating_add(length));
        known = None;
        left -= 1;
    }
    Ok(size)
}

// So many bytes and an entry of this length, and no more than all.
fn past(size: u64, length: u64, most: u64) -> u64
    requires { size ≤ most }
    ensures inside { result ≤ most }
    ensures size { size + 5 + length ≤ most → result ≡ size + 5 + length }
{
    size.saturating_add(5).saturating_add(length).min(most)
}

// The length of the entry's payload at this gate, which may be known.
fn first_size<D: Disk>(disk: &mut D, gate: u64, known: Option<u64>) -> Result<u64, DiskFault>
    ensures size { IfOk result (λ n. WhereTold (content (D.state disk.old))
        (λ b. (payload : List ℕ) → (known ≡ None ⊎ known ≡ Some (length payload))
        → IsEntry b gate payload → n ≡ length payload)) }
    ensures told { (D.state disk.new).told ≡ (D.state disk.old).told }
    ensures cause { HasCause (D.state disk.old).faults (D.state disk.new).faults result }
{
    if let Some(size) = known {
        return Ok(size);
    }
    let size = read_size(disk, gate)?;
    Ok(size)
}
