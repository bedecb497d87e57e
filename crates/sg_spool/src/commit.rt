// Opening the gate at the list's end.
ghost use Rattle.std.specs.Prelude.{◌≡◌, ◌⊎◌, ◌≤◌, ◌<◌, ◌+◌, ◌^◌, ◌++◌, [], ◌∷◌, List, ℕ, length, OnOk, IfOk, Option};
ghost use Rattle.std.specs.Option.{option_map};
ghost use Rattle.sg_device.specs.Disk.{Synced, Wrote, with_event, content, Within, EachNow, HasCause, WhereTold, Elapses};
ghost use Rattle.sg_device.specs.DiskBytes.{Torn};
ghost use Rattle.sg_stable.specs.declared.cell.Pair.{Pair};
ghost use Rattle.sg_spool.specs.Ring.{Entries};
ghost use Rattle.sg_spool.specs.Rows.{AreRows, committed};
ghost use Rattle.sg_spool.specs.Staging.{OpensTo};
ghost use Rattle.sg_spool.specs.Steps.{RingAt};
ghost use Rattle.sg_spool.specs.View.{IsRing};

use crate::Rows;
use sg_device::{Disk, DiskFault};

// Puts what is staged into the list. Where nothing is, it makes no call to the disk.
pub(crate) fn commit_rows<D: Disk>(disk: &mut D, rows: Rows) -> Result<Rows, DiskFault>
    requires rows { AreRows rows }

    ensures within { (cell : Pair) (list staged : Entries) → rows.staged ≡ length staged
        → EachNow (D.state disk.old) (IsRing cell rows.list list)
        → WhereTold (content (D.state disk.old))
        (OpensTo cell rows.list.end rows.ahead.jump rows.ahead.head rows.ahead.end list staged)
        → Within (D.state disk.old) (D.state disk.new) (λ bytes. IsRing cell rows.list list bytes
        ⊎ IsRing cell rows.ahead (list ++ staged) bytes) }

    ensures ring { IfOk result (λ next. (cell : Pair) (list staged : Entries)
        → rows.staged ≡ length staged → EachNow (D.state disk.old) (IsRing cell rows.list list)
        → WhereTold (content (D.state disk.old))
        (OpensTo cell rows.list.end rows.ahead.jump rows.ahead.head rows.ahead.end list staged)
        → EachNow (D.state disk.new) (IsRing cell next.list (list ++ staged))) }

    ensures committed { IfOk result (λ next. next ≡ committed rows) }
    ensures images { Elapses (Torn rows.list.end 1) (D.state disk.old) (D.state disk.new) }
    ensures quiet { rows.staged ≡ 0 → disk.new ≡ disk.old }
    ensures cause { HasCause (D.state disk.old).faults (D.state disk.new).faults result }
{
    if rows.staged == 0 {
        return Ok(rows.committed());
    }
    open_gate(disk, rows.list.end)?;
    Ok(rows.committed())
}

// Makes stable what was written behind a closed gate, and then opens the gate.
fn open_gate<D: Disk>(disk: &mut D, gate: u64) -> Result<(), DiskFault>
    ensures within { (cell : Pair) (jump : Option ℕ) (head : ℕ) (longer : Option ℕ) (first last : ℕ)
        (list : Entries) (payload : List ℕ) (payloads : Entries)
        → EachNow (D.state disk.old) (RingAt cell jump head gate list)
        → WhereTold (content (D.state disk.old))
        (OpensTo cell gate longer first last list (payload ∷ payloads))
        → Within (D.state disk.old) (D.state disk.new) (
        λ bytes. RingAt cell jump head gate list bytes
        ⊎ RingAt cell longer first last (list ++ payload ∷ payloads) bytes) }

    ensures ring { OnOk result ((cell : Pair) (jump : Option ℕ) (head : ℕ) (longer : Option ℕ)
        (first last : ℕ) (list : Entries) (payload : List ℕ) (payloads : Entries)
        → EachNow (D.state disk.old) (RingAt cell jump head gate list)
        → WhereTold (content (D.state disk.old))
        (OpensTo cell gate longer first last list (payload ∷ payloads))
        → EachNow (D.state disk.new) (RingAt cell longer first last (list ++ payload ∷ payloads))) }

    // It syncs twice, however much was written.
    ensures calls { OnOk result ((D.state disk.new).told ≡ option_map (with_event Synced)
        (option_map (with_event (Wrote gate (1 ∷ [])))
        (option_map (with_event Synced) (D.state disk.old).told))) }
    ensures images { Elapses (Torn gate 1) (D.state disk.old) (D.state disk.new) }
    ensures cause { HasCause (D.state disk.old).faults (D.state disk.new).faults result }
{
    disk.sync()?;
    disk.write_at(gate, &[1])?;
    disk.sync()?;
    Ok(())
}
