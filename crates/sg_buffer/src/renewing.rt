// Older entries, spelled anew.
ghost use Rattle.std.specs.Prelude.{◌≡◌, [], List, IfErr, OnOk, false};
ghost use Rattle.sg_device.specs.Disk.{Within};
ghost use Rattle.sg_codec.specs.declared.kept.Kept.{Kept as Entry};
ghost use Rattle.sg_spool.specs.Calls.{SpoolLasts};
ghost use Rattle.sg_spool.specs.Places.{live};
ghost use Rattle.sg_spool.specs.Ring.{Entries};
ghost use Rattle.sg_spool.specs.View.{RingHolds};
ghost use Rattle.sg_buffer.specs.Entries.{IsListOf, size_of, spelled};
ghost use Rattle.sg_buffer.specs.Found.{FindsEntries};
ghost use Rattle.sg_buffer.specs.Renewing.{IsRenewed, RenewReason};

use crate::{BufferEntries, Upgrade, entries_stay};
use sg_device::Disk;
use sg_spool::{RewriteRefusal, Spool};
use sg_stable::StoreRefusal;
use std::alloc::Global;

/// Spells the entries that were found in format 2, where one of them is of format 1; else it makes no call
/// to the disk. At every moment an image has the same entries.
pub fn renew<D: Disk>(
    alloc: Global,
    spool: &mut Spool<D>,
    found: &BufferEntries,
) -> Result<(), StoreRefusal>
    requires open { spool.old.closed ≡ false }
    requires unstaged { spool.old.rows.staged ≡ 0 }
    ensures lasts { SpoolLasts D.state spool.old spool.new }
    ensures within { (entries : List Entry) (payloads : Entries)
        → FindsEntries (D.state spool.old.disk) spool.old.rows found.now entries
        → RingHolds D.state spool.old payloads []
        → Within (D.state spool.old.disk) (D.state spool.new.disk) (IsListOf entries) }
    ensures renewed { OnOk result ((entries : List Entry) (payloads : Entries)
        → FindsEntries (D.state spool.old.disk) spool.old.rows found.now entries
        → RingHolds D.state spool.old payloads []
        → RingHolds D.state spool.new (spelled entries) []) }
    ensures size { OnOk result ((entries : List Entry)
        → FindsEntries (D.state spool.old.disk) spool.old.rows found.now entries
        → live spool.new.rows.list ≡ size_of entries) }
    ensures listed { OnOk result (IsRenewed spool.old spool.new) }
    ensures reason { IfErr result (λ e. (entries : List Entry) (payloads : Entries)
        → FindsEntries (D.state spool.old.disk) spool.old.rows found.now entries
        → RingHolds D.state spool.old payloads []
        → RenewReason (D.state spool.old.disk) (D.state spool.new.disk) e) }
{
    if !found.older {
        return Ok(());
    }
    entries_stay();
    let mut upgrade = Upgrade;
    match spool.rewrite(alloc, &mut upgrade) {
        Ok(()) => {}
        Err(RewriteRefusal::DiskFault) => return Err(StoreRefusal::DiskFault),
        Err(RewriteRefusal::NoMemory) => return Err(StoreRefusal::NoMemory),
    }
    if spool.live() != found.size {
        return Err(StoreRefusal::Damage(spool.head()));
    }
    Ok(())
}
