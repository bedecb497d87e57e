// The store of one position.
ghost use Rattle.std.specs.Prelude.{◌≡◌, ◌<◌, ◌≤◌, true, false, IfOk, IfErr, OnOk};
ghost use Rattle.sg_device.specs.Disk.{EachNow, HasCause};
ghost use Rattle.sg_stable.specs.Cell.{HasCell};
ghost use Rattle.sg_stable.specs.Refusal.{HasPositionReason};
ghost use Rattle.sg_stable.specs.Opening.{FindsCell, IsSynced, IsUnwritten};
ghost use Rattle.sg_stable.specs.Position.{IsEither};
ghost use Rattle.sg_stable.specs.Putting.{IsPut, StaysClosed, LeavesEither, DiskLasts};

use crate::{Pair, StoreRefusal, first_nonzero};
use sg_device::{Disk, DiskFault};

/// A position on a disk of its own: 128 bytes, of which the first 40 hold a cell and those outside it
/// are zero.
///
/// A put that fails closes the store: the old position or the new one may stand on the disk from then on.
pub struct Stable<D: Disk> {
    pub disk: D,
    pub cell: Pair,
    /// The position that was put last, also where that failed.
    pub tried: u64,
    ghost whole: { cell.closed ≡ false → EachNow (D.state disk)
        (HasCell cell.selector cell.value) },
    ghost stands: { EachNow (D.state disk) (IsEither cell.value tried) },
}

impl<D: Disk> Stable<D> {
    /// Opens a store. It begins with a sync, and changes nothing; but where that sync fails, a read may
    /// give another of the images since. A refusal gives the disk back.
    pub fn open(disk: D) -> Result<Stable<D>, (D, StoreRefusal)>
        ensures found { IfOk result (λ stable. FindsCell (D.state disk) stable.cell) }
        ensures tried { IfOk result (λ stable. stable.tried ≡ stable.cell.value) }
        ensures synced { IfOk result (λ stable. IsSynced (D.state disk) (D.state stable.disk)) }
        ensures unwritten { IfErr result (λ e. IsUnwritten (D.state disk) (D.state e.0)) }
        ensures reason { IfErr result (λ e. HasPositionReason (D.state disk) (D.state e.0) e.1) }
    {
        let mut disk = disk;
        match look(&mut disk) {
            Ok(cell) => Ok(Stable {
                disk,
                tried: cell.value,
                cell,
            }),
            Err(refusal) => Err((disk, refusal)),
        }
    }

    /// The position that was put last without a fault, or found at opening.
    pub fn value(&self) -> u64
        ensures { result ≡ self.now.cell.value }
    {
        self.cell.value
    }

    /// Puts another position. A closed store refuses, and stays as it is.
    pub fn put(&mut self, value: u64) -> Result<(), DiskFault>
        ensures answer { IsPut self.old.cell self.new.cell value result }
        ensures tried { self.old.cell.closed ≡ false → self.new.tried ≡ value }
        ensures leaves { LeavesEither (D.state self.old.disk) (D.state self.new.disk)
            self.old.cell.closed self.old.cell.value value result }
        ensures lasts { DiskLasts (D.state self.old.disk) (D.state self.new.disk)
            self.old.cell.closed self.new.cell.closed }
        ensures cause { self.old.cell.closed ≡ false
            → HasCause (D.state self.old.disk).faults (D.state self.new.disk).faults result }
        ensures stays { self.old.cell.closed ≡ true → StaysClosed self.old self.new result }
    {
        if self.cell.closed {
            return Err(DiskFault);
        }
        self.tried = value;
        self.cell.put(&mut self.disk, value)?;
        Ok(())
    }

    /// Gives the disk back.
    pub fn into_disk(self) -> D
        ensures disk { result ≡ self.disk }
        ensures stands { EachNow (D.state result) (IsEither self.cell.value self.tried) }
    {
        let Stable {
            disk,
            cell: _,
            tried: _,
        } = self;
        disk
    }
}

// The cell of a store that is whole, made stable first.
fn look<D: Disk>(disk: &mut D) -> Result<Pair, StoreRefusal>
    ensures found { IfOk result (FindsCell (D.state disk.old)) }
    ensures synced { OnOk result (IsSynced (D.state disk.old) (D.state disk.new)) }
    ensures unwritten { IsUnwritten (D.state disk.old) (D.state disk.new) }
    ensures reason { IfErr result (HasPositionReason (D.state disk.old) (D.state disk.new)) }
{
    disk.sync()?;
    inspect(disk)
}

// The cell of a store that is whole.
fn inspect<D: Disk>(disk: &mut D) -> Result<Pair, StoreRefusal>
    ensures found { IfOk result (FindsCell (D.state disk.old)) }
    ensures told { (D.state disk.new).told ≡ (D.state disk.old).told }
    ensures later { (D.state disk.old).faults ≤ (D.state disk.new).faults }
    ensures well { OnOk result ((D.state disk.new).faults ≡ (D.state disk.old).faults) }
    ensures reason { IfErr result (HasPositionReason (D.state disk.old) (D.state disk.new)) }
{
    let len = disk.len()?;
    let mut bytes = [0; 128];
    disk.read_at(0, &mut bytes)?;
    if let Some(at) = first_nonzero(&bytes) {
        return Err(StoreRefusal::Damage(at as u64));
    }
    if len != 128 {
        return Err(StoreRefusal::Damage(len.min(128)));
    }
    let (cell, _) = Pair::read(disk)?;
    Ok(cell)
}
