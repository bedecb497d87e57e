// A position store.
ghost use Rattle.std.specs.Prelude.{◌≡◌, None, IfOk, IfErr};
ghost use Rattle.sg_stable.specs.Opening.{IsUnwritten};
ghost use Rattle.sg_stable.specs.Refusal.{HasPositionReason};
ghost use Rattle.sg_stores.specs.Opening.{IsOpenedPosition};
ghost use Rattle.sg_stores.specs.Positions.{WritesStored};
ghost use Rattle.sg_stores.specs.Stores.{StoreGoesOn};

use sg_counter::Stored;
use sg_device::Disk;
use sg_stable::{Stable, StoreRefusal};
use std::marker::Model;

/// An open position store.
pub struct PositionStore<D: Disk> {
    stable: Stable<D>,
}

impl<D: Disk> Model for PositionStore<D> {
    ghost use Rattle.std.specs.Prelude.{None};
    ghost use Rattle.sg_stores.specs.Stores.{StoreState};

    ghost Value = { StoreState };

    ghost view = { λ s. record {
      position = s.stable.cell.value;
      buffer = None;
      failed = s.stable.cell.closed;
      disk = D.state s.stable.disk;
    } };
}

impl<D: Disk> PositionStore<D> {
    /// Opens a store. A refusal gives the disk back.
    pub fn open(disk: D) -> Result<PositionStore<D>, (D, StoreRefusal)>
        ensures opened { IfOk result (IsOpenedPosition (D.state disk)) }
        ensures unwritten { IfErr result (λ e. IsUnwritten (D.state disk) (D.state e.0)) }
        ensures reason { IfErr result (λ e. HasPositionReason (D.state disk) (D.state e.0) e.1) }
    {
        let stable = Stable::open(disk)?;
        Ok(PositionStore { stable })
    }

    pub fn position(&self) -> u64
        ensures { result ≡ self.now.position }
    {
        self.stable.value()
    }

    pub fn failed(&self) -> bool
        ensures { result ≡ self.now.failed }
    {
        self.stable.cell.closed
    }

    /// Writes a position that isn't the stored one.
    pub fn write(&mut self, position: u64) -> Stored
        ensures buffer { self.new.buffer ≡ None }
        ensures writes { WritesStored self.old self.new position result }
        ensures goes { StoreGoesOn self.old self.new }
    {
        if self.stable.value() == position {
            return Stored::Unchanged;
        }
        match self.stable.put(position) {
            Ok(()) => Stored::Wrote(position),
            Err(_) => Stored::Broken,
        }
    }

    pub fn into_disk(self) -> D
        ensures { D.state result ≡ self.disk }
    {
        let PositionStore { stable } = self;
        stable.into_disk()
    }
}
