// What holds of stores. The functions here do nothing: their contracts are laws.
ghost use Rattle.std.specs.Prelude.{◌≡◌, List, [], false, length};
ghost use Rattle.sg_device.specs.Disk.{DiskState};
ghost use Rattle.sg_buffer.specs.declared.found.BufferEntries.{BufferEntries};
ghost use Rattle.sg_stores.specs.Appending.{IsAppending};
ghost use Rattle.sg_stores.specs.Opening.{IsOpenedAs, AreOpened, FailsByFaults, AllFailByFaults};
ghost use Rattle.sg_stores.specs.Stores.{StoreState, StoreGoesOn, AllGo};
ghost use Rattle.sg_stores.specs.declared.kind.StoreKind.{StoreKind};

/// At a store that works a call may begin, which has staged nothing so far.
pub fn appending_begins()
    ensures { (start : StoreState) → start.failed ≡ false → IsAppending start start [] }
{}

/// A store that was opened on a disk has failed exactly where a call on that disk has, at whatever later
/// moment: while it works the count of faults stands as it did before the opening, and where it has failed
/// the count has risen.
pub fn stores_fail_by_faults()
    ensures one { (kind : StoreKind) (disk : DiskState) (found : BufferEntries)
        (first now : StoreState)
        → IsOpenedAs kind disk found first → StoreGoesOn first now
        → FailsByFaults now.failed disk now.disk }
    ensures all { (kinds : List StoreKind) (disks : List DiskState) (founds : List BufferEntries)
        (first now : List StoreState) → length kinds ≡ length disks
        → AreOpened kinds disks founds first → AllGo first now → AllFailByFaults disks now }
{}
