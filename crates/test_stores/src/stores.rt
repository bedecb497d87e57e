// A position store over disks in memory, stopped at each call, and over a real file.
use crate::files::temporary;
use sg_device::{Disk, DiskFault, Name, OpenRefusal};
use sg_host::{FileDisk, HostStores, IdleWait};
use sg_memory::{MemoryWorld, Pace};
use sg_memory_disk::{DiskChange, DiskPlan, FaultPlan, MemoryDisk, Pick};
use sg_outside::StoreSpec;
use sg_stable::{Stable, StoreRefusal};
use std::alloc::Global;
use std::fs;
use std::test::Fail;

const PICKS: [Pick; 4] = [Pick::Old, Pick::New, Pick::Ones, Pick::Zeros];

// A disk that can move between threads.
fn is_send<T: Send>(_disk: &T) {}

fn spec(alloc: Global, name: &[u8], create: bool) -> Result<StoreSpec, Fail> {
    Ok(StoreSpec {
        name: Name::new(alloc, name)?,
        create,
        size: 128,
    })
}

fn zeros(alloc: Global, len: usize) -> Result<Vec<u8>, Fail> {
    Ok(vec![in alloc; 0u8; len]?)
}

fn fresh(alloc: Global) -> Result<MemoryDisk, Fail> {
    Ok(MemoryDisk::new(alloc, zeros(alloc, 128)?)?)
}

// The position that stands on a disk, or why there is none.
fn position<D: Disk + Drop>(disk: D) -> Result<u64, StoreRefusal> {
    match Stable::open(disk) {
        Ok(stable) => {
            let value = stable.value();
            let _ = stable.into_disk();
            Ok(value)
        }
        Err((_, refusal)) => Err(refusal),
    }
}

// Whether this position stands on a disk.
fn stands<D: Disk + Drop>(disk: D, value: u64) -> bool {
    match position(disk) {
        Ok(found) => found == value,
        Err(_) => false,
    }
}

// Whether a disk is damaged at this place.
fn is_damaged<D: Disk + Drop>(disk: D, place: u64) -> bool {
    match position(disk) {
        Ok(_) => false,
        Err(refusal) => refusal == StoreRefusal::Damage(place),
    }
}

// Puts a position, and gives the disk back with the answer.
fn put<D: Disk + Drop>(disk: D, value: u64) -> Result<(D, Result<(), DiskFault>), StoreRefusal> {
    match Stable::open(disk) {
        Ok(mut stable) => {
            let result = stable.put(value);
            Ok((stable.into_disk(), result))
        }
        Err((_, refusal)) => Err(refusal),
    }
}

fn is_write(change: &DiskChange, at: u64, bytes: &[u8]) -> bool {
    match change {
        DiskChange::Wrote(written) => written.at == at && written.bytes.as_slice() == bytes,
        _ => false,
    }
}

// Whether the changes of a fresh store are those of a put of 8.
fn has_put(disk: &MemoryDisk) -> bool {
    let changes = disk.changes();
    changes.len() == 5
        && is_write(&changes[1], 32, &[0, 0, 0, 0, 0, 0, 0, 8])
        && is_write(&changes[3], 0, &[1])
}

// Whether a crash leaves the bytes as a read gives them.
fn is_stable(disk: &MemoryDisk) -> Result<bool, Fail> {
    for pick in PICKS {
        if disk.image(&[pick])?.as_slice() != disk.bytes() {
            return Ok(false);
        }
    }
    Ok(true)
}

#[test]
fn in_memory(rt: HostRuntime) -> Result<(), Fail> {
    let alloc = rt.alloc();
    assert!(rt; stands(fresh(alloc)?, 0));
    let (disk, result) = put(fresh(alloc)?, 8)?;
    is_send(&disk);
    assert!(rt; result.is_ok() && !disk.starved());
    assert!(rt; has_put(&disk));
    assert!(rt; is_stable(&disk)?);
    assert!(rt; stands(disk, 8));
    Ok(())
}

// A store of this length, all zero but for this byte.
fn store(alloc: Global, len: usize, at: usize) -> Result<MemoryDisk, Fail> {
    let mut bytes = zeros(alloc, len)?;
    if at < bytes.len() {
        bytes[at] = 1;
    }
    Ok(MemoryDisk::new(alloc, bytes)?)
}

#[test]
fn damaged_in_memory(rt: HostRuntime) -> Result<(), Fail> {
    for (len, at, place) in [
        (127, 200, 127),
        (129, 200, 128),
        (128, 40, 40),
        (128, 15, 15),
        (0, 200, 0),
    ] {
        assert!(rt;
            is_damaged(store(rt.alloc(), len, at)?, place),
            "{len} {at}"
        );
    }
    Ok(())
}

// A disk that stops after so many calls.
fn stopping(alloc: Global, calls: u64) -> Result<MemoryDisk, Fail> {
    let mut disk = fresh(alloc)?;
    disk.stop_after(calls);
    Ok(disk)
}

// A disk whose call of this number fails.
fn failing(alloc: Global, call: u64) -> Result<MemoryDisk, Fail> {
    let plan = DiskPlan::failing(alloc, FaultPlan::new(vec![in alloc; call]?));
    Ok(MemoryDisk::failing(alloc, zeros(alloc, 128)?, plan)?)
}

// Whether 8 stands on each image of a disk, or 0 where that may be.
fn images_stand(alloc: Global, disk: &MemoryDisk, may_be_old: bool) -> Result<bool, Fail> {
    for pick in PICKS {
        let value = position(MemoryDisk::new(alloc, disk.image(&[pick])?)?)?;
        if value != 8 && (value != 0 || !may_be_old) {
            return Ok(false);
        }
    }
    Ok(true)
}

// Whether a put of 8 over a disk of which so many calls succeed is all or nothing. Opening takes four calls,
// and the put four more.
fn is_whole(alloc: Global, disk: MemoryDisk, calls: u64) -> Result<bool, Fail> {
    match put(disk, 8) {
        Err(refusal) => Ok(calls < 4 && refusal == StoreRefusal::DiskFault),
        Ok((disk, result)) => {
            Ok(result.is_ok() == (calls == 8) && images_stand(alloc, &disk, calls < 8)?)
        }
    }
}

#[test]
fn at_each_call(rt: HostRuntime) -> Result<(), Fail> {
    let alloc = rt.alloc();
    for calls in 0..9 {
        assert!(rt;
            is_whole(alloc, stopping(alloc, calls)?, calls)?,
            "stopped {calls}"
        );
        assert!(rt;
            is_whole(alloc, failing(alloc, calls)?, calls)?,
            "failed {calls}"
        );
    }
    Ok(())
}

// Puts a position into a store of a machine, and closes it. Whether that succeeds.
fn puts(
    alloc: Global,
    world: &mut MemoryWorld,
    spec: &StoreSpec,
    value: u64,
) -> Result<bool, Fail> {
    let store = world.open_store(alloc, spec)?;
    is_send(&store);
    let (store, result) = put(store, value)?;
    world.close_store(store);
    Ok(result.is_ok())
}

// Whether this position stands in a store of a machine.
fn keeps(alloc: Global, world: &mut MemoryWorld, name: &[u8], value: u64) -> Result<bool, Fail> {
    let store = world.open_store(alloc, &spec(alloc, name, false)?)?;
    Ok(stands(store, value))
}

#[test]
fn in_a_machine(rt: HostRuntime) -> Result<(), Fail> {
    let alloc = rt.alloc();
    let mut world = MemoryWorld::new(alloc, Vec::new(alloc), Pace { piece: 1, at: 0 });
    assert!(rt; world.open_store(alloc, &spec(alloc, b"a", false)?).is_err());
    for (name, create, value) in [
        (b"a", true, 8),
        (b"b", true, 9),
        (b"a", false, 10),
        (b"a", true, 11),
    ] {
        assert!(rt;
            puts(alloc, &mut world, &spec(alloc, name, create)?, value)?,
            "{value}"
        );
    }
    assert!(rt; keeps(alloc, &mut world, b"a", 11)?);
    assert!(rt; keeps(alloc, &mut world, b"b", 9)?);
    assert!(rt; !world.starved());
    Ok(())
}

fn open(alloc: Global, rt: HostRuntime, path: &str, create: bool) -> Result<FileDisk, OpenRefusal> {
    let size = if create { Some(128) } else { None };
    FileDisk::open(alloc, rt, path.as_bytes(), size)
}

// Makes a store in a file, and closes it.
fn make(alloc: Global, rt: HostRuntime, path: &str) -> Result<(), Fail> {
    let mut stores = HostStores::new(alloc, rt, IdleWait::new(alloc, rt)?);
    let store = stores.open(alloc, &spec(alloc, path.as_bytes(), true)?)?;
    is_send(&store);
    stores.close(store);
    Ok(())
}

// Whether a position that is put into a file stands there.
fn puts_in_file(alloc: Global, rt: HostRuntime, path: &str, value: u64) -> Result<bool, Fail> {
    let (_, result) = put(open(alloc, rt, path, true)?, value)?;
    Ok(result.is_ok() && stands(open(alloc, rt, path, false)?, value))
}

// Whether a position stands in a file of 128 bytes, whatever is written to the slot that isn't selected.
fn stands_killed(alloc: Global, rt: HostRuntime, path: &str, value: u64) -> Result<bool, Fail> {
    let mut disk = open(alloc, rt, path, false)?;
    let len = disk.len()?;
    disk.write_at(16, &[255, 255, 255])?;
    Ok(len == 128 && stands(disk, value))
}

// Whether a write far behind the end of a file fails, and counts as a fault, and one at its end is damage.
fn fails_far_behind(alloc: Global, rt: HostRuntime, path: &str) -> Result<bool, Fail> {
    let mut disk = open(alloc, rt, path, false)?;
    disk.write_at(128, &[0])?;
    let before = disk.faults();
    let failed = disk.write_at(u64::MAX, &[0]).is_err();
    Ok(before == 0 && failed && disk.faults() == 1 && is_damaged(disk, 128))
}

// Makes a store in a file and puts positions there. The first one that doesn't stand then.
fn first_lost(alloc: Global, rt: HostRuntime, path: &str) -> Result<Option<u64>, Fail> {
    make(alloc, rt, path)?;
    for value in [8, 9, 1 << 63, 0, 7] {
        if !puts_in_file(alloc, rt, path, value)? {
            return Ok(Some(value));
        }
    }
    Ok(None)
}

#[test]
fn in_a_file(rt: HostRuntime) -> Result<(), Fail> {
    let path = temporary(rt.alloc(), rt, "store")?;
    assert!(rt; open(rt.alloc(), rt, path.as_str(), false).is_err());
    assert_eq!(rt; first_lost(rt.alloc(), rt, path.as_str())?, None);
    // Five puts leave an odd selector.
    assert!(rt; stands_killed(rt.alloc(), rt, path.as_str(), 7)?);
    assert!(rt; fails_far_behind(rt.alloc(), rt, path.as_str())?);
    fs::remove_file(&rt, path.as_str())?;
    Ok(())
}
