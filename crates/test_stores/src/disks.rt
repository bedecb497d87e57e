// Disks in memory: the images that a crash may leave, and what calls leave that fail.
use sg_device::{Disk, Name};
use sg_memory::{MemoryWorld, Pace};
use sg_memory_disk::{DiskPlan, FaultPlan, MemoryDisk, Pick};
use sg_outside::StoreSpec;
use std::alloc::Global;
use std::test::Fail;

// Calls on a disk of `abcd` (`w` with a place and bytes, or `s` for a sync), the number of the one that
// fails, what it leaves, the picks of an image (`o` old, `n` new, `1` ones, `0` zeros, `=` with bytes), the
// bytes as a read gives them then, and the image, with `.` for 0 and `#` for FF.
const DISKS: &str = "w1XY - - o aXYd abcd
w1XY - - n aXYd aXYd
w1XY - - 1 aXYd a##d
w1XY - - 0 aXYd a..d
w1XY - - =Q aXYd aQcd
w1XY,w3Z - - n,o aXYZ aXYd
w1XY,w3Z - - o,n aXYZ abcZ
w1XY,s,w3Z - - o aXYZ aXYd
w6Z - - n abcd..Z abcd..Z
w6Z - - 1 abcd..Z abcd###
w6Z - - =PQRSTU abcd..Z abcdPQR
w6Z - - = abcd..Z abcd
w1XY 0 - n abcd abcd
w1XY 0 o n abcd abcd
w1XY 0 1 o a##d abcd
w1XY 0 =Q n aQcd aQcd
w1XY,s 1 - n aXYd aXYd
w1XY,s 1 o n abcd aXYd
w1XY,s 1 =Q o aQcd abcd
w1XY,s,w0P 1 o n Pbcd PXYd
w1XY,s,s 1 o n abcd abcd";

fn pick(alloc: Global, word: &str) -> Result<Pick, Fail> {
    match word {
        "o" => Ok(Pick::Old),
        "n" => Ok(Pick::New),
        "1" => Ok(Pick::Ones),
        "0" => Ok(Pick::Zeros),
        _ => {
            let bytes = word.strip_prefix('=').ok_or("no pick")?;
            Ok(Pick::Bytes(bytes.as_bytes().to_vec(alloc)?))
        }
    }
}

fn picks(alloc: Global, words: &str) -> Result<Vec<Pick>, Fail> {
    let mut picks = Vec::new(alloc);
    if words == "-" {
        return Ok(picks);
    }
    for word in words.split(',') {
        picks.push(pick(alloc, word)?)?;
    }
    Ok(picks)
}

fn fails(alloc: Global, word: &str) -> Result<FaultPlan, Fail> {
    if word == "-" {
        return Ok(FaultPlan::never(alloc));
    }
    Ok(FaultPlan::new(vec![in alloc; word.parse()?]?))
}

// Makes a call; whether it succeeds doesn't matter.
fn call(disk: &mut MemoryDisk, word: &str) -> Result<(), Fail> {
    if word == "s" {
        let _ = disk.sync();
        return Ok(());
    }
    let rest = word.strip_prefix('w').ok_or("no call")?;
    let (at, bytes) = rest.split_at_checked(1).ok_or("no place")?;
    let _ = disk.write_at(at.parse()?, bytes.as_bytes());
    Ok(())
}

fn text(alloc: Global, bytes: &[u8]) -> Result<String, Fail> {
    let mut text = String::new(alloc);
    for byte in bytes {
        text.push(match *byte {
            0 => '.',
            255 => '#',
            other => other as char,
        })?;
    }
    Ok(text)
}

// The calls, the number of the one that fails, what it leaves, and the picks of an image.
#[derive(Drop)]
struct DiskRow<'a> {
    calls: &'a str,
    failing: &'a str,
    tears: &'a str,
    picks: &'a str,
}

// The parts of a row, and what its calls leave.
fn parts(row: &str) -> Result<(DiskRow<'_>, &str), Fail> {
    let (calls, rest) = row.split_once(' ').ok_or("no calls")?;
    let (failing, rest) = rest.split_once(' ').ok_or("no failing call")?;
    let (tears, rest) = rest.split_once(' ').ok_or("no tears")?;
    let (picks, left) = rest.split_once(' ').ok_or("no picks")?;
    let row = DiskRow {
        calls,
        failing,
        tears,
        picks,
    };
    Ok((row, left))
}

// A disk of `abcd` on which a call fails.
fn failing(alloc: Global, row: &DiskRow) -> Result<MemoryDisk, Fail> {
    let mut plan = DiskPlan::failing(alloc, fails(alloc, row.failing)?);
    plan.tears = picks(alloc, row.tears)?;
    Ok(MemoryDisk::failing(alloc, b"abcd".to_vec(alloc)?, plan)?)
}

fn call_all(disk: &mut MemoryDisk, calls: &str) -> Result<(), Fail> {
    for word in calls.split(',') {
        call(disk, word)?;
    }
    Ok(())
}

// The bytes of a disk as a read gives them, and an image.
fn said(alloc: Global, disk: &MemoryDisk, words: &str) -> Result<String, Fail> {
    let mut said = text(alloc, disk.bytes())?;
    let image = disk.image(&picks(alloc, words)?)?;
    said.push(' ')?;
    said.push_str(text(alloc, &image)?.as_str())?;
    Ok(said)
}

// What the calls of a row leave, and what they are to leave.
fn leaves(alloc: Global, line: &str) -> Result<(String, &str), Fail> {
    let (row, wanted) = parts(line)?;
    let mut disk = failing(alloc, &row)?;
    call_all(&mut disk, row.calls)?;
    Ok((said(alloc, &disk, row.picks)?, wanted))
}

#[test]
fn disks_in_memory(rt: HostRuntime) -> Result<(), Fail> {
    let alloc = rt.alloc();
    for row in DISKS.lines() {
        let (left, wanted) = leaves(alloc, row)?;
        assert_eq!(rt; left.as_str(), wanted, "{row}");
    }
    Ok(())
}

fn spec(alloc: Global, name: &[u8], create: bool) -> Result<StoreSpec, Fail> {
    Ok(StoreSpec {
        name: Name::new(alloc, name)?,
        create,
        size: 128,
    })
}

// A machine whose first store stops after a call.
fn stopping(alloc: Global) -> Result<MemoryWorld, Fail> {
    let mut world = MemoryWorld::new(alloc, Vec::new(alloc), Pace { piece: 1, at: 0 });
    world.stores.plans.push_back(DiskPlan::stopping(alloc, 1))?;
    Ok(world)
}

// The image of a store that is synced no more behind a write; None where the sync succeeds, or the store
// is opened twice.
fn stopped(alloc: Global, world: &mut MemoryWorld) -> Result<Option<Vec<u8>>, Fail> {
    let spec = spec(alloc, b"a", true)?;
    let mut store = world.open_store(alloc, &spec)?;
    let wrote = store.write_at(0, b"x").is_ok() && store.sync().is_err();
    let once = world.open_store(alloc, &spec).is_err();
    let image = store.disk.image(&[Pick::Old])?;
    world.close_store(store);
    Ok(if wrote && once { Some(image) } else { None })
}

// The first byte of a store.
fn first(alloc: Global, world: &mut MemoryWorld, spec: &StoreSpec) -> Result<Option<u8>, Fail> {
    let store = world.open_store(alloc, spec)?;
    let first = store.disk.bytes().first().copied();
    world.close_store(store);
    Ok(first)
}

// Puts a store with these bytes into a machine.
fn put(alloc: Global, world: &mut MemoryWorld, name: &[u8], bytes: Vec<u8>) -> Result<(), Fail> {
    world
        .stores
        .put(alloc, name, MemoryDisk::new(alloc, bytes)?)?;
    Ok(())
}

// Whether this is the first byte of the store that was stopped.
fn stopped_begins(alloc: Global, world: &mut MemoryWorld, byte: u8) -> Result<bool, Fail> {
    Ok(first(alloc, world, &spec(alloc, b"a", true)?)? == Some(byte))
}

// Whether this is the first byte of a store with these bytes.
fn put_begins(
    alloc: Global,
    world: &mut MemoryWorld,
    bytes: Vec<u8>,
    byte: u8,
) -> Result<bool, Fail> {
    put(alloc, world, b"b", bytes)?;
    Ok(first(alloc, world, &spec(alloc, b"b", false)?)? == Some(byte))
}

// Whether a store is refused that isn't there.
fn is_refused(alloc: Global, world: &mut MemoryWorld) -> Result<bool, Fail> {
    let spec = spec(alloc, b"c", false)?;
    Ok(world.open_store(alloc, &spec).is_err())
}

// Whether the store that was stopped keeps its byte, its image has none, and a store is refused that isn't
// there.
fn shown(alloc: Global, world: &mut MemoryWorld) -> Result<(bool, bool, bool), Fail> {
    let image = stopped(alloc, world)?.ok_or("not stopped")?;
    let kept = stopped_begins(alloc, world, b'x')?;
    let lost = put_begins(alloc, world, image, 0)?;
    Ok((kept, lost, is_refused(alloc, world)?))
}

#[test]
fn stores_in_memory(rt: HostRuntime) -> Result<(), Fail> {
    let mut world = stopping(rt.alloc())?;
    let (kept, lost, refused) = shown(rt.alloc(), &mut world)?;
    assert!(rt; kept);
    assert!(rt; lost);
    assert!(rt; refused);
    Ok(())
}
