// The stores that runs begin with, and what a crash leaves of them.
use crate::stores::put_store;
use sg_device::NoMemory;
use sg_memory_disk::{MemoryDisk, MemoryStoreCell, MemoryStores, Pick};
use std::alloc::Global;

/// The store of the source's position.
pub(crate) const POSITION: &[u8] = b"pos-in";

/// The store of the disk-buffer.
pub(crate) const BUFFER: &[u8] = b"./queue-file,out";

// The place behind the first line.
const BEHIND_ONE: &str = "0000000000000004";

// An open gate, and an entry of the format 1: the first line, of source 0, that ends at 4.
const ENTRY: &str =
    "010000002f01010000000000000000000000040d0000000000000000000000000001000000074d455353414745000000036f6e65";

/// Whether these are letters for picks.
pub(crate) fn are_picks(letters: &str) -> bool {
    for letter in letters.as_bytes() {
        if !matches!(*letter, b'o' | b'n' | b'1' | b'0') {
            return false;
        }
    }
    !letters.is_empty()
}

/// The picks of these letters; none for any other.
pub(crate) fn picks(alloc: Global, letters: &str) -> Result<Vec<Pick>, NoMemory> {
    let mut picks = Vec::new(alloc);
    for letter in letters.as_bytes() {
        let pick = match *letter {
            b'o' => Pick::Old,
            b'n' => Pick::New,
            b'1' => Pick::Ones,
            b'0' => Pick::Zeros,
            _ => continue,
        };
        picks.push(pick)?;
    }
    Ok(picks)
}

/// The stores of an older disk-buffer.
pub(crate) fn older(alloc: Global) -> Result<MemoryStores, NoMemory> {
    let mut stores = MemoryStores::new(alloc);
    put_store(alloc, POSITION, 16, BEHIND_ONE, &mut stores)?;
    put_store(alloc, BUFFER, 64, ENTRY, &mut stores)?;
    Ok(stores)
}

/// The stores that a run begins with, by a word; none for any other.
pub(crate) fn begun(alloc: Global, begin: &str) -> Result<Option<MemoryStores>, NoMemory> {
    match begin {
        "fresh" => Ok(Some(MemoryStores::new(alloc))),
        "older" => Ok(Some(older(alloc)?)),
        _ => Ok(None),
    }
}

// The store as a crash leaves it, for a machine that finds it closed.
fn leave(
    alloc: Global,
    name: &[u8],
    disk: &MemoryDisk,
    picks: &[Pick],
    stores: &mut MemoryStores,
) -> Result<(), NoMemory> {
    let bytes = disk.image(picks)?;
    let disk = MemoryDisk::new(alloc, bytes)?;
    stores.put(alloc, name, disk)
}

fn leave_all(
    alloc: Global,
    cell: &MemoryStoreCell,
    position: &[Pick],
    buffer: &[Pick],
    stores: &mut MemoryStores,
) -> Result<(), NoMemory> {
    if let Some(before) = &cell.before {
        leave_all(alloc, before, position, buffer, stores)?;
    }
    if let Some(store) = &cell.closed {
        let name = store.name.bytes();
        let picks = if name == POSITION { position } else { buffer };
        leave(alloc, name, &store.disk, picks, stores)?;
    }
    Ok(())
}

/// What a crash leaves of the closed stores, by these picks of the position store and of the disk-buffer's.
pub(crate) fn left(
    alloc: Global,
    stores: &MemoryStores,
    position: &[Pick],
    buffer: &[Pick],
) -> Result<MemoryStores, NoMemory> {
    let mut images = MemoryStores::new(alloc);
    if let Some(cell) = stores.closed() {
        leave_all(alloc, cell, position, buffer, &mut images)?;
    }
    Ok(images)
}
