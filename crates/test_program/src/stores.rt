// Stores in memory.
use sg_device::NoMemory;
use sg_memory_disk::{MemoryDisk, MemoryStores};
use std::alloc::Global;

// These bytes at this place and zeros around them, 128 at least.
fn bytes_with(alloc: Global, place: u16, part: &[u8]) -> Result<Vec<u8>, NoMemory> {
    let mut bytes = vec![in alloc; 0u8; place as usize]?;
    bytes.extend_from_slice(part)?;
    if bytes.len() < 128 {
        bytes.resize(128, 0)?;
    }
    Ok(bytes)
}

// A disk with the bytes of these hexadecimal digits at this place; none where these are no digits.
fn disk_with(alloc: Global, place: u16, digits: &str) -> Result<Option<MemoryDisk>, NoMemory> {
    let Ok(part) = hex::decode(alloc, digits) else {
        return Ok(None);
    };
    let bytes = bytes_with(alloc, place, &part)?;
    if bytes.len() >= 1 << 30 {
        return Ok(None);
    }
    Ok(Some(MemoryDisk::new(alloc, bytes)?))
}

/// Puts a store with such a disk there. Whether these are digits.
pub(crate) fn put_store(
    alloc: Global,
    name: &[u8],
    place: u16,
    digits: &str,
    stores: &mut MemoryStores,
) -> Result<bool, NoMemory> {
    let Some(disk) = disk_with(alloc, place, digits)? else {
        return Ok(false);
    };
    stores.put(alloc, name, disk)?;
    Ok(true)
}
