// Machines in memory, with their files.
use sg_device::NoMemory;
use sg_memory::{MemoryFile, MemoryWorld, Pace};
use sg_world::MemoryMachine;
use std::alloc::Global;

/// A text, with the end of a line for `|`.
pub(crate) fn broken(alloc: Global, text: &str) -> Result<Vec<u8>, NoMemory> {
    let mut out = Vec::new(alloc);
    for byte in text.as_bytes() {
        out.push(if *byte == b'|' { b'\n' } else { *byte })?;
    }
    Ok(out)
}

/// Adds a file.
pub(crate) fn add_file(
    alloc: Global,
    name: &[u8],
    bytes: &[u8],
    files: &mut Vec<MemoryFile>,
) -> Result<(), NoMemory> {
    files.push(MemoryFile::new(alloc, name, bytes)?)?;
    Ok(())
}

/// Adds a file with a text of a row; none where that is `missing`.
pub(crate) fn add_text(
    alloc: Global,
    name: &[u8],
    text: &str,
    files: &mut Vec<MemoryFile>,
) -> Result<(), NoMemory> {
    if text == "missing" {
        return Ok(());
    }
    let bytes = broken(alloc, text)?;
    add_file(alloc, name, &bytes, files)
}

/// A machine with these files, at 1970-01-01T00:00:00Z. A pull gives at most seven bytes.
pub(crate) fn machine_with(alloc: Global, files: Vec<MemoryFile>) -> MemoryMachine {
    MemoryMachine {
        world: MemoryWorld::new(alloc, files, Pace { piece: 7, at: 0 }),
    }
}
