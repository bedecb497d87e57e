// The lengths of entries of an older disk-buffer, while they are rewritten.
use crate::machine::machine_with;
use crate::moments::due::Due;
use crate::moments::images::{BUFFER, left, older, picks};
use crate::moments::runs::{DeviceStops, NEVER, run};
use sg_device::NoMemory;
use sg_memory_disk::MemoryStores;
use sg_spooled::list_store;
use sg_world::MemoryMachine;
use std::alloc::Global;
use std::sync::Wait;
use std::thread::Threads;

// What `spool` says of the disk-buffer.
fn listed(alloc: Global, stores: MemoryStores) -> MemoryMachine {
    let mut machine = machine_with(alloc, Vec::new(alloc));
    machine.world.stores = stores;
    let _listed = list_store(alloc, BUFFER, &mut machine);
    machine
}

// The length at the end of the first line, where this is an entry and the only one.
fn length_of(said: &[u8]) -> &[u8] {
    let Some(lines) = said.strip_suffix(b"\nentries 1\n") else {
        return b"?";
    };
    match lines.rsplit(|byte| *byte == b' ').next() {
        Some(length) => length,
        None => b"?",
    }
}

// The length that is listed over what a crash leaves by these picks.
fn append_length(
    alloc: Global,
    stores: &MemoryStores,
    letters: &str,
    out: &mut Vec<u8>,
) -> Result<(), NoMemory> {
    out.push(b' ')?;
    let picks = picks(alloc, letters)?;
    let stores = left(alloc, stores, &picks, &picks)?;
    let machine = listed(alloc, stores);
    out.extend_from_slice(length_of(machine.world.said()))?;
    Ok(())
}

// The stores behind a run in which the disk-buffer's stops behind so many calls.
fn stopped<T: Threads + Wait + Eprint + Sync>(
    rt: &T,
    alloc: Global,
    calls: u64,
) -> Result<MemoryStores, NoMemory> {
    let stops = DeviceStops {
        buffer: Some(calls),
        ..NEVER
    };
    let mut due = Due::new(alloc)?;
    let ran = run(rt, alloc, older(alloc)?, stops, &mut due)?;
    Ok(ran.stores)
}

fn append_count(alloc: Global, calls: u64, out: &mut Vec<u8>) -> Result<(), NoMemory> {
    out.extend_from_slice(format!(in alloc; "; {calls}")?.as_bytes())?;
    Ok(())
}

fn append_lengths<T: Threads + Wait + Eprint + Sync>(
    rt: &T,
    alloc: Global,
    calls: u64,
    out: &mut Vec<u8>,
) -> Result<(), NoMemory> {
    append_count(alloc, calls, out)?;
    let stores = stopped(rt, alloc, calls)?;
    append_length(alloc, &stores, "o", out)?;
    append_length(alloc, &stores, "n", out)
}

/// The lengths behind runs that stop behind each number of calls up to that of the row: where nothing was written since the last
/// sync, and where all was.
pub(crate) fn lengths<T: Threads + Wait + Eprint + Sync>(
    rt: &T,
    alloc: Global,
    row: &str,
) -> Result<Option<Vec<u8>>, NoMemory> {
    let Ok(last) = row.parse::<u16>() else {
        return Ok(None);
    };
    let mut out = b"lengths".to_vec(alloc)?;
    for calls in 0..u64::from(last) + 1 {
        append_lengths(rt, alloc, calls, &mut out)?;
    }
    Ok(Some(out))
}
