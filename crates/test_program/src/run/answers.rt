// What a run's answer says.
use crate::faults::append_unloaded;
use sg_device::NoMemory;
use sg_loaded::Unloaded;
use sg_memory::{MemoryOutletCell, MemoryWorld};
use sg_run::Outcome;
use std::alloc::Global;

/// An exit status, behind a space.
pub(crate) fn append_code(alloc: Global, code: u8, out: &mut Vec<u8>) -> Result<(), NoMemory> {
    out.extend_from_slice(format!(in alloc; " {code}")?.as_bytes())?;
    Ok(())
}

fn append_outcome(alloc: Global, outcome: &Outcome, out: &mut Vec<u8>) -> Result<(), NoMemory> {
    append_code(alloc, outcome.end.code(), out)?;
    out.push(b' ')?;
    out.extend_from_slice(&outcome.text)?;
    Ok(())
}

/// How a run ended, and what is to be said of it, or why the configuration wasn't loaded, behind a space.
pub(crate) fn append_end(
    alloc: Global,
    end: &Result<Outcome, Unloaded>,
    out: &mut Vec<u8>,
) -> Result<(), NoMemory> {
    match end {
        Ok(outcome) => append_outcome(alloc, outcome, out),
        Err(unloaded) => {
            out.push(b' ')?;
            append_unloaded(alloc, unloaded, out)
        }
    }
}

// The frames of each outlet that was closed, the first one first.
fn append_frames(cell: &MemoryOutletCell, out: &mut Vec<u8>) -> Result<(), NoMemory> {
    if let Some(before) = &cell.before {
        append_frames(before, out)?;
    }
    out.extend_from_slice(b"; ")?;
    if let Some(outlet) = &cell.closed {
        out.extend_from_slice(outlet.frames().bytes())?;
    }
    Ok(())
}

/// The frames that each outlet took.
pub(crate) fn append_taken(world: &MemoryWorld, out: &mut Vec<u8>) -> Result<(), NoMemory> {
    match world.closed_outlets() {
        Some(cell) => append_frames(cell, out),
        None => Ok(()),
    }
}
