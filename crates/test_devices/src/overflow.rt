//! Outlets that hold frames back, in memory. A row has the capacity, the frames in memory, the calls of the outlet inside
//! that fail, its sends that are too early, the calls of the disk that fail, and what is done; it says what each of that
//! came to, the frames that went out, and those that the store has.

ghost use Rattle.std.specs.Prelude.{◌≤◌, ◌^◌};

mod rows;

use rows::{RowSetup, disk_plan, frames, parts, script};
use sg_device::{Frames, Outlet, Reopened, SendRefusal};
use sg_memory::{MemoryOutlet, OutletScript};
use sg_memory_disk::{DiskPlan, MemoryDisk, Pick};
use sg_overflow::{Finished, Limits, Overflow};
use sg_spool::{Front, Spool};
use std::alloc::{AllocError, Global};

type Outside = Overflow<MemoryOutlet, MemoryDisk>;

fn sent(overflow: &mut Outside, alloc: Global, words: &str) -> Result<&'static str, AllocError> {
    let frames = frames(alloc, words)?;
    if frames.is_empty() {
        return Ok("nothing");
    }
    Ok(match overflow.send(&frames) {
        Ok(()) => "taken",
        Err(SendRefusal::Fault) => "fault",
        Err(SendRefusal::Later) => "later",
        Err(SendRefusal::NoMemory) => "no memory",
    })
}

fn reopened(overflow: &mut Outside) -> &'static str {
    match overflow.reopen() {
        Ok(Reopened::Ready) => "ready",
        Ok(Reopened::Later) => "later",
        Err(_) => "fault",
    }
}

fn finished(overflow: &mut Outside) -> Result<&'static str, AllocError> {
    Ok(match overflow.finish()? {
        Finished::Empty => "Empty",
        Finished::Outlet => "Outlet",
        Finished::Store => "Store",
    })
}

fn forwarded(overflow: &mut Outside) -> &'static str {
    overflow.forward();
    if overflow.failed() {
        "failed"
    } else {
        "forwarded"
    }
}

// What a word came to: `reopen`, `forward`, `finish`, or the frames of a send.
fn step(
    overflow: &mut Outside,
    alloc: Global,
    word: &str,
    quiet: bool,
    said: &mut Vec<u8>,
) -> Result<(), AllocError> {
    let answer = match word {
        "reopen" => reopened(overflow),
        "forward" => forwarded(overflow),
        "finish" => finished(overflow)?,
        _ => sent(overflow, alloc, word)?,
    };
    if quiet && answer == "taken" {
        return Ok(());
    }
    let taken = overflow.taken();
    let held = overflow.held();
    let text = format!(in alloc; "{answer} {taken} held {held}; ")?;
    said.extend_from_slice(text.as_bytes())
}

fn steps(
    overflow: &mut Outside,
    alloc: Global,
    words: &str,
    said: &mut Vec<u8>,
) -> Result<(), AllocError> {
    let (quiet, words) = match words.strip_prefix("quiet ") {
        Some(rest) => (true, rest),
        None => (false, words),
    };
    for word in words.split(' ') {
        step(overflow, alloc, word, quiet, said)?;
    }
    Ok(())
}

fn put_frames(frames: &Frames, said: &mut Vec<u8>) -> Result<(), AllocError> {
    let mut rest = frames.bytes();
    for size in frames.sizes() {
        let (frame, behind) = rest.split_at(*size);
        said.push(b' ')?;
        said.extend_from_slice(frame)?;
        rest = behind;
    }
    Ok(())
}

// The payloads of the store, each without its first byte.
fn put_list(alloc: Global, disk: MemoryDisk, said: &mut Vec<u8>) -> Result<(), AllocError> {
    match Spool::open(disk, 0) {
        Err(_) => said.extend_from_slice(b" not opened"),
        Ok(mut spool) => {
            let done = put_all(alloc, &mut spool, said);
            let _ = spool.into_disk();
            done
        }
    }
}

fn untagged(payload: &[u8]) -> &[u8] {
    match payload {
        [_, frame @ ..] => frame,
        [] => payload,
    }
}

fn put_all(
    alloc: Global,
    spool: &mut Spool<MemoryDisk>,
    said: &mut Vec<u8>,
) -> Result<(), AllocError> {
    for _ in 0..spool.count() {
        if spool.staged() > 0 || spool.count() == 0 {
            return said.extend_from_slice(b" not whole");
        }
        if let Front::Item(payload) = spool.front(alloc)? {
            said.push(b' ')?;
            said.extend_from_slice(untagged(&payload))?;
        }
        if spool.advance(1).is_err() {
            return said.extend_from_slice(b" not advanced");
        }
    }
    Ok(())
}

// Over a store of these bytes: the words, and the bytes that the store has then, or those that a crash leaves.
fn run(
    alloc: Global,
    outlet: OutletScript,
    disk: MemoryDisk,
    limits: Limits,
    words: &str,
    said: &mut Vec<u8>,
) -> Result<Option<Vec<u8>>, AllocError>
    requires { limits.capacity ≤ 2 ^ 30 }
{
    let inner = MemoryOutlet::new(alloc, outlet);
    match Overflow::open(alloc, inner, disk, limits) {
        Err(_) => {
            said.extend_from_slice(b"not opened")?;
            Ok(None)
        }
        Ok(mut overflow) => {
            let done = steps(&mut overflow, alloc, words, said);
            let (inner, disk) = overflow.into_parts();
            done?;
            said.extend_from_slice(b"out:")?;
            put_frames(inner.frames(), said)?;
            Ok(Some(disk.image(&[Pick::Old])?))
        }
    }
}

fn fresh(alloc: Global, bytes: Vec<u8>, plan: DiskPlan) -> Result<Option<MemoryDisk>, AllocError> {
    if bytes.len() as u64 >= 1 << 62 {
        return Ok(None);
    }
    Ok(Some(MemoryDisk::failing(alloc, bytes, plan)?))
}

// The first words over the row's devices; those behind each `/` over devices that work, those behind each `/ again `
// over the row's outlet, and the bytes that a crash left.
fn runs(
    alloc: Global,
    setup: &RowSetup<'_>,
    words: &str,
    said: &mut Vec<u8>,
) -> Result<(), AllocError>
    requires { setup.now.capacity ≤ 2 ^ 30 }
{
    let limits = Limits {
        capacity: setup.capacity,
        memory: setup.memory,
    };
    let mut bytes = vec![in alloc; 0u8; 128]?;
    let mut outlet = script(alloc, setup.fails, setup.waits)?;
    let mut plan = disk_plan(alloc, setup.disk)?;
    for part in words.split(" / ") {
        let mut part = part;
        if let Some(rest) = part.strip_prefix("again ") {
            outlet = script(alloc, setup.fails, setup.waits)?;
            part = rest;
        }
        let Some(disk) = fresh(alloc, bytes, plan)? else {
            return Ok(());
        };
        let Some(left) = run(alloc, outlet, disk, limits, part, said)? else {
            return Ok(());
        };
        bytes = left;
        outlet = OutletScript::never(alloc);
        plan = disk_plan(alloc, "-")?;
        said.extend_from_slice(b" | ")?;
    }
    let Some(disk) = fresh(alloc, bytes, plan)? else {
        return Ok(());
    };
    said.extend_from_slice(b"store:")?;
    put_list(alloc, disk, said)
}

/// Says what a row comes to.
pub(crate) fn tell(alloc: Global, row: &str, said: &mut Vec<u8>) -> Result<(), AllocError> {
    let Some((setup, words)) = parts(row) else {
        return said.extend_from_slice(b"not understood");
    };
    if setup.capacity > 1 << 30 {
        return said.extend_from_slice(b"too large");
    }
    runs(alloc, &setup, words, said)
}
