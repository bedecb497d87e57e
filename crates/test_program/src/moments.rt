// What comes of runs whose devices stop at any call, and of runs over what a crash leaves of their stores. All are runs of one
// configuration with `--once`, which moves the five lines of a file through a disk-buffer, over a machine in memory. A row is one of
// these:
//
// - `each BEGIN STORE TEAR`: runs in which STORE stops behind no call, one, two and so on, up to a run that meets no stop. Behind each
//   of them come runs with working devices, over what a crash leaves of both stores by several lists of picks.
// - `stops BEGIN STORE TEAR`: how many of these runs met a stop, which may hang on the order in which threads come to the core.
// - `chain BEGIN STOP / STOP / ..`: runs one behind the other, each over what a crash leaves of the one before, and then one with
//   working devices.
// - `lengths CALLS`: what `spool` lists of an older disk-buffer, by two picks, behind runs in which its store stops behind so many
//   calls.
//
// BEGIN is `fresh` where there are no stores, or `older` where the position stands behind the first line, whose entry is in the
// disk-buffer in the format 1. STORE is `position` or `buffer`. TEAR is what a write or a sync that fails leaves: `-` nothing, or
// letters for picks. A STOP is `J K M P Q`: the position store stops behind J calls, the disk-buffer's behind K, the outlet behind M
// sends and reopenings, `-` for never; P and Q are the letters for the picks of the position store and of the disk-buffer's.
//
// A letter stands for what is where a write since the last sync went, the last one for those behind it too: `o` what was there
// before, `n` what was written, `1` bytes FF, `0` bytes 0.
//
// A row is right where each last run ends with status 0 and all runs that led to it took each line once at least and no other frame.
// Else the answer begins with DIFFERS.

mod due;
mod images;
mod lengths;
mod rows;
mod runs;

use crate::heard::Heard;
use sg_device::NoMemory;
use std::alloc::Global;
use std::sync::Wait;
use std::thread::Threads;

// What a row comes to; none where it isn't one.
fn told<T: Threads + Wait + Eprint + Sync>(
    rt: &T,
    alloc: Global,
    row: &str,
) -> Result<Option<Vec<u8>>, NoMemory> {
    let (kind, rest) = row.split_once(' ').unwrap_or((row, ""));
    match kind {
        "each" => rows::each(rt, alloc, rest),
        "stops" => rows::stops(rt, alloc, rest),
        "chain" => rows::chain(rt, alloc, rest),
        "lengths" => lengths::lengths(rt, alloc, rest),
        _ => Ok(None),
    }
}

/// What becomes of a row.
pub(crate) fn answer<T: Threads + Wait + Eprint + Sync>(
    rt: &T,
    alloc: Global,
    row: &str,
) -> Result<Heard, NoMemory> {
    match told(rt, alloc, row)? {
        Some(said) => Ok(Heard::Answer(said)),
        None => Ok(Heard::Unknown),
    }
}
