// Disk-buffers with entries of format 1, spelled anew in format 2: the exact bytes, and what a crash leaves.
use sg_buffer::Upgrade;
use sg_memory_disk::{DiskChange, MemoryDisk, Pick};
use sg_spool::{Front, Spool};
use sg_stable::StoreRefusal;
use std::alloc::Global;
use std::test::Fail;

const PICKS: [Pick; 4] = [Pick::Old, Pick::New, Pick::Ones, Pick::Zeros];

// Payloads are hexadecimal words, a line for each. Stores have the place of each part before its words,
// and are zero elsewhere. Changes are those since an opening, which ends with a sync.

// One entry of format 1, at 64.
const ONE: &str =
    "01 01 00000000 0000000000000004 0d 0000000000000000 0000 00000001 00000007 4d455353414745 00000003 6f6e65";

const ONE_NEW: &str =
    "02 01 00000000 0000000000000004 0d 0000000000000000 0000 0000000000000000 0000 00000000 00000001 00000007 4d455353414745 00000003 6f6e65";

pub const ONE_BEFORE: &str =
    "64 01 0000002f 01 01 00000000 0000000000000004 0d 0000000000000000 0000 00000001 00000007 4d455353414745 00000003 6f6e65";

pub const ONE_CHANGES: &str = "sync
117 01 0000003d 02 01 00000000 0000000000000004 0d 0000000000000000 0000 0000000000000000 0000 00000000 00000001 00000007 4d455353414745 00000003 6f6e65 00
sync
32 0000000000000035
sync
0 01
sync";

pub const ONE_AFTER: &str = "0 01
32 0000000000000035
64 01 0000002f 01 01 00000000 0000000000000004 0d 0000000000000000 0000 00000001 00000007 4d455353414745 00000003 6f6e65 00
117 01 0000003d 02 01 00000000 0000000000000004 0d 0000000000000000 0000 0000000000000000 0000 00000000 00000001 00000007 4d455353414745 00000003 6f6e65 00";

// The same entry, one of format 2 with a tag, and bytes that are no entry.
const SEVERAL: &str =
    "01 01 00000000 0000000000000004 0d 0000000000000000 0000 00000001 00000007 4d455353414745 00000003 6f6e65
02 00 00000001 0000000000000009 26 0000000000000000 0000 0000000000000001 0000 00000001 00000001 61 00000000
01 01 00000000 0000000000000004 0d 0000000000000000 0000 00000001 00000007 4d455353414745 00000003 6f6e65 00";

const SEVERAL_NEW: &str =
    "02 01 00000000 0000000000000004 0d 0000000000000000 0000 0000000000000000 0000 00000000 00000001 00000007 4d455353414745 00000003 6f6e65
02 00 00000001 0000000000000009 26 0000000000000000 0000 0000000000000001 0000 00000001 00000001 61 00000000
01 01 00000000 0000000000000004 0d 0000000000000000 0000 00000001 00000007 4d455353414745 00000003 6f6e65 00";

const SEVERAL_BEFORE: &str =
    "64 01 0000002f 01 01 00000000 0000000000000004 0d 0000000000000000 0000 00000001 00000007 4d455353414745 00000003 6f6e65
116 01 00000030 02 00 00000001 0000000000000009 26 0000000000000000 0000 0000000000000001 0000 00000001 00000001 61 00000000
169 01 00000030 01 01 00000000 0000000000000004 0d 0000000000000000 0000 00000001 00000007 4d455353414745 00000003 6f6e65 00 00";

const SEVERAL_CHANGES: &str = "sync
223 01 0000003d 02 01 00000000 0000000000000004 0d 0000000000000000 0000 0000000000000000 0000 00000000 00000001 00000007 4d455353414745 00000003 6f6e65
289 01 00000030 02 00 00000001 0000000000000009 26 0000000000000000 0000 0000000000000001 0000 00000001 00000001 61 00000000
342 01 00000030 01 01 00000000 0000000000000004 0d 0000000000000000 0000 00000001 00000007 4d455353414745 00000003 6f6e65 00 00
sync
32 000000000000009f
sync
0 01
sync";

const SEVERAL_AFTER: &str = "0 01
32 000000000000009f
64 01 0000002f 01 01 00000000 0000000000000004 0d 0000000000000000 0000 00000001 00000007 4d455353414745 00000003 6f6e65
116 01 00000030 02 00 00000001 0000000000000009 26 0000000000000000 0000 0000000000000001 0000 00000001 00000001 61 00000000
169 01 00000030 01 01 00000000 0000000000000004 0d 0000000000000000 0000 00000001 00000007 4d455353414745 00000003 6f6e65 00 00
223 01 0000003d 02 01 00000000 0000000000000004 0d 0000000000000000 0000 0000000000000000 0000 00000000 00000001 00000007 4d455353414745 00000003 6f6e65
289 01 00000030 02 00 00000001 0000000000000009 26 0000000000000000 0000 0000000000000001 0000 00000001 00000001 61 00000000
342 01 00000030 01 01 00000000 0000000000000004 0d 0000000000000000 0000 00000001 00000007 4d455353414745 00000003 6f6e65 00 00";

// The same entry at 80, a jump at 132, and bytes that are no entry at 64.
const JUMP: &str =
    "01 01 00000000 0000000000000004 0d 0000000000000000 0000 00000001 00000007 4d455353414745 00000003 6f6e65
61626364";

const JUMP_NEW: &str =
    "02 01 00000000 0000000000000004 0d 0000000000000000 0000 0000000000000000 0000 00000000 00000001 00000007 4d455353414745 00000003 6f6e65
61626364";

const JUMP_BEFORE: &str = "16 0000000000000010
64 01 00000004 61626364 00
80 01 0000002f 01 01 00000000 0000000000000004 0d 0000000000000000 0000 00000001 00000007 4d455353414745 00000003 6f6e65
132 01 00000000";

const JUMP_CHANGES: &str = "sync
137 01 0000003d 02 01 00000000 0000000000000004 0d 0000000000000000 0000 0000000000000000 0000 00000000 00000001 00000007 4d455353414745 00000003 6f6e65
203 01 00000004 61626364 00
sync
32 0000000000000049
sync
0 01
sync";

const JUMP_AFTER: &str = "0 01
16 0000000000000010
32 0000000000000049
64 01 00000004 61626364 00
80 01 0000002f 01 01 00000000 0000000000000004 0d 0000000000000000 0000 00000001 00000007 4d455353414745 00000003 6f6e65
132 01 00000000
137 01 0000003d 02 01 00000000 0000000000000004 0d 0000000000000000 0000 0000000000000000 0000 00000000 00000001 00000007 4d455353414745 00000003 6f6e65
203 01 00000004 61626364 00";

// The bytes that the words spell.
fn spelled(alloc: Global, words: &str) -> Result<Vec<u8>, Fail> {
    let mut bytes = Vec::new(alloc);
    for word in words.split(' ') {
        let part = hex::decode(alloc, word)?;
        bytes.extend_from_slice(&part)?;
    }
    Ok(bytes)
}

// A store with these parts, of 128 bytes at least.
pub(crate) fn store(alloc: Global, parts: &str) -> Result<Vec<u8>, Fail> {
    let mut bytes = Vec::new(alloc);
    for line in parts.lines() {
        let (at, words) = line.split_once(' ').ok_or("no place")?;
        bytes.resize(at.parse()?, 0)?;
        let part = spelled(alloc, words)?;
        bytes.extend_from_slice(&part)?;
    }
    if bytes.len() < 128 {
        bytes.resize(128, 0)?;
    }
    Ok(bytes)
}

fn open(disk: MemoryDisk) -> Result<Spool<MemoryDisk>, StoreRefusal> {
    match Spool::open(disk, 1000) {
        Ok(spool) => Ok(spool),
        Err((_, refusal)) => Err(refusal),
    }
}

// A store that is spelled anew, over a disk that lets so many calls pass. Whether that was done.
fn rewritten(alloc: Global, before: &str, calls: u64) -> Result<(bool, MemoryDisk), Fail> {
    let mut disk = MemoryDisk::new(alloc, store(alloc, before)?)?;
    disk.stop_after(calls);
    match Spool::open(disk, 1000) {
        Ok(mut spool) => {
            let mut recode = Upgrade;
            let done = spool.rewrite(alloc, &mut recode).is_ok();
            Ok((done, spool.into_disk()))
        }
        Err((disk, _)) => Ok((false, disk)),
    }
}

fn is_change(alloc: Global, change: &DiskChange, line: &str) -> Result<bool, Fail> {
    match change {
        DiskChange::Synced => Ok(line == "sync"),
        DiskChange::Tore(_) | DiskChange::Lost(_) => Ok(false),
        DiskChange::Wrote(written) => {
            let (at, words) = line.split_once(' ').ok_or("no place")?;
            let place: u64 = at.parse()?;
            let wanted = spelled(alloc, words)?;
            Ok(written.at == place && written.bytes.as_slice() == wanted.as_slice())
        }
    }
}

// Whether the disk was changed as the lines say.
pub(crate) fn has_changes(alloc: Global, disk: &MemoryDisk, lines: &str) -> Result<bool, Fail> {
    let changes = disk.changes();
    for (change, line) in changes.iter().zip(lines.lines()) {
        if !is_change(alloc, change, line)? {
            return Ok(false);
        }
    }
    Ok(changes.len() == lines.lines().count())
}

#[test]
fn exact_bytes(rt: HostRuntime) -> Result<(), Fail> {
    let alloc = rt.alloc();
    for (before, changes, after) in [
        (ONE_BEFORE, ONE_CHANGES, ONE_AFTER),
        (SEVERAL_BEFORE, SEVERAL_CHANGES, SEVERAL_AFTER),
        (JUMP_BEFORE, JUMP_CHANGES, JUMP_AFTER),
        ("", "sync", ""),
    ] {
        let (done, disk) = rewritten(alloc, before, 1000)?;
        assert!(rt; done, "{before}");
        assert!(rt; has_changes(alloc, &disk, changes)?, "{before}");
        let after = store(alloc, after)?;
        assert_eq!(rt; disk.bytes(), after.as_slice());
    }
    Ok(())
}

// Whether the list has these payloads, which are taken off it.
fn drains(alloc: Global, spool: &mut Spool<MemoryDisk>, payloads: &str) -> Result<bool, Fail> {
    for line in payloads.lines() {
        let wanted = spelled(alloc, line)?;
        if spool.staged() > 0 {
            return Ok(false);
        }
        match spool.front(alloc)? {
            Front::Item(found) => {
                if found.as_slice() != wanted.as_slice() {
                    return Ok(false);
                }
            }
            _ => return Ok(false),
        }
        if spool.count() > 0 && spool.staged() == 0 {
            spool.advance(1)?;
        }
    }
    Ok(spool.count() == 0)
}

// Whether a store of these bytes has these payloads.
fn holds(alloc: Global, bytes: Vec<u8>, payloads: &str) -> Result<bool, Fail> {
    let mut spool = open(MemoryDisk::new(alloc, bytes)?)?;
    let result = drains(alloc, &mut spool, payloads);
    let _ = spool.into_disk();
    result
}

// Whether a change is the write of the selector.
fn is_selector(change: &DiskChange) -> bool {
    match change {
        DiskChange::Wrote(written) => written.at == 0,
        _ => false,
    }
}

// Whether an image of this pick has the new list: the selector is odd in it, as written or all ones, or
// stable.
fn is_new(disk: &MemoryDisk, pick: &Pick) -> bool {
    let Some((last, before)) = disk.changes().split_last() else {
        return false;
    };
    if is_selector(last) {
        return matches!(pick, Pick::New | Pick::Ones);
    }
    match before.last() {
        Some(change) => is_selector(change),
        None => false,
    }
}

// Whether each image has the list that it must have.
fn has_images(alloc: Global, disk: &MemoryDisk, old: &str, new: &str) -> Result<bool, Fail> {
    for pick in PICKS {
        let picks = [pick];
        let payloads = if is_new(disk, &picks[0]) { new } else { old };
        if !holds(alloc, disk.image(&picks)?, payloads)? {
            return Ok(false);
        }
    }
    Ok(true)
}

// Stops at each call in turn, until none fails. Whether each image has the old list or the new one.
fn is_whole(alloc: Global, before: &str, old: &str, new: &str) -> Result<bool, Fail> {
    for calls in 0..60 {
        let (done, disk) = rewritten(alloc, before, calls)?;
        if !has_images(alloc, &disk, old, new)? {
            return Ok(false);
        }
        if done {
            return holds(alloc, disk.bytes().to_vec(alloc)?, new);
        }
    }
    Ok(false)
}

#[test]
fn old_or_new(rt: HostRuntime) -> Result<(), Fail> {
    let alloc = rt.alloc();
    for (before, old, new) in [
        (ONE_BEFORE, ONE, ONE_NEW),
        (SEVERAL_BEFORE, SEVERAL, SEVERAL_NEW),
        (JUMP_BEFORE, JUMP, JUMP_NEW),
    ] {
        assert!(rt; is_whole(alloc, before, old, new)?, "{before}");
    }
    Ok(())
}
