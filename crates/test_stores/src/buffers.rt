// Disk-buffers in entries: what an opening finds, older entries spelled anew, and messages read.
ghost use Rattle.std.specs.Prelude.{◌≡◌, false};

use crate::migration::{ONE_AFTER, ONE_BEFORE, ONE_CHANGES, has_changes, store};
use sg_buffer::{BufferEntries, EntryHead, first_messages, look, renew};
use sg_memory_disk::MemoryDisk;
use sg_msg::Message;
use sg_spool::Spool;
use sg_stable::StoreRefusal;
use std::alloc::Global;
use std::test::Fail;

// Stores have the place of each part before its hexadecimal words, and are zero elsewhere. What is found
// stands behind ` => `: source, end, flow-control and length in format 2 of each entry, or the place of
// the damage. Changes are those since an opening, which ends with a sync.

// Entries of both formats in one row, and behind a jump.
const FOUND: [&str; 8] = [
    " => ",
    "64 01 0000002f 01 01 00000000 0000000000000004 0d 0000000000000000 0000 00000001 00000007 4d455353414745 00000003 6f6e65
 => 0 4 true 61",
    "64 01 00000030 02 00 00000001 0000000000000009 26 0000000000000000 0000 0000000000000001 0000 00000001 00000001 61 00000000
 => 1 9 false 48",
    "64 01 0000002f 01 01 00000000 0000000000000004 0d 0000000000000000 0000 00000001 00000007 4d455353414745 00000003 6f6e65
116 01 00000030 02 00 00000001 0000000000000009 26 0000000000000000 0000 0000000000000001 0000 00000001 00000001 61 00000000 00
 => 0 4 true 61
1 9 false 48",
    "16 0000000000000040
64 01 00000030 02 00 00000001 0000000000000009 26 0000000000000000 0000 0000000000000001 0000 00000001 00000001 61 00000000
128 01 0000002f 01 01 00000000 0000000000000004 0d 0000000000000000 0000 00000001 00000007 4d455353414745 00000003 6f6e65
180 01 00000000
 => 0 4 true 61
1 9 false 48",
    // The second payload has a byte too many, and the others are an unknown format and no format at all.
    "64 01 0000002f 01 01 00000000 0000000000000004 0d 0000000000000000 0000 00000001 00000007 4d455353414745 00000003 6f6e65
116 01 00000031 02 00 00000001 0000000000000009 26 0000000000000000 0000 0000000000000001 0000 00000001 00000001 61 00000000 00 00
 => damaged 116",
    "64 01 00000004 03616263
 => damaged 64",
    "64 01 00000001 02
 => damaged 64",
];

// One entry of format 2, where no call changes anything.
const ONE_RENEWED: &str =
    "64 01 0000003d 02 01 00000000 0000000000000004 0d 0000000000000000 0000 0000000000000000 0000 00000000 00000001 00000007 4d455353414745 00000003 6f6e65 00";

fn is_head(alloc: Global, head: &EntryHead, line: &str) -> Result<bool, Fail> {
    let said = format!(in alloc;
        "{} {} {} {}",
        head.source, head.end, head.flow, head.length
    )?;
    Ok(said.as_str() == line)
}

fn are_heads(alloc: Global, found: &BufferEntries, lines: &str) -> Result<bool, Fail> {
    for (head, line) in found.heads.iter().zip(lines.lines()) {
        if !is_head(alloc, head, line)? {
            return Ok(false);
        }
    }
    Ok(found.heads.len() == lines.lines().count())
}

fn is_damage(refusal: StoreRefusal, lines: &str) -> Result<bool, Fail> {
    let at: u64 = lines.strip_prefix("damaged ").ok_or("no damage")?.parse()?;
    Ok(refusal == StoreRefusal::Damage(at))
}

// What is found in an opened disk-buffer.
fn look_through(alloc: Global, spool: Spool<MemoryDisk>) -> Result<BufferEntries, StoreRefusal>
    requires open { spool.closed ≡ false }
    requires unstaged { spool.rows.staged ≡ 0 }
{
    let mut spool = spool;
    let found = look(alloc, &mut spool);
    let _ = spool.into_disk();
    found
}

fn found_in(alloc: Global, disk: MemoryDisk) -> Result<BufferEntries, StoreRefusal> {
    match Spool::open(disk, 1000) {
        Ok(spool) => look_through(alloc, spool),
        Err((_, refusal)) => Err(refusal),
    }
}

// Whether this is found in that store.
fn finds(alloc: Global, row: &str) -> Result<bool, Fail> {
    let (parts, wanted) = row.split_once(" => ").ok_or("no answer")?;
    let disk = MemoryDisk::new(alloc, store(alloc, parts)?)?;
    match found_in(alloc, disk) {
        Ok(found) => are_heads(alloc, &found, wanted),
        Err(refusal) => is_damage(refusal, wanted),
    }
}

#[test]
fn looked_through(rt: HostRuntime) -> Result<(), Fail> {
    let alloc = rt.alloc();
    for row in FOUND {
        assert!(rt; finds(alloc, row)?, "{row}");
    }
    Ok(())
}

// Looks through an opened disk-buffer of one entry, spells it anew and reads it. Whether it says `one`.
fn renews(alloc: Global, spool: &mut Spool<MemoryDisk>) -> Result<bool, Fail>
    requires open { spool.old.closed ≡ false }
    requires unstaged { spool.old.rows.staged ≡ 0 }
{
    let found = look(alloc, spool)?;
    renew(alloc, spool, &found)?;
    if spool.count() != 1 {
        return Ok(false);
    }
    let messages = first_messages(alloc, spool, 1)?;
    match messages.first() {
        Some(message) => Ok(says_one(message)),
        None => Ok(false),
    }
}

fn says_one(message: &Message) -> bool {
    match message.get(b"MESSAGE") {
        Some(text) => text == b"one".as_slice(),
        None => false,
    }
}

// The same of a store; and its disk after that.
fn renewed(alloc: Global, before: &str) -> Result<(bool, MemoryDisk), Fail> {
    match Spool::open(MemoryDisk::new(alloc, store(alloc, before)?)?, 1000) {
        Ok(mut spool) => {
            let says = renews(alloc, &mut spool);
            let disk = spool.into_disk();
            Ok((says?, disk))
        }
        Err((disk, _)) => Ok((false, disk)),
    }
}

#[test]
fn spelled_anew(rt: HostRuntime) -> Result<(), Fail> {
    let alloc = rt.alloc();
    for (before, changes, after) in [
        (ONE_BEFORE, ONE_CHANGES, ONE_AFTER),
        (ONE_RENEWED, "sync", ONE_RENEWED),
    ] {
        let (says, disk) = renewed(alloc, before)?;
        assert!(rt; says, "{before}");
        assert!(rt; has_changes(alloc, &disk, changes)?, "{before}");
        let after = store(alloc, after)?;
        assert_eq!(rt; disk.bytes(), after.as_slice());
    }
    Ok(())
}
