// A position store and a disk-buffer: opened over these bytes, and stopped at each call.
ghost use Rattle.std.specs.Prelude.{◌≡◌, IfOk, IfErr, length};

use sg_memory_disk::MemoryDisk;
use sg_spool::Block;
use sg_stores::{CoreRefusal, OpenedStores, StoreKind, Stores};
use std::alloc::Global;
use std::test::Fail;

const KINDS: [StoreKind; 2] = [StoreKind::Position, StoreKind::Buffer { capacity: 1000 }];

// The bytes of the position store and, behind ` | `, of the disk-buffer: the place of each part before its hexadecimal words, and
// zeros elsewhere; behind ` => ` the position and the number of entries, or the store and the place of the damage.
const OPENED: [&str; 7] = [
    "0 00 | 0 00 => position 0 entries 0",
    "32 0000000000000005 | 64 01 00000001 02 => damaged 1 64",
    "16 0000000000000007 | 64 01 00000030 02 00 00000001 0000000000000009 26 0000000000000000 0000 0000000000000001 0000 00000001 00000001 61 00000000 => position 7 entries 1",
    "0 00 | 64 01 0000002f 01 01 00000000 0000000000000004 0d 0000000000000000 0000 00000001 00000007 4d455353414745 00000003 6f6e65 => position 0 entries 1",
    "127 01 | 64 01 00000001 02 => damaged 0 127",
    "0 00 | 40 01 => damaged 1 40",
    "200 00 | 0 00 => damaged 0 128",
];

// Two entries in format 2.
const FIRST: &str =
    "02 01 00000000 0000000000000004 0d 0000000000000000 0000 0000000000000000 0000 00000000 00000001 00000007 4d455353414745 00000003 6f6e65";

const SECOND: &str =
    "02 00 00000001 0000000000000009 26 0000000000000000 0000 0000000000000001 0000 00000001 00000001 61 00000000";

fn spelled(alloc: Global, words: &str) -> Result<Vec<u8>, Fail> {
    let mut bytes = Vec::new(alloc);
    for word in words.split(' ') {
        let part = hex::decode(alloc, word)?;
        bytes.extend_from_slice(&part)?;
    }
    Ok(bytes)
}

fn zeros(alloc: Global, count: usize) -> Result<Vec<u8>, Fail> {
    let mut bytes = Vec::new(alloc);
    bytes.resize(count, 0)?;
    Ok(bytes)
}

// A store with this part.
fn bytes_of(alloc: Global, part: &str) -> Result<Vec<u8>, Fail> {
    let (at, words) = part.split_once(' ').ok_or("no place")?;
    let mut bytes = zeros(alloc, at.parse()?)?;
    bytes.extend_from_slice(&spelled(alloc, words)?)?;
    if bytes.len() < 128 {
        bytes.resize(128, 0)?;
    }
    Ok(bytes)
}

// Disks with these bytes; the second one stops after so many calls.
fn disks_of(
    alloc: Global,
    position: Vec<u8>,
    buffer: Vec<u8>,
    calls: u64,
) -> Result<Vec<MemoryDisk>, Fail>
    ensures { IfOk result (λ disks. length disks.items ≡ 2) }
{
    let mut disks = Vec::new(alloc);
    disks.push(MemoryDisk::new(alloc, position)?)?;
    let mut disk = MemoryDisk::new(alloc, buffer)?;
    disk.stop_after(calls);
    disks.push(disk)?;
    Ok(disks)
}

#[tactic(auto, using(crate::proofs::Lengths::stores_length, crate::proofs::Lengths::found_length, crate::proofs::Lengths::back_length))]
fn open(
    alloc: Global,
    disks: Vec<MemoryDisk>,
) -> Result<OpenedStores<MemoryDisk>, (Vec<MemoryDisk>, CoreRefusal)>
    requires { length disks.items ≡ 2 }
    ensures stores { IfOk result (λ opened. length opened.stores ≡ 2) }
    ensures found { IfOk result (λ opened. length opened.found ≡ 2) }
    ensures back { IfErr result (λ e. length e.0.items ≡ 2) }
{
    match Stores::open(alloc, disks, &KINDS) {
        Ok(opened) => Ok(opened),
        Err((disks, refusal)) => Err((disks, refusal)),
    }
}

// Whether the stores were opened so.
fn is_opened(opened: &OpenedStores<MemoryDisk>, wanted: &str) -> Result<bool, Fail>
    requires stores { length opened.now.stores ≡ 2 }
    requires found { length opened.now.found ≡ 2 }
{
    let words = wanted.strip_prefix("position ").ok_or("damaged")?;
    let (position, entries) = words.split_once(" entries ").ok_or("no entries")?;
    let position: u64 = position.parse()?;
    let entries: usize = entries.parse()?;
    Ok(
        opened.stores.stored(Some(0)) == position
            && opened.found.at(0).heads.len() == 0
            && opened.found.at(1).heads.len() == entries,
    )
}

fn is_refused(refusal: CoreRefusal, wanted: &str) -> Result<bool, Fail> {
    let words = wanted.strip_prefix("damaged ").ok_or("opened")?;
    let (store, at) = words.split_once(' ').ok_or("no place")?;
    Ok(refusal == CoreRefusal::Damage(store.parse()?, at.parse()?))
}

// The disks of a row.
fn parts_of(alloc: Global, parts: &str) -> Result<Vec<MemoryDisk>, Fail>
    ensures { IfOk result (λ disks. length disks.items ≡ 2) }
{
    let (position, buffer) = parts.split_once(" | ").ok_or("no disk-buffer")?;
    disks_of(
        alloc,
        bytes_of(alloc, position)?,
        bytes_of(alloc, buffer)?,
        1000,
    )
}

fn opens(alloc: Global, row: &str) -> Result<bool, Fail> {
    let (parts, wanted) = row.split_once(" => ").ok_or("no answer")?;
    match open(alloc, parts_of(alloc, parts)?) {
        Ok(opened) => {
            let is = is_opened(&opened, wanted);
            let OpenedStores { stores, found: _ } = opened;
            let _disks = stores.into_disks();
            is
        }
        Err((_, refusal)) => is_refused(refusal, wanted),
    }
}

#[test]
fn opened(rt: HostRuntime) -> Result<(), Fail> {
    let alloc = rt.alloc();
    for row in OPENED {
        assert!(rt; opens(alloc, row)?, "{row}");
    }
    Ok(())
}

fn block_of(alloc: Global, words: &str) -> Result<Block, Fail> {
    let payload = spelled(alloc, words)?;
    if payload.is_empty() || payload.len() > 1000 {
        return Err(Fail::from("no payload"));
    }
    Ok(Block::new(alloc, payload)?)
}

fn stage(stores: &mut Stores<MemoryDisk>, block: &Block) -> bool
    requires { length stores.old ≡ 2 }
    ensures { length stores.new ≡ 2 }
{
    stores.stage(1, block)
}

fn commit(stores: &mut Stores<MemoryDisk>) -> bool
    requires { length stores.old ≡ 2 }
    ensures { length stores.new ≡ 2 }
{
    stores.commit(1)
}

// Stages two entries and commits them: whether the store works then, where it worked throughout.
fn append(stores: &mut Stores<MemoryDisk>, first: &Block, second: &Block) -> bool
    requires { length stores.old ≡ 2 }
    ensures { length stores.new ≡ 2 }
{
    let one = stage(stores, first);
    let two = stage(stores, second);
    let done = commit(stores);
    one && two && done
}

// Gives the disks back.
#[tactic(auto, using(crate::proofs::Lengths::disks_length))]
fn closed(stores: Stores<MemoryDisk>) -> Vec<MemoryDisk>
    requires { length stores ≡ 2 }
    ensures { length result.items ≡ 2 }
{
    stores.into_disks()
}

// The same of opened stores; and their disks.
fn append_to(
    opened: OpenedStores<MemoryDisk>,
    first: &Block,
    second: &Block,
) -> (bool, Vec<MemoryDisk>)
    requires { length opened.stores ≡ 2 }
    ensures { length result.1.items ≡ 2 }
{
    let OpenedStores {
        mut stores,
        found: _,
    } = opened;
    let done = append(&mut stores, first, second);
    (done, closed(stores))
}

// Two entries are appended over a disk that lets so many calls pass. Whether all of them did, and the disks, which work again.
fn appended(alloc: Global, calls: u64) -> Result<(bool, Vec<MemoryDisk>), Fail>
    ensures { IfOk result (λ r. length r.1.items ≡ 2) }
{
    let first = block_of(alloc, FIRST)?;
    let second = block_of(alloc, SECOND)?;
    let disks = disks_of(alloc, zeros(alloc, 128)?, zeros(alloc, 128)?, calls)?;
    match open(alloc, disks) {
        Ok(opened) => Ok(append_to(opened, &first, &second)),
        Err((disks, _)) => Ok((false, disks)),
    }
}

// How many entries stand in the disk-buffer.
fn entries_in(alloc: Global, disks: Vec<MemoryDisk>) -> Result<usize, Fail>
    requires { length disks.items ≡ 2 }
{
    let mut disks = disks;
    disks[1].stop_after(1000);
    match open(alloc, disks) {
        Ok(opened) => {
            let count = opened.found.at(1).heads.len();
            let OpenedStores { stores, found: _ } = opened;
            let _disks = stores.into_disks();
            Ok(count)
        }
        Err(_) => Err(Fail::from("damaged")),
    }
}

// Once all calls passed both entries stand there, and else none of them, the first or both; after 20 calls all have passed.
fn is_whole(alloc: Global, calls: u64) -> Result<bool, Fail> {
    let (done, disks) = appended(alloc, calls)?;
    let count = entries_in(alloc, disks)?;
    Ok(count <= 2 && (count == 2 || !done) && (done || calls < 20))
}

#[test]
fn stopped(rt: HostRuntime) -> Result<(), Fail> {
    let alloc = rt.alloc();
    for calls in 0..21 {
        assert!(rt; is_whole(alloc, calls)?, "{calls}");
    }
    Ok(())
}
