// The device calls and answers of small lists, over disks in memory.
use sg_device::NoMemory;
use sg_memory_disk::{DiskChange, DiskWrite, MemoryDisk};
use sg_spool::{Appended, Block, Front, Recode, Spool, Walked};
use sg_stable::StoreRefusal;
use std::alloc::Global;
use std::test::Fail;

// An entry of a message in the older format.
const FORMAT1: &[u8; 47] =
    b"\x01\x01\0\0\0\0\0\0\0\0\0\0\0\x04\x0d\0\0\0\0\0\0\0\0\0\0\0\0\0\x01\0\0\0\x07MESSAGE\0\0\0\x03one";

// A call, the answer, and the list after it; each line goes on from the one before.
const CAPACITY: &str = "append abcd: Done, abcd
append efgh: Done, abcd efgh
append ijkl: NoRoom, abcd efgh
advance 1: Done, efgh
append ijkl: Done, efgh ijkl
append m: NoRoom, efgh ijkl
advance 1: Done, ijkl
advance 1: Done,";

// The same, from a fresh store over the end of the ring.
const RING: &str = "append abcd: Done, abcd
append efgh: Done, abcd efgh
advance 1: Done, efgh
append ijkl: Done, efgh ijkl
advance 1: Done, ijkl
append mnop: Done, ijkl mnop
advance 1: Done, mnop";

// An empty list whose head stands at 91.
const ROW: &str = "append abcd: Done, abcd
append efgh: Done, abcd efgh
advance 2: Done,
append ijkl: Done, ijkl
advance 1: Done,";

// Two entries staged and committed, and both taken off.
const COMMITTED: &str = "sync
65 00000002616200
71 0100000002636400
sync
64 01
sync
32 000000000000000e
sync
0 01
sync";

// Two entries staged over the end of the ring.
const STAGED_OVER: &str = "sync
92 000000046162636400
64 0100000002656600
100 0100000000
sync
91 01
sync
32 0000000000000007
sync
0 03
sync";

// An entry staged, and one for which the list is moved first.
const STAGED_GATHERED: &str = "sync
74 00000002616200
sync
73 01
sync
105 01000000046d6e6f70
114 0100000004717273740100000002616200
sync
16 0000000000000029
sync
0 04
sync
131 0000000e303030303030303030303030303000
sync
130 01
sync";

// The changes since an opening: a write's place and bytes in hexadecimal, or a sync.
const APPENDED: &str = "sync
65 00000002616200
sync
64 01
sync
32 0000000000000007
sync
0 01
sync";

const WRAPPED: &str = "sync
64 01000000047172737400
101 00000000
sync
100 01
sync
16 0000000000000000
sync
0 04
sync";

const GATHERED: &str = "sync
105 01000000046d6e6f70
114 01000000047172737400
sync
16 0000000000000029
sync
0 04
sync
124 0000000e303030303030303030303030303000
sync
123 01
sync";

const MIGRATED: &str = "sync
117 010000002f01010000000000000000000000040d0000000000000000000000000001000000074d455353414745000000036f6e6500
sync
32 0000000000000035
sync
0 01
sync";

fn fresh(alloc: Global) -> Result<MemoryDisk, Fail> {
    Ok(MemoryDisk::new(alloc, vec![in alloc; 0u8; 128]?)?)
}

fn block(alloc: Global, payload: &[u8]) -> Result<Block, Fail> {
    if payload.is_empty() || payload.len() > 100 {
        return Err(Fail::from("no payload"));
    }
    Ok(Block::new(alloc, payload.to_vec(alloc)?)?)
}

// Opens a store and gives it back with the answer to an append and what was made stable by it.
fn open(disk: MemoryDisk, capacity: u64) -> Result<Spool<MemoryDisk>, StoreRefusal> {
    match Spool::open(disk, capacity) {
        Ok(spool) => Ok(spool),
        Err((_, refusal)) => Err(refusal),
    }
}

// The payloads of a list, each behind a space. They are taken off it.
fn drain(alloc: Global, disk: MemoryDisk) -> Result<String, Fail> {
    let mut spool = open(disk, 0)?;
    let mut text = String::new(alloc);
    let result = take_all(alloc, &mut spool, &mut text);
    let _ = spool.into_disk();
    result?;
    Ok(text)
}

fn take_all(alloc: Global, spool: &mut Spool<MemoryDisk>, text: &mut String) -> Result<(), Fail> {
    for _ in 0..spool.count() {
        if spool.staged() > 0 {
            return Err(Fail::from("something is staged"));
        }
        if let Front::Item(payload) = spool.front(alloc)? {
            text.push(' ')?;
            text.push_str(str::from_utf8(&payload)?)?;
        }
        take_off(spool, 1)?;
    }
    Ok(())
}

// Takes so many entries off a list that has them.
fn take_off(spool: &mut Spool<MemoryDisk>, n: u64) -> Result<&'static str, Fail> {
    if n == 0 || n > spool.count() || spool.staged() > 0 {
        return Err(Fail::from("not so many"));
    }
    spool.advance(n)?;
    Ok("Done")
}

fn said(appended: Appended) -> &'static str {
    match appended {
        Appended::Done => "Done",
        Appended::NoRoom => "NoRoom",
        Appended::DiskFailed => "DiskFailed",
    }
}

fn append(spool: &mut Spool<MemoryDisk>, block: &Block) -> Result<&'static str, Fail> {
    if spool.staged() > 0 {
        return Err(Fail::from("something is staged"));
    }
    Ok(said(spool.append(block)))
}

fn commit(spool: &mut Spool<MemoryDisk>) -> Result<&'static str, Fail> {
    spool.commit()?;
    Ok("Done")
}

// A call: `append TEXT`, `stage TEXT`, `commit` or `advance N`.
fn perform(alloc: Global, spool: &mut Spool<MemoryDisk>, call: &str) -> Result<&'static str, Fail> {
    let (name, text) = call.split_once(' ').unwrap_or((call, ""));
    match name {
        "append" => append(spool, &block(alloc, text.as_bytes())?),
        "stage" => Ok(said(spool.stage(&block(alloc, text.as_bytes())?))),
        "commit" if text.is_empty() => commit(spool),
        "advance" => take_off(spool, text.parse()?),
        _ => Err(Fail::from("no call")),
    }
}

// A write's place and bytes in hexadecimal.
fn add_write(alloc: Global, text: &mut String, written: &DiskWrite) -> Result<(), Fail> {
    text.push_str(format!(in alloc; "{} ", written.at)?.as_str())?;
    for byte in written.bytes.as_slice() {
        text.push_str(format!(in alloc; "{byte:02x}")?.as_str())?;
    }
    Ok(())
}

// The changes of a disk as text.
fn changes(alloc: Global, disk: &MemoryDisk) -> Result<String, Fail> {
    let mut text = String::new(alloc);
    for change in disk.changes() {
        if !text.is_empty() {
            text.push('\n')?;
        }
        match change {
            DiskChange::Synced => text.push_str("sync")?,
            DiskChange::Tore(_) => text.push_str("torn")?,
            DiskChange::Lost(_) => text.push_str("lost")?,
            DiskChange::Wrote(written) => add_write(alloc, &mut text, written)?,
        }
    }
    Ok(text)
}

// A call on a store: the answer, and the disk.
fn answer(
    alloc: Global,
    disk: MemoryDisk,
    capacity: u64,
    call: &str,
) -> Result<(&'static str, MemoryDisk), Fail> {
    let mut spool = open(disk, capacity)?;
    let said = perform(alloc, &mut spool, call);
    let disk = spool.into_disk();
    Ok((said?, disk))
}

// The list of a store, which keeps it.
fn list(alloc: Global, disk: &MemoryDisk) -> Result<String, Fail> {
    drain(alloc, MemoryDisk::new(alloc, disk.bytes().to_vec(alloc)?)?)
}

// One call on a store: whether it answers as the row says and leaves that list; and the disk.
fn row(
    alloc: Global,
    disk: MemoryDisk,
    capacity: u64,
    row: &str,
) -> Result<(bool, MemoryDisk), Fail> {
    let (call, wanted) = row.split_once(": ").ok_or("no colon")?;
    let (said, listed) = wanted.split_once(',').ok_or("no comma")?;
    let (answer, disk) = answer(alloc, disk, capacity, call)?;
    let same = answer == said && list(alloc, &disk)?.as_str() == listed;
    Ok((same, disk))
}

// Runs a table of calls from a fresh store, and counts the rows that come out as they say.
fn rows(alloc: Global, table: &str, capacity: u64) -> Result<(usize, MemoryDisk), Fail> {
    let mut disk = fresh(alloc)?;
    let mut good: usize = 0;
    for line in table.lines() {
        let (same, next) = row(alloc, disk, capacity, line)?;
        disk = next;
        if same {
            good = good.saturating_add(1);
        }
    }
    Ok((good, disk))
}

#[test]
fn tables(rt: HostRuntime) -> Result<(), Fail> {
    for (table, capacity) in [(CAPACITY, 20), (RING, 20)] {
        let (good, _) = rows(rt.alloc(), table, capacity)?;
        assert_eq!(rt; good, table.lines().count());
    }
    Ok(())
}

// Performs calls on a store, and gives back its disk.
fn performed(
    alloc: Global,
    disk: MemoryDisk,
    capacity: u64,
    calls: &str,
) -> Result<MemoryDisk, Fail> {
    let mut spool = open(disk, capacity)?;
    let result = perform_all(alloc, &mut spool, calls);
    let disk = spool.into_disk();
    result?;
    Ok(disk)
}

fn perform_all(alloc: Global, spool: &mut Spool<MemoryDisk>, calls: &str) -> Result<(), Fail> {
    for call in calls.split(", ") {
        perform(alloc, spool, call)?;
    }
    Ok(())
}

// A disk whose changes since its opening are not there.
fn closed(alloc: Global, disk: &MemoryDisk) -> Result<MemoryDisk, Fail> {
    Ok(MemoryDisk::new(alloc, disk.bytes().to_vec(alloc)?)?)
}

// The store that a table of calls leaves.
fn after(alloc: Global, table: &str) -> Result<MemoryDisk, Fail> {
    let (_, disk) = rows(alloc, table, 20)?;
    closed(alloc, &disk)
}

// The store behind RING, with an entry that goes over its end.
fn wrapped(alloc: Global) -> Result<MemoryDisk, Fail> {
    let disk = performed(alloc, after(alloc, RING)?, 20, "append qrst")?;
    closed(alloc, &disk)
}

// The store on which calls are traced.
fn start(alloc: Global, name: &str) -> Result<MemoryDisk, Fail> {
    match name {
        "fresh" => fresh(alloc),
        "ring" => after(alloc, RING),
        "row" => after(alloc, ROW),
        "wrapped" => wrapped(alloc),
        _ => Err(Fail::from("no such store")),
    }
}

// The changes that these calls make on that store.
fn traced(alloc: Global, store: &str, capacity: u64, calls: &str) -> Result<String, Fail> {
    let disk = performed(alloc, start(alloc, store)?, capacity, calls)?;
    changes(alloc, &disk)
}

#[test]
fn device_calls(rt: HostRuntime) -> Result<(), Fail> {
    for (store, capacity, calls, wanted) in [
        ("fresh", 20, "append ab, advance 1", APPENDED),
        ("ring", 20, "append qrst, advance 1", WRAPPED),
        ("wrapped", 60, "append 00000000000000", GATHERED),
        (
            "fresh",
            20,
            "stage ab, stage cd, commit, advance 2",
            COMMITTED,
        ),
        (
            "row",
            20,
            "stage abcd, stage ef, commit, advance 2",
            STAGED_OVER,
        ),
        (
            "wrapped",
            60,
            "stage ab, stage 00000000000000, commit",
            STAGED_GATHERED,
        ),
    ] {
        let text = traced(rt.alloc(), store, capacity, calls)?;
        assert_eq!(rt; text.as_str(), wanted, "{calls}");
    }
    Ok(())
}

// Spells each payload as it is.
#[derive(Drop)]
struct SameSpelling;

impl Recode for SameSpelling {
    ghost meaning = { λ _ payload. payload };

    ghost fits = { λ _ payload is. is };

    fn recode(&mut self, alloc: Global, payload: &[u8]) -> Result<Vec<u8>, NoMemory> {
        Ok(payload.to_vec(alloc)?)
    }
}

// Puts an entry on a list.
fn put(alloc: Global, spool: &mut Spool<MemoryDisk>, payload: &[u8]) -> Result<(), Fail> {
    let entry = block(alloc, payload)?;
    if spool.staged() > 0 {
        return Err(Fail::from("something is staged"));
    }
    match spool.append(&entry) {
        Appended::Done => Ok(()),
        _ => Err(Fail::from("not appended")),
    }
}

// Spells a list anew, each payload as it is.
fn respell(alloc: Global, spool: &mut Spool<MemoryDisk>) -> Result<(), Fail> {
    if spool.staged() > 0 {
        return Err(Fail::from("something is staged"));
    }
    let mut same = SameSpelling;
    spool.rewrite(alloc, &mut same)?;
    Ok(())
}

// The place of a list's first entry, and what stands there.
fn first(alloc: Global, spool: &mut Spool<MemoryDisk>) -> Result<(u64, Walked), Fail> {
    if spool.staged() > 0 {
        return Err(Fail::from("something is staged"));
    }
    let gate = spool.head();
    Ok((gate, spool.item(alloc, gate)?))
}

// A fresh store that gets one entry.
fn with_entry(alloc: Global) -> Result<MemoryDisk, Fail> {
    let mut spool = open(fresh(alloc)?, 1000)?;
    let result = put(alloc, &mut spool, FORMAT1);
    let disk = spool.into_disk();
    result?;
    Ok(disk)
}

// A store spelled anew.
fn respelled(alloc: Global, disk: MemoryDisk) -> Result<MemoryDisk, Fail> {
    let mut spool = open(disk, 1000)?;
    let result = respell(alloc, &mut spool);
    let disk = spool.into_disk();
    result?;
    Ok(disk)
}

fn first_of(alloc: Global, disk: MemoryDisk) -> Result<(u64, Walked), Fail> {
    let mut spool = open(disk, 1000)?;
    let result = first(alloc, &mut spool);
    let _ = spool.into_disk();
    result
}

// Whether the entry stands first, moved to its new place.
fn is_moved(alloc: Global, disk: MemoryDisk) -> Result<bool, Fail> {
    match first_of(alloc, disk)? {
        (gate, Walked::Item { payload, next }) => {
            Ok(gate == 117 && next == 169 && payload.as_slice() == FORMAT1.as_slice())
        }
        _ => Ok(false),
    }
}

#[test]
fn migration(rt: HostRuntime) -> Result<(), Fail> {
    let alloc = rt.alloc();
    let disk = respelled(alloc, closed(alloc, &with_entry(alloc)?)?)?;
    assert_eq!(rt; changes(alloc, &disk)?.as_str(), MIGRATED);
    assert!(rt; is_moved(alloc, disk)?);
    Ok(())
}

// Damaged stores of 128 bytes: a place, its byte, and the place of the damage.
const DAMAGED: &str = "1 1 1
15 255 15
24 1 24
40 9 40
63 1 63
16 1 72057594037928000
23 64 128
64 1 64
64 255 64";

// A store of 128 bytes, all zero but for this byte.
fn store(alloc: Global, at: usize, byte: u8) -> Result<MemoryDisk, Fail> {
    let mut bytes = vec![in alloc; 0u8; 128]?;
    if at < bytes.len() {
        bytes[at] = byte;
    }
    Ok(MemoryDisk::new(alloc, bytes)?)
}

// Whether a store isn't opened, because of damage at this place.
fn is_refused(disk: MemoryDisk, damage: u64) -> bool {
    match open(disk, 20) {
        Ok(spool) => {
            let _ = spool.into_disk();
            false
        }
        Err(refusal) => refusal == StoreRefusal::Damage(damage),
    }
}

fn is_damaged(alloc: Global, line: &str) -> Result<bool, Fail> {
    let (at, rest) = line.split_once(' ').ok_or("no place")?;
    let (byte, damage) = rest.split_once(' ').ok_or("no byte")?;
    let disk = store(alloc, at.parse()?, byte.parse()?)?;
    Ok(is_refused(disk, damage.parse()?))
}

#[test]
fn damaged(rt: HostRuntime) -> Result<(), Fail> {
    let alloc = rt.alloc();
    for line in DAMAGED.lines() {
        assert!(rt; is_damaged(alloc, line)?, "{line}");
    }
    Ok(())
}
