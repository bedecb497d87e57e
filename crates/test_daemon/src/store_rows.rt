// Stores of disk-buffers, listed over the machine in memory.
use crate::answer::{answer, is_text};
use crate::failing::fail_all;
use crate::machine::{field, with_files};
use sg_device::Name;
use sg_memory::MemoryWorld;
use sg_memory_disk::{MemoryDisk, MemoryStores};
use sg_outside::StoreSpec;
use sg_world::MemoryMachine;
use std::alloc::{AllocError, Global};
use std::sync::Wait;
use std::test::Fail;
use std::thread::Threads;

// An open gate, the length and an entry of format 1, and the same of an entry of format 2.
const OLDER: &str =
    "010000002f01010000000000000000000000040d0000000000000000000000000001000000074d455353414745000000036f6e65";

const NEWER: &str =
    "010000002b0200000000027fffffffffffffff0d00000000000000000000000000000000000000000000000000000000";

// A row: the length of a store of zeros, and what stands there, each with its place: bytes in hexadecimal,
// A for OLDER or B for NEWER; the call that fails, with its number among its kind; the exit status; what is
// said, with `~` for LF. A store of two entries is called on six times at its opening, and twice an entry.
const ROWS: &str = "\
128;;;0;entries 0~
128;64 A;;0;entry 0 source 0 end 4 flow yes length 47~entries 1~
256;64 A, 116 B;;0;entry 0 source 0 end 4 flow yes length 47~entry 1 source 2 end 9223372036854775807 flow no length 43~entries 2~
173;16 0000000000000038, 64 A, 120 B, 168 0100000000;;0;entry 0 source 2 end 9223372036854775807 flow no length 43~entry 1 source 0 end 4 flow yes length 47~entries 2~
128;0 01, 64 A, 32 0000000000000034;;0;entries 0~
256;64 A, 116 B;disk 0;7;store 0 failed~
256;64 A, 116 B;disk 5;7;store 0 failed~
256;64 A, 116 B;disk 6;7;store 0 failed~
256;64 A, 116 B;disk 7;7;store 0 failed~
256;64 A, 116 B;disk 8;7;entry 0 source 0 end 4 flow yes length 47~store 0 failed~
256;64 A, 116 B;disk 9;7;entry 0 source 0 end 4 flow yes length 47~store 0 failed~
256;64 A, 116 B;disk 10;0;entry 0 source 0 end 4 flow yes length 47~entry 1 source 2 end 9223372036854775807 flow no length 43~entries 2~
128;64 A;store 0;4;cannot open store 0~
128;64 A;say 0;10;
128;5 01;;5;store 0 damaged at 5~
128;63 01;;5;store 0 damaged at 63~
127;;;5;store 0 damaged at 127~
128;16 0000000000000040;;5;store 0 damaged at 128~
128;16 ffffffffffffffff;;5;store 0 damaged at 18446744073709551615~
128;64 01;;5;store 0 damaged at 64~
128;16 000000000000003d, 125 01;;5;store 0 damaged at 125~
128;64 A, 116 01;;5;store 0 damaged at 64~
256;64 A, 116 0140000041;;5;store 0 damaged at 116~
256;64 A, 116 0100000000;;5;store 0 damaged at 64~
128;64 01000000026162;;5;store 0 damaged at 64~
256;64 A, 116 01000000026162, 123 B;;5;entry 0 source 0 end 4 flow yes length 47~store 0 damaged at 116~
256;64 A, 65 00000030;;5;store 0 damaged at 64~
256;64 A, 69 03;;0;entry 0 frame length 46~entries 1~
128;64 0100000003036f6e;;0;entry 0 frame length 2~entries 1~
256;64 A, 69 04;;5;store 0 damaged at 64~
256;64 B, 69 01;;5;store 0 damaged at 64~
";

// The fields of a row.
#[derive(Drop)]
struct StoreRow<'a> {
    length: &'a str,
    parts: &'a str,
    calls: &'a str,
    answer: &'a str,
}

fn read_row(row: &str) -> Option<StoreRow<'_>> {
    let Some((length, rest)) = field(row) else {
        return None;
    };
    let Some((parts, rest)) = field(rest) else {
        return None;
    };
    match field(rest) {
        Some((calls, answer)) => Some(StoreRow {
            length,
            parts,
            calls,
            answer,
        }),
        None => None,
    }
}

// The hexadecimal digits of a part.
fn digits(text: &str) -> &str {
    match text {
        "A" => OLDER,
        "B" => NEWER,
        _ => text,
    }
}

fn lay(store: &mut [u8], place: usize, bytes: &[u8]) -> Result<(), Fail> {
    for (i, byte) in bytes.iter().enumerate() {
        let Some(slot) = store.get_mut(place.saturating_add(i)) else {
            return Err(Fail::new("no such place"));
        };
        *slot = *byte;
    }
    Ok(())
}

// Lays a part of a row, a place and bytes.
fn lay_part(alloc: Global, store: &mut [u8], part: &str) -> Result<(), Fail> {
    let (place, text) = part.split_once(' ').ok_or("no place")?;
    let bytes = hex::decode(alloc, digits(text))?;
    lay(store, place.parse()?, &bytes)
}

// Lays the parts of a row.
fn lay_parts(alloc: Global, store: &mut [u8], parts: &str) -> Result<(), Fail> {
    if parts.is_empty() {
        return Ok(());
    }
    for part in parts.split(", ") {
        lay_part(alloc, store, part)?;
    }
    Ok(())
}

// The bytes of a row's store.
fn laid(alloc: Global, row: &StoreRow<'_>) -> Result<Vec<u8>, Fail> {
    let mut store = vec![in alloc; 0u8; row.length.parse()?]?;
    lay_parts(alloc, &mut store, row.parts)?;
    Ok(store)
}

fn disk(alloc: Global, bytes: &[u8]) -> Result<MemoryDisk, AllocError> {
    MemoryDisk::new(alloc, bytes.to_vec(alloc)?)
}

// The store `q` of these bytes.
fn stores_with(alloc: Global, bytes: &[u8]) -> Result<MemoryStores, AllocError> {
    let disk = disk(alloc, bytes)?;
    let mut stores = MemoryStores::new(alloc);
    stores.put(alloc, b"q", disk)?;
    Ok(stores)
}

// A machine with the store `q` of these bytes.
fn with_store(alloc: Global, bytes: &[u8]) -> Result<MemoryMachine, AllocError> {
    let stores = stores_with(alloc, bytes)?;
    let mut machine = with_files(alloc, Vec::new(alloc));
    machine.world.stores = stores;
    Ok(machine)
}

// Whether the store that was closed last holds these bytes.
fn keeps(world: &MemoryWorld, bytes: &[u8]) -> bool {
    match world.stores.closed() {
        Some(cell) => match &cell.closed {
            Some(store) => store.disk.bytes() == bytes,
            None => false,
        },
        None => false,
    }
}

// Whether this machine lists what the row says, and its store holds the bytes as before.
fn lists_so<T: Threads + Wait + Eprint + Sync>(
    rt: &T,
    alloc: Global,
    row: &StoreRow<'_>,
    bytes: &[u8],
    machine: &mut MemoryMachine,
) -> Result<bool, Fail> {
    fail_all(alloc, row.calls, &mut machine.world)?;
    let listed = answer(rt, alloc, "spool q", machine)?;
    Ok(keeps(&machine.world, bytes) && is_text(alloc, &listed, row.answer)?)
}

fn lists_bytes<T: Threads + Wait + Eprint + Sync>(
    rt: &T,
    alloc: Global,
    row: &StoreRow<'_>,
    bytes: &[u8],
) -> Result<bool, Fail> {
    let mut machine = with_store(alloc, bytes)?;
    lists_so(rt, alloc, row, bytes, &mut machine)
}

// Whether a row holds, and whether it was understood.
fn holds<T: Threads + Wait + Eprint + Sync>(
    rt: &T,
    alloc: Global,
    line: &str,
) -> Result<bool, Fail> {
    let Some(row) = read_row(line) else {
        return Ok(false);
    };
    let bytes = laid(alloc, &row)?;
    lists_bytes(rt, alloc, &row, &bytes)
}

#[test]
fn stores(rt: HostRuntime) -> Result<(), Fail> {
    for line in ROWS.lines() {
        assert!(rt; holds(&rt, rt.alloc(), line)?, "{line}");
    }
    Ok(())
}

// Whether the store of this name can be opened where it isn't made.
fn is_there(alloc: Global, name: &[u8], world: &mut MemoryWorld) -> Result<bool, AllocError> {
    let spec = StoreSpec {
        name: Name::new(alloc, name)?,
        create: false,
        size: 128,
    };
    Ok(world.open_store(alloc, &spec).is_ok())
}

// Whether a store that isn't there can't be opened, and isn't made.
fn is_not_made<T: Threads + Wait + Eprint + Sync>(
    rt: &T,
    alloc: Global,
    machine: &mut MemoryMachine,
) -> Result<bool, AllocError> {
    let listed = answer(rt, alloc, "spool r", machine)?;
    let made = is_there(alloc, b"r", &mut machine.world)?;
    Ok(!made && listed.as_slice() == b"4;cannot open store 0\n".as_slice())
}

fn opens_what_is_there<T: Threads + Wait + Eprint + Sync>(
    rt: &T,
    alloc: Global,
) -> Result<bool, AllocError> {
    let bytes = vec![in alloc; 0u8; 128]?;
    let mut machine = with_store(alloc, &bytes)?;
    is_not_made(rt, alloc, &mut machine)
}

// A store of many entries.
fn many(alloc: Global) -> Result<Vec<u8>, Fail> {
    let entry = hex::decode(alloc, NEWER)?;
    let mut store = vec![in alloc; 0u8; 64]?;
    for _ in 0..1000u32 {
        store.extend_from_slice(&entry)?;
    }
    store.push(0)?;
    Ok(store)
}

fn push_line(alloc: Global, k: u32, lines: &mut Vec<u8>) -> Result<(), AllocError> {
    let line = format!(in alloc; "entry {k} source 2 end 9223372036854775807 flow no length 43\n")?;
    lines.extend_from_slice(line.as_bytes())
}

// What is said of it.
fn lines_of_many(alloc: Global) -> Result<Vec<u8>, AllocError> {
    let mut lines = b"0;".to_vec(alloc)?;
    for k in 0..1000u32 {
        push_line(alloc, k, &mut lines)?;
    }
    lines.extend_from_slice(b"entries 1000\n")?;
    Ok(lines)
}

fn listed<T: Threads + Wait + Eprint + Sync>(
    rt: &T,
    alloc: Global,
    bytes: &[u8],
) -> Result<Vec<u8>, AllocError> {
    let mut machine = with_store(alloc, bytes)?;
    answer(rt, alloc, "spool q", &mut machine)
}

// Whether a store of many entries, whose lines are said in pieces, is listed whole.
fn lists_many<T: Threads + Wait + Eprint + Sync>(rt: &T, alloc: Global) -> Result<bool, Fail> {
    let bytes = many(alloc)?;
    let listed = listed(rt, alloc, &bytes)?;
    Ok(listed == lines_of_many(alloc)?)
}

#[test]
fn other_stores(rt: HostRuntime) -> Result<(), Fail> {
    assert!(rt; opens_what_is_there(&rt, rt.alloc())?);
    assert!(rt; lists_many(&rt, rt.alloc())?);
    Ok(())
}
