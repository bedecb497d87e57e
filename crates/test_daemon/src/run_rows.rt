// Runs of a configuration with one file to another.
use crate::answer::{is_text, run};
use crate::failing::fail_all;
use crate::machine::{field, text, with_input};
use sg_device::{Disk, Name};
use sg_memory::MemoryWorld;
use sg_memory_disk::{MemoryStore, MemoryStores};
use sg_outside::StoreSpec;
use sg_world::MemoryMachine;
use std::alloc::{AllocError, Global};
use std::mem::replace;
use std::sync::Wait;
use std::test::Fail;
use std::thread::Threads;

// A row: the input; the stored position, x for a damaged store; the call that fails, with its number
// among its kind; the words; the frames taken; the exit status; what is said. `~` is LF. A disk is called four times
// at its opening, and four times for a position. The actors of a round take their turns at the same time: where a row
// ends early, its second record comes some rounds behind the first one, so that each order of their turns ends so.
const ROWS: &str = "\
one~two~;0;;run c --once;one~two~;0;source 0 records 2 bad-frames 0 position 8~destination 0 taken 2 dropped-full 0 dropped-disk 0 left 0~status 0~
;0;;run c --once;;0;source 0 records 0 bad-frames 0 position 0~destination 0 taken 0 dropped-full 0 dropped-disk 0 left 0~status 0~
one~two;0;;run c --once;one~;0;source 0 records 1 bad-frames 0 position 4~destination 0 taken 1 dropped-full 0 dropped-disk 0 left 0~status 0~
one~two~;100;;run c --once;one~two~;0;source 0 records 2 bad-frames 0 position 8~destination 0 taken 2 dropped-full 0 dropped-disk 0 left 0~status 0~
one~two~;4;;run c --once;two~;0;source 0 records 1 bad-frames 0 position 8~destination 0 taken 1 dropped-full 0 dropped-disk 0 left 0~status 0~
one~two~;8;;run c --once;;0;source 0 records 0 bad-frames 0 position 8~destination 0 taken 0 dropped-full 0 dropped-disk 0 left 0~status 0~
one~two~;6;;run c --once;one~two~;0;source 0 records 2 bad-frames 0 position 8~destination 0 taken 2 dropped-full 0 dropped-disk 0 left 0~status 0~
a\r~~b;0;;run c --once;a~;0;source 0 records 2 bad-frames 0 position 4~destination 0 taken 1 dropped-full 0 dropped-disk 0 left 0~status 0~
one~;x;;run c --once;;5;store 0 damaged at 40~
one~;0;read 0;run c --once;;3;cannot read c~
one~;0;store 0;run c --once;;4;cannot open store 0~
one~;0;inlet 0;run c --once;;4;cannot open inlet 0~
one~;0;outlet 0;run c --once;;4;cannot open destination 0~
one~;0;disk 0;run c --once;;7;store 0 failed~
one~;0;disk 3;run c --once;;7;store 0 failed~
one~;100;disk 4;run c --once;;7;store 0 failed~
one~;100;disk 7;run c --once;;7;store 0 failed~
one~;0;disk 4;run c --once;one~;7;source 0 records 1 bad-frames 0 position 0~destination 0 taken 1 dropped-full 0 dropped-disk 0 left 0~fault store 0~status 7~
one~;0;disk 7;run c --once;one~;7;source 0 records 1 bad-frames 0 position 0~destination 0 taken 1 dropped-full 0 dropped-disk 0 left 0~fault store 0~status 7~
one~two~;0;send 1;run c --once;one~two~;0;source 0 records 2 bad-frames 0 position 8~destination 0 taken 2 dropped-full 0 dropped-disk 0 left 0~status 0~
one~twotwotwotwo~;0;sends 1;run c --once;one~;6;source 0 records 2 bad-frames 0 position 4~destination 0 taken 1 dropped-full 0 dropped-disk 0 left 1~fault sink 0~status 6~
one~two~;0;pull 1;run c --once;one~;8;source 0 records 1 bad-frames 0 position 4~destination 0 taken 1 dropped-full 0 dropped-disk 0 left 0~fault inlet 0~status 8~
one~;0;say 0;run c --once;one~;10;
one~twotwotwotwo~;0;;run c --once --rounds 2;one~;9;source 0 records 1 bad-frames 0 position 0~destination 0 taken 1 dropped-full 0 dropped-disk 0 left 0~status 9~
one~two~;0;;run c --rounds 9;one~two~;9;source 0 records 2 bad-frames 0 position 8~destination 0 taken 2 dropped-full 0 dropped-disk 0 left 0~status 9~
";

// The fields of a row.
#[derive(Drop)]
struct RunRow<'a> {
    input: &'a str,
    stored: &'a str,
    calls: &'a str,
    line: &'a str,
    answer: &'a str,
}

fn read_row(row: &str) -> Option<RunRow<'_>> {
    let Some((input, rest)) = field(row) else {
        return None;
    };
    let Some((stored, rest)) = field(rest) else {
        return None;
    };
    let Some((calls, rest)) = field(rest) else {
        return None;
    };
    match field(rest) {
        Some((line, answer)) => Some(RunRow {
            input,
            stored,
            calls,
            line,
            answer,
        }),
        None => None,
    }
}

// The bytes of a position in its store, or a byte that no position store has, and their place.
fn position(alloc: Global, stored: &str) -> Result<(u64, Vec<u8>), Fail> {
    if stored == "x" {
        return Ok((40, b"x".to_vec(alloc)?));
    }
    let position: u64 = stored.parse()?;
    Ok((16, position.to_be_bytes().to_vec(alloc)?))
}

fn store_spec(alloc: Global) -> Result<StoreSpec, AllocError> {
    Ok(StoreSpec {
        name: Name::new(alloc, b"pos-in")?,
        create: true,
        size: 128,
    })
}

fn opened(alloc: Global, world: &mut MemoryWorld) -> Result<MemoryStore, Fail> {
    let spec = store_spec(alloc)?;
    Ok(world.open_store(alloc, &spec)?)
}

fn write(store: &mut MemoryStore, at: u64, bytes: &[u8]) -> Result<(), Fail> {
    store.write_at(at, bytes)?;
    store.sync()?;
    Ok(())
}

// Lets the position store have these bytes at that place.
fn keep(alloc: Global, at: u64, bytes: &[u8], world: &mut MemoryWorld) -> Result<(), Fail> {
    let mut store = opened(alloc, world)?;
    let written = write(&mut store, at, bytes);
    world.close_store(store);
    written
}

// Lets the machine of a row have what is stored, and calls of it fail.
fn prepare(alloc: Global, row: &RunRow<'_>, world: &mut MemoryWorld) -> Result<(), Fail> {
    let (at, bytes) = position(alloc, row.stored)?;
    keep(alloc, at, &bytes, world)?;
    fail_all(alloc, row.calls, world)
}

// Whether this machine runs as the row says.
fn runs_so<T: Threads + Wait + Eprint + Sync>(
    rt: &T,
    alloc: Global,
    row: &RunRow<'_>,
    machine: &mut MemoryMachine,
) -> Result<bool, Fail> {
    prepare(alloc, row, &mut machine.world)?;
    let said = run(rt, alloc, row.line, machine)?;
    Ok(is_text(alloc, &said, row.answer)?)
}

fn machine(alloc: Global, row: &RunRow<'_>) -> Result<MemoryMachine, AllocError> {
    let input = text(alloc, row.input)?;
    with_input(alloc, &input)
}

fn row_runs<T: Threads + Wait + Eprint + Sync>(
    rt: &T,
    alloc: Global,
    row: &RunRow<'_>,
) -> Result<bool, Fail> {
    let mut machine = machine(alloc, row)?;
    runs_so(rt, alloc, row, &mut machine)
}

// Whether a row holds, and whether it was understood.
fn holds<T: Threads + Wait + Eprint + Sync>(
    rt: &T,
    alloc: Global,
    line: &str,
) -> Result<bool, Fail> {
    match read_row(line) {
        Some(row) => row_runs(rt, alloc, &row),
        None => Ok(false),
    }
}

#[test]
fn runs(rt: HostRuntime) -> Result<(), Fail> {
    for line in ROWS.lines() {
        assert!(rt; holds(&rt, rt.alloc(), line)?, "{line}");
    }
    Ok(())
}

// A machine with more lines and the stores of an earlier run.
fn later(alloc: Global, before: &mut MemoryMachine) -> Result<MemoryMachine, AllocError> {
    let mut machine = with_input(alloc, b"one\ntwo\nthree\n")?;
    machine.world.stores = replace(&mut before.world.stores, MemoryStores::new(alloc));
    Ok(machine)
}

fn run_later<T: Threads + Wait + Eprint + Sync>(
    rt: &T,
    alloc: Global,
    before: &mut MemoryMachine,
) -> Result<Vec<u8>, AllocError> {
    let mut machine = later(alloc, before)?;
    run(rt, alloc, "run c --once", &mut machine)
}

// What two runs answer: the second one finds the stores of the first, and more lines.
fn run_both<T: Threads + Wait + Eprint + Sync>(
    rt: &T,
    alloc: Global,
    machine: &mut MemoryMachine,
) -> Result<(Vec<u8>, Vec<u8>), AllocError> {
    let before = run(rt, alloc, "run c --once", machine)?;
    let after = run_later(rt, alloc, machine)?;
    Ok((before, after))
}

fn run_twice<T: Threads + Wait + Eprint + Sync>(
    rt: &T,
    alloc: Global,
) -> Result<(Vec<u8>, Vec<u8>), AllocError> {
    let mut machine = with_input(alloc, b"one\ntw")?;
    run_both(rt, alloc, &mut machine)
}

#[test]
fn later_runs_take_new_lines_alone(rt: HostRuntime) -> Result<(), Fail> {
    let (before, after) = run_twice(&rt, rt.alloc())?;
    assert!(rt; before.starts_with(b"one\n;0;"));
    assert!(rt; after.starts_with(b"two\nthree\n;0;source 0 records 2 bad-frames 0 position 14\n"));
    Ok(())
}
