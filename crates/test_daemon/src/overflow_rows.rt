// Runs of five lines through a disk-buffer that isn't reliable, with two frames in memory at most.
use crate::answer::run;
use crate::failing_rows::{holds, machine, run_in};
use sg_memory_disk::MemoryStores;
use sg_world::MemoryMachine;
use std::alloc::Global;
use std::mem::replace;
use std::sync::Wait;
use std::test::Fail;
use std::thread::Threads;

const CONFIG: &[u8] =
    b"@version: 4.2\nsource s { file(\"in\" flags(no-parse)); };\ndestination d { file(\"out\" template(\"$MSG\\n\") disk-buffer(reliable(no) disk-buf-size(1048576) mem-buf-length(2))); };\nlog { source(s); destination(d); flags(flow-control); };\n";

// A row as those of a reliable disk-buffer. The first store opened is the position store, and the second one the
// disk-buffer's, which is opened behind the outlet, and written where more than two frames are held.
const ROWS: &str = "\
no call;;0;position 24~destination 0 taken 5 dropped-full 0 dropped-disk 0 left 0~status 0~
the opening of the position store;store 0;4;cannot open store 0~
the opening of the inlet;inlet 0;4;cannot open inlet 0~
the opening of the outlet;outlet 0;4;cannot open destination 0~
the opening of the disk-buffer's store;store 1;4;cannot open store 1~
the first call of the disk-buffer's store;disk, disk 0;7;store 1 failed~
the first send alone;send 0;0;position 24~destination 0 taken 5 dropped-full 0 dropped-disk 0 left 0~status 0~
all sends;sends 0;6;position 24~destination 0 taken 5 dropped-full 0 dropped-disk 0 left 0~buffer 0 held 5~fault sink 0~status 6~
all sends and a write of the disk-buffer's store;disk, disk 4, sends 0;6;fault sink 0~fault store 1~status 6~
a pull;pull 0;8;fault inlet 0~status 8~
";

#[test]
fn frames_that_are_held_back(rt: HostRuntime) -> Result<(), Fail> {
    for row in ROWS.lines() {
        assert!(rt; holds(&rt, rt.alloc(), CONFIG, row)?, "{row}");
    }
    Ok(())
}

// A machine with the stores of another one.
fn with_stores_of(alloc: Global, before: &mut MemoryMachine) -> Result<MemoryMachine, Fail> {
    let mut machine = machine(alloc, CONFIG)?;
    machine.world.stores = replace(&mut before.world.stores, MemoryStores::new(alloc));
    Ok(machine)
}

fn run_behind<T: Threads + Wait + Eprint + Sync>(
    rt: &T,
    alloc: Global,
    before: &mut MemoryMachine,
) -> Result<Vec<u8>, Fail> {
    let mut machine = with_stores_of(alloc, before)?;
    Ok(run(rt, alloc, "run c --once", &mut machine)?)
}

// What a run answers whose outlet takes nothing, and the run behind it, whose outlet takes all.
fn run_both<T: Threads + Wait + Eprint + Sync>(
    rt: &T,
    alloc: Global,
    machine: &mut MemoryMachine,
) -> Result<(Vec<u8>, Vec<u8>), Fail> {
    let before = run_in(rt, alloc, "sends 0", machine)?;
    let after = run_behind(rt, alloc, machine)?;
    Ok((before, after))
}

fn run_twice<T: Threads + Wait + Eprint + Sync>(
    rt: &T,
    alloc: Global,
) -> Result<(Vec<u8>, Vec<u8>), Fail> {
    let mut machine = machine(alloc, CONFIG)?;
    run_both(rt, alloc, &mut machine)
}

// What the second run comes to.
const AFTER: &[u8] =
    b"one\ntwo\nthree\nfour\nfive\n;0;source 0 records 0 bad-frames 0 position 24\ndestination 0 taken 0 dropped-full 0 dropped-disk 0 left 0\nstatus 0\n";

#[test]
fn held_frames_go_out_first(rt: HostRuntime) -> Result<(), Fail> {
    let (before, after) = run_twice(&rt, rt.alloc())?;
    assert!(rt; before.starts_with(b"6;"));
    assert!(rt; after.as_slice() == AFTER);
    Ok(())
}
