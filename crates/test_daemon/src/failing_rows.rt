// Runs in which calls fail: five lines through a disk-buffer.
use crate::answer::answer;
use crate::failing::fail_all;
use crate::machine::{add_file, field, text, with_files};
use sg_memory::MemoryFile;
use sg_world::MemoryMachine;
use std::alloc::{AllocError, Global};
use std::sync::Wait;
use std::test::Fail;
use std::thread::Threads;

const CONFIG: &[u8] =
    b"@version: 4.2\nsource s { file(\"in\" flags(no-parse)); };\ndestination d { file(\"out\" template(\"$MSG\\n\") disk-buffer(reliable(yes) disk-buf-size(1048576))); };\nlog { source(s); destination(d); flags(flow-control); };\n";

// A row: what fails; the calls that fail; the exit status; how what is said ends, with `~` for LF. The first store opened is
// the position store, which is called four times at its opening, and the second one the disk-buffer's.
const ROWS: &str = "\
no call;;0;taken 5 dropped-full 0 dropped-disk 0 left 0~status 0~
the reading of the configuration;read 0;3;cannot read c~
the opening of the position store;store 0;4;cannot open store 0~
the opening of the disk-buffer's store;store 1;4;cannot open store 1~
the opening of the inlet;inlet 0;4;cannot open inlet 0~
the opening of the outlet;outlet 0;4;cannot open destination 0~
the first call of the position store;disk 0;7;store 0 failed~
its last call before the rounds;disk 3;7;store 0 failed~
the first call of the disk-buffer's store;disk, disk 0;7;store 1 failed~
a write of the position store in the rounds;disk 4;7;fault store 0~status 7~
a write of the disk-buffer's store in the rounds;disk, disk 4;7;fault store 1~status 7~
the first send alone;send 0;0;taken 5 dropped-full 0 dropped-disk 0 left 0~status 0~
three sends in a row;send 0 2 4;6;taken 0 dropped-full 0 dropped-disk 0 left 5~fault sink 0~status 6~
three sends and a write of the position store;send 0 2 4, disk 4;6;fault sink 0~fault store 0~status 6~
a pull;pull 0;8;fault inlet 0~status 8~
the saying;say 0;10;
";

fn files(alloc: Global, config: &[u8]) -> Result<Vec<MemoryFile>, AllocError> {
    let mut files = Vec::new(alloc);
    add_file(alloc, b"c", config, &mut files)?;
    add_file(alloc, b"in", b"one\ntwo\nthree\nfour\nfive\n", &mut files)?;
    Ok(files)
}

/// A machine with this configuration and five lines.
pub(crate) fn machine(alloc: Global, config: &[u8]) -> Result<MemoryMachine, AllocError> {
    Ok(with_files(alloc, files(alloc, config)?))
}

/// The exit status of this machine and what is said, where these calls fail.
pub(crate) fn run_in<T: Threads + Wait + Eprint + Sync>(
    rt: &T,
    alloc: Global,
    calls: &str,
    machine: &mut MemoryMachine,
) -> Result<Vec<u8>, Fail> {
    fail_all(alloc, calls, &mut machine.world)?;
    Ok(answer(rt, alloc, "run c --once", machine)?)
}

fn run_failing<T: Threads + Wait + Eprint + Sync>(
    rt: &T,
    alloc: Global,
    config: &[u8],
    calls: &str,
) -> Result<Vec<u8>, Fail> {
    let mut machine = machine(alloc, config)?;
    run_in(rt, alloc, calls, &mut machine)
}

// Whether an answer begins with this exit status.
fn begins_so(alloc: Global, answer: &[u8], code: &str) -> Result<bool, AllocError> {
    Ok(answer.starts_with(format!(in alloc; "{code};")?.as_bytes()))
}

// Whether what is said ends so.
fn ends_so(alloc: Global, answer: &[u8], ending: &str) -> Result<bool, AllocError> {
    Ok(answer.ends_with(&text(alloc, ending)?))
}

// A row's calls, the exit status, and how what is said ends.
fn parts(row: &str) -> Option<(&str, &str, &str)> {
    let Some((_name, rest)) = field(row) else {
        return None;
    };
    let Some((calls, rest)) = field(rest) else {
        return None;
    };
    match field(rest) {
        Some((code, ending)) => Some((calls, code, ending)),
        None => None,
    }
}

/// Whether a row holds of five lines with this configuration, and whether it was understood.
pub(crate) fn holds<T: Threads + Wait + Eprint + Sync>(
    rt: &T,
    alloc: Global,
    config: &[u8],
    row: &str,
) -> Result<bool, Fail> {
    let Some((calls, code, ending)) = parts(row) else {
        return Ok(false);
    };
    let answer = run_failing(rt, alloc, config, calls)?;
    Ok(begins_so(alloc, &answer, code)? && ends_so(alloc, &answer, ending)?)
}

#[test]
fn calls_that_fail(rt: HostRuntime) -> Result<(), Fail> {
    for row in ROWS.lines() {
        assert!(rt; holds(&rt, rt.alloc(), CONFIG, row)?, "{row}");
    }
    Ok(())
}
