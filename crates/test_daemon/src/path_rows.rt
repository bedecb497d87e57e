// Runs of five lines into files that are named by them.
use crate::answer::answer;
use crate::failing::fail_all;
use crate::machine::{add_file, field, text, with_files};
use sg_memory::{MemoryFile, MemoryWorld, TakenText};
use sg_world::MemoryMachine;
use std::alloc::{AllocError, Global};
use std::sync::Wait;
use std::test::Fail;
use std::thread::Threads;

const CONFIG: &[u8] =
    b"@version: 4.2\nsource s { file(\"in\" flags(no-parse)); };\ndestination d { file(\"out/$MSG\" template(\"$MSG\\n\")); };\nlog { source(s); destination(d); flags(flow-control); };\n";

// A row: what fails; the calls that fail; the exit status; each text that was taken behind its path; how what is said ends;
// with `~` for LF. The first file is opened by the first call.
const ROWS: &str = "\
no call;;0;out/one one~out/t_o t/o~out/one one~out/one one~out/three three~;taken 5 dropped-full 0 dropped-disk 0 left 0~status 0~
the opening of the opener;opener 0;4;;cannot open destination 0~
the first opening of a file;file 0;0;out/one one~out/t_o t/o~out/one one~out/one one~out/three three~;taken 5 dropped-full 0 dropped-disk 0 left 0~status 0~
the first send;file 1;0;out/one one~out/t_o t/o~out/one one~out/one one~out/three three~;taken 5 dropped-full 0 dropped-disk 0 left 0~status 0~
the first send and the reopening behind it;file 1 2;0;out/one one~out/t_o t/o~out/one one~out/one one~out/three three~;taken 5 dropped-full 0 dropped-disk 0 left 0~status 0~
three openings in a row;file 0 1 2;6;;fault sink 0~status 6~
files that took nothing for long;unused 0 1 2;0;out/one one~out/t_o t/o~out/one one~out/one one~out/three three~;taken 5 dropped-full 0 dropped-disk 0 left 0~status 0~
";

fn files(alloc: Global) -> Result<Vec<MemoryFile>, AllocError> {
    let mut files = Vec::new(alloc);
    add_file(alloc, b"c", CONFIG, &mut files)?;
    add_file(alloc, b"in", b"one\nt/o\none\none\nthree\n", &mut files)?;
    Ok(files)
}

fn machine(alloc: Global) -> Result<MemoryMachine, AllocError> {
    Ok(with_files(alloc, files(alloc)?))
}

// Puts a text down behind its path.
fn put_text(said: &mut Vec<u8>, taken: &TakenText) -> Result<(), AllocError> {
    said.extend_from_slice(taken.path.bytes())?;
    said.push(b' ')?;
    said.extend_from_slice(&taken.text)
}

fn texts(world: &MemoryWorld) -> &[TakenText] {
    match world.closed_paths() {
        Some(cell) => match &cell.closed {
            Some(paths) => paths.texts(),
            None => &[],
        },
        None => &[],
    }
}

// What the last opener took.
fn taken(alloc: Global, world: &MemoryWorld) -> Result<Vec<u8>, AllocError> {
    let mut said = Vec::new(alloc);
    for taken in texts(world) {
        put_text(&mut said, taken)?;
    }
    Ok(said)
}

// The fields of a row.
#[derive(Drop)]
struct PathRow<'a> {
    calls: &'a str,
    code: &'a str,
    texts: &'a str,
    ending: &'a str,
}

fn read_row(row: &str) -> Option<PathRow<'_>> {
    let Some((_name, rest)) = field(row) else {
        return None;
    };
    let Some((calls, rest)) = field(rest) else {
        return None;
    };
    let Some((code, rest)) = field(rest) else {
        return None;
    };
    match field(rest) {
        Some((texts, ending)) => Some(PathRow {
            calls,
            code,
            texts,
            ending,
        }),
        None => None,
    }
}

// Whether an answer has this exit status, and ends so.
fn answers_so(alloc: Global, said: &[u8], row: &PathRow<'_>) -> Result<bool, AllocError> {
    let code = row.code;
    let begin = format!(in alloc; "{code};")?;
    let ending = text(alloc, row.ending)?;
    Ok(said.starts_with(begin.as_bytes()) && said.ends_with(&ending))
}

fn took_so(alloc: Global, world: &MemoryWorld, row: &PathRow<'_>) -> Result<bool, AllocError> {
    let took = taken(alloc, world)?;
    let wanted = text(alloc, row.texts)?;
    Ok(took.as_slice() == wanted.as_slice())
}

// Whether this machine runs as the row says.
fn runs_so<T: Threads + Wait + Eprint + Sync>(
    rt: &T,
    alloc: Global,
    row: &PathRow<'_>,
    machine: &mut MemoryMachine,
) -> Result<bool, Fail> {
    fail_all(alloc, row.calls, &mut machine.world)?;
    let said = answer(rt, alloc, "run c --once", machine)?;
    Ok(answers_so(alloc, &said, row)? && took_so(alloc, &machine.world, row)?)
}

// Whether a row holds, and whether it was understood.
fn holds<T: Threads + Wait + Eprint + Sync>(
    rt: &T,
    alloc: Global,
    line: &str,
) -> Result<bool, Fail> {
    let Some(row) = read_row(line) else {
        return Ok(false);
    };
    let mut machine = machine(alloc)?;
    runs_so(rt, alloc, &row, &mut machine)
}

#[test]
fn files_by_their_lines(rt: HostRuntime) -> Result<(), Fail> {
    for line in ROWS.lines() {
        assert!(rt; holds(&rt, rt.alloc(), line)?, "{line}");
    }
    Ok(())
}
