// A disk-buffer in a real file, closed and opened again behind each call.
use sg_device::Disk;
use sg_host::FileDisk;
use sg_spool::{Appended, Block, Front, Spool};
use std::alloc::Global;
use std::test::Fail;
use std::{env, fs, process, str};

// At most 188 bytes of a file.
const CAPACITY: u64 = 60;

// Each call, and the number of entries and the first one that the file has behind it. What was staged and
// not committed is lost; the last ones go over the end of the ring.
const CALLS: &str = "commit ab cdef gh: 3 ab
stage ij: 3 ab
advance 1: 2 cdef
commit ij: 3 cdef
advance 2: 1 ij
advance 1: 0 -
commit aaaaaaaaaaaaaaaaaaaa bbbbbbbbbbbbbbbbbbbb: 2 aaaaaaaaaaaaaaaaaaaa
advance 1: 1 bbbbbbbbbbbbbbbbbbbb
commit cccccccccccccccccccc: 2 bbbbbbbbbbbbbbbbbbbb
advance 1: 1 cccccccccccccccccccc
commit dddddddddddddddddddd: 2 cccccccccccccccccccc
advance 1: 1 dddddddddddddddddddd
commit eeeeeeeeeeeeeeeeeeee: 2 dddddddddddddddddddd
advance 2: 0 -";

fn open(alloc: Global, rt: HostRuntime, path: &str) -> Result<Spool<FileDisk>, Fail> {
    let disk = FileDisk::open(alloc, rt, path.as_bytes(), Some(128))?;
    match Spool::open(disk, CAPACITY) {
        Ok(spool) => Ok(spool),
        Err((_, refusal)) => Err(Fail::from(refusal)),
    }
}

// Stages each text.
fn stage(alloc: Global, spool: &mut Spool<FileDisk>, texts: &str) -> Result<(), Fail> {
    for text in texts.split(' ') {
        if text.is_empty() || text.len() > 100 {
            return Err(Fail::from("no payload"));
        }
        let block = Block::new(alloc, text.as_bytes().to_vec(alloc)?)?;
        if spool.stage(&block) != Appended::Done {
            return Err(Fail::from("not staged"));
        }
    }
    Ok(())
}

fn advance(spool: &mut Spool<FileDisk>, n: u64) -> Result<(), Fail> {
    if n == 0 || n > spool.count() || spool.staged() > 0 {
        return Err(Fail::from("not so many"));
    }
    spool.advance(n)?;
    Ok(())
}

fn perform(alloc: Global, spool: &mut Spool<FileDisk>, call: &str) -> Result<(), Fail> {
    let (name, texts) = call.split_once(' ').ok_or("no call")?;
    match name {
        "advance" => advance(spool, texts.parse()?),
        "stage" => stage(alloc, spool, texts),
        "commit" => {
            stage(alloc, spool, texts)?;
            spool.commit()?;
            Ok(())
        }
        _ => Err(Fail::from("no such call")),
    }
}

// A call on the file.
fn call(alloc: Global, rt: HostRuntime, path: &str, call: &str) -> Result<(), Fail> {
    let mut spool = open(alloc, rt, path)?;
    let result = perform(alloc, &mut spool, call);
    let _ = spool.into_disk();
    result
}

fn first(alloc: Global, spool: &mut Spool<FileDisk>) -> Result<Front, Fail> {
    if spool.staged() > 0 {
        return Err(Fail::from("something is staged"));
    }
    Ok(spool.front(alloc)?)
}

// The number of entries and the first one, and the disk.
fn said(alloc: Global, spool: Spool<FileDisk>) -> Result<(String, FileDisk), Fail> {
    let mut spool = spool;
    let count = spool.count();
    let front = first(alloc, &mut spool);
    let disk = spool.into_disk();
    let text = match &front? {
        Front::Item(payload) => format!(in alloc; "{count} {}", str::from_utf8(payload)?)?,
        Front::Empty => format!(in alloc; "{count} -")?,
        Front::DiskFailed => format!(in alloc; "{count} failed")?,
    };
    Ok((text, disk))
}

// Whether the file has this number of entries and this first one, and isn't too long.
fn has(alloc: Global, rt: HostRuntime, path: &str, wanted: &str) -> Result<bool, Fail> {
    let (said, mut disk) = said(alloc, open(alloc, rt, path)?)?;
    let length = disk.len()?;
    Ok(said.as_str() == wanted && length <= 188)
}

// Whether a disk-buffer in the file of this path has what it is to have behind a call, though it was closed.
fn keeps_its_list(alloc: Global, rt: HostRuntime, path: &str, row: &str) -> Result<bool, Fail> {
    let (asked, wanted) = row.split_once(": ").ok_or("no colon")?;
    call(alloc, rt, path, asked)?;
    has(alloc, rt, path, wanted)
}

/// A path in the folder for temporary files that has this name in it, and the number of the process.
pub(crate) fn temporary(alloc: Global, rt: HostRuntime, name: &str) -> Result<String, Fail> {
    let folder = env::temp_dir(&rt)?;
    let folder = folder.as_path().to_str().ok_or("no text")?;
    let id = process::id(rt.process());
    Ok(format!(in alloc; "{folder}/test_stores_{name}_{id}")?)
}

#[test]
fn disk_buffer_in_a_file(rt: HostRuntime) -> Result<(), Fail> {
    let alloc = rt.alloc();
    let path = temporary(alloc, rt, "disk_buffer")?;
    for row in CALLS.lines() {
        assert!(rt; keeps_its_list(alloc, rt, path.as_str(), row)?, "{row}");
    }
    fs::remove_file(&rt, path.as_str())?;
    Ok(())
}
