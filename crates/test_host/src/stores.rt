// Steps over stores, and over files that are read whole.
use crate::folder::{Folder, presence};
use sg_device::{Disk, DiskFault, FileRefusal, OpenRefusal};
use sg_file::{FileDisk, read_file};
use std::fs::{self, OpenOptions};
use std::os::unix::fs::PermissionsExt;
use std::test::Fail;

/// What a step over a store comes to.
pub(crate) fn take(folder: &Folder, what: &str) -> Result<String, Fail> {
    match what {
        "lock" => lock(folder),
        "fresh" => fresh(folder),
        "existing" => existing(folder),
        "planted" => planted(folder),
        "dangling" => dangling(folder),
        "missing" => missing(folder),
        "folder" => folder.word(opened(folder, b"/")),
        "socket" => folder.word(opened(folder, folder.socket()?.as_bytes())),
        "name" => folder.word(opened(folder, b"/tmp/\xff")),
        "short" => short(folder),
        "truncated" => truncated(folder),
        "gathered" => gathered(folder),
        _ => Err("no such step".into()),
    }
}

// Whether a store opens that would be made.
fn opened(folder: &Folder, path: &[u8]) -> &'static str {
    match FileDisk::open(folder.alloc, folder.rt, path, Some(128)) {
        Ok(_) => "opened",
        Err(_) => "refused",
    }
}

// Whether the store opens by each of its names.
fn by_both_names(folder: &Folder) -> Result<String, Fail> {
    let path = folder.at("q")?;
    let other = folder.at("./q")?;
    let second = opened(folder, path.as_bytes());
    let third = opened(folder, other.as_bytes());
    Ok(format!(in folder.alloc; "{second} {third}")?)
}

// A store is locked while it is open, under each of its names.
fn lock(folder: &Folder) -> Result<String, Fail> {
    let held = store(folder)?;
    let others = by_both_names(folder);
    drop(held);
    let others = others?;
    let path = folder.at("q")?;
    let last = opened(folder, path.as_bytes());
    Ok(format!(in folder.alloc; "opened {others} {last}")?)
}

// How many bytes the store has, and whether all of them are zero.
fn zeros(folder: &Folder) -> Result<String, Fail> {
    let bytes = folder.bytes("q")?;
    let count = bytes.len();
    let zeros = if bytes.iter().all(|byte| *byte == 0) {
        "zeros"
    } else {
        "others"
    };
    Ok(format!(in folder.alloc; "{count} {zeros}")?)
}

// A fresh store is 128 zero bytes, for its owner alone, and nothing else is left.
fn fresh(folder: &Folder) -> Result<String, Fail> {
    let path = folder.at("q")?;
    let opened = opened(folder, path.as_bytes());
    let zeros = zeros(folder)?;
    let mode = folder.mode("q")?;
    let names = folder.names()?;
    Ok(format!(in folder.alloc; "{opened} {zeros}{mode} names {names}")?)
}

// A store that is there keeps its bytes and its mode.
fn existing(folder: &Folder) -> Result<String, Fail> {
    let path = folder.file("q", b"abc")?;
    let mode = fs::Permissions::from_mode(0o644);
    fs::set_permissions(&folder.rt, path.as_str(), mode)?;
    let opened = opened(folder, path.as_bytes());
    let count = folder.bytes("q")?.len();
    let mode = folder.mode("q")?;
    Ok(format!(in folder.alloc; "{opened} {count} bytes{mode}")?)
}

// A link where a temporary file could be isn't followed.
fn planted(folder: &Folder) -> Result<String, Fail> {
    folder.file("target", b"abc")?;
    folder.link("q.new", "target")?;
    let path = folder.at("q")?;
    let opened = opened(folder, path.as_bytes());
    let untouched = if folder.bytes("target")?.as_slice() == b"abc".as_slice() {
        "untouched"
    } else {
        "changed"
    };
    Ok(format!(in folder.alloc; "{opened} {untouched}")?)
}

// A store that is a link to nothing isn't made.
fn dangling(folder: &Folder) -> Result<String, Fail> {
    let link = folder.link("q", "target")?;
    let opened = opened(folder, link.as_bytes());
    let absent = presence(folder.has("target")?);
    Ok(format!(in folder.alloc; "{opened} {absent}")?)
}

// A store that isn't to be made is refused where it is missing.
fn missing(folder: &Folder) -> Result<String, Fail> {
    let path = folder.at("q")?;
    let word = match FileDisk::open(folder.alloc, folder.rt, path.as_bytes(), None) {
        Ok(_) => "opened",
        Err(OpenRefusal::Failed) => "refused",
        Err(OpenRefusal::NoMemory) => "starved",
    };
    let absent = presence(folder.has("q")?);
    Ok(format!(in folder.alloc; "{word} {absent}")?)
}

// A read ends at the end of the file.
fn short(folder: &Folder) -> Result<String, Fail> {
    folder.file("q", b"abc")?;
    let mut disk = store(folder)?;
    read_twice(folder, &mut disk)
}

fn read_twice(folder: &Folder, disk: &mut FileDisk) -> Result<String, Fail> {
    let mut buffer = [0u8; 8];
    let first = disk.read_at(0, &mut buffer)?;
    let second = disk.read_at(3, &mut buffer)?;
    Ok(format!(in folder.alloc; "{first} {second}")?)
}

// The store of a step.
fn store(folder: &Folder) -> Result<FileDisk, Fail> {
    let path = folder.at("q")?;
    Ok(FileDisk::open(folder.alloc, folder.rt, path.as_bytes(), Some(128))?)
}

fn word<T: Drop>(answer: Result<T, DiskFault>) -> &'static str {
    if answer.is_ok() { "done" } else { "refused" }
}

// Makes the store's file shorter by another handle.
fn truncate(folder: &Folder, len: u64) -> Result<(), Fail> {
    let path = folder.at("q")?;
    let mut how = OpenOptions::new();
    how.write(true);
    how.open(&folder.rt, path.as_str())?.set_len(len)?;
    Ok(())
}

// Four bytes behind the first 128, and how many of them a read gives.
fn write_four(disk: &mut FileDisk) -> Result<usize, DiskFault> {
    let mut buffer = [0u8; 8];
    disk.write_at(128, b"abcd")?;
    disk.read_at(128, &mut buffer)
}

// A read past the file's end, one of what is left, and the length, and the faults behind them.
fn look(folder: &Folder, disk: &mut FileDisk) -> Result<String, Fail> {
    let mut buffer = [0u8; 8];
    let read = word(disk.read_at(128, &mut buffer));
    let whole = disk.read_at(128, &mut buffer[..2])?;
    let len = word(disk.len());
    let faults = disk.faults();
    Ok(format!(in folder.alloc; "{read} {whole} {len} faults {faults}")?)
}

// Writes what was cut off, and reads it.
fn write_again(disk: &mut FileDisk) -> Result<usize, DiskFault> {
    let mut buffer = [0u8; 8];
    disk.write_at(130, b"cd")?;
    disk.read_at(128, &mut buffer)
}

// A store that was truncated while it was open is a fault where a read or its length shows that.
fn truncated(folder: &Folder) -> Result<String, Fail> {
    let mut disk = store(folder)?;
    truncated_between(folder, &mut disk)
}

fn truncated_between(folder: &Folder, disk: &mut FileDisk) -> Result<String, Fail> {
    let before = write_four(disk)?;
    truncate(folder, 130)?;
    let seen = look(folder, disk)?;
    let again = write_again(disk)?;
    Ok(format!(in folder.alloc; "{before} {seen} again {again}")?)
}

// Writes that go on where the last one ended, the last of which begins before that.
fn write_three(disk: &mut FileDisk) -> Result<(), DiskFault> {
    disk.write_at(128, b"abcd")?;
    disk.write_at(132, b"ef")?;
    disk.write_at(133, b"gh")
}

// What stands behind the first 128 bytes, once a byte among them was written over.
fn write_inside(disk: &mut FileDisk, buffer: &mut [u8]) -> Result<usize, DiskFault> {
    disk.write_at(130, b"C")?;
    disk.read_at(128, buffer)
}

// Writes that follow each other are made at the next sync, or before the next read.
fn gathered(folder: &Folder) -> Result<String, Fail> {
    let mut disk = store(folder)?;
    write_three(&mut disk)?;
    let before = folder.bytes("q")?.len();
    disk.sync()?;
    let synced = folder.bytes("q")?;
    let after = synced.len();
    let first = str::from_utf8(&synced[after.min(128)..])?;
    let mut buffer = [0u8; 8];
    let count = write_inside(&mut disk, &mut buffer)?;
    let second = str::from_utf8(&buffer[..count.min(8)])?;
    Ok(format!(in folder.alloc; "{before} {after} {first} {second}")?)
}

/// What a step over a file that is read whole comes to.
pub(crate) fn read(folder: &Folder, what: &str) -> Result<String, Fail> {
    match what {
        "whole" => told(folder, folder.file("f", b"abcde")?.as_bytes(), 5),
        "long" => told(folder, folder.file("f", b"abcde")?.as_bytes(), 4),
        "folder" => told(folder, b"/", 5),
        "socket" => told(folder, folder.socket()?.as_bytes(), 5),
        "name" => told(folder, b"/tmp/\xff", 5),
        _ => Err("no such step".into()),
    }
}

fn told(folder: &Folder, path: &[u8], limit: u64) -> Result<String, Fail> {
    let mut faults = 0;
    let result = read_file(folder.alloc, folder.rt, &mut faults, path, limit);
    match result {
        Ok(bytes) => {
            let count = bytes.len();
            Ok(format!(in folder.alloc; "{count} bytes")?)
        }
        Err(FileRefusal::TooLong) => Ok(String::from_str(folder.alloc, "too long")?),
        Err(FileRefusal::NoMemory) => Ok(String::from_str(folder.alloc, "starved")?),
        Err(FileRefusal::Failed) => Ok(format!(in folder.alloc; "failed {faults}")?),
    }
}
