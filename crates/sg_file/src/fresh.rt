// Opening the file of a store, and making it where it is missing.
use crate::open::{is_free, is_same, open_known, path_text, sync_folder};
use std::alloc::{AllocError, Global};
use std::fs::{self, File, OpenOptions, TryLockError};
use std::io::{self, ErrorKind, Write};
use std::os::unix::fs::OpenOptionsExt;
use std::random::RandomSource;

// The zeros of one write.
const PIECE: usize = 16_384;

// The mode of a store that is made.
const MODE: u32 = 0o600;

// How often an opening begins anew where the name has come to mean another file meanwhile.
const TRIES: u32 = 8;

/// The file of a store, and its name where it was made.
#[derive(Drop)]
pub(crate) struct OpenedFile {
    pub(crate) file: File,
    pub(crate) made: Option<String>,
}

/// Opens the regular file of a store, and locks it. With `create` it is made where it is missing, with
/// so many zero bytes, and its folder is made stable. The name still means the file that is locked.
pub(crate) fn open_store(
    alloc: Global,
    rt: &HostRuntime,
    path: &[u8],
    create: Option<u64>,
) -> io::Result<OpenedFile> {
    let path = path_text(path)?;
    for _ in 0..TRIES {
        if let Some(opened) = try_open(alloc, rt, path, create)? {
            if create.is_some() {
                sync_folder(rt, path)?;
            }
            return Ok(opened);
        }
    }
    Err(io::Error::other("it was replaced while it was opened"))
}

// The store, locked. None where the name means another file than the one that was opened or made.
fn try_open(
    alloc: Global,
    rt: &HostRuntime,
    path: &str,
    create: Option<u64>,
) -> io::Result<Option<OpenedFile>> {
    let opened = match open_locked(rt, path) {
        Err(error) if error.kind() == ErrorKind::NotFound => match create {
            Some(size) => make(alloc, rt, path, size)?,
            None => return Err(error),
        },
        there => Some(OpenedFile {
            file: there?,
            made: None,
        }),
    };
    let Some(opened) = opened else {
        return Ok(None);
    };
    if is_named(rt, &opened.file, path)? {
        return Ok(Some(opened));
    }
    Ok(None)
}

// Whether the name means this file. One that was taken away is another one.
fn is_named(rt: &HostRuntime, file: &File, path: &str) -> io::Result<bool> {
    match fs::metadata(rt, path) {
        Ok(named) => Ok(is_same(&named, &file.metadata()?)),
        Err(error) if error.kind() == ErrorKind::NotFound => Ok(false),
        Err(error) => Err(error),
    }
}

// Opens a store that is there. A FIFO that is opened for both reading and writing waits for nobody.
fn open_locked(rt: &HostRuntime, path: &str) -> io::Result<File> {
    let mut how = OpenOptions::new();
    how.read(true).write(true);
    let file = open_known(rt, path, &how, false)?;
    lock(&file)?;
    Ok(file)
}

// The lock ends with the last handle of this opening of the file.
fn lock(file: &File) -> io::Result<()> {
    match file.try_lock() {
        Ok(()) => Ok(()),
        Err(TryLockError::WouldBlock) => Err(io::Error::other("in use by another program")),
        Err(TryLockError::Error(error)) => Err(error),
    }
}

// Makes a store under a name that can't be guessed, and gives it its own name once it is whole and
// stable. None where something has that name by then.
fn make(alloc: Global, rt: &HostRuntime, path: &str, size: u64) -> io::Result<Option<OpenedFile>> {
    if !is_free(rt, path) {
        if fs::metadata(rt, path).is_ok() {
            return Ok(None);
        }
        return Err(io::Error::other("a link to a file that is not there"));
    }
    let made = Some(String::from_str(alloc, path)?);
    let temporary = temporary_name(alloc, rt, path)?;
    let mut how = OpenOptions::new();
    how.read(true).write(true).create_new(true).mode(MODE);
    let file = how.open(rt, temporary.as_str())?;
    let put = put_there(alloc, rt, &file, temporary.as_str(), path, size);
    fs::remove_file(rt, temporary.as_str())?;
    match put {
        Ok(()) => Ok(Some(OpenedFile { file, made })),
        Err(error) if error.kind() == ErrorKind::AlreadyExists => Ok(None),
        Err(error) => Err(error),
    }
}

// Locks a new file, makes it stable with so many zero bytes, and gives it its name.
fn put_there(
    alloc: Global,
    rt: &HostRuntime,
    file: &File,
    temporary: &str,
    path: &str,
    size: u64,
) -> io::Result<()> {
    lock(file)?;
    write_zeros(alloc, file, size)?;
    file.sync_all()?;
    fs::hard_link(rt, temporary, path)
}

/// Takes a position store away again, and its mark with it. It stays where its name means another file by
/// now, and so does any other store.
pub(crate) fn take_away(rt: &HostRuntime, file: &File, path: &str) -> io::Result<()> {
    let Some(source) = path.strip_prefix("pos-") else {
        return Ok(());
    };
    if is_named(rt, file, path)? {
        fs::remove_file(rt, path)?;
        let mark = format!(in rt.alloc(); "id-{source}")?;
        fs::remove_file(rt, mark.as_str())?;
    }
    Ok(())
}

/// Gives a small file this content and no other, under its name, or leaves it as it is. A link there is
/// replaced, and not followed.
pub(crate) fn replace(alloc: Global, rt: &HostRuntime, path: &str, bytes: &[u8]) -> io::Result<()> {
    let temporary = temporary_name(alloc, rt, path)?;
    let mut how = OpenOptions::new();
    how.write(true).create_new(true).mode(MODE);
    let file = how.open(rt, temporary.as_str())?;
    let put = put_over(rt, &file, temporary.as_str(), path, bytes);
    if put.is_err() {
        let _left = fs::remove_file(rt, temporary.as_str());
    }
    put
}

fn put_over(
    rt: &HostRuntime,
    mut file: &File,
    temporary: &str,
    path: &str,
    bytes: &[u8],
) -> io::Result<()> {
    file.write_all(bytes)?;
    file.sync_all()?;
    fs::rename(rt, temporary, path)?;
    sync_folder(rt, path)
}

fn make_zeros(alloc: Global) -> Result<Vec<u8>, AllocError> {
    vec![in alloc; 0u8; PIECE]
}

fn write_zeros(alloc: Global, mut file: &File, size: u64) -> io::Result<()> {
    let zeros = make_zeros(alloc)?;
    let mut left = size;
    for _ in 0..u64::MAX {
        let count = left.min(PIECE as u64) as usize;
        if count == 0 {
            break;
        }
        file.write_all(zeros.get(..count).unwrap_or(&[]))?;
        left -= count as u64;
    }
    Ok(())
}

// The path, and 16 digits of chance behind it.
fn temporary_name(alloc: Global, rt: &HostRuntime, path: &str) -> io::Result<String> {
    let mut chance = [0u8; 8];
    rt.fill_bytes(&mut chance)?;
    let number = u64::from_le_bytes(chance);
    Ok(format!(in alloc; "{path}.{number:016x}.new")?)
}
