// Opening files by their names, so that nothing is waited for.
ghost use Rattle.std.specs.Prelude.{◌≡◌, MatchResult};
ghost use Rattle.std.specs.Str.{IsUtf8};

use std::fs::{self, File, Metadata, OpenOptions};
use std::io::{self, ErrorKind};
use std::os::unix::fs::{FileTypeExt, MetadataExt};
use std::path::Path;

/// A name as text. Files are opened by names in UTF-8 alone.
pub fn path_text(name: &[u8]) -> io::Result<&str>
    ensures { MatchResult result (λ text. (text.now ≡ name.now) × IsUtf8 name.now)
        (λ _. ¬ (IsUtf8 name.now)) }
{
    match str::from_utf8(name) {
        Ok(text) => Ok(text),
        Err(_) => Err(io::Error::other("the name is not UTF-8")),
    }
}

/// Opens a file that is there, and is a regular file, or also a character device where `device` says
/// so. What the name stands for is looked at first, since to open a FIFO waits for its other end, and
/// again once it is open.
pub(crate) fn open_known(
    rt: &HostRuntime,
    path: &str,
    how: &OpenOptions,
    device: bool,
) -> io::Result<File> {
    check_type(&fs::metadata(rt, path)?, device)?;
    let file = how.open(rt, path)?;
    check_type(&file.metadata()?, device)?;
    Ok(file)
}

/// Opens a regular file for reading.
pub(crate) fn open_to_read(rt: &HostRuntime, path: &str) -> io::Result<File> {
    let mut how = OpenOptions::new();
    how.read(true);
    open_known(rt, path, &how, false)
}

fn check_type(about: &Metadata, device: bool) -> io::Result<()> {
    if about.is_file() || device && about.file_type().is_char_device() {
        return Ok(());
    }
    if device {
        return Err(io::Error::other("not a regular file or a character device"));
    }
    Err(io::Error::other("not a regular file"))
}

/// Whether the name stands for nothing, also not for a link.
pub(crate) fn is_free(rt: &HostRuntime, path: &str) -> bool {
    match fs::symlink_metadata(rt, path) {
        Ok(_) => false,
        Err(error) => error.kind() == ErrorKind::NotFound,
    }
}

/// Makes stable which names a file's folder has.
pub(crate) fn sync_folder(rt: &HostRuntime, path: &str) -> io::Result<()> {
    let folder = match Path::new(path).parent() {
        Some(folder) if !folder.as_os_str().is_empty() => folder,
        _ => Path::new("."),
    };
    File::open(rt, folder)?.sync_all()
}

/// Whether both are of one file.
pub(crate) fn is_same(one: &Metadata, other: &Metadata) -> bool {
    one.dev() == other.dev() && one.ino() == other.ino()
}
