// A real file that is appended to, and can be opened anew.
ghost use Rattle.std.specs.Prelude.{◌≡◌, ◌≤◌, length, true, false, IfOk};
ghost use Rattle.sg_file.specs.Target.{IsFor, KeepsTarget, WaitsOnly};

use crate::folders::make_folders;
use crate::locks::number_of;
use crate::open::{is_free, open_known, path_text, sync_folder};
use crate::piece::AppendedPiece;
use crate::{Health, IdleWait, Retry};
use sg_device::{Frames, OpenRefusal, OutletFault, Reopened};
use std::alloc::Global;
use std::fs::{File, OpenOptions, Permissions};
use std::io::{self, ErrorKind, Seek, Write};
use std::os::unix::fs::{OpenOptionsExt, PermissionsExt};

const TORN: &str = "another one appended within a record";

const KEPT: &str = "another one appended behind";

/// How a file is appended to.
#[derive(Clone, Copy, Drop)]
pub struct Appending {
    /// What was appended counts once it is on the disk.
    pub fsync: bool,
    /// The mode of a file that is made.
    pub mode: u16,
    /// The mode of the folders on the way to a file that is made, where missing ones are made too.
    pub folders: Option<u16>,
    /// The seconds from one try to open it to the next.
    pub reopen: u32,
}

/// A file that is appended to: a regular file or a character device.
#[derive(Drop)]
pub struct Target {
    rt: HostRuntime,
    path: String,
    how: Appending,
    file: File,
    // The number of the file's lock.
    lock: u64,
    // What the last call of `put` has appended.
    last: AppendedPiece,
    retry: Retry,
    health: Health,
    rest: IdleWait,
}

impl Target {
    /// Opens a file for appending, and makes it with its mode where it is missing, and the folders on
    /// the way to it where that is asked. A failure is told on standard error.
    pub fn open(
        alloc: Global,
        rt: HostRuntime,
        path: &[u8],
        how: Appending,
        rest: IdleWait,
    ) -> Result<Target, OpenRefusal>
        ensures { IfOk result (IsFor path.now how) }
    {
        Target::open_again(alloc, rt, path, how, rest, &mut None)
    }

    /// The same of a file that couldn't be opened before, which is told once: its health is left where
    /// it fails, and given again with the next try.
    pub fn open_again(
        alloc: Global,
        rt: HostRuntime,
        path: &[u8],
        how: Appending,
        rest: IdleWait,
        left: &mut Option<Health>,
    ) -> Result<Target, OpenRefusal>
        ensures { IfOk result (IsFor path.now how) }
    {
        let mut health = match left.take() {
            Some(health) => health,
            None => Health::new(alloc, rt, "destination", path)?,
        };
        let mut retry = Retry::new(rt, how.reopen);
        retry.begin();
        let (path, file) = match open_by_name(&rt, path, how, &rest) {
            Ok(opened) => opened,
            Err(error) => {
                health.fails("open", &error);
                *left = Some(health);
                return Err(OpenRefusal::Failed);
            }
        };
        let path = String::from_str(alloc, path)?;
        let lock = number_of(&file);
        Ok(Target {
            rt,
            path,
            how,
            file,
            lock,
            last: AppendedPiece::new(),
            retry,
            health,
            rest,
        })
    }

    /// Opens the file anew, where it isn't too early for another try.
    pub fn reopen(&mut self) -> Result<Reopened, OutletFault>
        ensures keeps { KeepsTarget self.old self.new }
        ensures early { WaitsOnly self.old self.new result }
    {
        if self.retry.is_early() {
            self.rest.wait();
            return Ok(Reopened::Later);
        }
        self.retry.begin();
        match open_to_append(&self.rt, self.path.as_str(), self.how, &self.rest) {
            Ok(file) => {
                self.lock = number_of(&file);
                self.file = file;
                self.last = AppendedPiece::new();
                Ok(Reopened::Ready)
            }
            Err(error) => {
                self.health.fails("open", &error);
                Err(OutletFault)
            }
        }
    }

    // Appends the bytes, by one write where the system takes them so, and tells what of them is in the
    // file. A failure is told on standard error.
    fn append(&mut self, bytes: &[u8]) -> AppendedPiece
        ensures count { result.count ≤ length bytes.now }
        ensures keeps { KeepsTarget self.old self.new }
    {
        let mut piece = AppendedPiece::new();
        for _ in 0..u64::MAX {
            if piece.count >= bytes.len() || piece.torn_at.is_some() {
                return piece;
            }
            match self.write_some(&bytes[piece.count..]) {
                Ok(0) => {
                    self.health
                        .fails("write", &io::Error::from(ErrorKind::WriteZero));
                    return piece;
                }
                Ok(count) => {
                    let place = self.place_behind(count < bytes.len());
                    piece.add(count, place);
                }
                Err(error) if error.kind() == ErrorKind::Interrupted => {}
                Err(error) => {
                    self.health.fails("write", &error);
                    return piece;
                }
            }
        }
        piece
    }

    // The place behind the last write, which is asked for where what was written may be cut off again: a
    // part of what was to be, or what has to be synced.
    fn place_behind(&mut self, part: bool) -> Option<u64>
        ensures { KeepsTarget self.old self.new }
    {
        if part | self.how.fsync {
            return self.file.stream_position().ok();
        }
        None
    }

    // One write, while no other driver cuts the file.
    fn write_some(&mut self, bytes: &[u8]) -> io::Result<usize>
        ensures bound { IfOk result (λ count. count ≤ length bytes.now) }
        ensures keeps { KeepsTarget self.old self.new }
    {
        self.rest.locks().begin_write(&self.rt, self.lock);
        let written = self.file.write(bytes);
        self.rest.locks().end_write(self.lock);
        written
    }

    /// Appends the frames, and tells how many of them count. What was appended of one that doesn't is
    /// cut off again, where nothing stands behind it.
    pub fn put(&mut self, frames: &Frames) -> usize
        ensures { KeepsTarget self.old self.new }
    {
        let mut piece = self.append(frames.bytes());
        let whole = self.count_whole(frames, &mut piece);
        self.last = piece;
        whole
    }

    // Tells how many of the frames count that were appended.
    fn count_whole(&mut self, frames: &Frames, piece: &mut AppendedPiece) -> usize
        ensures { KeepsTarget self.old self.new }
    {
        if let Some(count) = piece.torn_at {
            self.health.fails("write", &io::Error::other(TORN));
            return self.keep_whole(frames, piece, count);
        }
        if piece.count < frames.bytes().len() {
            let count = piece.count;
            return self.keep_whole(frames, piece, count);
        }
        if self.settle() {
            self.works();
            return frames.len();
        }
        self.cut(piece, 0);
        0
    }

    /// Of what the last call of `put` appended, keeps the first `keep` bytes. The others are cut off
    /// again, where nothing stands behind them; where that fails, it is told on standard error.
    pub fn take_back(&mut self, keep: usize)
        ensures { KeepsTarget self.old self.new }
    {
        let mut piece = self.last;
        if piece.is_unplaced()
            && let Ok(place) = self.file.stream_position()
        {
            piece.ends_at(place);
        }
        self.cut(&mut piece, keep);
        if piece.count > keep {
            self.health.fails("cut", &io::Error::other(KEPT));
        }
        self.last = piece;
    }

    // Of what was appended, keeps the whole frames within the first `count` bytes, and tells how many of
    // them count.
    fn keep_whole(&mut self, frames: &Frames, piece: &mut AppendedPiece, count: usize) -> usize
        ensures { KeepsTarget self.old self.new }
    {
        let whole = frames.whole_within(count);
        self.cut(piece, bytes_of(frames, whole));
        if whole == 0 || self.settle() {
            return whole;
        }
        self.cut(piece, 0);
        0
    }

    // Makes what was appended stable, where that is asked, and tells whether it counts. A failure
    // is told on standard error.
    fn settle(&mut self) -> bool
        ensures keeps { KeepsTarget self.old self.new }
        ensures kernel { self.old.how.fsync ≡ false → result ≡ true }
    {
        if !self.how.fsync {
            return true;
        }
        match self.file.sync_data() {
            Ok(()) => true,
            Err(error) => {
                self.health.fails("sync", &error);
                false
            }
        }
    }

    // Cuts what was appended last to its first `keep` bytes. It is left as it is where it isn't one
    // piece at the file's end, or where another driver writes to the file just then.
    fn cut(&mut self, piece: &mut AppendedPiece, keep: usize)
        ensures { KeepsTarget self.old self.new }
    {
        let Some(end) = piece.end_of(keep) else {
            return;
        };
        if !self.rest.locks().try_begin_cut(self.lock) {
            return;
        }
        let cut = cut_at_end(&self.file, piece.end, end);
        self.rest.locks().end_cut(self.lock);
        if cut {
            piece.end = end;
            piece.count = keep;
        }
    }

    // All that was appended counts.
    fn works(&mut self)
        ensures { KeepsTarget self.old self.new }
    {
        self.health.works();
        self.rest.happened();
    }
}

// The number of bytes of the first `whole` frames.
fn bytes_of(frames: &Frames, whole: usize) -> usize {
    let mut bytes = 0usize;
    for size in frames.sizes().iter().take(whole) {
        bytes = bytes.saturating_add(*size);
    }
    bytes
}

// Cuts a file to this length where it has that one, and tells whether it did.
fn cut_at_end(file: &File, from: u64, to: u64) -> bool {
    match file.metadata() {
        Ok(about) => about.len() == from && to < from && file.set_len(to).is_ok(),
        Err(_) => false,
    }
}

fn open_by_name<'a>(
    rt: &HostRuntime,
    path: &'a [u8],
    how: Appending,
    rest: &IdleWait,
) -> io::Result<(&'a str, File)>
    ensures { IfOk result (λ opened. opened.0.now ≡ path.now) }
{
    let path = path_text(path)?;
    let file = open_to_append(rt, path, how, rest)?;
    Ok((path, file))
}

// Opens a file for appending, made where it is missing, where it is no source and no store. With `fsync` its
// folder is made stable each time, since that may have failed when the file was made.
fn open_to_append(
    rt: &HostRuntime,
    path: &str,
    how: Appending,
    rest: &IdleWait,
) -> io::Result<File> {
    let mut options = OpenOptions::new();
    options.append(true);
    let file = match open_known(rt, path, &options, true) {
        Ok(file) => file,
        Err(error) if error.kind() == ErrorKind::NotFound => make(rt, path, how)?,
        Err(error) => return Err(error),
    };
    if rest.reserved().has(&file)? {
        return Err(io::Error::other("it is a source or a store of this run"));
    }
    if how.fsync && file.metadata()?.is_file() {
        sync_folder(rt, path)?;
    }
    Ok(file)
}

// Makes a file that is missing. A link isn't followed.
fn make(rt: &HostRuntime, path: &str, how: Appending) -> io::Result<File> {
    if !is_free(rt, path) {
        return Err(io::Error::other("a link to a file that is not there"));
    }
    if let Some(mode) = how.folders {
        make_folders(rt, path, mode, how.fsync)?;
    }
    let mode = u32::from(how.mode);
    let mut options = OpenOptions::new();
    options.append(true).create_new(true).mode(mode);
    let file = options.open(rt, path)?;
    file.set_permissions(Permissions::from_mode(mode))?;
    Ok(file)
}
