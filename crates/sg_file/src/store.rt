// A real file that holds a store.
ghost use Rattle.std.specs.Prelude.{◌≡◌, ◌≤◌, ◌<◌, ◌+◌, ◌^◌, length, IfOk, IsErr};
ghost use Rattle.sg_device.specs.Disk.{Measures, ReadsDisk, Writes, Syncs, HasCause};
ghost use Rattle.sg_device.specs.Faults.{Rose};
ghost use Rattle.sg_file.specs.Store.{disk_of, new_disk, ReadsWhole, Lengthens};

use crate::fresh::{OpenedFile, open_store, take_away};
use crate::{Health, IdleWait, Reservation};
use sg_device::{Disk, DiskFault, OpenRefusal};
use std::alloc::{AllocError, Global};
use std::fs::File;
use std::io::{self, ErrorKind};
use std::os::unix::fs::FileExt;

// A length is below this.
const END: u64 = 1 << 63;

// So many bytes are written in one call at most, where several calls ask for them.
const GATHERED: usize = 262_144;

/// A file that is read and written at places, and made stable by the system's own call. Writes that
/// go on where the last one ended are made together, before the next read or sync. It is locked while
/// it is open. A read that ends before the length that the store had is a fault, as where another
/// program has truncated it.
#[derive(Drop)]
pub struct FileDisk {
    file: File,
    // What is written next, from this place on.
    ahead: Vec<u8>,
    ahead_at: u64,
    // The name under which this opening made it, until a write.
    made: Option<String>,
    // The number of bytes at the opening, or at the end of a later write where that is more: the file
    // has no fewer, but where it was truncated.
    length: u64,
    faults: u64,
    health: Health,
}

impl FileDisk {
    /// Opens the regular file of this path, and locks it. Where it is missing and `create` has a number,
    /// it comes to be with so many zero bytes, or not at all, and its folder is made stable. A
    /// failure is told on standard error.
    pub fn open(
        alloc: Global,
        rt: HostRuntime,
        path: &[u8],
        create: Option<u64>,
    ) -> Result<FileDisk, OpenRefusal>
        ensures { IfOk result (λ disk. disk_of disk ≡ new_disk) }
    {
        let mut health = Health::new(alloc, rt, "store", path)?;
        match open_measured(alloc, &rt, path, create) {
            Ok((OpenedFile { file, made }, length)) => Ok(FileDisk {
                file,
                ahead: Vec::new(alloc),
                ahead_at: 0,
                made,
                length,
                faults: 0,
                health,
            }),
            Err(error) if error.kind() == ErrorKind::OutOfMemory => Err(OpenRefusal::NoMemory),
            Err(error) => {
                health.fails("open", &error);
                Err(OpenRefusal::Failed)
            }
        }
    }

    /// No destination of the same machine appends to it until the answer is dropped.
    pub fn reserve(&self, rest: &IdleWait) -> Result<Reservation, AllocError> {
        rest.reserve(&self.file)
    }

    /// Closes it. A position store that this opening made, and that nothing was written into, is taken away
    /// again, and its mark with it: without them the position is 0 as well.
    pub fn close(mut self, rt: &HostRuntime) {
        if self.faults == 0 {
            let _written = self.flush();
        }
        let FileDisk { file, made, .. } = self;
        if let Some(path) = made {
            let _left = take_away(rt, &file, path.as_str());
        }
    }

    /// The number of calls that failed so far.
    pub fn faults(&self) -> u64
        ensures { result ≡ (disk_of self.now).faults }
    {
        self.faults
    }

    // Counts a call that failed.
    fn fails(&mut self, what: &str, reason: &io::Error) -> DiskFault
        ensures length { self.new.length ≡ self.old.length }
        ensures faults { Rose (disk_of self.old).faults (disk_of self.new).faults }
        ensures later { (disk_of self.old).faults ≤ (disk_of self.new).faults }
    {
        self.health.fails(what, reason);
        self.faults = self.faults.saturating_add(1);
        DiskFault
    }

    // Writes what was gathered.
    fn flush(&mut self) -> Result<(), DiskFault>
        ensures length { self.new.length ≡ self.old.length }
        ensures cause { HasCause (disk_of self.old).faults (disk_of self.new).faults result }
    {
        if self.ahead.is_empty() {
            return Ok(());
        }
        match self.file.write_all_at(self.ahead.as_slice(), self.ahead_at) {
            Ok(()) => {
                self.ahead.clear();
                self.health.works();
                Ok(())
            }
            Err(error) => Err(self.fails("write", &error)),
        }
    }

    // Gathers a write that goes on where the last one ended, or begins before that and reaches behind
    // it. Whether it did.
    fn gathers(&mut self, at: u64, from: &[u8]) -> bool
        ensures length { self.new.length ≡ self.old.length }
        ensures faults { self.new.faults ≡ self.old.faults }
    {
        let Some(kept) = at.checked_sub(self.ahead_at) else {
            return false;
        };
        if kept > self.ahead.len() as u64 {
            return false;
        }
        let end = (kept as usize).saturating_add(from.len());
        if end < self.ahead.len() || end > GATHERED || self.ahead.reserve(from.len()).is_err() {
            return false;
        }
        self.ahead.truncate(kept as usize);
        self.ahead.extend_from_slice(from).is_ok()
    }

    // Writes these bytes, now or with what is written next.
    fn put(&mut self, at: u64, from: &[u8]) -> Result<(), DiskFault>
        ensures length { self.new.length ≡ self.old.length }
        ensures cause { HasCause (disk_of self.old).faults (disk_of self.new).faults result }
    {
        if self.gathers(at, from) {
            return Ok(());
        }
        self.flush()?;
        self.ahead_at = at;
        if self.gathers(at, from) {
            return Ok(());
        }
        match self.file.write_all_at(from, at) {
            Ok(()) => {
                self.health.works();
                Ok(())
            }
            Err(error) => Err(self.fails("write", &error)),
        }
    }

    // Counts a call that found the file shorter than it was.
    fn truncated(&mut self) -> DiskFault
        ensures length { self.new.length ≡ self.old.length }
        ensures faults { Rose (disk_of self.old).faults (disk_of self.new).faults }
        ensures later { (disk_of self.old).faults ≤ (disk_of self.new).faults }
    {
        self.fails("read", &io::Error::other("the file was truncated"))
    }
}

impl Disk for FileDisk {
    ghost use Rattle.sg_file.specs.NothingTold.{nothing_told};

    ghost state = { disk_of };

    ghost short = { λ disk bytes told. absurd (nothing_told bytes told) };

    fn len(&mut self) -> Result<u64, DiskFault>
        ensures told { (disk_of self.new).told ≡ (disk_of self.old).told }
        ensures length { Measures (disk_of self.old) result }
        ensures bound { IfOk result (λ count. count < 2 ^ 63) }
        ensures cause { HasCause (disk_of self.old).faults (disk_of self.new).faults result }
        ensures whole { IfOk result (λ count. self.old.length ≤ count) }
        ensures known { self.new.length ≡ self.old.length }
    {
        self.flush()?;
        match length_of(&self.file) {
            Ok(len) if len >= self.length => Ok(len),
            Ok(_) => Err(self.truncated()),
            Err(error) => Err(self.fails("read", &error)),
        }
    }

    /// It gives as many bytes as were asked for, or as the store was known to have from there on.
    fn read_at(&mut self, at: u64, into: &mut [u8]) -> Result<usize, DiskFault>
        ensures told { (disk_of self.new).told ≡ (disk_of self.old).told }
        ensures bytes { ReadsDisk (disk_of self.old) at into.old into.new result }
        ensures bound { IfOk result (λ count. count ≤ length into.old) }
        ensures cause { HasCause (disk_of self.old).faults (disk_of self.new).faults result }
        ensures whole { ReadsWhole self.old.length at (length into.old) result }
        ensures known { self.new.length ≡ self.old.length }
    {
        if at >= END && at >= self.length {
            return Ok(0);
        }
        self.flush()?;
        let least = self.length.saturating_sub(at).min(into.len() as u64);
        match read_from(&self.file, at, into) {
            Ok(count) if (count as u64) < least => Err(self.truncated()),
            Ok(count) => {
                self.health.works();
                Ok(count)
            }
            Err(error) => Err(self.fails("read", &error)),
        }
    }

    fn write_at(&mut self, at: u64, from: &[u8]) -> Result<(), DiskFault>
        ensures past_end { 2 ^ 63 ≤ at + length from.now → IsErr result }
        ensures told { Writes (disk_of self.old) (disk_of self.new) at from.now result }
        ensures cause { HasCause (disk_of self.old).faults (disk_of self.new).faults result }
        ensures known { Lengthens self.old.length (at + length from.now) self.new.length result }
    {
        if at >= END || from.len() as u64 >= END - at {
            return Err(self.fails("write", &io::Error::from(ErrorKind::FileTooLarge)));
        }
        self.made = None;
        self.put(at, from)?;
        self.length = self.length.max(at.saturating_add(from.len() as u64));
        Ok(())
    }

    fn sync(&mut self) -> Result<(), DiskFault>
        ensures told { Syncs (disk_of self.old) (disk_of self.new) result }
        ensures cause { HasCause (disk_of self.old).faults (disk_of self.new).faults result }
        ensures known { self.new.length ≡ self.old.length }
    {
        self.flush()?;
        match self.file.sync_all() {
            Ok(()) => Ok(()),
            Err(error) => Err(self.fails("sync", &error)),
        }
    }
}

// Opens the file of a store, and tells its length.
fn open_measured(
    alloc: Global,
    rt: &HostRuntime,
    path: &[u8],
    create: Option<u64>,
) -> io::Result<(OpenedFile, u64)> {
    let opened = open_store(alloc, rt, path, create)?;
    let length = length_of(&opened.file)?;
    Ok((opened, length))
}

// The number of bytes, which is below 2^63.
fn length_of(file: &File) -> io::Result<u64>
    ensures { IfOk result (λ len. len < 2 ^ 63) }
{
    let len = file.metadata()?.len();
    if len >= END {
        return Err(io::Error::from(ErrorKind::FileTooLarge));
    }
    Ok(len)
}

// Reads until the buffer is full or the file ends, and tells how many bytes it has read. An end
// before the file's length is a fault.
fn read_from(file: &File, at: u64, into: &mut [u8]) -> io::Result<usize>
    ensures { IfOk result (λ count. count ≤ length into.old) }
{
    let mut done = 0;
    for _ in 0..u64::MAX {
        if done >= into.len() {
            return Ok(done);
        }
        match file.read_at(&mut into[done..], at.saturating_add(done as u64)) {
            Ok(0) => return at_end(file, at, done),
            Ok(count) => done += count,
            Err(error) if error.kind() == ErrorKind::Interrupted => {}
            Err(error) => return Err(error),
        }
    }
    Err(io::Error::from(ErrorKind::Interrupted))
}

// So many bytes were read from a place on, and then none: they are all that there are.
fn at_end(file: &File, at: u64, done: usize) -> io::Result<usize>
    ensures { IfOk result (λ count. count ≡ done) }
{
    if length_of(file)? > at.saturating_add(done as u64) {
        return Err(io::Error::from(ErrorKind::UnexpectedEof));
    }
    Ok(done)
}
