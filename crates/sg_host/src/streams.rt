// Standard input, output and error.
ghost use Rattle.sg_host.specs.Saying.{SaysOut};

use sg_device::SayRefusal;
use sg_file::takes_lines;
use std::alloc::AllocError;
use std::fs::{File, OpenOptions};
use std::io::{self, Write};
use std::os::fd::AsRawFd;

// A pipe or a socket that takes anything takes so many bytes at once.
const PIECE: usize = 4_096;

// The last descriptor of the three streams.
const LAST: i32 = 2;

/// The null device in the place of each of the three streams that the program was started without, as
/// long as this is kept. Without it a file that is opened later would have the number of a stream, and
/// what is told on standard error would be written into it.
#[derive(Drop)]
pub struct Streams {
    first: Option<File>,
    second: Option<File>,
    third: Option<File>,
}

impl Streams {
    /// Opens it where a stream is missing. Nothing else was opened before. It fails where a stream is
    /// missing and nothing can be opened in its place.
    pub fn open(rt: &HostRuntime) -> io::Result<Streams> {
        Ok(Streams {
            first: open_missing(rt)?,
            second: open_missing(rt)?,
            third: open_missing(rt)?,
        })
    }
}

// The system gives a file the first number that is free.
fn open_missing(rt: &HostRuntime) -> io::Result<Option<File>> {
    let mut how = OpenOptions::new();
    how.read(true).write(true);
    let file = match how.open(rt, "/dev/null") {
        Ok(file) => file,
        Err(_) => File::open(rt, "/")?,
    };
    if file.as_raw_fd() > LAST {
        return Ok(None);
    }
    Ok(Some(file))
}

/// Writes the bytes to standard output, by one write where the system takes them so. A write that
/// fails is counted.
pub fn say(rt: HostRuntime, faults: &mut u64, bytes: &[u8]) -> Result<(), SayRefusal>
    ensures { SaysOut faults.old faults.new result }
{
    if rt.write_all(bytes).is_err() {
        *faults = faults.saturating_add(1);
        return Err(SayRefusal::Fault);
    }
    Ok(())
}

/// Writes the bytes to standard error, and passes over a failure. What a pipe or a socket has no room
/// for is dropped, and counted in `dropped`; what is told next begins with their number.
pub fn tell(rt: HostRuntime, dropped: &mut u64, bytes: &[u8]) {
    if *dropped > 0 && takes_lines(&rt) {
        let _told = tell_dropped(rt, *dropped);
        *dropped = 0;
    }
    for piece in bytes.chunks(PIECE) {
        if !takes_lines(&rt) {
            *dropped = dropped.saturating_add(1);
            return;
        }
        let _told = rt.stderr().write_all(piece);
    }
}

fn tell_dropped(rt: HostRuntime, dropped: u64) -> Result<(), AllocError> {
    let line = format!(in rt.alloc(); "{dropped} texts before this one were dropped\n")?;
    let _told = rt.stderr().write_all(line.as_bytes());
    Ok(())
}
