// What the program does with a device. Each answers whether the device was opened.
use sg_device::{Disk, Frames, Inlet, Outlet, Pull};
use sg_file::{Appending, FileDisk, FileInlet, FileOutlet, IdleWait, read_file};
use std::io;
use std::thread::Threads;

// An outlet that can be opened anew at once.
pub(crate) fn open(
    rt: HostRuntime,
    path: &str,
    fsync: bool,
    rest: IdleWait,
) -> io::Result<Option<FileOutlet>> {
    let how = Appending {
        fsync,
        mode: 0o600,
        folders: None,
        reopen: 0,
    };
    match FileOutlet::open(rt.alloc(), rt, path.as_bytes(), how, rest) {
        Ok(outlet) => Ok(Some(outlet)),
        Err(_) => Ok(None),
    }
}

fn push(rt: HostRuntime, frames: &mut Frames, line: &str) -> io::Result<()> {
    let mut frame = line.as_bytes().to_vec(rt.alloc())?;
    frame.push(b'\n')?;
    frames.push(&frame)?;
    Ok(())
}

/// Sends all lines of standard input at once, and says how many of them were taken.
pub(crate) fn send(rt: HostRuntime, path: &str, fsync: bool) -> io::Result<bool> {
    let rest = IdleWait::new(rt.alloc(), rt)?;
    let Some(mut outlet) = open(rt, path, fsync, rest)? else {
        return Ok(false);
    };
    send_some(&mut outlet, &input(rt)?);
    say_taken(rt, &outlet)
}

// All lines of standard input.
fn input(rt: HostRuntime) -> io::Result<Frames> {
    let mut frames = Frames::new(rt.alloc());
    for line in rt.lines(rt.alloc()) {
        push(rt, &mut frames, line?.as_str())?;
    }
    Ok(frames)
}

// How many frames were taken.
fn say_taken(rt: HostRuntime, outlet: &FileOutlet) -> io::Result<bool> {
    let taken = outlet.taken();
    println!(rt; "taken {taken}")?;
    Ok(true)
}

/// Sends the frames, of which there must be one, and tells whether all were taken.
pub(crate) fn send_some<O: Outlet>(outlet: &mut O, frames: &Frames) -> bool {
    !frames.is_empty() && outlet.send(frames).is_ok()
}

/// Sends each line of standard input for itself. After a refusal the outlet is opened anew before the
/// next line, and the line is lost.
pub(crate) fn lines(rt: HostRuntime, path: &str) -> io::Result<bool> {
    let rest = IdleWait::new(rt.alloc(), rt)?;
    let Some(mut outlet) = open(rt, path, false, rest)? else {
        return Ok(false);
    };
    send_lines(rt, &mut outlet)?;
    say_taken(rt, &outlet)
}

fn send_lines(rt: HostRuntime, outlet: &mut FileOutlet) -> io::Result<()> {
    for line in rt.lines(rt.alloc()) {
        send_line(rt, outlet, line?.as_str())?;
    }
    Ok(())
}

// Sends a line, and opens the outlet anew after a refusal.
fn send_line(rt: HostRuntime, outlet: &mut FileOutlet, line: &str) -> io::Result<()> {
    let mut frames = Frames::new(rt.alloc());
    push(rt, &mut frames, line)?;
    if !send_some(outlet, &frames) {
        let _ready = outlet.reopen();
    }
    Ok(())
}

/// Pulls up to the end, and says how many bytes came.
pub(crate) fn pull<T: Threads>(threads: &T, rt: HostRuntime, path: &str) -> io::Result<bool> {
    let rest = IdleWait::new(rt.alloc(), rt)?;
    let opened = FileInlet::open(
        threads,
        rt.alloc(),
        rt,
        path.as_bytes(),
        true,
        65_536,
        0,
        rest,
    );
    let Ok(mut inlet) = opened else {
        return Ok(false);
    };
    let mut buffer = [0u8; 4096];
    for _ in 0..u64::MAX {
        match inlet.pull(&mut buffer) {
            Ok(Pull::Bytes { .. }) => {}
            _ => break,
        }
    }
    let bytes = inlet.counts().bytes;
    println!(rt; "bytes {bytes}")?;
    Ok(true)
}

/// Reads a file whole, and says how many bytes it has.
pub(crate) fn read(rt: HostRuntime, path: &str) -> io::Result<bool> {
    let mut faults = 0;
    match read_file(rt.alloc(), rt, &mut faults, path.as_bytes(), 1_048_576) {
        Ok(bytes) => {
            let count = bytes.len();
            println!(rt; "bytes {count}")?;
            Ok(true)
        }
        Err(_) => Ok(false),
    }
}

/// Opens a store, made where it is missing, says so, and keeps it until standard input ends.
pub(crate) fn store(rt: HostRuntime, path: &str) -> io::Result<bool> {
    let Ok(mut disk) = FileDisk::open(rt.alloc(), rt, path.as_bytes(), Some(128)) else {
        return Ok(false);
    };
    println!(rt; "opened")?;
    for line in rt.lines(rt.alloc()) {
        let line = line?;
        let written = disk.write_at(0, line.as_bytes()).is_ok() && disk.sync().is_ok();
        println!(rt; "written {written}")?;
    }
    Ok(true)
}

/// Opens a store that is there, and says how many of its first 4,096 bytes were read.
pub(crate) fn look(rt: HostRuntime, path: &str) -> io::Result<bool> {
    let Ok(mut disk) = FileDisk::open(rt.alloc(), rt, path.as_bytes(), None) else {
        return Ok(false);
    };
    let mut buffer = [0u8; 4096];
    if let Ok(count) = disk.read_at(0, &mut buffer) {
        println!(rt; "read {count}")?;
    } else {
        println!(rt; "read failed")?;
    }
    Ok(true)
}
