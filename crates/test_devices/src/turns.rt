// Files by their paths, whose lines come in turns.
use crate::work::send_some;
use sg_device::{Frames, Outlet};
use sg_dynfile::DynFile;
use sg_file::IdleWait;
use sg_host::{HostOpener, HostPaths};
use sg_outside::OutletSpec;
use std::io;

const HELD: u32 = 128;

/// Sends all lines of standard input at once, each to the next one of the files, whose paths have commas
/// between, and says how many of them were taken. All files are open then.
pub(crate) fn turns(rt: HostRuntime, paths: &str, fsync: bool) -> io::Result<bool> {
    let spec = OutletSpec::ByPath {
        fsync,
        mode: 0o600,
        folders: None,
        reopen: 0,
        reap: 0,
    };
    let mut machine = HostPaths::new(rt.alloc(), rt, IdleWait::new(rt.alloc(), rt)?);
    let Ok(opener) = machine.open(rt.alloc(), &spec) else {
        return Ok(false);
    };
    let mut files = DynFile::new(rt.alloc(), opener, HELD);
    let done = send(rt, paths, &mut files);
    machine.close(files.into_opener());
    done
}

fn send(rt: HostRuntime, paths: &str, files: &mut DynFile<HostOpener>) -> io::Result<bool> {
    if !send_some(files, &nothing(rt, paths)?) {
        return Ok(false);
    }
    let before = files.taken();
    send_some(files, &input(rt, paths)?);
    let taken = files.taken().saturating_sub(before);
    println!(rt; "taken {taken}")?;
    Ok(true)
}

// A text for the file of a path: behind the path and its length.
fn push(rt: HostRuntime, frames: &mut Frames, path: &str, text: &str) -> io::Result<()> {
    let length = (path.len() % 65_536) as u16;
    let mut frame = length.to_be_bytes().to_vec(rt.alloc())?;
    frame.extend_from_slice(path.as_bytes())?;
    frame.extend_from_slice(text.as_bytes())?;
    frames.push(&frame)?;
    Ok(())
}

// An empty text for each of the files.
fn nothing(rt: HostRuntime, paths: &str) -> io::Result<Frames> {
    let mut frames = Frames::new(rt.alloc());
    for path in paths.split(',') {
        push(rt, &mut frames, path, "")?;
    }
    Ok(frames)
}

// The path of this number.
fn path_at(paths: &str, number: usize) -> &str {
    paths.split(',').nth(number).unwrap_or("")
}

// A line for the file of a path.
fn push_line(rt: HostRuntime, frames: &mut Frames, path: &str, line: &str) -> io::Result<()> {
    let text = format!(in rt.alloc(); "{line}\n")?;
    push(rt, frames, path, text.as_str())
}

// All lines of standard input, each for the next file.
fn input(rt: HostRuntime, paths: &str) -> io::Result<Frames> {
    let count = paths.split(',').count();
    let mut frames = Frames::new(rt.alloc());
    let mut number = 0usize;
    for line in rt.lines(rt.alloc()) {
        push_line(rt, &mut frames, path_at(paths, number), line?.as_str())?;
        number = number.saturating_add(1);
        if number >= count {
            number = 0;
        }
    }
    Ok(frames)
}
