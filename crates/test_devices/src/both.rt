// Two destinations of one machine over one file, each with a thread of its own.
use crate::work::{open, send_some};
use sg_device::{Frames, Outlet};
use sg_file::{FileOutlet, IdleWait};
use std::alloc::AllocError;
use std::io;
use std::thread::{self, Threads};

// The lines that each of them is given, and the bytes of a line without its line feed.
const LINES: u32 = 4_000;

const LENGTH: usize = 899;

/// Sends lines to both at the same time, and says how many of each one's were taken. A line that is
/// refused is lost, and the next one is sent to the file opened anew.
pub(crate) fn both<T: Threads>(threads: &T, rt: HostRuntime, path: &str) -> io::Result<bool> {
    let rest = IdleWait::new(rt.alloc(), rt)?;
    let other = rest.share()?;
    let Some(one) = open(rt, path, false, rest)? else {
        return Ok(false);
    };
    beside(threads, rt, path, one, other)
}

// The same with one that is open.
fn beside<T: Threads>(
    threads: &T,
    rt: HostRuntime,
    path: &str,
    one: FileOutlet,
    other: IdleWait,
) -> io::Result<bool> {
    let Some(two) = open(rt, path, false, other)? else {
        return Ok(false);
    };
    send_both(threads, rt, one, two)
}

fn send_both<T: Threads>(
    threads: &T,
    rt: HostRuntime,
    one: FileOutlet,
    two: FileOutlet,
) -> io::Result<bool> {
    let (first, second) = thread::join(
        threads,
        move || send_lines(rt, one, "a"),
        move || send_lines(rt, two, "b"),
    );
    println!(rt; "taken {first} {second}")?;
    Ok(true)
}

fn send_lines(rt: HostRuntime, outlet: FileOutlet, letter: &str) -> u64 {
    let mut outlet = outlet;
    for number in 0..LINES {
        if let Ok(frames) = line(rt, letter, number) {
            if !send_some(&mut outlet, &frames) {
                let _ready = outlet.reopen();
            }
        }
    }
    outlet.taken()
}

// The letter, the number, and as many letters x as make a line.
fn line(rt: HostRuntime, letter: &str, number: u32) -> Result<Frames, AllocError> {
    let text = format!(in rt.alloc(); "{letter}{number:06}")?;
    let mut frame = text.into_bytes();
    for _ in 0..LENGTH {
        if frame.len() < LENGTH {
            frame.push(b'x')?;
        }
    }
    frame.push(b'\n')?;
    let mut frames = Frames::new(rt.alloc());
    frames.push(&frame)?;
    Ok(frames)
}
