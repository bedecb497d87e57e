//! Says what calls at seats of one hub come to, one row of standard input after the other. The first word of a
//! row tells its kind:
//!
//! - `seats NAME | ..` makes calls at two seats in turn, and the same calls at a core with no hub: the module
//!   `calls` says how they are written. A row says what both answered, and `DIFFERS` where these aren't the same.
//! - `threads COUNT` makes so many calls at each of two seats, on two threads.
#![tactic(auto)]

mod calls;
mod cores;
mod seats;
mod threads;

use std::alloc::{AllocError, Global};
use std::io;
use std::sync::Wait;
use std::thread::Threads;

// What a row of standard input comes to.
fn answer<R: Threads + Wait + Sync>(
    rt: &R,
    alloc: Global,
    row: &str,
) -> Result<Vec<u8>, AllocError> {
    let (kind, rest) = row.split_once(' ').unwrap_or((row, ""));
    match kind {
        "seats" => seats::said(rt, alloc, rest),
        "threads" => threads::said(rt, alloc, rest),
        _ => Vec::from_slice(alloc, b"no such row"),
    }
}

fn say(rt: HostRuntime, answer: Result<Vec<u8>, AllocError>) -> io::Result<()> {
    match answer {
        Ok(said) => println!(rt; "{}", said.escape_ascii()),
        Err(_) => println!(rt; "no memory"),
    }
}

fn main(rt: HostRuntime) -> io::Result<()> {
    for line in rt.lines(rt.alloc()) {
        say(rt, answer(&rt, rt.alloc(), line?.as_str()))?;
    }
    Ok(())
}
