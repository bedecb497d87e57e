//! Says what cores come to, one row of standard input after the other. The first word of a row tells its kind:
//!
//! - `calls NAME | ..` makes calls and says their answers: the module `calls` says how they are written.
//! - `runs SEED COUNT STEPS MORE` makes so many runs of calls drawn at random, each from a seed of its own.
//! - `moments SEED STEPS MORE` opens again over what a crash leaves after each step of a run.
//! - `stops SEED STORE CALLS STEPS TEAR MORE` makes a run for each number of calls up to that one, from which on the
//!   store fails; `fails ..` the same with that call alone. TEAR is what a write or a sync that fails leaves: `-`
//!   nothing, or letters of `picks` in the module `images`.
//! - `older SEED CALLS STEPS MORE COUNT | PARTS` makes such runs over a disk-buffer of an older format.
//! - `migrates PARTS` opens over a disk-buffer of these bytes: the module `migration` says how they are written.
//!
//! After each step of a run the tally of the core must be that of its events, and each front must show the entries
//! that are left. At its end a crash leaves several images of the stores, and over each the core must open again
//! with the positions and the entries that it may find. Over one of them a run goes on for MORE steps, in which a source
//! may begin anew, and ends in the same way. A row says how much was compared, and `DIFFERS` where something isn't as it
//! must be.
#![tactic(auto)]

mod calls;
mod cores;
mod draws;
mod entries;
mod images;
mod lines;
mod migration;
mod openings;
mod rows;
mod runs;
mod steps;

use std::alloc::{AllocError, Global};
use std::io;
use std::sync::Wait;

// What a row of standard input comes to.
fn answer<T: Wait>(rt: &T, alloc: Global, row: &str) -> Result<Vec<u8>, AllocError> {
    let (kind, rest) = row.split_once(' ').unwrap_or((row, ""));
    match kind {
        "calls" => calls::said(rt, alloc, rest),
        "runs" => rows::runs(alloc, rest),
        "moments" => rows::moments(alloc, rest),
        "stops" => rows::failures(alloc, rest, true),
        "fails" => rows::failures(alloc, rest, false),
        "older" => rows::older(alloc, rest),
        "migrates" => migration::said(alloc, rest),
        _ => Vec::from_slice(alloc, b"no such row"),
    }
}

fn say(rt: HostRuntime, answer: Result<Vec<u8>, AllocError>) -> io::Result<()> {
    match answer {
        Ok(said) => println!(rt; "{}", said.escape_ascii()),
        Err(_) => println!(rt; "no memory"),
    }
}

fn main(rt: HostRuntime) -> io::Result<()> {
    for line in rt.lines(rt.alloc()) {
        say(rt, answer(&rt, rt.alloc(), line?.as_str()))?;
    }
    Ok(())
}
