//! Says what devices come to. With no words it reads rows over devices in memory, one after the other. The first word of a
//! row tells its kind, and the module of that name how it is written:
//!
//! - `files ..`: an outlet of files by their paths, over an opener.
//! - `overflow ..`: an outlet that holds frames back in memory and in a store, over another one.
//!
//! With words it is over the real devices, for the scripts in tests/ that run it over full disks, locked stores and FIFOs.
#![tactic(auto)]

mod both;
mod files;
mod overflow;
mod turns;
mod work;

use std::alloc::{AllocError, Global};
use std::process::ExitCode;
use std::thread::Threads;
use std::{env, io};

const USAGE: &str =
    "usage: test_devices send PATH [fsync] | turns PATH,PATH.. [fsync] | lines PATH | both PATH | pull PATH | read PATH | store PATH | look PATH";

// Says what a line of standard input comes to.
fn tell(alloc: Global, line: &str, said: &mut Vec<u8>) -> Result<(), AllocError> {
    let (kind, row) = line.split_once(' ').unwrap_or((line, ""));
    match kind {
        "files" => files::tell(alloc, row, said),
        "overflow" => overflow::tell(alloc, row, said),
        _ => said.extend_from_slice(b"no such row"),
    }
}

fn rows(rt: HostRuntime) -> io::Result<()> {
    let alloc = rt.alloc();
    for line in rt.lines(alloc) {
        let mut said = Vec::new(alloc);
        tell(alloc, line?.as_str(), &mut said)?;
        let said = String::from_utf8_lossy(alloc, &said)?;
        println!(rt; "{said}")?;
    }
    Ok(())
}

fn run<T: Threads>(
    threads: &T,
    rt: HostRuntime,
    what: &str,
    path: &str,
    fsync: bool,
) -> io::Result<bool> {
    match what {
        "send" => work::send(rt, path, fsync),
        "turns" => turns::turns(rt, path, fsync),
        "lines" => work::lines(rt, path),
        "both" => both::both(threads, rt, path),
        "pull" => work::pull(threads, rt, path),
        "read" => work::read(rt, path),
        "store" => work::store(rt, path),
        "look" => work::look(rt, path),
        _ => Ok(false),
    }
}

fn main(rt: HostRuntime) -> io::Result<ExitCode> {
    let mut words = env::args(&rt)?.skip(1);
    let Some(what) = words.next() else {
        rows(rt)?;
        return Ok(ExitCode::from(0));
    };
    let Some(path) = words.next() else {
        println!(rt; "{USAGE}")?;
        return Ok(ExitCode::from(1));
    };
    let fsync = words.next().is_some();
    let done = run(&rt, rt, what.as_str(), path.as_str(), fsync)?;
    Ok(ExitCode::from(if done { 0 } else { 4 }))
}
