//! Measures parts of the program, each by words of its own. Where no words are given, each line of standard input is such words.
//!
//! - `lines FORM FILE OUT` makes the frame of each record of FILE, writes the frames to OUT, and says how many they were. FORM is `3164`
//!   for lines of RFC 3164, which become texts of a file destination, or `5424` for counted records of RFC 5424, which become
//!   counted lines.
//! - `spool FILE COMMITS STAGED` puts entries of 200 bytes into the file of a disk-buffer, so many at a time.
//! - `core WHERE TURNS COUNT` admits records of 200 encoded bytes each to a core, and settles them, so many at a time. WHERE is
//!   `queue` for a destination with a queue in memory, `memory` for one with a disk-buffer on a disk in memory, or the file of one.
//! - `filters WHAT TURNS` asks a filter of a message so many times, `match`, or rewrites it, `subst`.
//! - `paths WHAT TURNS` reads a record so many times, `read`, or routes it, `route`.
#![tactic(auto)]

mod convert;
mod cores;
mod filters;
mod flow;
mod forest;
mod lines;
mod paths;
mod record;
mod spool;

use std::alloc::AllocError;
use std::process::ExitCode;
use std::{env, io};

// Does so many turns of a part. Whether they were done.
fn turned(
    rt: HostRuntime,
    part: &str,
    what: &str,
    turns: u64,
    count: u32,
) -> Result<bool, AllocError> {
    match part {
        "spool" => Ok(spool::run(rt, what, turns, u64::from(count))),
        "core" => flow::run(rt, what, turns, count),
        "filters" => filters::run(rt.alloc(), what, turns),
        "paths" => paths::run(rt.alloc(), what, turns),
        _ => Ok(false),
    }
}

// Does what these words ask for, with this sign between them. Whether it was done.
fn done(rt: HostRuntime, words: &str, between: char) -> io::Result<bool> {
    let mut words = words.split(between);
    let (Some(part), Some(what), Some(first)) = (words.next(), words.next(), words.next()) else {
        return Ok(false);
    };
    let second = words.next().unwrap_or("0");
    if part == "lines" {
        return lines::run(rt, what, first, second);
    }
    let (Ok(turns), Ok(count)) = (first.parse::<u64>(), second.parse::<u32>()) else {
        return Ok(false);
    };
    Ok(turned(rt, part, what, turns, count)?)
}

// The words of the command line, a line each.
fn given(rt: HostRuntime) -> io::Result<String> {
    let mut words = String::new(rt.alloc());
    for word in env::args(&rt)?.skip(1) {
        if !words.is_empty() {
            words.push('\n')?;
        }
        words.push_str(&word)?;
    }
    Ok(words)
}

fn work(rt: HostRuntime) -> io::Result<bool> {
    let words = given(rt)?;
    if !words.is_empty() {
        return done(rt, &words, '\n');
    }
    for line in rt.lines(rt.alloc()) {
        let line = line?;
        if !done(rt, line.as_str(), ' ')? {
            return Ok(false);
        }
    }
    Ok(true)
}

fn main(rt: HostRuntime) -> ExitCode {
    match work(rt) {
        Ok(true) => ExitCode::SUCCESS,
        _ => ExitCode::FAILURE,
    }
}
