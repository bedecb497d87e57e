//! Says what commands of the program come to, over machines in memory. A line of standard input begins with the word of an area,
//! and behind a space stands a row of it. A line that begins with `#`, and one of no bytes, is nothing.
//!
//! - `check`: what `check` says of a configuration file (`check.rt`).
//! - `hint`: the hint beside the fault of one (`hint.rt`).
//! - `notes`, `further`, `warnings`, `destinations`: the notes beside its fault, the faults behind the first one, what it is warned of, and
//!   the drivers of its destinations (`notes.rt`).
//! - `trace`: what a file is traced as by a configuration (`trace.rt`).
//! - `traces`: what a file is traced as by a router of this program (`traces.rt`).
//! - `run`: what runs of configurations come to (`run.rt`).
//! - `moments`: what runs come to whose devices stop, and runs over what a crash leaves then (`moments.rt`).
//!
//! In a row `|` stands for the end of a line of a file.
#![tactic(auto)]

mod check;
mod commands;
mod faults;
mod heard;
mod hint;
mod machine;
mod moments;
mod notes;
mod run;
mod stores;
mod trace;
mod traces;

use heard::Heard;
use run::NextRun;
use sg_device::NoMemory;
use std::alloc::Global;
use std::io;
use std::sync::Wait;
use std::thread::Threads;

// What becomes of a line.
fn hear<T: Threads + Wait + Eprint + Sync>(
    rt: &T,
    alloc: Global,
    stage: &mut NextRun,
    line: &str,
) -> Result<Heard, NoMemory> {
    let (area, row) = line.split_once(' ').unwrap_or((line, ""));
    match area {
        "check" => check::answer(alloc, row),
        "hint" => hint::answer(alloc, row),
        "notes" => notes::answer(alloc, row),
        "further" => notes::further(alloc, row),
        "destinations" => notes::destinations(alloc, row),
        "warnings" => notes::warnings(alloc, row),
        "trace" => trace::answer(alloc, row),
        "traces" => traces::answer(alloc, row),
        "run" => stage.hear(rt, row),
        "moments" => moments::answer(rt, alloc, row),
        _ => Ok(Heard::Unknown),
    }
}

// Prints what becomes of a line.
fn tell<T: Print + Threads + Wait + Eprint + Sync>(
    rt: &T,
    alloc: Global,
    stage: &mut NextRun,
    line: &str,
) -> io::Result<()> {
    if line.is_empty() || line.starts_with('#') {
        return Ok(());
    }
    match hear(rt, alloc, stage, line)? {
        Heard::Setting => Ok(()),
        Heard::Answer(said) => println!(rt; "{}", said.escape_ascii()),
        Heard::Unknown => println!(rt; "not understood: {line}"),
    }
}

fn main(rt: HostRuntime) -> io::Result<()> {
    let alloc = rt.alloc();
    let mut stage = NextRun::new(alloc);
    for line in rt.lines(alloc) {
        tell(&rt, alloc, &mut stage, line?.as_str())?;
    }
    Ok(())
}
