// What `check` says of a configuration file, whose text is the row: the file is named `c`, and includes others by the names `d`,
// which holds a filter, and `e`, which isn't there; `missing` is no file at all. Of a row `NUMBERS TEXT`, which begins with numbers
// with commas between them, the building of the patterns of these numbers, from 0, is refused as too large: numbers go on where they
// are tried once more, and one that is no pattern has none.

use crate::commands::check;
use crate::faults::{append_fault, append_unread, append_words};
use crate::heard::Heard;
use crate::machine::{add_file, add_text, machine_with};
use sg_daemon::Unchecked;
use sg_device::NoMemory;
use sg_memory::MemoryFile;
use sg_memory_disk::FaultPlan;
use sg_world::MemoryMachine;
use std::alloc::Global;

fn are_numbers(word: &str) -> bool {
    for part in word.split(',') {
        if part.parse::<u64>().is_err() {
            return false;
        }
    }
    true
}

// The numbers at the front of a row, none where it begins with no numbers, and the text.
fn parts(row: &str) -> (&str, &str) {
    match row.split_once(' ') {
        Some((word, text)) if are_numbers(word) => (word, text),
        _ => ("", row),
    }
}

// The buildings of patterns that are refused.
fn builds(alloc: Global, numbers: &str) -> Result<FaultPlan, NoMemory> {
    let mut calls = Vec::new(alloc);
    for part in numbers.split(',') {
        if let Ok(number) = part.parse::<u64>() {
            calls.push(number)?;
        }
    }
    Ok(FaultPlan::new(calls))
}

fn files(alloc: Global, text: &str) -> Result<Vec<MemoryFile>, NoMemory> {
    let mut files = Vec::new(alloc);
    add_file(alloc, b"d", b"filter f {\n message(\"x\"); };", &mut files)?;
    add_text(alloc, b"c", text, &mut files)?;
    Ok(files)
}

fn machine(alloc: Global, row: &str) -> Result<MemoryMachine, NoMemory> {
    let (numbers, text) = parts(row);
    let builds = builds(alloc, numbers)?;
    let files = files(alloc, text)?;
    let mut machine = machine_with(alloc, files);
    machine.world.plans.builds = builds;
    Ok(machine)
}

fn append_unchecked(
    alloc: Global,
    unchecked: &Unchecked,
    out: &mut Vec<u8>,
) -> Result<(), NoMemory> {
    match unchecked {
        Unchecked::Bad(fault, names) => append_fault(alloc, fault, names, out),
        Unchecked::Unread(name) => append_unread(name, out),
        Unchecked::SayFault => append_words(b"not said", out),
        Unchecked::NoMemory => append_words(b"no memory", out),
    }
}

// What is said of the file of this machine, and behind it what was refused.
fn said(alloc: Global, machine: &mut MemoryMachine) -> Result<Heard, NoMemory> {
    let checked = check(alloc, machine);
    let mut out = machine.world.said().to_vec(alloc)?;
    if let Err(unchecked) = &checked {
        append_unchecked(alloc, unchecked, &mut out)?;
    }
    Ok(Heard::Answer(out))
}

/// What is said of the file.
pub(crate) fn answer(alloc: Global, row: &str) -> Result<Heard, NoMemory> {
    let mut machine = machine(alloc, row)?;
    said(alloc, &mut machine)
}
