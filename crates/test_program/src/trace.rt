// What `trace` says. The parts of a row stand between tabs: the name of a source, the file that is traced and the configuration
// file; `missing` is no file at all. Behind what was said stands why the trace ended before its end.

use crate::faults::{append_unloaded, append_words, untraced_words};
use crate::heard::Heard;
use crate::machine::{add_text, machine_with};
use sg_device::NoMemory;
use sg_trace::{Unshown, trace_input};
use sg_world::MemoryMachine;
use std::alloc::Global;

fn machine(alloc: Global, input: &str, config: &str) -> Result<MemoryMachine, NoMemory> {
    let mut files = Vec::new(alloc);
    add_text(alloc, b"in", input, &mut files)?;
    add_text(alloc, b"c", config, &mut files)?;
    Ok(machine_with(alloc, files))
}

fn append_unshown(alloc: Global, unshown: &Unshown, out: &mut Vec<u8>) -> Result<(), NoMemory> {
    match unshown {
        Unshown::Unloaded(why) => append_unloaded(alloc, why, out),
        Unshown::Untraced(why) => append_words(untraced_words(*why), out),
    }
}

fn show(alloc: Global, source: &str, machine: &mut MemoryMachine) -> Result<(), Unshown> {
    trace_input(alloc, b"c", source.as_bytes(), b"in", machine)
}

fn traced(alloc: Global, source: &str, machine: &mut MemoryMachine) -> Result<Heard, NoMemory> {
    let shown = show(alloc, source, machine);
    let mut out = machine.world.said().to_vec(alloc)?;
    if let Err(unshown) = &shown {
        append_unshown(alloc, unshown, &mut out)?;
    }
    Ok(Heard::Answer(out))
}

/// What is said of the file that is traced.
pub(crate) fn answer(alloc: Global, row: &str) -> Result<Heard, NoMemory> {
    let Some((source, rest)) = row.split_once('\t') else {
        return Ok(Heard::Unknown);
    };
    let Some((input, config)) = rest.split_once('\t') else {
        return Ok(Heard::Unknown);
    };
    let mut machine = machine(alloc, input, config)?;
    traced(alloc, source, &mut machine)
}
