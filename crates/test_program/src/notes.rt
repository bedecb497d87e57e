// What is told beside the fault of a configuration file, whose text is the row: the file is named `c`, and includes others by the names
// `d`, which refers to a filter that isn't there, `e`, which defines one, `f`, which includes one that isn't there, and one whose name is
// written as a variable, which includes that too.

use crate::commands::check;
use crate::heard::Heard;
use crate::machine::{add_file, add_text, machine_with};
use sg_daemon::Unchecked;
use sg_device::{Name, NoMemory};
use sg_lex::ConfigFault;
use sg_listing::read_listing;
use sg_memory::MemoryFile;
use sg_notes::{destinations_text, further_text, include_note, notes_text};
use sg_warnings::warnings_text;
use sg_world::MemoryMachine;
use std::alloc::Global;

fn included_files(alloc: Global) -> Result<Vec<MemoryFile>, NoMemory> {
    let mut files = Vec::new(alloc);
    add_file(
        alloc,
        b"d",
        b"# included\nlog { filter(g); };\n",
        &mut files,
    )?;
    add_file(
        alloc,
        b"e",
        b"filter first { message(\"x\"); };\n",
        &mut files,
    )?;
    add_file(
        alloc,
        b"f",
        b"@include \"e\"\n@include \"gone\"\n",
        &mut files,
    )?;
    add_file(alloc, b"`v`", b"@include \"gone\"\n", &mut files)?;
    Ok(files)
}

fn machine(alloc: Global, text: &str) -> Result<MemoryMachine, NoMemory> {
    let mut files = included_files(alloc)?;
    add_text(alloc, b"c", text, &mut files)?;
    Ok(machine_with(alloc, files))
}

fn noted(
    alloc: Global,
    machine: &mut MemoryMachine,
    fault: &ConfigFault,
) -> Result<Vec<u8>, NoMemory> {
    let text = notes_text(alloc, machine, b"c", fault)?;
    if text.is_empty() {
        return b"no notes".to_vec(alloc);
    }
    Ok(text)
}

fn unread(alloc: Global, machine: &mut MemoryMachine, wanted: &Name) -> Result<Vec<u8>, NoMemory> {
    match include_note(alloc, machine, b"c", wanted.bytes())? {
        Some(text) => Ok(text),
        None => b"no note".to_vec(alloc),
    }
}

fn told(alloc: Global, machine: &mut MemoryMachine) -> Result<Vec<u8>, NoMemory> {
    let checked = check(alloc, machine);
    match &checked {
        Ok(()) => b"ok".to_vec(alloc),
        Err(Unchecked::Bad(fault, _)) => noted(alloc, machine, fault),
        Err(Unchecked::Unread(name)) => unread(alloc, machine, name),
        Err(_) => b"not loaded".to_vec(alloc),
    }
}

/// The notes beside the file's fault.
pub(crate) fn answer(alloc: Global, row: &str) -> Result<Heard, NoMemory> {
    let mut machine = machine(alloc, row)?;
    Ok(Heard::Answer(told(alloc, &mut machine)?))
}

/// The faults behind the first one.
pub(crate) fn further(alloc: Global, row: &str) -> Result<Heard, NoMemory> {
    let mut machine = machine(alloc, row)?;
    let listing = read_listing(alloc, &mut machine, b"c")?;
    Ok(Heard::Answer(further_text(alloc, listing)?))
}

/// The drivers of the configuration's destinations.
pub(crate) fn destinations(alloc: Global, row: &str) -> Result<Heard, NoMemory> {
    let mut machine = machine(alloc, row)?;
    let listing = read_listing(alloc, &mut machine, b"c")?;
    Ok(Heard::Answer(destinations_text(alloc, &listing)?))
}

/// What the configuration is warned of.
pub(crate) fn warnings(alloc: Global, row: &str) -> Result<Heard, NoMemory> {
    let mut machine = machine(alloc, row)?;
    Ok(Heard::Answer(warnings_text(alloc, &mut machine, b"c")?))
}
