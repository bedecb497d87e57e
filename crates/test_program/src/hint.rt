// The hint beside the fault of a configuration file, whose text is the row, in which `^` stands for a tab and `~` for a carriage
// return: the file is named `c`, and includes others by the names `d`, which refers to a filter that isn't there, and `e`, which
// defines one. Of a row `gone TEXT` the file isn't there any more when the hint is asked for.

use crate::commands::check;
use crate::heard::Heard;
use crate::machine::{add_file, machine_with};
use sg_daemon::Unchecked;
use sg_device::{Name, NoMemory};
use sg_hint::hint;
use sg_lex::ConfigFault;
use sg_list::Seq;
use sg_memory::MemoryFile;
use sg_world::MemoryMachine;
use std::alloc::Global;

fn spaced(alloc: Global, text: &str) -> Result<Vec<u8>, NoMemory> {
    let mut out = Vec::new(alloc);
    for byte in text.as_bytes() {
        out.push(match *byte {
            b'|' => b'\n',
            b'^' => b'\t',
            b'~' => b'\r',
            byte => byte,
        })?;
    }
    Ok(out)
}

fn add_spaced(alloc: Global, text: &str, files: &mut Vec<MemoryFile>) -> Result<(), NoMemory> {
    let bytes = spaced(alloc, text)?;
    add_file(alloc, b"c", &bytes, files)
}

// The files that are included.
fn included(alloc: Global) -> Result<Vec<MemoryFile>, NoMemory> {
    let mut files = Vec::new(alloc);
    let (d, e) = (
        b"# included\nlog { filter(g); };\n".as_slice(),
        b"filter first { message(\"x\"); };\n".as_slice(),
    );
    add_file(alloc, b"d", d, &mut files)?;
    add_file(alloc, b"e", e, &mut files)?;
    Ok(files)
}

// The included files, and the file `c` where it has a text.
fn files(alloc: Global, text: Option<&str>) -> Result<Vec<MemoryFile>, NoMemory> {
    let mut files = included(alloc)?;
    if let Some(text) = text {
        add_spaced(alloc, text, &mut files)?;
    }
    Ok(files)
}

fn machine(alloc: Global, text: Option<&str>) -> Result<MemoryMachine, NoMemory> {
    Ok(machine_with(alloc, files(alloc, text)?))
}

fn hint_text(
    alloc: Global,
    machine: &mut MemoryMachine,
    fault: &ConfigFault,
    names: &Seq<Name>,
) -> Result<Vec<u8>, NoMemory> {
    match hint(alloc, machine, fault, names.as_slice())? {
        Some(text) => Ok(text),
        None => b"no hint".to_vec(alloc),
    }
}

// The hint beside a fault, where the file `c` has this text when it is asked for.
fn hinted(
    alloc: Global,
    text: Option<&str>,
    fault: &ConfigFault,
    names: &Seq<Name>,
) -> Result<Vec<u8>, NoMemory> {
    let mut machine = machine(alloc, text)?;
    hint_text(alloc, &mut machine, fault, names)
}

// What becomes of the file `c` of this machine, which has the text when the hint is asked for.
fn told(
    alloc: Global,
    machine: &mut MemoryMachine,
    later: Option<&str>,
) -> Result<Vec<u8>, NoMemory> {
    let checked = check(alloc, machine);
    match &checked {
        Ok(()) => b"ok".to_vec(alloc),
        Err(Unchecked::Bad(fault, names)) => hinted(alloc, later, fault, names),
        Err(_) => b"not loaded".to_vec(alloc),
    }
}

/// The hint beside the file's fault.
pub(crate) fn answer(alloc: Global, row: &str) -> Result<Heard, NoMemory> {
    let (text, later) = match row.strip_prefix("gone ") {
        Some(text) => (text, None),
        None => (row, Some(row)),
    };
    let mut machine = machine(alloc, Some(text))?;
    let said = told(alloc, &mut machine, later)?;
    Ok(Heard::Answer(said))
}
