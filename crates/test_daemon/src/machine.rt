// The machine in memory, and how rows are read.
use sg_memory::{MemoryFile, MemoryWorld, Pace};
use sg_world::MemoryMachine;
use std::alloc::{AllocError, Global};

const CONFIG: &[u8] =
    b"@version: 4.2\nsource s { file(\"in\" flags(no-parse)); };\ndestination d { file(\"out\" template(\"$MSG\\n\")); };\nlog { source(s); destination(d); flags(flow-control); };\n";

/// The field before the next `;`, and the rest.
pub(crate) fn field(row: &str) -> Option<(&str, &str)> {
    row.split_once(';')
}

/// A text, with `~` for LF.
pub(crate) fn text(alloc: Global, row: &str) -> Result<Vec<u8>, AllocError> {
    let mut text = Vec::new(alloc);
    for byte in row.as_bytes() {
        text.push(if *byte == b'~' { b'\n' } else { *byte })?;
    }
    Ok(text)
}

/// A machine with these files: its inlets give four bytes a pull, received at 2026-02-05T17:32:21Z.
pub(crate) fn with_files(alloc: Global, files: Vec<MemoryFile>) -> MemoryMachine {
    let pace = Pace {
        piece: 4,
        at: 1_770_312_741_000_000,
    };
    let world = MemoryWorld::new(alloc, files, pace);
    MemoryMachine { world }
}

/// Another file of a machine.
pub(crate) fn add_file(
    alloc: Global,
    name: &[u8],
    bytes: &[u8],
    files: &mut Vec<MemoryFile>,
) -> Result<(), AllocError> {
    files.push(MemoryFile::new(alloc, name, bytes)?)?;
    Ok(())
}

fn files(alloc: Global, input: &[u8]) -> Result<Vec<MemoryFile>, AllocError> {
    let mut files = Vec::new(alloc);
    add_file(alloc, b"c", CONFIG, &mut files)?;
    add_file(alloc, b"bad", b"# x\n", &mut files)?;
    add_file(alloc, b"in", input, &mut files)?;
    Ok(files)
}

/// A machine with this input.
pub(crate) fn with_input(alloc: Global, input: &[u8]) -> Result<MemoryMachine, AllocError> {
    Ok(with_files(alloc, files(alloc, input)?))
}
