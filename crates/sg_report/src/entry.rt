// The lines on the entries of a store.
ghost use Rattle.std.specs.Prelude.{◌≡◌, ◌++◌, OnOk, OnErr};
ghost use Rattle.sg_report.specs.Entry.{flow_text, entry_line, frame_line, entries_line};

use std::alloc::{AllocError, Global};

fn flow_text(flow: bool) -> &'static str
    ensures { result.now ≡ flow_text flow }
{
    if flow { "yes" } else { "no" }
}

/// Appends the line of an entry: its number in its store from 0 on, the number of its source, the place
/// behind its record there, whether it is flow-controlled, and the length of its payload in bytes. Without
/// memory `out` stays as it was.
pub fn entry_text(
    alloc: Global,
    number: u64,
    source: u32,
    end: u64,
    flow: bool,
    length: u64,
    out: &mut Vec<u8>,
) -> Result<(), AllocError>
    ensures ok { OnOk result
        (out.new.items ≡ out.old.items ++ entry_line number source end flow length) }
    ensures err { OnErr result (out.new.items ≡ out.old.items) }
{
    let flow = flow_text(flow);
    let line = format!(in alloc;
        "entry {number} source {source} end {end} flow {flow} length {length}\n"
    )?;
    out.extend_from_slice(line.as_bytes())
}

/// Appends the line of a frame that is held back, with its length. Without memory `out` stays as it was.
pub fn frame_text(
    alloc: Global,
    number: u64,
    length: u64,
    out: &mut Vec<u8>,
) -> Result<(), AllocError>
    ensures ok { OnOk result (out.new.items ≡ out.old.items ++ frame_line number length) }
    ensures err { OnErr result (out.new.items ≡ out.old.items) }
{
    let line = format!(in alloc; "entry {number} frame length {length}\n")?;
    out.extend_from_slice(line.as_bytes())
}

/// Appends the line that stands behind those of the entries, with their number. Without memory `out`
/// stays as it was.
pub fn entries_text(alloc: Global, count: u64, out: &mut Vec<u8>) -> Result<(), AllocError>
    ensures ok { OnOk result (out.new.items ≡ out.old.items ++ entries_line count) }
    ensures err { OnErr result (out.new.items ≡ out.old.items) }
{
    let line = format!(in alloc; "entries {count}\n")?;
    out.extend_from_slice(line.as_bytes())
}
