// The lines on a device that isn't opened, and on a store that isn't read.
ghost use Rattle.std.specs.Prelude.{◌≡◌, ◌++◌, OnOk, OnErr};
ghost use Rattle.sg_report.specs.Store.{unopened_line, damaged_line, failed_line};

use std::alloc::{AllocError, Global};

/// Appends the line on a device that couldn't be opened, by its kind and its number. Without memory `out`
/// stays as it was.
pub fn unopened_text(
    alloc: Global,
    kind: &str,
    number: u32,
    out: &mut Vec<u8>,
) -> Result<(), AllocError>
    ensures ok { OnOk result (out.new.items ≡ out.old.items ++ unopened_line kind.now number) }
    ensures err { OnErr result (out.new.items ≡ out.old.items) }
{
    let line = format!(in alloc; "cannot open {kind} {number}\n")?;
    out.extend_from_slice(line.as_bytes())
}

/// Appends the line on a store whose bytes can't be read from a place on. Without memory `out` stays as
/// it was.
pub fn damaged_text(alloc: Global, store: u32, at: u64, out: &mut Vec<u8>) -> Result<(), AllocError>
    ensures ok { OnOk result (out.new.items ≡ out.old.items ++ damaged_line store at) }
    ensures err { OnErr result (out.new.items ≡ out.old.items) }
{
    let line = format!(in alloc; "store {store} damaged at {at}\n")?;
    out.extend_from_slice(line.as_bytes())
}

/// Appends the line on a store whose disk failed. Without memory `out` stays as it was.
pub fn failed_text(alloc: Global, store: u32, out: &mut Vec<u8>) -> Result<(), AllocError>
    ensures ok { OnOk result (out.new.items ≡ out.old.items ++ failed_line store) }
    ensures err { OnErr result (out.new.items ≡ out.old.items) }
{
    let line = format!(in alloc; "store {store} failed\n")?;
    out.extend_from_slice(line.as_bytes())
}
