// How a note is written.

use crate::reading::{Listing, Location};
use sg_device::NoMemory;
use sg_hint::{
    append_caret, append_line, append_number, append_shown, hidden_before, line_of, name_at,
};
use std::alloc::Global;

pub fn append_text(text: &[u8], out: &mut Vec<u8>) -> Result<(), NoMemory> {
    out.extend_from_slice(text)?;
    Ok(())
}

// The line of the file, and the caret below its column.
fn append_excerpt(line: &[u8], column: u32, out: &mut Vec<u8>) -> Result<(), NoMemory> {
    let at = (column as usize).saturating_sub(1);
    let hidden = hidden_before(line.len(), at);
    append_line(line, hidden, out)?;
    append_caret(at.saturating_sub(hidden), &None, out)?;
    Ok(())
}

/// Appends `FILE:LINE:COLUMN: WORDS`, the line and a caret.
pub fn append_at(
    alloc: Global,
    listing: &Listing,
    at: Location,
    words: &[u8],
    out: &mut Vec<u8>,
) -> Result<(), NoMemory> {
    append_shown(name_at(listing.names.as_slice(), at.file), out)?;
    append_number(alloc, at.line, out)?;
    append_number(alloc, at.column, out)?;
    append_text(b": ", out)?;
    append_shown(words, out)?;
    append_text(b"\n", out)?;
    if let Some(line) = line_of(listing.text(at.file), at.line) {
        append_excerpt(line, at.column, out)?;
    }
    Ok(())
}
