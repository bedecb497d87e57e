// The sources that a trace may be asked for.

use sg_device::NoMemory;
use sg_hint::append_shown;
use sg_lex::Token;
use sg_listing::{append_text, name_of, spans};
use sg_parse_base::same_keyword;
use std::alloc::Global;

/// How many are told at most.
const MOST: usize = 16;

// The name of the source statement whose first token has this place.
fn source_of(tokens: &[Token], first: usize) -> Option<&[u8]> {
    let (kind, name) = name_of(tokens, first)?;
    if same_keyword(kind, b"source") {
        return Some(name);
    }
    None
}

fn append_source(name: &[u8], count: usize, out: &mut Vec<u8>) -> Result<(), NoMemory> {
    if count == 0 {
        append_text(b"    note: the source statements are `", out)?;
    } else {
        append_text(b"`, `", out)?;
    }
    append_shown(name, out)?;
    Ok(())
}

/// Appends the names of the source statements, if there are any.
pub fn append_sources(alloc: Global, tokens: &[Token], out: &mut Vec<u8>) -> Result<(), NoMemory> {
    let all = spans(alloc, tokens)?;
    let mut count = 0usize;
    for span in &all {
        if let Some(name) = source_of(tokens, span.first) {
            if count < MOST {
                append_source(name, count, out)?;
                count = count.saturating_add(1);
            }
        }
    }
    if count > 0 {
        append_text(b"`\n", out)?;
    }
    Ok(())
}
