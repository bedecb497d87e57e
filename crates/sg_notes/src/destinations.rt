// The drivers of destinations, as they are written.

use sg_device::NoMemory;
use sg_hint::append_shown;
use sg_lex::Token;
use sg_listing::{Listing, Location, OpenBrackets, append_text, has_word, token_at};
use sg_parse_base::{is_symbol, is_word};
use std::alloc::Global;

/// How many bytes of a driver are shown.
const WIDTH: usize = 120;

// The place of a byte of the text that has this line and column.
fn offset_of(text: &[u8], at: Location) -> usize {
    let mut line = 1u32;
    for (place, byte) in text.iter().enumerate() {
        if line == at.line {
            return place.saturating_add(at.column as usize).saturating_sub(1);
        }
        if *byte == b'\n' {
            line = line.saturating_add(1);
        }
    }
    text.len()
}

// The text from one place to another in the same file, both with their bytes.
fn written<'a>(listing: &'a Listing, from: Location, to: Location) -> &'a [u8] {
    let text = listing.text(from.file);
    if from.file != to.file {
        return b"";
    }
    let end = offset_of(text, to).saturating_add(1);
    match text.get(offset_of(text, from)..end) {
        Some(written) => written,
        None => b"",
    }
}

// The place of the parenthesis that closes the one at this place.
fn closing_of(tokens: &[Token], opening: usize) -> Option<usize> {
    let mut depth = 0usize;
    for place in opening..tokens.len() {
        let token = &tokens[place];
        if is_symbol(token, b'(') {
            depth = depth.saturating_add(1);
        } else if is_symbol(token, b')') {
            depth = depth.saturating_sub(1);
        }
        if depth == 0 {
            return Some(place);
        }
    }
    None
}

// Whether a driver of a destination begins at this place.
fn is_driver(tokens: &[Token], at: usize, around: &OpenBrackets) -> bool {
    let (Some(word), Some(opening), Some(object), Some(outer)) = (
        tokens.get(at),
        tokens.get(at.saturating_add(1)),
        around.object(tokens),
        around.opening(0),
    ) else {
        return false;
    };
    is_word(word)
        && is_symbol(opening, b'(')
        && has_word(b"destination", object)
        && is_opening(tokens, outer)
}

fn is_opening(tokens: &[Token], at: usize) -> bool {
    match tokens.get(at) {
        Some(token) => is_symbol(token, b'{'),
        None => false,
    }
}

// The name of the statement whose brace has this place, empty where it has none.
fn name_before(tokens: &[Token], opening: usize) -> &[u8] {
    let Some(word) = token_at(tokens, opening.saturating_sub(1)) else {
        return b"";
    };
    if opening > 1 && !has_word(b"destination", word.text.bytes()) {
        return word.text.bytes();
    }
    b""
}

fn append_name(tokens: &[Token], around: &OpenBrackets, out: &mut Vec<u8>) -> Result<(), NoMemory> {
    let name = match around.opening(0) {
        Some(opening) => name_before(tokens, opening),
        None => b"",
    };
    if !name.is_empty() {
        append_shown(name, out)?;
        append_text(b": ", out)?;
    }
    Ok(())
}

// What is written from this place to the end of the call there.
fn driver_at(listing: &Listing, at: usize) -> &[u8] {
    let tokens = listing.tokens();
    let Some(end) = closing_of(tokens, at.saturating_add(1)) else {
        return b"";
    };
    let text = match (listing.location(at), listing.location(end)) {
        (Some(from), Some(to)) => written(listing, from, to),
        _ => b"",
    };
    text
}

// The text in one line: an end of a line, and the blanks behind it, are one blank.
fn in_one_line(alloc: Global, text: &[u8]) -> Result<Vec<u8>, NoMemory> {
    let mut line = Vec::new(alloc);
    let mut begins = false;
    for byte in text {
        if *byte == b'\n' {
            line.push(b' ')?;
            begins = true;
        } else if !begins || !is_blank(*byte) {
            line.push(*byte)?;
            begins = false;
        }
    }
    Ok(line)
}

fn is_blank(byte: u8) -> bool {
    byte == b' ' || byte == b'\t'
}

fn front_of(text: &[u8]) -> &[u8] {
    match text.get(..WIDTH) {
        Some(front) => front,
        None => text,
    }
}

fn append_destination(
    alloc: Global,
    listing: &Listing,
    at: usize,
    around: &OpenBrackets,
    number: u32,
    out: &mut Vec<u8>,
) -> Result<(), NoMemory> {
    let line = format!(in alloc; "# destination {number} is ")?;
    append_text(line.as_bytes(), out)?;
    append_name(listing.tokens(), around, out)?;
    let driver = in_one_line(alloc, driver_at(listing, at))?;
    append_shown(front_of(&driver), out)?;
    append_text(b"\n", out)
}

/// A line for each driver of a destination, in the order of their numbers: the name of its statement, and the driver as it is written.
pub fn destinations_text(alloc: Global, listing: &Listing) -> Result<Vec<u8>, NoMemory> {
    let tokens = listing.tokens();
    let mut around = OpenBrackets::new(alloc);
    let mut number = 0u32;
    let mut out = Vec::new(alloc);
    for at in 0..tokens.len() {
        if is_driver(tokens, at, &around) {
            append_destination(alloc, listing, at, &around, number, &mut out)?;
            number = number.saturating_add(1);
        }
        around.pass(&tokens[at], at)?;
    }
    Ok(out)
}
