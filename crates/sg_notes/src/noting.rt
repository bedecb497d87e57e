// The notes beside the first fault.

use crate::further::fault_of;
use crate::opened::{long_string, long_string_before, unclosed_at, unended_before};
use crate::plain::{append_plain, append_remedy};
use crate::remedies::{include_remedy, version_remedy};
use crate::sources::append_sources;
use crate::twice::first_place;
use sg_device::NoMemory;
use sg_lex::{ConfigFault, ConfigKind, LexFault, TEXT_LIMIT, Token, tokens};
use sg_listing::{Listing, Location, append_at, spans};
use sg_pattern::Patterns;
use std::alloc::{AllocError, Global};

// The place of the token of the fault, where the files have one of its kind and file first again.
fn place_of(
    alloc: Global,
    listing: &Listing,
    fault: &ConfigFault,
) -> Result<Option<usize>, NoMemory> {
    let mut patterns = Patterns::new(alloc);
    match fault_of(alloc, &mut patterns, listing.tokens())? {
        Some(again) => if again.kind == fault.kind && again.file == fault.file {
            Ok(Some((again.line as usize).saturating_sub(1)))
        } else {
            Ok(None)
        },
        None => Ok(None),
    }
}

// A note at the token of this place.
fn append_place(
    alloc: Global,
    listing: &Listing,
    at: Option<usize>,
    words: &[u8],
    out: &mut Vec<u8>,
) -> Result<(), NoMemory> {
    let Some(at) = at else {
        return Ok(());
    };
    match listing.location(at) {
        Some(location) => append_at(alloc, listing, location, words, out),
        None => Ok(()),
    }
}

fn append_first(
    alloc: Global,
    listing: &Listing,
    at: usize,
    out: &mut Vec<u8>,
) -> Result<(), NoMemory> {
    let tokens = listing.tokens();
    let all = spans(alloc, tokens)?;
    let first = first_place(alloc, tokens, &all, at)?;
    append_place(
        alloc,
        listing,
        first,
        b"note: it is defined first here",
        out,
    )
}

const UNCLOSED: &[u8] = b"note: this isn't closed before";

const UNENDED: &[u8] = b"note: a semicolon may be missing behind this";

const LONG: &[u8] = b"note: this string goes over several lines: its quote may be missing";

fn append_unexpected(
    alloc: Global,
    listing: &Listing,
    at: usize,
    out: &mut Vec<u8>,
) -> Result<(), NoMemory> {
    let tokens = listing.tokens();
    append_place(alloc, listing, unclosed_at(tokens, at), UNCLOSED, out)?;
    append_place(alloc, listing, unended_before(tokens, at), UNENDED, out)?;
    append_place(alloc, listing, long_string_before(tokens, at), LONG, out)
}

// The notes on a fault whose token has this place.
fn append_notes(
    alloc: Global,
    listing: &Listing,
    kind: ConfigKind,
    at: usize,
    out: &mut Vec<u8>,
) -> Result<(), NoMemory> {
    let tokens = listing.tokens();
    match kind {
        ConfigKind::DuplicateName => append_first(alloc, listing, at, out),
        ConfigKind::Unexpected => append_unexpected(alloc, listing, at, out),
        _ => append_plain(tokens, kind, at, out),
    }
}

// The tokens of the text in front of the string that isn't closed.
fn tokens_before(alloc: Global, file: u32, text: &[u8]) -> Result<Vec<Token>, NoMemory> {
    if text.len() > TEXT_LIMIT {
        return Ok(Vec::new(alloc));
    }
    match tokens(alloc, file, text) {
        Err(LexFault::OpenString(at)) => front_tokens(alloc, file, text, at),
        Err(LexFault::NoMemory) => Err(AllocError),
        _ => Ok(Vec::new(alloc)),
    }
}

fn front_tokens(alloc: Global, file: u32, text: &[u8], at: usize) -> Result<Vec<Token>, NoMemory> {
    let front = match text.get(..at) {
        Some(front) => front,
        None => b"",
    };
    if front.len() > TEXT_LIMIT {
        return Ok(Vec::new(alloc));
    }
    match tokens(alloc, file, front) {
        Ok(found) => Ok(found),
        Err(LexFault::NoMemory) => Err(AllocError),
        Err(_) => Ok(Vec::new(alloc)),
    }
}

// Where a string went over several lines in front of one that isn't closed.
fn append_open_string(
    alloc: Global,
    listing: &Listing,
    file: u32,
    out: &mut Vec<u8>,
) -> Result<(), NoMemory> {
    let found = tokens_before(alloc, file, listing.text(file))?;
    let Some(at) = long_string(&found) else {
        return Ok(());
    };
    match found.get(at) {
        Some(token) => append_at(
            alloc,
            listing,
            Location {
                file,
                line: token.line,
                column: token.column,
            },
            LONG,
            out,
        ),
        None => Ok(()),
    }
}

// The notes on a fault that stops the expansion.
fn append_stopped(
    alloc: Global,
    listing: &Listing,
    fault: &ConfigFault,
    out: &mut Vec<u8>,
) -> Result<(), NoMemory> {
    match fault.kind {
        ConfigKind::OpenString => append_open_string(alloc, listing, fault.file, out),
        ConfigKind::Version => append_remedy(b"@version: 3.N", version_remedy(), out),
        ConfigKind::Unsupported => append_remedy(b"@include", include_remedy(), out),
        _ => Ok(()),
    }
}

// Whether it is log paths that are refused so: their notes ask for no place, and no pattern is made again to find it.
fn is_of_paths(kind: ConfigKind) -> bool {
    match kind {
        ConfigKind::BadPattern => true,
        ConfigKind::PatternTooLarge => true,
        ConfigKind::TooManyOffers => true,
        _ => false,
    }
}

// Whether it is the source of a trace that isn't there.
fn is_of_trace(fault: &ConfigFault) -> bool {
    fault.line == 0 && fault.kind == ConfigKind::UnknownName
}

/// The notes beside the first fault of a configuration, behind its hint; the empty text where there are none.
pub fn notes(alloc: Global, listing: &Listing, fault: &ConfigFault) -> Result<Vec<u8>, NoMemory> {
    let mut out = Vec::new(alloc);
    if is_of_paths(fault.kind) {
        append_plain(listing.tokens(), fault.kind, 0, &mut out)?;
        return Ok(out);
    }
    if is_of_trace(fault) {
        append_sources(alloc, listing.tokens(), &mut out)?;
        return Ok(out);
    }
    if listing.tokens().is_empty() {
        append_stopped(alloc, listing, fault, &mut out)?;
        return Ok(out);
    }
    if let Some(at) = place_of(alloc, listing, fault)? {
        append_notes(alloc, listing, fault.kind, at, &mut out)?;
    }
    Ok(out)
}
