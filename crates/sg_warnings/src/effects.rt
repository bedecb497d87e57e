// Options without effect, and filters that never hold.

use crate::warning::{Warning, warn};
use sg_device::NoMemory;
use sg_lex::Token;
use sg_listing::{OpenBrackets, has_word, told_of};
use sg_parse_base::is_symbol;
use std::alloc::Global;

const NONE: &[u8] = b" has no effect here";

const NEVER: &[u8] = b" names nothing: it never holds";

/// Options without effect wherever they stand, and the values that ask for nothing else than what is done anyway. The others of
/// CONFIGURATION's list ask for nothing that can be told from what is done.
const EVERYWHERE: &[u8] = b"owner group dir-owner dir-group|-1
use-dns use-fqdn chain-hostnames check-hostname normalize-hostnames use-rcptid use-uniqid so-keepalive|no off 0
bad-hostname|-
stats-level mark mark-freq|0
mark-mode|none off
so-rcvbuf so-sndbuf ip-tos ip-ttl|0";

/// Those of sources.
const OF_SOURCES: &[u8] = b"fsync create-dirs|no off 0
perm dir-perm|-1";

/// Those of `options`.
const OF_OPTIONS: &[u8] = b"log-iw-size log-fetch-limit|-
fsync|no off 0";

/// Those of destinations but files.
const OF_CONNECTIONS: &[u8] = b"fsync create-dirs|no off 0
perm dir-perm|-1";

// The row of the option's word in the tables of its place.
fn harmless(
    around: &OpenBrackets,
    tokens: &[Token],
    object: &[u8],
    word: &[u8],
) -> Option<&'static [u8]> {
    if let Some(values) = told_of(EVERYWHERE, word) {
        return Some(values);
    }
    if has_word(b"source", object) {
        return told_of(OF_SOURCES, word);
    }
    if has_word(b"options", object) {
        return told_of(OF_OPTIONS, word);
    }
    if around.is_in(tokens, 0, b"network syslog") {
        return told_of(OF_CONNECTIONS, word);
    }
    None
}

// Whether the value in the parentheses at this place is one of these, or there is none.
fn is_harmless(tokens: &[Token], opening: usize, values: &[u8]) -> bool {
    match tokens.get(opening.saturating_add(1)) {
        Some(value) => is_symbol(value, b')') || has_word(values, value.text.bytes()),
        None => true,
    }
}

// Whether the token of this place opens a parenthesis.
fn opens_at(tokens: &[Token], at: usize) -> bool {
    match tokens.get(at) {
        Some(token) => is_symbol(token, b'('),
        None => false,
    }
}

// Whether it closes one.
fn closes_at(tokens: &[Token], at: usize) -> bool {
    match tokens.get(at) {
        Some(token) => is_symbol(token, b')'),
        None => false,
    }
}

/// Warns of the option of this place, where it has no effect and asks for one.
pub fn look_at_option(
    alloc: Global,
    tokens: &[Token],
    at: usize,
    around: &OpenBrackets,
    found: &mut Vec<Warning>,
) -> Result<(), NoMemory> {
    let (Some(token), Some(object)) = (tokens.get(at), around.object(tokens)) else {
        return Ok(());
    };
    let opening = at.saturating_add(1);
    if !opens_at(tokens, opening) || !has_word(b"options source destination", object) {
        return Ok(());
    }
    let word = token.text.bytes();
    match harmless(around, tokens, object, word) {
        Some(values) if !is_harmless(tokens, opening, values) => {
            warn(alloc, at, &[word, NONE], found)
        }
        _ => Ok(()),
    }
}

/// Warns of the filter of this place, where it names nothing.
pub fn look_at_filter(
    alloc: Global,
    tokens: &[Token],
    at: usize,
    found: &mut Vec<Warning>,
) -> Result<(), NoMemory> {
    let Some(token) = tokens.get(at) else {
        return Ok(());
    };
    let word = token.text.bytes();
    if !has_word(b"facility level severity priority tags", word) {
        return Ok(());
    }
    let opening = at.saturating_add(1);
    if opens_at(tokens, opening) && closes_at(tokens, opening.saturating_add(1)) {
        return warn(alloc, at, &[word, NEVER], found);
    }
    Ok(())
}
