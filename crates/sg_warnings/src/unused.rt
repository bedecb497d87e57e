// Statements that nothing names.

use crate::warning::{Warning, warn};
use sg_device::NoMemory;
use sg_lex::Token;
use sg_listing::{Span, has_word, name_of};
use sg_parse_base::{is_symbol, same_keyword};
use std::alloc::Global;

/// The statements that others name.
const NAMED: &[u8] = b"source destination filter rewrite parser template";

const UNUSED: &[u8] = b"no statement uses ";

const OPEN: &[u8] = b" `";

const CLOSE: &[u8] = b"`";

/// How many comparisons of names are made at most; where there would be more, none is warned of.
const MOST: usize = 4_000_000;

// Whether the token of this place is the word of a reference by name.
fn is_reference(tokens: &[Token], at: usize) -> bool {
    match (tokens.get(at), tokens.get(at.saturating_add(1))) {
        (Some(word), Some(opening)) => {
            is_symbol(opening, b'(') && has_word(NAMED, word.text.bytes())
        }
        _ => false,
    }
}

// The places of the words of all references.
fn references(alloc: Global, tokens: &[Token]) -> Result<Vec<usize>, NoMemory> {
    let mut places = Vec::new(alloc);
    for at in 0..tokens.len() {
        if is_reference(tokens, at) {
            places.push(at)?;
        }
    }
    Ok(places)
}

// Whether the reference of this place has this kind and name.
fn refers(tokens: &[Token], at: usize, kind: &[u8], name: &[u8]) -> bool {
    match (tokens.get(at), tokens.get(at.saturating_add(2))) {
        (Some(word), Some(token)) => {
            token.text.bytes() == name && same_keyword(word.text.bytes(), kind)
        }
        _ => false,
    }
}

fn is_named(tokens: &[Token], references: &[usize], kind: &[u8], name: &[u8]) -> bool {
    references.iter().any(|at| refers(tokens, *at, kind, name))
}

fn look_at_statement(
    alloc: Global,
    tokens: &[Token],
    references: &[usize],
    first: usize,
    found: &mut Vec<Warning>,
) -> Result<(), NoMemory> {
    let Some((kind, name)) = name_of(tokens, first) else {
        return Ok(());
    };
    if !has_word(NAMED, kind) || is_named(tokens, references, kind, name) {
        return Ok(());
    }
    let at = first.saturating_add(1);
    warn(alloc, at, &[UNUSED, kind, OPEN, name, CLOSE], found)
}

/// Warns of statements that nothing names.
pub fn look_at_names(
    alloc: Global,
    tokens: &[Token],
    spans: &[Span],
    found: &mut Vec<Warning>,
) -> Result<(), NoMemory> {
    let references = references(alloc, tokens)?;
    if spans.len().saturating_mul(references.len()) > MOST {
        return Ok(());
    }
    for span in spans {
        look_at_statement(alloc, tokens, &references, span.first, found)?;
    }
    Ok(())
}
