// Where a name was defined first.

use crate::missing::holds;
use sg_device::NoMemory;
use sg_lex::Token;
use sg_listing::{OpenBrackets, Span, is_same_name, name_of, token_at};
use sg_parse_base::{is_keyword, is_symbol, same_keyword};
use std::alloc::Global;

// The place of the name of the first statement with this kind and name.
fn first_named(tokens: &[Token], spans: &[Span], name: (&[u8], &[u8])) -> Option<usize> {
    for span in spans {
        if let Some(other) = name_of(tokens, span.first) {
            if is_same_name(other, name) {
                return Some(span.first.saturating_add(1));
            }
        }
    }
    None
}

// The first argument in the parentheses behind this place.
fn argument_of(tokens: &[Token], at: usize) -> Option<&[u8]> {
    if !is_symbol(token_at(tokens, at.saturating_add(1))?, b'(') {
        return None;
    }
    Some(token_at(tokens, at.saturating_add(2))?.text.bytes())
}

// The place behind the call of this place: at the semicolon behind it.
fn end_of(tokens: &[Token], at: usize) -> usize {
    for place in at..tokens.len() {
        if is_symbol(&tokens[place], b';') {
            return place;
        }
    }
    tokens.len()
}

// The argument of the option of this place, where it is this one.
fn option_at<'a>(tokens: &'a [Token], at: usize, word: &[u8]) -> Option<&'a [u8]> {
    if is_keyword(token_at(tokens, at)?, word) {
        return argument_of(tokens, at);
    }
    None
}

// The argument of an option of the driver of this place, empty where it has none.
fn option_of<'a>(tokens: &'a [Token], at: usize, word: &[u8]) -> &'a [u8] {
    for place in at..end_of(tokens, at) {
        if let Some(argument) = option_at(tokens, place, word) {
            return argument;
        }
    }
    b""
}

// Whether the drivers of these places have one store, where they are of one kind.
fn is_same_store(tokens: &[Token], at: usize, other: usize) -> bool {
    let (Some(word), Some(second)) = (token_at(tokens, at), token_at(tokens, other)) else {
        return false;
    };
    let (Some(argument), Some(another)) = (argument_of(tokens, at), argument_of(tokens, other))
    else {
        return false;
    };
    same_keyword(word.text.bytes(), second.text.bytes())
        && argument == another
        && option_of(tokens, at, b"port") == option_of(tokens, other, b"port")
        && option_of(tokens, at, b"dir") == option_of(tokens, other, b"dir")
        && holds(tokens, at, b"disk-buffer") == holds(tokens, other, b"disk-buffer")
}

// What holds the token of this place: the kind of its statement, or of the body in its place.
fn object_of(alloc: Global, tokens: &[Token], at: usize) -> Result<Option<&[u8]>, NoMemory> {
    let mut around = OpenBrackets::new(alloc);
    for place in 0..at.min(tokens.len()) {
        around.pass(&tokens[place], place)?;
    }
    Ok(around.object(tokens))
}

fn is_in(around: &OpenBrackets, tokens: &[Token], object: Option<&[u8]>) -> bool {
    match (around.object(tokens), object) {
        (Some(one), Some(other)) => same_keyword(one, other),
        _ => false,
    }
}

// The place of the first driver with the store of this one.
fn first_driver(alloc: Global, tokens: &[Token], at: usize) -> Result<Option<usize>, NoMemory> {
    let object = object_of(alloc, tokens, at)?;
    let mut around = OpenBrackets::new(alloc);
    for place in 0..at.min(tokens.len()) {
        if is_same_store(tokens, at, place) && is_in(&around, tokens, object) {
            return Ok(Some(place));
        }
        around.pass(&tokens[place], place)?;
    }
    Ok(None)
}

/// The place at which what is defined twice at this place was defined first.
pub fn first_place(
    alloc: Global,
    tokens: &[Token],
    spans: &[Span],
    at: usize,
) -> Result<Option<usize>, NoMemory> {
    for span in spans {
        if span.first.saturating_add(1) == at {
            return Ok(match name_of(tokens, span.first) {
                Some(name) => first_named(tokens, spans, name),
                None => None,
            });
        }
    }
    first_driver(alloc, tokens, at)
}
