// Templates, and names of values.

use crate::set_names::SetNames;
use crate::warning::{Warning, warn};
use sg_device::NoMemory;
use sg_lex::{Token, TokenKind};
use sg_list::Seq;
use sg_listing::{OpenBrackets, has_word};
use sg_macro::{TemplateFault, TemplatePart, read_parts};
use sg_parse_base::{is_keyword, is_name, is_symbol};
use std::alloc::{AllocError, Global};

/// The comparisons of texts.
const COMPARISONS: &[u8] = b"eq ne lt gt le ge";

fn is_string(token: &Token) -> bool {
    match token.kind {
        TokenKind::Str => true,
        _ => false,
    }
}

fn is_comparison(tokens: &[Token], at: Option<usize>) -> bool {
    let Some(at) = at else {
        return false;
    };
    match tokens.get(at) {
        Some(token) => has_word(COMPARISONS, token.text.bytes()),
        None => false,
    }
}

// Whether the string of this place is the path of a file that is written: with macros it is a template.
fn is_path(tokens: &[Token], at: usize, around: &OpenBrackets) -> bool {
    let (Some(object), Some(call)) = (around.object(tokens), before_last(tokens, at)) else {
        return false;
    };
    has_word(b"destination", object)
        && around.is_in(tokens, 0, b"file")
        && is_keyword(call, b"file")
}

// Whether the string of this place is a template.
fn is_template(tokens: &[Token], at: usize, around: &OpenBrackets) -> bool {
    if is_statement_text(tokens, at, around) || is_path(tokens, at, around) {
        return true;
    }
    let Some(object) = around.object(tokens) else {
        return is_compared(tokens, at);
    };
    if around.is_in(tokens, 0, b"template set groupset") {
        return true;
    }
    if around.is_in(tokens, 0, b"subst") {
        return is_second(tokens, at);
    }
    has_word(b"filter rewrite", object) && is_compared(tokens, at)
}

// Whether a comparison stands in front of the string of this place or behind it.
fn is_compared(tokens: &[Token], at: usize) -> bool {
    is_comparison(tokens, at.checked_sub(1)) || is_comparison(tokens, at.checked_add(1))
}

// Whether a string stands in front of this one, perhaps with a comma between them.
fn is_second(tokens: &[Token], at: usize) -> bool {
    match pattern_of(tokens, at) {
        Some(token) => is_string(token),
        None => false,
    }
}

// The pattern in front of the text of a `subst`.
fn pattern_of(tokens: &[Token], at: usize) -> Option<&Token> {
    let before = tokens.get(at.checked_sub(1)?)?;
    if before.text.bytes() == b",".as_slice() {
        return tokens.get(at.checked_sub(2)?);
    }
    Some(before)
}

fn is_group_end(piece: &[u8], at: usize) -> bool {
    match piece.get(at) {
        Some(byte) => *byte == b'>',
        None => false,
    }
}

// Whether the pattern has a group of this name.
fn has_group(pattern: &[u8], name: &[u8]) -> bool {
    for piece in pattern.split(|byte| *byte == b'<') {
        if piece.starts_with(name) && is_group_end(piece, name.len()) {
            return true;
        }
    }
    false
}

fn is_group(tokens: &[Token], at: usize, name: &[u8]) -> bool {
    match pattern_of(tokens, at) {
        Some(pattern) => is_string(pattern) && has_group(pattern.text.bytes(), name),
        None => false,
    }
}

// Whether the name begins as that of a group by its number.
fn is_number(name: &[u8]) -> bool {
    match name.first() {
        Some(byte) => byte.is_ascii_digit(),
        None => false,
    }
}

const TICK: &[u8] = b"`";

const MEANT: &[u8] = b"; did you mean `";

const END: &[u8] = b"`?";

const DOLLAR: &[u8] = b"` is a name with a dollar: names of values are written without";

const CAPTURE: &[u8] = b" is empty: what groups of a pattern find isn't kept";

const UNSET: &[u8] = b" is empty: nothing sets it, and no reader gives it";

// Warns of a name that has no value.
fn warn_unset(
    alloc: Global,
    tokens: &[Token],
    at: usize,
    names: &SetNames,
    name: &[u8],
    found: &mut Vec<Warning>,
) -> Result<(), NoMemory> {
    if is_number(name) || is_group(tokens, at, name) {
        return warn(alloc, at, &[TICK, name, TICK, CAPTURE], found);
    }
    match names.meant(tokens, name) {
        Some(meant) => warn(
            alloc,
            at,
            &[TICK, name, TICK, UNSET, MEANT, meant, END],
            found,
        ),
        None => warn(alloc, at, &[TICK, name, TICK, UNSET], found),
    }
}

// The parts of a template, none where it isn't one.
fn parts(alloc: Global, text: &[u8]) -> Result<Seq<TemplatePart>, NoMemory> {
    match read_parts(alloc, text) {
        Ok(parts) => Ok(parts),
        Err(TemplateFault::NoMemory) => Err(AllocError),
        Err(_) => Ok(Seq::empty(alloc)),
    }
}

// The name of a part that has no value and no default.
fn unset_name<'a>(tokens: &[Token], names: &SetNames, part: &'a TemplatePart) -> Option<&'a [u8]> {
    match part {
        TemplatePart::Pair { name, default } => {
            if default.bytes().is_empty() && !names.may_have(tokens, name.bytes()) {
                Some(name.bytes())
            } else {
                None
            }
        }
        _ => None,
    }
}

fn look_at_template(
    alloc: Global,
    tokens: &[Token],
    at: usize,
    names: &SetNames,
    text: &[u8],
    found: &mut Vec<Warning>,
) -> Result<(), NoMemory> {
    let parts = parts(alloc, text)?;
    for part in parts.as_slice() {
        if let Some(name) = unset_name(tokens, names, part) {
            warn_unset(alloc, tokens, at, names, name, found)?;
        }
    }
    Ok(())
}

// Warns of the name of a value.
fn look_at_name(
    alloc: Global,
    tokens: &[Token],
    at: usize,
    around: &OpenBrackets,
    names: &SetNames,
    name: &[u8],
    found: &mut Vec<Warning>,
) -> Result<(), NoMemory> {
    if name.starts_with(b"$") {
        return warn(alloc, at, &[TICK, name, DOLLAR], found);
    }
    if around.is_in(tokens, 1, b"match subst unset") && !names.may_have(tokens, name) {
        return warn_unset(alloc, tokens, at, names, name, found);
    }
    Ok(())
}

// Whether the string of this place is the text of a statement `template NAME TEXT`.
fn is_statement_text(tokens: &[Token], at: usize, around: &OpenBrackets) -> bool {
    match before_last(tokens, at) {
        Some(token) => around.depth() == 0 && is_keyword(token, b"template"),
        None => false,
    }
}

// The token two places in front of this one.
fn before_last(tokens: &[Token], at: usize) -> Option<&Token> {
    tokens.get(at.checked_sub(2)?)
}

/// Warns of the text or name of this place.
pub fn look_at_text(
    alloc: Global,
    tokens: &[Token],
    at: usize,
    around: &OpenBrackets,
    names: &SetNames,
    found: &mut Vec<Warning>,
) -> Result<(), NoMemory> {
    let Some(token) = tokens.get(at) else {
        return Ok(());
    };
    if !is_name(token) {
        return Ok(());
    }
    if around.is_in(tokens, 0, b"value") {
        return look_at_name(alloc, tokens, at, around, names, token.text.bytes(), found);
    }
    if is_string(token) && is_template(tokens, at, around) {
        return look_at_template(alloc, tokens, at, names, token.text.bytes(), found);
    }
    Ok(())
}
