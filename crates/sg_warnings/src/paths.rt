// Log statements that deliver a record twice.

use crate::warning::{Warning, warn};
use sg_device::NoMemory;
use sg_lex::Token;
use sg_listing::{Span, has_word};
use sg_parse_base::{is_keyword, is_symbol};
use std::alloc::Global;

/// How many log statements are looked at.
const MOST: usize = 500;

/// How many tokens they have at most; where they have more, none is warned of.
const TOKENS: usize = 10_000;

/// What makes a record or its way another one.
const CHANGING: &[u8] = b"rewrite parser junction channel if elif else log";

const TWICE: &[u8] =
    b"an earlier log statement of the same source delivers the same records here, without `final`";

/// A top-level log statement.
#[derive(Clone, Copy, Drop)]
struct LogStatement {
    span: Span,
    /// It has a filter.
    filtered: bool,
    /// Its records aren't what they were, or go several ways.
    changed: bool,
    last: bool,
    fallback: bool,
}

// Whether one of these words stands in the statement behind its own.
fn has(tokens: &[Token], span: Span, words: &[u8]) -> bool {
    for at in span.first.saturating_add(1)..span.end {
        if let Some(token) = tokens.get(at) {
            if has_word(words, token.text.bytes()) {
                return true;
            }
        }
    }
    false
}

fn path_of(tokens: &[Token], span: Span) -> LogStatement {
    LogStatement {
        span,
        filtered: has(tokens, span, b"filter"),
        changed: has(tokens, span, CHANGING),
        last: has(tokens, span, b"final"),
        fallback: has(tokens, span, b"fallback"),
    }
}

fn is_log(tokens: &[Token], span: Span) -> bool {
    match tokens.get(span.first) {
        Some(token) => is_keyword(token, b"log"),
        None => false,
    }
}

fn paths(alloc: Global, tokens: &[Token], spans: &[Span]) -> Result<Vec<LogStatement>, NoMemory> {
    let mut found = Vec::new(alloc);
    for span in spans {
        if found.len() < MOST && is_log(tokens, *span) {
            found.push(path_of(tokens, *span))?;
        }
    }
    Ok(found)
}

// How many tokens these have.
fn size(paths: &[LogStatement]) -> usize {
    let mut all = 0usize;
    for path in paths {
        all = all.saturating_add(path.span.end.saturating_sub(path.span.first));
    }
    all
}

// The name in the parentheses behind this word, where it stands at this place.
fn name_at<'a>(tokens: &'a [Token], at: usize, word: &[u8]) -> Option<&'a [u8]> {
    if !is_keyword(tokens.get(at)?, word) || !is_symbol(tokens.get(at.saturating_add(1))?, b'(') {
        return None;
    }
    Some(tokens.get(at.saturating_add(2))?.text.bytes())
}

fn is_name_at(tokens: &[Token], at: usize, word: &[u8], name: &[u8]) -> bool {
    match name_at(tokens, at, word) {
        Some(other) => other == name,
        None => false,
    }
}

fn names(tokens: &[Token], span: Span, word: &[u8], name: &[u8]) -> bool {
    for at in span.first..span.end {
        if is_name_at(tokens, at, word, name) {
            return true;
        }
    }
    false
}

// The place of a name behind this word that both statements have.
fn common(tokens: &[Token], one: Span, other: Span, word: &[u8]) -> Option<usize> {
    for at in other.first..other.end {
        if let Some(name) = name_at(tokens, at, word) {
            if names(tokens, one, word, name) {
                return Some(at.saturating_add(2));
            }
        }
    }
    None
}

// Whether a record of the first may come to the second as it came to the first.
fn may_share(one: &LogStatement, other: &LogStatement) -> bool {
    !one.changed
        && !other.changed
        && !one.last
        && !other.fallback
        && (!one.filtered || !other.filtered)
}

fn look_at_pair(
    alloc: Global,
    tokens: &[Token],
    one: &LogStatement,
    other: &LogStatement,
    found: &mut Vec<Warning>,
) -> Result<bool, NoMemory> {
    if !may_share(one, other) || common(tokens, one.span, other.span, b"source").is_none() {
        return Ok(false);
    }
    let Some(at) = common(tokens, one.span, other.span, b"destination") else {
        return Ok(false);
    };
    warn(alloc, at, &[TWICE], found)?;
    Ok(true)
}

fn look_at_path(
    alloc: Global,
    tokens: &[Token],
    before: &[LogStatement],
    path: &LogStatement,
    found: &mut Vec<Warning>,
) -> Result<(), NoMemory> {
    for one in before {
        if look_at_pair(alloc, tokens, one, path, found)? {
            return Ok(());
        }
    }
    Ok(())
}

/// Warns of log statements that deliver records to a destination that gets them by an earlier one.
pub fn look_at_paths(
    alloc: Global,
    tokens: &[Token],
    spans: &[Span],
    found: &mut Vec<Warning>,
) -> Result<(), NoMemory> {
    let paths = paths(alloc, tokens, spans)?;
    if size(&paths) > TOKENS {
        return Ok(());
    }
    for at in 0..paths.len() {
        if let (Some(before), Some(path)) = (paths.get(..at), paths.get(at)) {
            look_at_path(alloc, tokens, before, path, found)?;
        }
    }
    Ok(())
}
