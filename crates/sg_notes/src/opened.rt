// Where a brace or a string opened that may not be closed.

use sg_lex::{Token, TokenKind};
use sg_listing::{has_word, opening_before, token_at};
use sg_parse_base::{is_name, is_symbol, is_word};

/// The words with which statements begin that have names.
const NAMED: &[u8] = b"source destination filter rewrite template block parser";
/// Those of statements without names.
const UNNAMED: &[u8] = b"options log";
/// The words in front of the braces of log paths.
const PATHS: &[u8] = b"log channel else junction )";

fn is_word_at(tokens: &[Token], at: usize, words: &[u8]) -> bool {
    match token_at(tokens, at) {
        Some(token) => has_word(words, token.text.bytes()),
        None => false,
    }
}

fn is_symbol_at(tokens: &[Token], at: usize, byte: u8) -> bool {
    match token_at(tokens, at) {
        Some(token) => is_symbol(token, byte),
        None => false,
    }
}

fn is_name_at(tokens: &[Token], at: usize) -> bool {
    match token_at(tokens, at) {
        Some(token) => is_name(token),
        None => false,
    }
}

// Whether a statement with a name begins at this place.
fn begins_named(tokens: &[Token], at: usize) -> bool {
    is_word_at(tokens, at, NAMED)
        && is_name_at(tokens, at.saturating_add(1))
        && is_symbol_at(tokens, at.saturating_add(2), b'{')
}

// Whether one without a name does, which in a log path isn't known of `log`.
fn begins_unnamed(tokens: &[Token], at: usize, opening: usize) -> bool {
    is_word_at(tokens, at, UNNAMED)
        && is_symbol_at(tokens, at.saturating_add(1), b'{')
        && !(is_symbol_at(tokens, opening, b'{')
            && is_word_at(tokens, opening.saturating_sub(1), PATHS))
}

// Whether a statement begins at this place, or before the token in front of it.
fn begins_statement(tokens: &[Token], at: usize, opening: usize) -> bool {
    begins_named(tokens, at)
        || begins_unnamed(tokens, at, opening)
        || (at > 0 && begins_named(tokens, at - 1))
}

// Whether what closes or ends at this place closes or ends something else than what opened there.
fn is_crossed(tokens: &[Token], at: usize, opening: usize) -> bool {
    if is_symbol_at(tokens, opening, b'(') {
        return is_symbol_at(tokens, at, b'}') || is_symbol_at(tokens, at, b';');
    }
    is_symbol_at(tokens, at, b')')
}

/// The parenthesis or brace that isn't closed, where that shows at this place: at the last token, at one with which a statement begins,
/// or behind that, or at one that closes or ends something else.
pub fn unclosed_at(tokens: &[Token], at: usize) -> Option<usize> {
    if at.saturating_add(1) == tokens.len() {
        return opening_before(tokens, tokens.len());
    }
    let opening = opening_before(tokens, at)?;
    if begins_statement(tokens, at, opening) || is_crossed(tokens, at, opening) {
        return Some(opening);
    }
    None
}

/// The token in front of this place, behind which a semicolon may be missing.
pub fn unended_before(tokens: &[Token], at: usize) -> Option<usize> {
    let before = at.checked_sub(1)?;
    let closed = is_symbol_at(tokens, before, b')') || is_symbol_at(tokens, before, b'}');
    if closed && is_word(token_at(tokens, at)?) {
        return Some(before);
    }
    None
}

fn goes_on(token: &Token) -> bool {
    match token.kind {
        TokenKind::Str => token.text.bytes().contains(&b'\n'),
        _ => false,
    }
}

/// The first string that goes over several lines.
pub fn long_string(tokens: &[Token]) -> Option<usize> {
    tokens.iter().position(|token| goes_on(token))
}

/// The last string before this place that goes over several lines.
pub fn long_string_before(tokens: &[Token], at: usize) -> Option<usize> {
    for place in (0..at.saturating_add(1).min(tokens.len())).rev() {
        let Some(token) = tokens.get(place) else {
            continue;
        };
        if goes_on(token) {
            return Some(place);
        }
    }
    None
}
