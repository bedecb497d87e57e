// The statements of expanded tokens.

use crate::context::{closes, opens, token_at};
use sg_device::NoMemory;
use sg_lex::Token;
use sg_parse_base::{is_name, is_symbol, is_word, same_keyword};
use std::alloc::Global;

/// The tokens of a statement: the place of the first one, and the place behind the last one.
#[derive(Clone, Copy, PartialEq, Eq, Drop)]
pub struct Span {
    pub first: usize,
    pub end: usize,
}

// Closes the last parenthesis, if that is what is open, or the last brace with what is open in it.
fn close(opened: &mut Vec<bool>, brace: bool) {
    let parenthesis = match opened.last() {
        Some(last) => !*last,
        None => false,
    };
    if !brace {
        if parenthesis {
            let _closed = opened.pop();
        }
        return;
    }
    for _open in 0..opened.len() {
        match opened.pop() {
            Some(last) => if last {
                return;
            },
            None => return,
        }
    }
}

// Goes past a token: what is open behind it, true for braces.
fn pass(opened: &mut Vec<bool>, token: &Token) -> Result<(), NoMemory> {
    if opens(token) {
        opened.push(is_symbol(token, b'{'))?;
    } else if closes(token) {
        close(opened, is_symbol(token, b'}'));
    }
    Ok(())
}

/// The statements, each with its semicolon. A brace that closes closes the parentheses in it.
pub fn spans(alloc: Global, tokens: &[Token]) -> Result<Vec<Span>, NoMemory> {
    let mut found = Vec::new(alloc);
    let mut opened = Vec::new(alloc);
    let mut first = 0usize;
    for (at, token) in tokens.iter().enumerate() {
        pass(&mut opened, token)?;
        if opened.is_empty() && is_symbol(token, b';') {
            let end = at.saturating_add(1);
            found.push(Span { first, end })?;
            first = end;
        }
    }
    if first < tokens.len() {
        found.push(Span {
            first,
            end: tokens.len(),
        })?;
    }
    Ok(found)
}

/// The kind and the name of the statement whose first token has this place.
pub fn name_of(tokens: &[Token], first: usize) -> Option<(&[u8], &[u8])> {
    let kind = token_at(tokens, first)?;
    let name = token_at(tokens, first.saturating_add(1))?;
    if is_word(kind) && is_name(name) {
        return Some((kind.text.bytes(), name.text.bytes()));
    }
    None
}

/// Whether both are of one kind and name.
pub fn is_same_name(one: (&[u8], &[u8]), other: (&[u8], &[u8])) -> bool {
    one.1 == other.1 && same_keyword(one.0, other.0)
}
