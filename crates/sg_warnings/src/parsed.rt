// The names that parsers give values.

use sg_device::NoMemory;
use sg_lex::Token;
use sg_parse_base::{is_keyword, is_name, is_symbol};
use std::alloc::Global;

/// How many columns and prefixes are kept at most; where there are more, a parser may give any name.
const MOST: usize = 4_096;

/// The places of the names that parsers give.
#[derive(Drop)]
pub struct ParsedNames {
    columns: Vec<usize>,
    prefixes: Vec<usize>,
    /// The prefixes of parsers that give the keys that they read.
    keys: Vec<usize>,
    /// One gives them without a prefix.
    any: bool,
}

// Whether the token behind this place opens a parenthesis.
fn is_called(tokens: &[Token], at: usize) -> bool {
    match tokens.get(at.saturating_add(1)) {
        Some(opening) => is_symbol(opening, b'('),
        None => false,
    }
}

fn text_at(tokens: &[Token], at: usize) -> &[u8] {
    match tokens.get(at) {
        Some(token) => token.text.bytes(),
        None => b"",
    }
}

// The place of the argument of `prefix` in the parentheses behind this place.
fn prefix_in(tokens: &[Token], at: usize) -> Option<usize> {
    let mut depth = 0usize;
    for place in at.saturating_add(1)..tokens.len() {
        let token = &tokens[place];
        if is_symbol(token, b'(') {
            depth = depth.saturating_add(1);
        } else if is_symbol(token, b')') {
            depth = depth.saturating_sub(1);
        } else if depth == 1 && is_keyword(token, b"prefix") {
            return Some(place.saturating_add(2));
        }
        if depth == 0 {
            return None;
        }
    }
    None
}

impl ParsedNames {
    fn new(alloc: Global) -> ParsedNames {
        ParsedNames {
            columns: Vec::new(alloc),
            prefixes: Vec::new(alloc),
            keys: Vec::new(alloc),
            any: false,
        }
    }

    // Notes the call of this place, whose word is this token.
    fn note_call(&mut self, tokens: &[Token], token: &Token, at: usize) -> Result<(), NoMemory> {
        if is_keyword(token, b"kv-parser") {
            match prefix_in(tokens, at) {
                Some(place) => self.keys.push(place)?,
                None => self.any = true,
            }
        }
        if is_keyword(token, b"prefix") {
            self.prefixes.push(at.saturating_add(2))?;
        }
        let most = self.prefixes.len().max(self.columns.len());
        self.any = self.any || most > MOST;
        Ok(())
    }

    /// Whether a parser may give the name a value.
    pub fn may_give(&self, tokens: &[Token], name: &[u8]) -> bool {
        if self.any || self.is_key(tokens, name) {
            return true;
        }
        for place in &self.columns {
            if self.is_column(tokens, text_at(tokens, *place), name) {
                return true;
            }
        }
        false
    }

    fn is_key(&self, tokens: &[Token], name: &[u8]) -> bool {
        for place in &self.keys {
            if name.starts_with(text_at(tokens, *place)) {
                return true;
            }
        }
        false
    }

    // Whether the name is this column's, alone or behind a prefix.
    fn is_column(&self, tokens: &[Token], column: &[u8], name: &[u8]) -> bool {
        if name == column {
            return true;
        }
        if !name.ends_with(column) {
            return false;
        }
        let front = match name.get(..name.len().saturating_sub(column.len())) {
            Some(front) => front,
            None => b"",
        };
        for place in &self.prefixes {
            if text_at(tokens, *place) == front {
                return true;
            }
        }
        false
    }
}

/// The names of all parsers.
pub fn parsed_names(alloc: Global, tokens: &[Token]) -> Result<ParsedNames, NoMemory> {
    let mut names = ParsedNames::new(alloc);
    let mut listing = false;
    for at in 0..tokens.len() {
        let token = &tokens[at];
        if is_symbol(token, b')') {
            listing = false;
        } else if listing && is_name(token) {
            names.columns.push(at)?;
        } else if is_called(tokens, at) {
            listing = is_keyword(token, b"columns");
            names.note_call(tokens, token, at)?;
        }
    }
    Ok(names)
}
