// What stands around the tokens, one after the other.

use crate::context::{closes, opens};
use crate::rows::has_word;
use sg_device::NoMemory;
use sg_lex::Token;
use sg_parse_base::is_symbol;
use std::alloc::Global;

/// What holds options, texts or filters.
const OBJECTS: &[u8] = b"options source destination filter rewrite parser template";

/// How many open ones are looked at: more aren't open in a configuration.
const DEPTH: usize = 128;

/// The places of the parentheses and braces that are open.
#[derive(Drop)]
pub struct OpenBrackets {
    opened: Vec<usize>,
}

impl OpenBrackets {
    pub fn new(alloc: Global) -> OpenBrackets {
        OpenBrackets {
            opened: Vec::new(alloc),
        }
    }

    /// Goes past the token of this place.
    pub fn pass(&mut self, token: &Token, at: usize) -> Result<(), NoMemory> {
        if opens(token) {
            self.opened.push(at)?;
        } else if closes(token) {
            let _closed = self.opened.pop();
        }
        Ok(())
    }

    /// How many are open.
    pub fn depth(&self) -> usize {
        self.opened.len()
    }

    /// The place of the open one with so many more open ones within it.
    pub fn opening(&self, within: usize) -> Option<usize> {
        let count = self.opened.len();
        if within >= count {
            return None;
        }
        self.opened.get(count - 1 - within).copied()
    }

    /// The word of the call in whose parentheses the next token stands, or of one around it, with so many within it.
    pub fn caller<'a>(&self, tokens: &'a [Token], within: usize) -> Option<&'a [u8]> {
        let opening = self.opening(within)?;
        if opening == 0 || !is_symbol(tokens.get(opening)?, b'(') {
            return None;
        }
        Some(tokens.get(opening - 1)?.text.bytes())
    }

    /// Whether the next token stands in the parentheses of a call of one of these words.
    pub fn is_in(&self, tokens: &[Token], within: usize, words: &[u8]) -> bool {
        match self.caller(tokens, within) {
            Some(word) => has_word(words, word),
            None => false,
        }
    }

    /// The kind of the statement, or of the body in its place, in which the next token stands.
    pub fn object<'a>(&self, tokens: &'a [Token]) -> Option<&'a [u8]> {
        for within in 0..DEPTH {
            if let Some(kind) = object_at(tokens, self.opening(within)?) {
                return Some(kind);
            }
        }
        None
    }
}

// The word of a list of words at a place.
fn object_word(tokens: &[Token], at: Option<usize>) -> Option<&[u8]> {
    let word = tokens.get(at?)?.text.bytes();
    if has_word(OBJECTS, word) {
        return Some(word);
    }
    None
}

/// The kind of what the brace of this place begins.
pub fn object_at(tokens: &[Token], opening: usize) -> Option<&[u8]> {
    if !is_symbol(tokens.get(opening)?, b'{') {
        return None;
    }
    match object_word(tokens, opening.checked_sub(2)) {
        Some(kind) => Some(kind),
        None => object_word(tokens, opening.checked_sub(1)),
    }
}
