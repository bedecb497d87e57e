// Where an option goes that is missing.

use sg_lex::Token;
use sg_listing::{closes, has_word, opens, token_at, told_of};

/// What is missing at a word, and where it goes.
const MISSING: &[u8] = b"network|port(514) goes into its parentheses: it has no default
syslog|port(601) goes into its parentheses: it has no default
match|value(\"MESSAGE\"), or another name, goes into its parentheses
csv-parser|columns(\"NAME\", ..) and delimiters(\"BYTES\") go into its parentheses: both are required
set subst unset|value(\"NAME\") goes into its parentheses
groupset groupunset|values(\"GLOB\") goes into its parentheses";

/// What is missing of a disk-buffer.
const RELIABLE: &[u8] =
    b"reliable(yes) or reliable(no) goes into its parentheses: it has no default";

const SIZE: &[u8] = b"disk-buf-size(BYTES) goes into its parentheses: it has no default";

/// Whether one of the words stands in the parentheses behind this place.
pub fn holds(tokens: &[Token], at: usize, words: &[u8]) -> bool {
    let mut depth = 0usize;
    for place in at.saturating_add(1)..tokens.len() {
        let token = &tokens[place];
        if opens(token) {
            depth = depth.saturating_add(1);
        } else if closes(token) {
            depth = depth.saturating_sub(1);
        } else if depth == 1 && has_word(words, token.text.bytes()) {
            return true;
        }
        if depth == 0 {
            return false;
        }
    }
    false
}

/// What is told of the word of this place, at which an option is missing.
pub fn missing_at(tokens: &[Token], at: usize) -> Option<&'static [u8]> {
    let word = token_at(tokens, at)?.text.bytes();
    if !has_word(b"disk-buffer", word) {
        return told_of(MISSING, word);
    }
    if holds(tokens, at, b"reliable") {
        return Some(SIZE);
    }
    Some(RELIABLE)
}
