// What stands around a token.

use sg_lex::Token;
use sg_parse_base::is_symbol;

pub fn token_at(tokens: &[Token], at: usize) -> Option<&Token> {
    tokens.get(at)
}

/// Whether it is an opening parenthesis or brace.
pub fn opens(token: &Token) -> bool {
    is_symbol(token, b'(') || is_symbol(token, b'{')
}

/// Whether it is a closing parenthesis or brace.
pub fn closes(token: &Token) -> bool {
    is_symbol(token, b')') || is_symbol(token, b'}')
}

/// The place of the parenthesis or brace that is open before this place.
pub fn opening_before(tokens: &[Token], at: usize) -> Option<usize> {
    let mut closed = 0usize;
    for place in (0..at.min(tokens.len())).rev() {
        let Some(token) = tokens.get(place) else {
            continue;
        };
        if closes(token) {
            closed = closed.saturating_add(1);
        } else if opens(token) {
            if closed == 0 {
                return Some(place);
            }
            closed = closed.saturating_sub(1);
        }
    }
    None
}

/// The word in front of the parenthesis that is open before this place.
pub fn caller_of(tokens: &[Token], at: usize) -> Option<&Token> {
    let opening = opening_before(tokens, at)?;
    if opening == 0 || !is_symbol(token_at(tokens, opening)?, b'(') {
        return None;
    }
    token_at(tokens, opening - 1)
}
