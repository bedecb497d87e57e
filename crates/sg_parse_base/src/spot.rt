// Tokens with their places.

use sg_lex::Token;

/// A token, and its place in the list of all tokens, counted from 0.
#[derive(Drop)]
pub struct Spot {
    pub token: Token,
    pub at: u32,
}
