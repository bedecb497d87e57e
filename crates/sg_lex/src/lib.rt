//! The words of the configuration language: tokens with their places, what can be wrong with a
//! configuration, and where.
#![tactic(auto)]

mod fault;
mod lexer;
mod piece;
mod place;
mod quoted;
mod token;
mod word;

pub use fault::{ConfigFault, ConfigKind};
pub use lexer::{TEXT_LIMIT, line_at, tokens};
pub use place::{Cmp, Line};
pub use token::{LexFault, Token, TokenKind};
