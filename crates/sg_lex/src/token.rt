// Tokens, and why a text has none.
ghost use Rattle.std.specs.Prelude.{◌≡◌};
ghost use Rattle.sg_lex.specs.declared.token.LexFault.TheVariants.{NoMemory as LexNoMemory};

use sg_device::Name;
use std::alloc::AllocError;
use thiserror::Error;

/// How a token is spelled.
#[derive(Clone, Copy, Debug, PartialEq, Eq, Drop)]
pub enum TokenKind {
    /// Letters, digits, `_`, `-`, `+`, `/`, and dots that have no dot beside them.
    Word,
    /// A string in double quotes, with escapes, or in single quotes, without.
    Str,
    /// One of `{` `}` `(` `)` `;` `,` `:` and `..`.
    Sym,
    /// One of `==` `!=` `<=` `>=` `<` `>`.
    Op,
    /// A directive: `@` and a word.
    At,
    /// A variable: a name between backticks.
    Tick,
}

/// A token, and the place at which it was written.
#[derive(Drop)]
pub struct Token {
    pub kind: TokenKind,
    /// The number of its file.
    pub file: u32,
    /// Counted from 1.
    pub line: u32,
    /// The byte of the line, counted from 1.
    pub column: u32,
    /// Of a directive the word without `@`, of a variable the name without its backticks, of a
    /// string its content, of the others the spelling.
    pub text: Name,
}

/// Why a text has no tokens. The number is the place of a byte in the text, counted from 0.
#[derive(Clone, Copy, Debug, PartialEq, Eq, Drop, Error)]
pub enum LexFault {
    /// The string that begins there isn't closed.
    #[error("string not closed")]
    OpenString(usize),
    /// No token begins there.
    #[error("unexpected byte")]
    BadByte(usize),
    #[error("no memory")]
    NoMemory,
}

impl From<AllocError> for LexFault {
    ghost from_gives = { λ _ fault. fault ≡ LexNoMemory };

    fn from(_: AllocError) -> Self {
        LexFault::NoMemory
    }
}
