// What a token is.
ghost use Rattle.std.specs.Prelude.{◌≡◌, IfOk};
ghost use Rattle.sg_parse_base.specs.Tokens.{dashed, same_keyword, is_number, is_truth, line_of};
ghost use Rattle.sg_parse_base.specs.Tokens.{is_word, is_string, is_name, is_operator, is_symbol, is_dots, is_keyword};

use sg_device::NoMemory;
use sg_lex::{Line, Token, TokenKind};

#[tactic(auto, unfolding(crate::specs::Tokens::is_word))]
pub fn is_word(token: &Token) -> bool
    ensures { result ≡ is_word token.now }
{
    match token.kind {
        TokenKind::Word => true,
        _ => false,
    }
}

#[tactic(auto, unfolding(crate::specs::Tokens::is_string))]
pub fn is_string(token: &Token) -> bool
    ensures { result ≡ is_string token.now }
{
    match token.kind {
        TokenKind::Str => true,
        _ => false,
    }
}

/// Whether it is a word or a string.
#[tactic(auto, unfolding(crate::specs::Tokens::is_name))]
pub fn is_name(token: &Token) -> bool
    ensures { result ≡ is_name token.now }
{
    match token.kind {
        TokenKind::Word => true,
        TokenKind::Str => true,
        _ => false,
    }
}

#[tactic(auto, unfolding(crate::specs::Tokens::is_operator))]
pub fn is_operator(token: &Token) -> bool
    ensures { result ≡ is_operator token.now }
{
    match token.kind {
        TokenKind::Op => true,
        _ => false,
    }
}

/// Whether the token is the symbol of this byte.
#[tactic(auto, unfolding(crate::specs::Tokens::is_symbol))]
pub fn is_symbol(token: &Token, byte: u8) -> bool
    ensures { result ≡ is_symbol byte token.now }
{
    match token.kind {
        TokenKind::Sym => match token.text.bytes() {
            [only] => *only == byte,
            _ => false,
        },
        _ => false,
    }
}

/// Whether it is `..`.
#[tactic(auto, unfolding(crate::specs::Tokens::is_dots))]
pub fn is_dots(token: &Token) -> bool
    ensures { result ≡ is_dots token.now }
{
    match token.kind {
        TokenKind::Sym => token.text.bytes() == b"..".as_slice(),
        _ => false,
    }
}

/// Where a token stands that has this place in the list.
pub fn line_of(token: &Token, at: u32) -> Line
    ensures { result ≡ line_of token.now at }
{
    Line {
        file: token.file,
        line: token.line,
        at,
    }
}

pub fn copy_token(token: &Token) -> Result<Token, NoMemory>
    ensures { IfOk result (λ copy. copy ≡ token.now) }
{
    Ok(Token {
        kind: token.kind,
        file: token.file,
        line: token.line,
        column: token.column,
        text: token.text.copy()?,
    })
}

fn dashed(byte: u8) -> u8
    ensures { result ≡ dashed byte }
{
    if byte == b'_' { b'-' } else { byte }
}

/// Whether a text is a keyword, in which `-` and `_` are equal. The keyword is written with dashes.
pub fn same_keyword(text: &[u8], word: &[u8]) -> bool
    ensures { result ≡ same_keyword text.now word.now }
{
    if text.len() != word.len() {
        return false;
    }
    for (place, byte) in word.iter().enumerate() {
        if dashed(text[place]) != *byte {
            return false;
        }
    }
    true
}

/// Whether the token is a word that is this keyword, which is written with dashes.
#[tactic(auto, unfolding(crate::specs::Tokens::is_keyword))]
pub fn is_keyword(token: &Token, word: &[u8]) -> bool
    ensures { result ≡ is_keyword word.now token.now }
{
    is_word(token) && same_keyword(token.text.bytes(), word)
}

/// Whether the text is decimal digits of a number below 2^63.
pub fn is_number(text: &[u8]) -> bool
    ensures { result ≡ is_number text.now }
{
    let mut number = 0u64;
    for byte in text {
        if *byte < b'0' || *byte > b'9' {
            return false;
        }
        let next = u128::from(number) * 10 + u128::from(*byte - b'0');
        if next >= 1 << 63 {
            return false;
        }
        number = next as u64;
    }
    !text.is_empty()
}

/// Whether the text says yes or no: `yes`, `on`, `1`, `no`, `off` or `0`.
pub fn is_truth(text: &[u8]) -> bool
    ensures { result ≡ is_truth text.now }
{
    text == b"yes".as_slice()
        || text == b"on".as_slice()
        || text == b"1".as_slice()
        || text == b"no".as_slice()
        || text == b"off".as_slice()
        || text == b"0".as_slice()
}
