// What a token is, for the forms that are looked for.
ghost use Rattle.std.specs.Prelude.{◌≡◌, ◌≤◌, ◌^◌, IfOk};
ghost use Rattle.sg_block.specs.Tokens.{is_word, is_string, is_name, is_tick, is_at, is_symbol, is_front, is_block_word, is_block_type, token_size, line_of};
ghost use Rattle.sg_block.specs.Brackets.{bracket};

use sg_device::NoMemory;
use sg_lex::{Token, TokenKind};

/// A line of a file.
#[derive(Clone, Copy)]
pub struct FileLine {
    pub file: u32,
    pub line: u32,
}

pub fn line_of(token: &Token) -> FileLine
    ensures { result ≡ line_of token.now }
{
    FileLine {
        file: token.file,
        line: token.line,
    }
}

pub fn is_word(token: &Token) -> bool
    ensures { result ≡ is_word token.now }
{
    match token.kind {
        TokenKind::Word => true,
        _ => false,
    }
}

pub fn is_string(token: &Token) -> bool
    ensures { result ≡ is_string token.now }
{
    match token.kind {
        TokenKind::Str => true,
        _ => false,
    }
}

pub fn is_tick(token: &Token) -> bool
    ensures { result ≡ is_tick token.now }
{
    match token.kind {
        TokenKind::Tick => true,
        _ => false,
    }
}

pub fn is_at(token: &Token) -> bool
    ensures { result ≡ is_at token.now }
{
    match token.kind {
        TokenKind::At => true,
        _ => false,
    }
}

pub fn is_name(token: &Token) -> bool
    ensures { result ≡ is_name token.now }
{
    match token.kind {
        TokenKind::Word => true,
        TokenKind::Str => true,
        _ => false,
    }
}

/// Whether the token is the symbol of this byte.
pub fn is_symbol(token: &Token, byte: u8) -> bool
    ensures { result ≡ is_symbol byte token.now }
{
    match token.kind {
        TokenKind::Sym => match token.text.bytes() {
            [only] => *only == byte,
            _ => false,
        },
        _ => false,
    }
}

/// Whether a use may stand behind this token.
pub fn is_front(token: &Token) -> bool
    ensures { result ≡ is_front token.now }
{
    is_symbol(token, b'{') || is_symbol(token, b'}') || is_symbol(token, b';')
}

/// What a token does to the brackets that are open.
#[derive(Clone, Copy)]
pub enum Bracket {
    /// It opens one, which this byte closes.
    Opens(u8),
    /// It closes the one that this byte closes.
    Closes(u8),
    Neither,
}

pub fn read_bracket(token: &Token) -> Bracket
    ensures { result ≡ bracket token.now }
{
    if is_symbol(token, b')') {
        return Bracket::Closes(b')');
    }
    if is_symbol(token, b'}') {
        return Bracket::Closes(b'}');
    }
    if is_symbol(token, b'(') {
        return Bracket::Opens(b')');
    }
    if is_symbol(token, b'{') {
        return Bracket::Opens(b'}');
    }
    Bracket::Neither
}

pub fn is_block_word(token: &Token) -> bool
    ensures { result ≡ is_block_word token.now }
{
    is_word(token) && token.text.bytes() == b"block".as_slice()
}

/// Whether the token names what a block may stand for.
pub fn is_block_type(token: &Token) -> bool
    ensures { result ≡ is_block_type token.now }
{
    if !is_word(token) {
        return false;
    }
    let word = token.text.bytes();
    if word == b"root".as_slice() || word == b"source".as_slice() {
        return true;
    }
    if word == b"destination".as_slice() || word == b"filter".as_slice() {
        return true;
    }
    if word == b"rewrite".as_slice() || word == b"log".as_slice() {
        return true;
    }
    word == b"parser".as_slice() || word == b"options".as_slice()
}

/// The bytes of a token's text and one more.
pub fn token_size(token: &Token) -> u64
    ensures value { result ≡ token_size token.now }
    ensures bound { result ≤ 2 ^ 63 }
{
    token.text.bytes().len() as u64 + 1
}

pub fn copy_token(token: &Token) -> Result<Token, NoMemory>
    ensures { IfOk result (λ copy. copy ≡ token.now) }
{
    Ok(Token {
        kind: token.kind,
        file: token.file,
        line: token.line,
        column: token.column,
        text: token.text.copy()?,
    })
}
