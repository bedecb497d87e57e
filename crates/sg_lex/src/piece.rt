// What begins at a place of a text.
ghost use Rattle.std.specs.Prelude.{◌≡◌, ◌+◌, ◌<◌, ◌^◌, IfOk, length};
ghost use Rattle.std.specs.List.{prefix_len};
ghost use Rattle.std.specs.Option.{ForSome};
ghost use Rattle.sg_lex.specs.Pieces.{IsLexemeWithin};
ghost use Rattle.sg_lex.specs.Tokens.{double_quoted, single_quoted, string, directive, variable, is_symbol, is_name_byte, operator, mark, piece, word_length};

use crate::quoted::{Quoted, double_quoted, single_quoted};
use crate::token::TokenKind;
use crate::word::{begins_with, is_blank, length_before, name_length, word_length};
use sg_device::{Name, NoMemory};
use std::alloc::Global;

/// What begins at a place, and how many bytes it has.
#[derive(Drop)]
pub enum Lexeme {
    /// A blank, or a comment.
    Gap(usize),
    /// A token of this kind and text.
    Spelled(TokenKind, Name, usize),
    /// A string that isn't closed.
    OpenString,
    /// No token.
    BadByte,
}

fn string(quoted: Option<Quoted>) -> Lexeme
    requires { ForSome quoted (λ found. found.count < 2 ^ 63) }
    ensures value { result ≡ string quoted }
    ensures bound { ForSome quoted (λ found. IsLexemeWithin (found.count + 1) result) }
{
    match quoted {
        Some(Quoted { text, count }) => Lexeme::Spelled(TokenKind::Str, text, count + 1),
        None => Lexeme::OpenString,
    }
}

fn directive(alloc: Global, text: &[u8]) -> Result<Lexeme, NoMemory>
    ensures value { IfOk result (λ found. found ≡ directive (word_length 64 text.now) text.now) }
    ensures bound { IfOk result (IsLexemeWithin (length text.now + 1)) }
{
    let length = word_length(b'@', text);
    if length == 0 {
        return Ok(Lexeme::BadByte);
    }
    let word = Name::new(alloc, &text[..length])?;
    Ok(Lexeme::Spelled(TokenKind::At, word, length + 1))
}

fn variable(alloc: Global, text: &[u8]) -> Result<Lexeme, NoMemory>
    ensures value { IfOk result
        (λ found. found ≡ variable (prefix_len is_name_byte text.now) text.now) }
    ensures bound { IfOk result (IsLexemeWithin (length text.now + 1)) }
{
    let length = name_length(text);
    if length == 0 || !begins_with(b'`', &text[length..]) {
        return Ok(Lexeme::BadByte);
    }
    let name = Name::new(alloc, &text[..length])?;
    Ok(Lexeme::Spelled(TokenKind::Tick, name, length + 2))
}

fn is_symbol(byte: u8) -> bool
    ensures { result ≡ is_symbol byte }
{
    matches!(byte, b'{' | b'}' | b'(' | b')' | b';' | b',' | b':')
}

fn operator(alloc: Global, first: u8, behind: &[u8]) -> Result<Lexeme, NoMemory>
    ensures value { IfOk result (λ found. found ≡ operator first behind.now) }
    ensures bound { IfOk result (IsLexemeWithin (length behind.now + 1)) }
{
    if first == b'.' && begins_with(b'.', behind) {
        let dots = Name::new(alloc, b"..")?;
        return Ok(Lexeme::Spelled(TokenKind::Sym, dots, 2));
    }
    if !matches!(first, b'<' | b'>' | b'=' | b'!') {
        return Ok(Lexeme::BadByte);
    }
    if begins_with(b'=', behind) {
        let two = Name::new(alloc, &[first, b'='])?;
        return Ok(Lexeme::Spelled(TokenKind::Op, two, 2));
    }
    if !matches!(first, b'<' | b'>') {
        return Ok(Lexeme::BadByte);
    }
    let one = Name::new(alloc, &[first])?;
    Ok(Lexeme::Spelled(TokenKind::Op, one, 1))
}

fn mark(alloc: Global, first: u8, behind: &[u8]) -> Result<Lexeme, NoMemory>
    ensures value { IfOk result (λ found. found ≡ mark first behind.now) }
    ensures bound { IfOk result (IsLexemeWithin (length behind.now + 1)) }
{
    if is_blank(first) {
        return Ok(Lexeme::Gap(1));
    }
    match first {
        b'#' => Ok(Lexeme::Gap(length_before(b'\n', behind) + 1)),
        b'"' => Ok(string(double_quoted(alloc, behind)?)),
        b'\'' => Ok(string(single_quoted(alloc, behind)?)),
        b'@' => directive(alloc, behind),
        b'`' => variable(alloc, behind),
        _ if is_symbol(first) => {
            let symbol = Name::new(alloc, &[first])?;
            Ok(Lexeme::Spelled(TokenKind::Sym, symbol, 1))
        }
        _ => operator(alloc, first, behind),
    }
}

/// What begins at the front of a text, behind the byte before.
pub fn read_piece(alloc: Global, before: u8, text: &[u8]) -> Result<Lexeme, NoMemory>
    ensures value { IfOk result (λ found. found ≡ piece before text.now) }
    ensures bound { IfOk result (IsLexemeWithin (length text.now)) }
{
    let [first, behind @ ..] = text else {
        return Ok(Lexeme::BadByte);
    };
    let length = word_length(before, text);
    if length > 0 {
        let word = Name::new(alloc, &text[..length])?;
        return Ok(Lexeme::Spelled(TokenKind::Word, word, length));
    }
    mark(alloc, *first, behind)
}
