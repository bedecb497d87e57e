// The tokens of a text, piece by piece.
ghost use Rattle.std.specs.Prelude.{◌≡◌, ◌+◌, ◌<◌, ◌≤◌, ◌^◌, [], ◌∷◌, ◌++◌, ◌==◌, count_by, length, OnOk};
ghost use Rattle.sg_lex.specs.Tokens.{tokens_of, line_at, IsLexed, first_spot, spot_behind};
ghost use Rattle.sg_lex.specs.Pieces.{IsLexemeWithin, spot_after, TakesPiece};

use crate::piece::{Lexeme, read_piece};
use crate::token::{LexFault, Token};
use sg_device::NoMemory;
use std::alloc::Global;

/// The bytes that a configuration file has at most.
pub const TEXT_LIMIT: usize = 1_048_576;

/// A place in a text.
#[derive(Clone, Copy)]
pub struct TextPosition {
    /// The bytes before it.
    pub place: usize,
    /// Counted from 1, as the column.
    pub line: u32,
    pub column: u32,
    /// The byte before it.
    pub before: u8,
}

fn first_spot() -> TextPosition
    ensures { result ≡ first_spot }
{
    TextPosition {
        place: 0,
        line: 1,
        column: 1,
        before: b'\n',
    }
}

fn spot_behind(spot: TextPosition, byte: u8) -> TextPosition
    requires place { spot.place < TEXT_LIMIT }
    requires line { spot.line ≤ spot.place + 1 }
    requires column { spot.column ≤ spot.place + 1 }
    ensures value { result ≡ spot_behind spot byte }
    ensures place { result.place ≡ spot.place + 1 }
    ensures line { result.line ≤ spot.line + 1 }
    ensures column { result.column ≤ spot.column + 1 }
{
    if byte == b'\n' {
        TextPosition {
            place: spot.place + 1,
            line: spot.line + 1,
            column: 1,
            before: byte,
        }
    } else {
        TextPosition {
            place: spot.place + 1,
            line: spot.line,
            column: spot.column + 1,
            before: byte,
        }
    }
}

/// The place behind these bytes.
fn spot_after(spot: TextPosition, bytes: &[u8]) -> TextPosition
    requires place { spot.place + length bytes.now ≤ TEXT_LIMIT }
    requires line { spot.line ≤ spot.place + 1 }
    requires column { spot.column ≤ spot.place + 1 }
    ensures value { result ≡ spot_after spot bytes.now }
    ensures place { result.place ≡ spot.place + length bytes.now }
    ensures line { result.line ≤ result.place + 1 }
    ensures column { result.column ≤ result.place + 1 }
{
    let mut now = spot;
    for byte in bytes {
        now = spot_behind(now, *byte);
    }
    now
}

fn push_token(tokens: &mut Vec<Token>, token: Token) -> Result<(), NoMemory>
    ensures { OnOk result (tokens.new.items ≡ tokens.old.items ++ token ∷ []) }
{
    tokens.push(token)?;
    Ok(())
}

/// Puts the token of a piece behind the others, and says how many bytes it has.
fn take_piece(
    tokens: &mut Vec<Token>,
    file: u32,
    spot: TextPosition,
    piece: Lexeme,
) -> Result<usize, LexFault>
    requires { IsLexemeWithin (2 ^ 63) piece }
    ensures { TakesPiece file spot piece tokens.old.items tokens.new.items result }
{
    match piece {
        Lexeme::Gap(count) => Ok(count),
        Lexeme::Spelled(kind, text, count) => {
            let token = Token {
                kind,
                file,
                line: spot.line,
                column: spot.column,
                text,
            };
            push_token(tokens, token)?;
            Ok(count)
        }
        Lexeme::OpenString => Err(LexFault::OpenString(spot.place)),
        Lexeme::BadByte => Err(LexFault::BadByte(spot.place)),
    }
}

/// The tokens of the text of the file with this number.
///
/// `OpenString` and `BadByte` are answered exactly where the text has no tokens, with the first
/// place at which a string begins that isn't closed or at which no token begins.
pub fn tokens(alloc: Global, file: u32, text: &[u8]) -> Result<Vec<Token>, LexFault>
    requires { length text.now ≤ TEXT_LIMIT }
    ensures { IsLexed (tokens_of file text.now) result }
{
    let mut tokens = Vec::new(alloc);
    let mut spot = first_spot();
    while spot.place < text.len() {
        let rest = &text[spot.place..];
        let piece = read_piece(alloc, spot.before, rest)?;
        let count = take_piece(&mut tokens, file, spot, piece)?;
        spot = spot_after(spot, &rest[..count]);
    }
    Ok(tokens)
}

fn count_lines(text: &[u8]) -> u32
    requires { length text.now ≤ TEXT_LIMIT }
    ensures value { result ≡ count_by (λ b. b == 10) text.now }
    ensures bound { result ≤ length text.now }
{
    text.iter().filter(|byte| **byte == b'\n').count() as u32
}

/// The line of a place in a text, counted from 1.
pub fn line_at(text: &[u8], place: usize) -> u32
    requires text { length text.now ≤ TEXT_LIMIT }
    requires place { place ≤ length text.now }
    ensures { result ≡ line_at text.now place }
{
    count_lines(&text[..place]) + 1
}
