// The token of a fault that stops the expansion.
ghost use Rattle.std.specs.Prelude.{◌≡◌, ◌==◌, ◌≤◌, true, take, length, IfOk};
ghost use Rattle.std.specs.List.{list_any};
ghost use Rattle.sg_lex.specs.Tokens.{tokens_of};
ghost use Rattle.sg_hint.specs.Lines.{behind_bytes, first_place};
ghost use Rattle.sg_hint.specs.Expansions.{column_by, column_in, columns_from, has_variable, is_directive, may_stand, only, stands};

use crate::line::place_behind;
use sg_device::NoMemory;
use sg_lex::{ConfigFault, ConfigKind, LexFault, TEXT_LIMIT, Token, TokenKind, tokens};
use sg_parse_base::is_word;
use std::alloc::{AllocError, Global};

fn has_backtick(text: &[u8]) -> bool
    ensures { result ≡ list_any (λ byte. byte == 96) text.now }
{
    text.contains(&b'`')
}

fn has_variable(token: &Token) -> bool
    ensures { result ≡ has_variable token.now.kind token.now.text }
{
    match token.kind {
        TokenKind::Tick => true,
        TokenKind::Str => has_backtick(token.text.bytes()),
        _ => false,
    }
}

fn is_directive(kind: TokenKind) -> bool
    ensures { result ≡ is_directive kind }
{
    match kind {
        TokenKind::At => true,
        _ => false,
    }
}

/// Whether a fault of this kind can stand at the token, which is the first of its file or not.
fn may_stand(kind: ConfigKind, first: bool, token: &Token) -> bool
    ensures { result ≡ may_stand kind first token.now }
{
    match kind {
        ConfigKind::UnknownVariable => has_variable(token),
        ConfigKind::Version => first || is_directive(token.kind),
        ConfigKind::IncludeDepth => is_directive(token.kind),
        ConfigKind::Unsupported => is_directive(token.kind),
        ConfigKind::MissingArgument => is_word(token),
        ConfigKind::UnknownArgument => is_word(token),
        _ => false,
    }
}

fn stands(fault: &ConfigFault, first: bool, token: &Token) -> bool
    ensures { result ≡ stands fault.now first token.now }
{
    token.line == fault.line && may_stand(fault.kind, first, token)
}

/// The column of the only token of the fault's line at which it can stand.
fn only_column(fault: &ConfigFault, tokens: &[Token]) -> Option<u32>
    ensures { result ≡ only (columns_from fault.now true tokens.now) }
{
    let mut found = None;
    let mut first = true;
    for token in tokens {
        if stands(fault, first, token) {
            if found.is_some() {
                return None;
            }
            found = Some(token.column);
        }
        first = false;
    }
    found
}

/// The text as far as this place.
fn front(text: &[u8], at: usize) -> &[u8]
    ensures { result.now ≡ take at text.now }
{
    match text.get(..at) {
        Some(front) => front,
        None => text,
    }
}

/// The column of this place of the text, if it is in the line.
fn column_in(line: u32, text: &[u8], at: usize) -> Option<u32>
    ensures { result ≡ column_in line (behind_bytes first_place (take at text.now)) }
{
    let place = place_behind(front(text, at));
    if place.line == line {
        Some(place.column)
    } else {
        None
    }
}

/// The column of a fault of the expansion, by the text of its file.
pub fn column_by(alloc: Global, fault: &ConfigFault, text: &[u8]) -> Result<Option<u32>, NoMemory>
    requires { length text.now ≤ TEXT_LIMIT }
    ensures { IfOk result
        (λ column. column ≡ column_by fault.now text.now (tokens_of fault.now.file text.now)) }
{
    match tokens(alloc, fault.file, text) {
        Ok(found) => Ok(only_column(fault, &found)),
        Err(LexFault::OpenString(at)) => Ok(column_in(fault.line, text, at)),
        Err(LexFault::BadByte(at)) => Ok(column_in(fault.line, text, at)),
        Err(LexFault::NoMemory) => Err(AllocError),
    }
}
