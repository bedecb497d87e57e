// What stands at a place in a list of tokens.
ghost use Rattle.std.specs.Prelude.{◌≡◌, ◌<◌, ◌-◌, length, slice_get, Some, option_copied};
ghost use Rattle.std.specs.Bool.{OnTrue, OnFalse};
ghost use Rattle.sg_parse_base.specs.Input.{sees, sees_word};
ghost use Rattle.sg_parse_obj.specs.Objects.{spots_at};
ghost use Rattle.sg_parse_text.specs.Texts.{ends};
ghost use Rattle.sg_parse_text.specs.Answers.{IsUnexpected, unexpected_on};

use sg_lex::{ConfigFault, ConfigKind, Token};
use sg_parse_base::{is_keyword, is_symbol};

fn token_at(tokens: &[Token], at: usize) -> Option<&Token>
    ensures { option_copied result ≡ slice_get tokens.now at }
{
    tokens.get(at)
}

pub fn is_end(tokens: &[Token], at: usize) -> bool
    ensures ends { result ≡ ends (spots_at tokens.now at) }
    ensures within { OnFalse result (at < length tokens.now) }
{
    match token_at(tokens, at) {
        Some(_) => false,
        None => true,
    }
}

pub fn sees_symbol(tokens: &[Token], at: usize, byte: u8) -> bool
    ensures seen { result ≡ sees byte (spots_at tokens.now at) }
    ensures within { OnTrue result (at < length tokens.now) }
{
    match token_at(tokens, at) {
        Some(token) => is_symbol(token, byte),
        None => false,
    }
}

pub fn sees_keyword(tokens: &[Token], at: usize, word: &[u8]) -> bool
    ensures { result ≡ sees_word word.now (spots_at tokens.now at) }
{
    match token_at(tokens, at) {
        Some(token) => is_keyword(token, word),
        None => false,
    }
}

fn last_of(tokens: &[Token]) -> &Token
    requires { 0 < length tokens.now }
    ensures { slice_get tokens.now (length tokens.now - 1) ≡ Some result.now }
{
    &tokens[tokens.len() - 1]
}

fn unexpected_at(token: &Token) -> ConfigFault
    ensures { result ≡ unexpected_on token.now }
{
    ConfigFault {
        kind: ConfigKind::Unexpected,
        file: token.file,
        line: token.line,
    }
}

/// The fault at a place where nothing goes on: on the line of the last token behind that.
pub fn unexpected(tokens: &[Token], at: usize) -> ConfigFault
    requires { 0 < length tokens.now }
    ensures { IsUnexpected tokens.now at result }
{
    match token_at(tokens, at) {
        Some(token) => unexpected_at(token),
        None => unexpected_at(last_of(tokens)),
    }
}
