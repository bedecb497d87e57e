// A place in the list of tokens.
ghost use Rattle.std.specs.Prelude.{◌≡◌, ◌<◌, ◌≤◌, ◌^◌, length, drop, true, Bool, slice_get, Some};
ghost use Rattle.std.specs.Option.{option_copied};
ghost use Rattle.sg_parse_base.specs.Input.{ReadsTokens, fault_at, place_of, spots_from, behind, first_token, any, next_is, expected, sees, sees_word, symbol, word, name};
ghost use Rattle.sg_parse_base.specs.Tokens.{is_word, is_name, is_string, is_operator, is_dots};
ghost use Rattle.sg_lex.specs.declared.token.Token.{Token};

use crate::fault::{ParseFault, ParseStop};
use crate::spot::Spot;
use crate::token::{
    copy_token, is_dots, is_keyword, is_name, is_operator, is_string, is_symbol, is_word, line_of,
};
use sg_lex::{ConfigKind, Line, Token};
use std::marker::Model;

/// The tokens from a place on, seen as their list with each one's place.
#[derive(Drop)]
pub struct Cursor<'a> {
    tokens: &'a [Token],
    at: usize,
}

impl<'a> Model for Cursor<'a> {
    ghost use Rattle.std.specs.Prelude.{List, ◌≤◌, ◌<◌, ◌^◌, drop, length};
    ghost use Rattle.sg_parse_base.specs.declared.spot.Spot.{Spot};
    ghost use Rattle.sg_parse_base.specs.Input.{spots_from};

    ghost Value = { List Spot };

    ghost view = { λ c. spots_from c.at (drop c.at c.tokens.now) };

    ghost invariant = { λ c. (c.at ≤ length c.tokens.now) × (length c.tokens.now < 2 ^ 32) };
}

impl<'a> Cursor<'a> {
    pub fn new(tokens: &'a [Token], at: usize) -> Cursor<'a>
        requires { (at ≤ length tokens.now) × (length tokens.now < 2 ^ 32) }
        ensures { result ≡ spots_from at (drop at tokens.now) }
    {
        Cursor { tokens, at }
    }

    /// How many tokens are left.
    pub fn left(&self) -> usize
        ensures { result ≡ length self.now }
    {
        self.tokens.len() - self.at
    }

    pub fn peek(&self) -> Option<&'a Token>
        ensures { option_copied result ≡ first_token self.now }
    {
        self.tokens.get(self.at)
    }

    /// Where the next token stands.
    pub fn line(&self) -> Option<Line>
        ensures { result ≡ place_of self.now }
    {
        if self.at >= self.tokens.len() {
            return None;
        }
        Some(line_of(token_at(self.tokens, self.at), self.at as u32))
    }

    /// A fault at the next token.
    pub fn fault(&self, kind: ConfigKind) -> ParseStop
        ensures { result ≡ ParseStop.Bad (fault_at kind self.now) }
    {
        ParseStop::Bad(ParseFault {
            kind,
            at: self.line(),
        })
    }

    /// Passes over the next token, if there is one.
    pub fn skip(&mut self)
        ensures { self.new ≡ behind self.old }
    {
        if self.at < self.tokens.len() {
            self.at += 1;
        }
    }

    /// The next token.
    pub fn take(&mut self) -> Result<Spot, ParseStop>
        ensures { ReadsTokens (any self.old) result self.new }
    {
        if self.at >= self.tokens.len() {
            return Err(self.fault(ConfigKind::Unexpected));
        }
        let spot = Spot {
            token: copy_token(token_at(self.tokens, self.at))?,
            at: self.at as u32,
        };
        self.at += 1;
        Ok(spot)
    }
}

fn token_at(tokens: &[Token], at: usize) -> &Token
    requires { at < length tokens.now }
    ensures { slice_get tokens.now at ≡ Some result.now }
{
    &tokens[at]
}

pub fn next_is_word(cursor: &Cursor<'_>) -> bool
    ensures { result ≡ next_is is_word cursor.now }
{
    match cursor.peek() {
        Some(token) => is_word(token),
        None => false,
    }
}

pub fn next_is_name(cursor: &Cursor<'_>) -> bool
    ensures { result ≡ next_is is_name cursor.now }
{
    match cursor.peek() {
        Some(token) => is_name(token),
        None => false,
    }
}

pub fn next_is_string(cursor: &Cursor<'_>) -> bool
    ensures { result ≡ next_is is_string cursor.now }
{
    match cursor.peek() {
        Some(token) => is_string(token),
        None => false,
    }
}

pub fn next_is_operator(cursor: &Cursor<'_>) -> bool
    ensures { result ≡ next_is is_operator cursor.now }
{
    match cursor.peek() {
        Some(token) => is_operator(token),
        None => false,
    }
}

pub fn next_is_dots(cursor: &Cursor<'_>) -> bool
    ensures { result ≡ next_is is_dots cursor.now }
{
    match cursor.peek() {
        Some(token) => is_dots(token),
        None => false,
    }
}

/// The next token, where it passes.
#[tactic(auto, unfolding(crate::specs::Input::expected))]
fn expected(cursor: &mut Cursor<'_>, passes: bool) -> Result<Spot, ParseStop>
    ensures { (p : Token → Bool) → next_is p cursor.old ≡ passes
        → ReadsTokens (expected p cursor.old) result cursor.new }
{
    if !passes {
        return Err(cursor.fault(ConfigKind::Unexpected));
    }
    cursor.take()
}

/// Whether the next token is the symbol of this byte.
#[tactic(auto, unfolding(crate::specs::Input::sees))]
pub fn sees(cursor: &Cursor<'_>, byte: u8) -> bool
    ensures { result ≡ sees byte cursor.now }
{
    match cursor.peek() {
        Some(token) => is_symbol(token, byte),
        None => false,
    }
}

/// Whether the next token is this keyword, which is written with dashes.
#[tactic(auto, unfolding(crate::specs::Input::sees_word))]
pub fn sees_word(cursor: &Cursor<'_>, word: &[u8]) -> bool
    ensures { result ≡ sees_word word.now cursor.now }
{
    match cursor.peek() {
        Some(token) => is_keyword(token, word),
        None => false,
    }
}

/// Passes over the symbol of this byte. Another token is `Unexpected`.
#[tactic(auto, unfolding(crate::specs::Input::symbol))]
pub fn symbol(cursor: &mut Cursor<'_>, byte: u8) -> Result<(), ParseStop>
    ensures { ReadsTokens (symbol byte cursor.old) result cursor.new }
{
    if !sees(cursor, byte) {
        return Err(cursor.fault(ConfigKind::Unexpected));
    }
    cursor.skip();
    Ok(())
}

/// The next token, which must be a word.
#[tactic(auto, unfolding(crate::specs::Input::word))]
pub fn word(cursor: &mut Cursor<'_>) -> Result<Spot, ParseStop>
    ensures { ReadsTokens (word cursor.old) result cursor.new }
{
    let passes = next_is_word(cursor);
    expected(cursor, passes)
}

/// The next token, which must be a word or a string.
#[tactic(auto, unfolding(crate::specs::Input::name))]
pub fn name(cursor: &mut Cursor<'_>) -> Result<Spot, ParseStop>
    ensures { ReadsTokens (name cursor.old) result cursor.new }
{
    let passes = next_is_name(cursor);
    expected(cursor, passes)
}
