// Some tokens of a file, one after the other.
ghost use Rattle.std.specs.Prelude.{◌≡◌, ◌-◌, ◌<◌, ◌≤◌, ◌||◌, ◌==◌, true, take, drop, length, Some, IfOk, IfSome, IsSome, IsTrue, option_copied, slice_get};
ghost use Rattle.sg_list.specs.Lists.{passes_at};

use crate::source::FileTokens;
use crate::token::{FileLine, is_name, is_string, is_symbol, is_word, line_of};
use sg_device::NoMemory;
use sg_lex::Token;
use std::alloc::Global;
use std::marker::Model;
use std::sync::Arc;

/// Some tokens of a file, one after the other, seen as that list. Parts share the file's tokens.
#[derive(Drop)]
pub struct TokenSpan {
    source: Arc<FileTokens>,
    from: usize,
    to: usize,
}

impl Model for TokenSpan {
    ghost use Rattle.std.specs.Prelude.{◌-◌, ◌≤◌, List, length, take, drop};
    ghost use Rattle.std.specs.Arc.{arc_value};
    ghost use Rattle.sg_lex.specs.declared.token.Token.{Token};

    ghost Value = { List Token };

    ghost use Rattle.sg_block.specs.Parts.{tokens_of, IsPart};

    ghost view = { tokens_of };

    ghost invariant = { IsPart };
}

impl TokenSpan {
    ghost use Rattle.sg_block.specs.Brackets.{bracketed, IsClosing};
    ghost use Rattle.sg_block.specs.Tokens.{is_word, is_string, is_name, is_at, is_tick, is_symbol, line_at, text_at};
    ghost use Rattle.sg_block.specs.Trimmed.{trimmed};

    /// The tokens of a whole file.
    pub fn new(alloc: Global, tokens: Vec<Token>) -> Result<TokenSpan, NoMemory>
        ensures { IfOk result (λ part. part ≡ tokens.items) }
    {
        let to = tokens.len();
        let source = FileTokens::new(alloc, tokens)?;
        Ok(TokenSpan {
            source: Arc::new(alloc, source)?,
            from: 0,
            to,
        })
    }

    /// The same tokens.
    pub fn share(&self) -> Result<TokenSpan, NoMemory>
        ensures { IfOk result (λ part. part ≡ self.now) }
    {
        Ok(TokenSpan {
            source: Arc::try_clone(&self.source)?,
            from: self.from,
            to: self.to,
        })
    }

    pub fn is_empty(&self) -> bool
        ensures { result ≡ (length self.now == 0) }
    {
        self.from == self.to
    }

    pub fn len(&self) -> usize
        ensures { result ≡ length self.now }
    {
        self.to - self.from
    }

    /// The token at a place, counted from 0.
    pub fn get(&self, place: usize) -> Option<&Token>
        ensures value { option_copied result ≡ slice_get self.now place }
        ensures within { IsSome result → place < length self.now }
    {
        if place < self.to - self.from {
            Some(&self.source.tokens[self.from + place])
        } else {
            None
        }
    }

    /// The token at a place that the part has.
    pub fn at(&self, place: usize) -> &Token
        requires { place < length self.now }
        ensures { slice_get self.now place ≡ Some result.now }
    {
        &self.source.tokens[self.from + place]
    }

    /// The tokens from a place on.
    pub fn behind(mut self, place: usize) -> TokenSpan
        requires { place ≤ length self }
        ensures { result ≡ drop place self }
    {
        self.from += place;
        self
    }

    /// The tokens before a place.
    fn before(mut self, place: usize) -> TokenSpan
        requires { place ≤ length self }
        ensures { result ≡ take place self }
    {
        self.to = self.from + place;
        self
    }

    /// The tokens between two places.
    fn between(&self, from: usize, to: usize) -> Result<TokenSpan, NoMemory>
        requires order { from ≤ to }
        requires end { to ≤ length self.now }
        ensures { IfOk result (λ part. part ≡ take (to - from) (drop from self.now)) }
    {
        Ok(self.share()?.before(to).behind(from))
    }

    /// The tokens without one trailing `;`.
    pub fn trimmed(self) -> TokenSpan
        ensures { result ≡ trimmed self }
    {
        let count = self.len();
        if count == 0 {
            return self;
        }
        if !self.is_symbol_at(count - 1, b';') {
            return self;
        }
        self.before(count - 1)
    }

    /// The place at which this byte closes the bracket that opens at a place.
    fn closing(&self, place: usize, closing: u8) -> Option<usize>
        requires byte { ((closing == 41) || (closing == 125)) ≡ true }
        requires place { place < length self.now }
        ensures { IsClosing closing self.now place result }
    {
        let end = self.source.ends[self.from + place + 1];
        if end >= self.to {
            return None;
        }
        if !is_symbol(&self.source.tokens[end], closing) {
            return None;
        }
        Some(end - self.from)
    }

    /// What stands in the brackets of these bytes that open at a place, and behind them.
    pub fn bracketed(
        &self,
        opening: u8,
        closing: u8,
        place: usize,
    ) -> Result<Option<(TokenSpan, TokenSpan)>, NoMemory>
        requires { ((closing == 41) || (closing == 125)) ≡ true }
        ensures value { IfOk result (λ found. found ≡ bracketed opening closing self.now place) }
        ensures shorter { IfOk result
            (λ found. IfSome found (λ parted. length parted.1 < length self.now)) }
    {
        if !self.is_symbol_at(place, opening) {
            return Ok(None);
        }
        match self.closing(place, closing) {
            Some(end) => {
                let inner = self.between(place + 1, end)?;
                let behind = self.share()?.behind(end + 1);
                Ok(Some((inner, behind)))
            }
            None => Ok(None),
        }
    }

    pub fn is_symbol_at(&self, place: usize, byte: u8) -> bool
        ensures value { result ≡ passes_at self.now place (is_symbol byte) }
        ensures within { IsTrue result → place < length self.now }
    {
        match self.get(place) {
            Some(token) => is_symbol(token, byte),
            None => false,
        }
    }

    pub fn is_word_at(&self, place: usize) -> bool
        ensures value { result ≡ passes_at self.now place is_word }
        ensures within { IsTrue result → place < length self.now }
    {
        match self.get(place) {
            Some(token) => is_word(token),
            None => false,
        }
    }

    pub fn is_string_at(&self, place: usize) -> bool
        ensures value { result ≡ passes_at self.now place is_string }
        ensures within { IsTrue result → place < length self.now }
    {
        match self.get(place) {
            Some(token) => is_string(token),
            None => false,
        }
    }

    pub fn is_name_at(&self, place: usize) -> bool
        ensures value { result ≡ passes_at self.now place is_name }
        ensures within { IsTrue result → place < length self.now }
    {
        match self.get(place) {
            Some(token) => is_name(token),
            None => false,
        }
    }

    /// The text of the token at a place that the part has.
    pub fn text(&self, place: usize) -> &[u8]
        requires { place < length self.now }
        ensures { result.now ≡ text_at self.now place }
    {
        self.source.tokens[self.from + place].text.bytes()
    }

    /// Where the token at a place stands.
    pub fn line(&self, place: usize) -> FileLine
        requires { place < length self.now }
        ensures { result ≡ line_at self.now place }
    {
        line_of(&self.source.tokens[self.from + place])
    }
}
