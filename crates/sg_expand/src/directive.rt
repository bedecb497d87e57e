// The forms of directives.
ghost use Rattle.std.specs.Prelude.{◌≡◌, ◌<◌, IsTrue, length, codes};
ghost use Rattle.sg_expand.specs.Expansion.{is_directive, begins_version, begins_define, begins_include, begins_ignored, is_version, has_wildcard, names_no_file};
ghost use Rattle.std.specs.List.{list_all};
ghost use Rattle.std.specs.Char.{is_ascii_digit};

use sg_block::{TokenSpan, is_at};

fn is_directive(tokens: &TokenSpan, word: &[u8]) -> bool
    ensures { result ≡ is_directive word.now tokens.now }
{
    match tokens.get(0) {
        Some(token) => is_at(token) && token.text.bytes() == word,
        None => false,
    }
}

/// `@version : WORD`
pub fn begins_version(tokens: &TokenSpan) -> bool
    ensures value { result ≡ begins_version tokens.now }
    ensures within { IsTrue result → 2 < length tokens.now }
{
    is_directive(tokens, b"version") && tokens.is_symbol_at(1, b':') && tokens.is_word_at(2)
}

/// `@define WORD NAME`
pub fn begins_define(tokens: &TokenSpan) -> bool
    ensures value { result ≡ begins_define tokens.now }
    ensures within { IsTrue result → 2 < length tokens.now }
{
    is_directive(tokens, b"define") && tokens.is_word_at(1) && tokens.is_name_at(2)
}

/// `@include STR`
pub fn begins_include(tokens: &TokenSpan) -> bool
    ensures value { result ≡ begins_include tokens.now }
    ensures within { IsTrue result → 1 < length tokens.now }
{
    is_directive(tokens, b"include") && tokens.is_string_at(1)
}

/// `@module WORD` and `@requires WORD`
pub fn begins_ignored(tokens: &TokenSpan) -> bool
    ensures value { result ≡ begins_ignored tokens.now }
    ensures within { IsTrue result → 1 < length tokens.now }
{
    (is_directive(tokens, b"module") || is_directive(tokens, b"requires")) && tokens.is_word_at(1)
}

fn are_digits(bytes: &[u8]) -> bool
    ensures { result ≡ list_all is_ascii_digit bytes.now }
{
    bytes.iter().all(|b| b.is_ascii_digit())
}

/// Whether a word names a version that is read: `4.` and digits.
pub fn is_version(word: &[u8]) -> bool
    ensures { result ≡ is_version word.now }
{
    if word.len() < 3 {
        return false;
    }
    if word[0] != b'4' {
        return false;
    }
    if word[1] != b'.' {
        return false;
    }
    are_digits(&word[2..])
}

/// Whether a file's name holds `*` or `?`.
fn has_wildcard(name: &[u8]) -> bool
    ensures { result ≡ has_wildcard name.now }
{
    name.iter().any(|b| *b == b'*' || *b == b'?')
}

/// Whether no file is asked for by this name: one with a wildcard, or one that isn't UTF-8.
pub fn names_no_file(name: &[u8]) -> bool
    ensures { result ≡ names_no_file name.now }
{
    if has_wildcard(name) {
        return true;
    }
    match str::from_utf8(name) {
        Ok(_) => false,
        Err(_) => true,
    }
}
