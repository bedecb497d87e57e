// Where the first of some bytes stands.
ghost use Rattle.std.specs.Prelude.{◌≡◌, ◌≤◌, ◌==◌, length};
ghost use Rattle.std.specs.List.{prefix_len, position_or_len};
ghost use Rattle.memchr.specs.Find.{IsFirstByte, is_byte, is_byte2};
ghost use Rattle.sg_parsers.specs.declared.fields.FieldPosition.TheVariants.{Plain};
ghost use Rattle.sg_parsers.specs.Fields.{is_delimiter, is_no_quote, len_from};

use memchr::{memchr, memchr2};

// A delimiter is looked for among so many bytes one after another, since most fields are short.
const NEAR: usize = 16;

/// Whether the byte is one of the delimiters.
pub(crate) fn is_delimiter(delimiters: &[u8], byte: u8) -> bool
    ensures { result ≡ is_delimiter delimiters.now byte }
{
    delimiters.contains(&byte)
}

fn before_one(byte: u8, text: &[u8]) -> usize
    ensures value { result ≡ position_or_len (is_byte byte) text.now }
    ensures within { result ≤ length text.now }
{
    let near = text.len().min(NEAR);
    for place in 0..near {
        if text[place] == byte {
            return place;
        }
    }
    near + before_far(byte, &text[near..])
}

// The same, many bytes at a time. It stands apart so that the search for a near one stays short.
#[inline(never)]
fn before_far(byte: u8, text: &[u8]) -> usize
    ensures value { result ≡ position_or_len (is_byte byte) text.now }
    ensures within { result ≤ length text.now }
{
    match memchr(byte, text) {
        Some(place) => place,
        None => text.len(),
    }
}

#[inline(never)]
fn before_either(one: u8, other: u8, text: &[u8]) -> usize
    ensures value { result ≡ position_or_len (is_byte2 one other) text.now }
    ensures within { result ≤ length text.now }
{
    match memchr2(one, other, text) {
        Some(place) => place,
        None => text.len(),
    }
}

#[inline(never)]
fn before_any(bytes: &[u8], text: &[u8]) -> usize
    ensures value { result ≡ position_or_len (is_delimiter bytes.now) text.now }
    ensures within { result ≤ length text.now }
{
    for (place, byte) in text.iter().enumerate() {
        if is_delimiter(bytes, *byte) {
            return place;
        }
    }
    text.len()
}

/// How many bytes stand before the first delimiter.
pub(crate) fn plain_len(delimiters: &[u8], text: &[u8]) -> usize
    ensures value { result ≡ len_from delimiters.now Plain text.now }
    ensures within { result ≤ length text.now }
{
    match delimiters {
        [one] => before_one(*one, text),
        [one, other] => before_either(*one, *other, text),
        _ => before_any(delimiters, text),
    }
}

/// How many bytes stand before the first quote.
pub(crate) fn quote_place(text: &[u8]) -> usize
    ensures value { result ≡ prefix_len is_no_quote text.now }
    ensures within { result ≤ length text.now }
{
    before_one(b'"', text)
}
