// Keys and values of key=value pairs.
ghost use Rattle.std.specs.Prelude.{◌≡◌, ◌≤◌, ◌<◌, ◌+◌, ◌++◌, ◌||◌, false, Some, [], length, drop, nat_eq, IfOk, IfSome, OnOk};
ghost use Rattle.std.specs.List.{prefix_len, starts_with};
ghost use Rattle.sg_parsers.specs.Values.{is_key_byte, key_len, is_blank, plain_len, is_bare, quote_from, quoted_len, unescaped_byte, unescaped_from, front_value, value_len};

use bytes::Bytes;
use sg_device::NoMemory;
use sg_msg::has_at;
use std::alloc::Global;

fn is_key_byte(byte: u8) -> bool
    ensures { result ≡ is_key_byte byte }
{
    (byte >= b'a' && byte <= b'z')
        || (byte >= b'A' && byte <= b'Z')
        || (byte >= b'0' && byte <= b'9')
        || (byte == b'_' || (byte == b'.' || byte == b'-'))
}

/// How many key bytes stand at the front.
pub(crate) fn key_len(text: &[u8]) -> usize
    ensures value { result ≡ key_len text.now }
    ensures within { result ≤ length text.now }
{
    text.iter().take_while(|byte| is_key_byte(**byte)).count()
}

fn is_blank(byte: u8) -> bool
    ensures { result ≡ is_blank byte }
{
    (byte == b' ' || byte == b'\t') || (byte == b'\r' || byte == b'\n')
}

// Whether a value without quotes ends before this byte, with which the text begins.
fn ends_plain(separator: &[u8], byte: u8, text: &[u8]) -> bool
    ensures { result ≡ (is_blank byte || starts_with nat_eq text.now separator.now) }
{
    is_blank(byte) || text.starts_with(separator)
}

// How many bytes a value without quotes has.
fn plain_len(separator: &[u8], text: &[u8]) -> usize
    ensures value { result ≡ plain_len separator.now text.now }
    ensures within { result ≤ length text.now }
{
    for place in 0..text.len() {
        if ends_plain(separator, text[place], &text[place..]) {
            return place;
        }
    }
    text.len()
}

// Whether the byte is this mark, and no backslash stands before it.
fn is_bare(escaped: bool, byte: u8, mark: u8) -> bool
    ensures { result ≡ is_bare escaped byte mark }
{
    !escaped && byte == mark
}

// The place of the closing quote.
fn quote_place(text: &[u8]) -> Option<usize>
    ensures value { result ≡ quote_from false 0 text.now }
    ensures within { IfSome result (λ place. place < length text.now) }
{
    let mut escaped = false;
    for (place, byte) in text.iter().enumerate() {
        let byte = *byte;
        if is_bare(escaped, byte, b'"') {
            return Some(place);
        }
        escaped = is_bare(escaped, byte, b'\\');
    }
    None
}

// The number of bytes between the quotes, where the text begins with a value in quotes.
fn quoted_len(text: &[u8]) -> Option<usize>
    ensures value { result ≡ quoted_len text.now }
    ensures within { IfSome result (λ len. len + 2 ≤ length text.now) }
{
    if !has_at(text, 0, b'"') {
        return None;
    }
    quote_place(&text[1..])
}

// Adds what a byte stands for, where a backslash stands before it, or none.
fn push_byte(value: &mut Vec<u8>, escaped: bool, byte: u8) -> Result<(), NoMemory>
    ensures { OnOk result (value.new.items ≡ value.old.items ++ unescaped_byte escaped byte) }
{
    if !escaped {
        if byte != b'\\' {
            value.push(byte)?;
        }
        return Ok(());
    }
    if byte != b'"' && byte != b'\\' {
        value.push(b'\\')?;
    }
    value.push(byte)?;
    Ok(())
}

fn unescaped(alloc: Global, text: &[u8]) -> Result<Vec<u8>, NoMemory>
    ensures { IfOk result (λ value. value.items ≡ unescaped_from false text.now) }
{
    let mut value = Vec::with_capacity(alloc, text.len())?;
    let mut escaped = false;
    for byte in text {
        let byte = *byte;
        push_byte(&mut value, escaped, byte)?;
        escaped = is_bare(escaped, byte, b'\\');
    }
    Ok(value)
}

// What the text between quotes says. It is the text itself, where that has no backslash.
fn said(alloc: Global, text: Bytes) -> Result<Bytes, NoMemory>
    ensures { IfOk result (λ value. value ≡ unescaped_from false text) }
{
    if !text.as_slice().contains(&b'\\') {
        return Ok(text);
    }
    let value = unescaped(alloc, text.as_slice())?;
    Ok(Bytes::from_vec(value)?)
}

// Takes a value in quotes, which has so many bytes between them.
fn take_quoted(alloc: Global, len: usize, text: &mut Bytes) -> Result<Bytes, NoMemory>
    requires { len + 2 ≤ length text.old }
    ensures value { IfOk result (λ value. value ≡ front_value [] (Some len) text.old) }
    ensures rest { OnOk result (text.new ≡ drop (len + 2) text.old) }
{
    text.advance(1);
    let between = text.split_to(len)?;
    text.advance(1);
    let value = said(alloc, between)?;
    Ok(value)
}

/// Takes the value at the front.
pub(crate) fn take_value(
    alloc: Global,
    separator: &[u8],
    text: &mut Bytes,
) -> Result<Bytes, NoMemory>
    ensures value { IfOk result (λ value. value
        ≡ front_value separator.now (quoted_len text.old) text.old) }
    ensures rest { OnOk result (text.new
        ≡ drop (value_len separator.now (quoted_len text.old) text.old) text.old) }
{
    match quoted_len(text.as_slice()) {
        Some(len) => take_quoted(alloc, len, text),
        None => {
            let len = plain_len(separator, text.as_slice());
            text.split_to(len)
        }
    }
}
