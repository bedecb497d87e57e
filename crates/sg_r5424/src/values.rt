// The values of parameters.
ghost use Rattle.std.specs.Prelude.{◌≡◌, ◌≤◌, ◌<◌, ◌++◌, ℕ, false, length, IfOk, IfSome, OnOk};
ghost use Rattle.std.specs.List.{prefix_len};
ghost use Rattle.sg_r5424.specs.Values.{is_plain, EndsPlain, is_bare, IsValue, quote_from, unescaped_byte, unescaped_from};
ghost use Rattle.sg_r5424.specs.Spans.{value_said, IsWithin, IsValueWithin, SpellsPart, TakesSaid};

use crate::take::{Span, first_is, take_span};
use bytes::Bytes;
use sg_msg::is_escaped;
use std::alloc::{AllocError, Global};

// Whether the byte is this mark, and no backslash stands before it.
fn is_bare(escaped: bool, byte: u8, mark: u8) -> bool
    ensures { result ≡ is_bare escaped byte mark }
{
    !escaped && byte == mark
}

// The place of the quote that closes a value.
fn quote_place(text: &[u8]) -> Option<usize>
    ensures value { result ≡ quote_from false 0 text.now }
    ensures within { IfSome result (λ place. place < length text.now) }
{
    let mut escaped = false;
    for (place, byte) in text.iter().enumerate() {
        let byte = *byte;
        if is_bare(escaped, byte, b'"') {
            return Some(place);
        }
        if is_bare(escaped, byte, b']') {
            return None;
        }
        escaped = is_bare(escaped, byte, b'\\');
    }
    None
}

// Adds what a byte stands for, where a backslash stands before it, or none.
fn push_byte(value: &mut Vec<u8>, escaped: bool, byte: u8) -> Result<(), AllocError>
    ensures { OnOk result (value.new.items ≡ value.old.items ++ unescaped_byte escaped byte) }
{
    if escaped {
        if !is_escaped(byte) {
            value.push(b'\\')?;
        }
        value.push(byte)?;
        return Ok(());
    }
    if byte != b'\\' {
        value.push(byte)?;
    }
    Ok(())
}

fn unescape(alloc: Global, text: &[u8]) -> Result<Vec<u8>, AllocError>
    ensures { IfOk result (λ value. value.items ≡ unescaped_from false text.now) }
{
    let mut value = Vec::with_capacity(alloc, text.len())?;
    let mut escaped = false;
    for byte in text {
        let byte = *byte;
        push_byte(&mut value, escaped, byte)?;
        escaped = is_bare(escaped, byte, b'\\');
    }
    Ok(value)
}

/// The value of a parameter: a part of the item, or what a part spells that has backslashes.
#[derive(Drop)]
pub(crate) enum ParamValue {
    Part(Span),
    Spelled(Bytes),
}

// The value that a part of the item spells. It is the part itself, where that has no backslash.
fn spelled_value(alloc: Global, text: &[u8], span: Span) -> Result<ParamValue, AllocError>
    ensures value { IfOk result (SpellsPart text.now span) }
    ensures within { IfOk result
        (λ value. (end : ℕ) → IsWithin end span → IsValueWithin end value) }
{
    if !text.contains(&b'\\') {
        return Ok(ParamValue::Part(span));
    }
    let value = unescape(alloc, text)?;
    Ok(ParamValue::Spelled(Bytes::from_vec(value)?))
}

// Takes a PARAM-VALUE that may have backslashes, and the quote behind it.
fn take_spelled(
    alloc: Global,
    text: &mut Bytes,
    end: usize,
) -> Result<Option<ParamValue>, AllocError>
    requires { length text.old ≤ end }
    ensures value { IfOk result
        (λ found. TakesSaid value_said IsValue end text.old text.new found) }
    ensures within { IfOk result (λ found. IfSome found (IsValueWithin end)) }
    ensures shorter { length text.new ≤ length text.old }
{
    let Some(place) = quote_place(text.as_slice()) else {
        return Ok(None);
    };
    let from = end - text.len();
    let span = Span {
        from,
        to: from + place,
    };
    let value = spelled_value(alloc, &text.as_slice()[..place], span)?;
    text.advance(place + 1);
    Ok(Some(value))
}

fn is_plain(byte: u8) -> bool
    ensures { result ≡ is_plain byte }
{
    !is_escaped(byte)
}

fn plain_len(text: &[u8]) -> usize
    ensures value { result ≡ prefix_len is_plain text.now }
    ensures within { result ≤ length text.now }
{
    text.iter().take_while(|byte| is_plain(**byte)).count()
}

// The place of the closing quote, where nothing that needs a backslash stands before it.
fn plain_place(text: &[u8]) -> Option<usize>
    ensures { IfSome result (EndsPlain text.now) }
{
    let place = plain_len(text);
    if first_is(&text[place..], b'"') {
        return Some(place);
    }
    None
}

// Takes a PARAM-VALUE and the quote behind it. Most have no backslash.
pub(crate) fn take_value(
    alloc: Global,
    text: &mut Bytes,
    end: usize,
) -> Result<Option<ParamValue>, AllocError>
    requires { length text.old ≤ end }
    ensures value { IfOk result
        (λ found. TakesSaid value_said IsValue end text.old text.new found) }
    ensures within { IfOk result (λ found. IfSome found (IsValueWithin end)) }
    ensures shorter { length text.new ≤ length text.old }
{
    let Some(place) = plain_place(text.as_slice()) else {
        return take_spelled(alloc, text, end);
    };
    let span = take_span(text, end, place);
    text.advance(1);
    Ok(Some(ParamValue::Part(span)))
}
