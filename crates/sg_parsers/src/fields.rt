// The fields of a text with delimiters.
ghost use Rattle.std.specs.Prelude.{◌≡◌, ◌≤◌, ◌<◌, ◌+◌, ◌++◌, true, false, drop, length, IfOk, OnOk};
ghost use Rattle.sg_parsers.specs.Fields.{opens, through_quote, behind, added, field_len, field_value, field_count};

use crate::skips::{is_delimiter, plain_len, quote_place};
use bytes::Bytes;
use sg_device::NoMemory;
use sg_msg::has_at;
use std::alloc::Global;

/// Where in a field a byte stands.
#[derive(Clone, Copy, Drop)]
pub(crate) enum FieldPosition {
    /// At its first byte.
    Front,
    /// Outside of quotes.
    Plain,
    /// In quotes.
    Quoted,
    /// Behind a quote in quotes, which closes them unless another one follows.
    Closing,
}

// Where the byte behind this one stands.
fn behind(within: FieldPosition, byte: u8) -> FieldPosition
    ensures { result ≡ behind within byte }
{
    match within {
        FieldPosition::Front => {
            if byte == b'"' {
                FieldPosition::Quoted
            } else {
                FieldPosition::Plain
            }
        }
        FieldPosition::Plain => FieldPosition::Plain,
        FieldPosition::Quoted => {
            if byte == b'"' {
                FieldPosition::Closing
            } else {
                FieldPosition::Quoted
            }
        }
        FieldPosition::Closing => {
            if byte == b'"' {
                FieldPosition::Quoted
            } else {
                FieldPosition::Plain
            }
        }
    }
}

// Whether the text begins with a quote that is no delimiter.
fn opens(delimiters: &[u8], text: &[u8]) -> bool
    ensures value { result ≡ opens delimiters.now text.now }
    ensures within { result ≡ true → 0 < length text.now }
{
    has_at(text, 0, b'"') && !is_delimiter(delimiters, b'"')
}

// How many bytes stand up to and with the first quote.
fn through_quote(text: &[u8]) -> usize
    ensures value { result ≡ through_quote text.now }
    ensures within { result ≤ length text.now }
{
    let place = quote_place(text);
    if place == text.len() {
        return place;
    }
    place + 1
}

// How many bytes a field has that begins with a quote.
fn quoted_len(delimiters: &[u8], text: &[u8]) -> usize
    requires { opens delimiters.now text.now ≡ true }
    ensures value { result ≡ field_len delimiters.now text.now }
    ensures within { result ≤ length text.now }
{
    let mut len = 1;
    'quotes: while len < text.len() {
        len += through_quote(&text[len..]);
        if !opens(delimiters, &text[len..]) {
            return len + plain_len(delimiters, &text[len..]);
        }
        len += 1;
    }
    text.len()
}

fn field_len(delimiters: &[u8], text: &[u8]) -> usize
    ensures value { result ≡ field_len delimiters.now text.now }
    ensures within { result ≤ length text.now }
{
    if opens(delimiters, text) {
        return quoted_len(delimiters, text);
    }
    plain_len(delimiters, text)
}

/// How many fields the text has.
pub(crate) fn field_count(delimiters: &[u8], text: &[u8]) -> usize
    ensures { result ≡ field_count delimiters.now text.now }
{
    let mut count: usize = 1;
    let mut rest = text;
    let mut len = field_len(delimiters, rest);
    'fields: while len < rest.len() {
        count += 1;
        rest = &rest[len + 1..];
        len = field_len(delimiters, rest);
    }
    count
}

/// Where the field ends that begins at this place of the text.
pub(crate) fn field_end(delimiters: &[u8], text: &[u8], at: usize) -> usize
    requires { at ≤ length text.now }
    ensures value { result ≡ at + field_len delimiters.now (drop at text.now) }
    ensures within { result ≤ length text.now }
{
    at + field_len(delimiters, &text[at..])
}

// Adds what a byte adds to the value.
fn push_byte(value: &mut Vec<u8>, within: FieldPosition, byte: u8) -> Result<(), NoMemory>
    ensures { OnOk result (value.new.items ≡ value.old.items ++ added within byte) }
{
    match within {
        FieldPosition::Front => {
            if byte != b'"' {
                value.push(byte)?;
            }
            Ok(())
        }
        FieldPosition::Plain => {
            value.push(byte)?;
            Ok(())
        }
        FieldPosition::Quoted => {
            if byte != b'"' {
                value.push(byte)?;
            }
            Ok(())
        }
        FieldPosition::Closing => {
            value.push(byte)?;
            Ok(())
        }
    }
}

fn unquoted(alloc: Global, written: &[u8]) -> Result<Vec<u8>, NoMemory>
    ensures { IfOk result (λ value. value.items ≡ field_value written.now) }
{
    let mut value = Vec::with_capacity(alloc, written.len())?;
    let mut within = FieldPosition::Front;
    for byte in written {
        let byte = *byte;
        push_byte(&mut value, within, byte)?;
        within = behind(within, byte);
    }
    Ok(value)
}

/// Whether a field may say something else than what is written.
pub(crate) fn is_quoted(written: &[u8]) -> bool
    ensures { result ≡ false → field_value written.now ≡ written.now }
{
    has_at(written, 0, b'"')
}

/// What a field says. It shares the text's memory, but where two quotes stand for one or something
/// follows the last one.
pub(crate) fn field_value(alloc: Global, written: Bytes) -> Result<Bytes, NoMemory>
    ensures { IfOk result (λ value. value ≡ field_value written) }
{
    if !has_at(written.as_slice(), 0, b'"') {
        return Ok(written);
    }
    let mut body = written.clone()?;
    body.advance(1);
    let place = quote_place(body.as_slice());
    if body.len() - place <= 1 {
        body.truncate(place);
        return Ok(body);
    }
    let value = unquoted(alloc, written.as_slice())?;
    Ok(Bytes::from_vec(value)?)
}
