// Reading the first part of a template's text.
ghost use Rattle.std.specs.Prelude.{◌≡◌, ◌+◌, ◌≤◌, ◌<◌, length, drop, IfOk, IfErr, IsTrue, Ok};
ghost use Rattle.std.specs.List.{prefix_len};
ghost use Rattle.sg_macro.specs.Reading.{is_name_byte, length_before, begins_with, length_before_default, brace_cut, word_cut, dollar_cut, first_cut, RefusesTemplate};

use crate::{TemplateFault, TemplatePart};
use std::alloc::Global;

// A part, and how many bytes of the text spell it.
#[derive(Drop)]
pub(crate) struct CutPart {
    pub(crate) part: TemplatePart,
    pub(crate) len: usize,
}

fn is_name_byte(byte: u8) -> bool
    ensures { result ≡ is_name_byte byte }
{
    byte.is_ascii_alphanumeric() || byte == b'_'
}

fn name_len(text: &[u8]) -> usize
    ensures value { result ≡ prefix_len is_name_byte text.now }
    ensures within { result ≤ length text.now }
{
    text.iter().take_while(|byte| is_name_byte(**byte)).count()
}

fn length_before(byte: u8, text: &[u8]) -> usize
    ensures value { result ≡ length_before byte text.now }
    ensures within { result ≤ length text.now }
{
    text.iter().take_while(|other| **other != byte).count()
}

fn begins_with(byte: u8, text: &[u8]) -> bool
    ensures { result ≡ begins_with byte text.now }
{
    match text {
        [first, ..] => *first == byte,
        [] => false,
    }
}

fn length_before_default(text: &[u8]) -> usize
    ensures value { result ≡ length_before_default text.now }
    ensures within { result ≤ length text.now }
{
    let mut rest = text;
    while let [first, behind @ ..] = rest {
        if *first == b':' && begins_with(b'-', behind) {
            break;
        }
        rest = behind;
    }
    text.len() - rest.len()
}

pub(crate) fn behind(count: usize, text: &[u8]) -> &[u8]
    ensures { result.now ≡ drop count text.now }
{
    if count < text.len() {
        &text[count..]
    } else {
        b""
    }
}

// What `${` begins, behind it.
fn brace_cut(alloc: Global, text: &[u8]) -> Result<CutPart, TemplateFault>
    ensures ok { IfOk result (λ found. brace_cut text.now ≡ Ok found) }
    ensures len { IfOk result (λ found. (2 < found.len) × (found.len ≤ length text.now + 2)) }
    ensures err { IfErr result (RefusesTemplate (brace_cut text.now)) }
{
    let len = length_before(b'}', text);
    if len == text.len() {
        return Err(TemplateFault::OpenBrace);
    }
    let inner = &text[..len];
    let name = length_before_default(inner);
    Ok(CutPart {
        part: TemplatePart::named(alloc, &inner[..name], behind(name + 2, inner))?,
        len: len + 3,
    })
}

// What a dollar begins where neither a dollar nor a brace follows, behind it.
fn word_cut(alloc: Global, text: &[u8]) -> Result<CutPart, TemplateFault>
    ensures ok { IfOk result (λ found. word_cut text.now ≡ Ok found) }
    ensures len { IfOk result (λ found. (0 < found.len) × (found.len ≤ length text.now + 1)) }
    ensures err { IfErr result (RefusesTemplate (word_cut text.now)) }
{
    let len = name_len(text);
    let part = if len == 0 {
        TemplatePart::literal(alloc, b"$")?
    } else {
        TemplatePart::named(alloc, &text[..len], b"")?
    };
    Ok(CutPart { part, len: len + 1 })
}

// What a dollar begins, behind it.
fn dollar_cut(alloc: Global, text: &[u8]) -> Result<CutPart, TemplateFault>
    ensures ok { IfOk result (λ found. dollar_cut text.now ≡ Ok found) }
    ensures len { IfOk result (λ found. (0 < found.len) × (found.len ≤ length text.now + 1)) }
    ensures err { IfErr result (RefusesTemplate (dollar_cut text.now)) }
{
    match text {
        [b'$', ..] => Ok(CutPart {
            part: TemplatePart::literal(alloc, b"$")?,
            len: 2,
        }),
        [b'{', rest @ ..] => brace_cut(alloc, rest),
        [b'(', ..] => Err(TemplateFault::Function),
        _ => word_cut(alloc, text),
    }
}

// The part that begins at the first byte of the text.
pub(crate) fn first_cut(alloc: Global, text: &[u8]) -> Result<CutPart, TemplateFault>
    requires { 0 < length text.now }
    ensures ok { IfOk result (λ found. first_cut text.now ≡ Ok found) }
    ensures len { IfOk result (λ found. (0 < found.len) × (found.len ≤ length text.now)) }
    ensures err { IfErr result (RefusesTemplate (first_cut text.now)) }
{
    let len = length_before(b'$', text);
    if len == 0 {
        return dollar_cut(alloc, behind(1, text));
    }
    Ok(CutPart {
        part: TemplatePart::literal(alloc, &text[..len])?,
        len,
    })
}
