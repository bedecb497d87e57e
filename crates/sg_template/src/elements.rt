// STRUCTURED-DATA, from the pairs of a message.
ghost use Rattle.std.specs.Prelude.{◌≡◌, ◌≤◌, ◌<◌, not, [], ◌++◌, List, length, OnOk, OnErr, IfOk, option_copied};
ghost use Rattle.std.specs.Option.{option_map};
ghost use Rattle.std.specs.List.{prefix_len, list_all, cons_option};
ghost use Rattle.sg_msg.specs.Sets.{is_sd_byte, is_escaped};
ghost use Rattle.sg_template.specs.Begins.{BeginsWith};
ghost use Rattle.sg_template.specs.Elements.{is_sd_name, is_param_name, is_no_dot, is_no_at, begins_with_digit, before_dot, id_length, split_name, checked, sd_name, SdItem, item_of, escaped, param_text, opening_text, elements_text, sdata_text};

use crate::append::append;
use sg_msg::{Message, is_digit, is_escaped, is_sd_byte};
use std::alloc::AllocError;

// An element's ID, and the name of a parameter, if it is one.
#[derive(Clone, Copy)]
struct SdName<'n> {
    id: &'n [u8],
    param: Option<&'n [u8]>,
}

fn are_sd_bytes(text: &[u8]) -> bool
    ensures { result ≡ list_all is_sd_byte text.now }
{
    text.iter().all(|byte| is_sd_byte(*byte))
}

fn is_sd_name(text: &[u8]) -> bool
    ensures { result ≡ is_sd_name text.now }
{
    if text.is_empty() {
        return false;
    }
    if text.len() > 32 {
        return false;
    }
    are_sd_bytes(text)
}

fn is_param_name(param: Option<&[u8]>) -> bool
    ensures { result ≡ is_param_name (option_copied param.entry) }
{
    match param {
        Some(name) => is_sd_name(name),
        None => true,
    }
}

fn length_without_dot(text: &[u8]) -> usize
    ensures value { result ≡ prefix_len is_no_dot text.now }
    ensures within { result ≤ length text.now }
{
    text.iter().take_while(|byte| **byte != b'.').count()
}

fn length_without_at(text: &[u8]) -> usize
    ensures value { result ≡ prefix_len is_no_at text.now }
    ensures within { result ≤ length text.now }
{
    text.iter().take_while(|byte| **byte != b'@').count()
}

fn begins_with_digit(text: &[u8]) -> bool
    ensures { result ≡ begins_with_digit text.now }
{
    match text {
        [first, ..] => is_digit(*first),
        [] => false,
    }
}

// The bytes before the first dot that no digit follows, all where there is none.
fn before_dot(text: &[u8]) -> usize
    ensures value { result ≡ before_dot text.now }
    ensures within { result ≤ length text.now }
{
    for (place, byte) in text.iter().enumerate() {
        if *byte == b'.' && !begins_with_digit(&text[place + 1..]) {
            return place;
        }
    }
    text.len()
}

// The length of the ID at the front.
fn id_length(text: &[u8]) -> usize
    ensures value { result ≡ id_length text.now }
    ensures within { result ≤ length text.now }
{
    let at = length_without_at(text);
    if at == text.len() {
        return length_without_dot(text);
    }
    at + before_dot(&text[at..])
}

fn split_name(text: &[u8]) -> SdName<'_>
    ensures id { result.id.now ≡ (split_name text.now).id }
    ensures param { option_copied result.param ≡ (split_name text.now).param }
{
    let len = id_length(text);
    if len == text.len() {
        return SdName {
            id: text,
            param: None,
        };
    }
    SdName {
        id: &text[..len],
        param: Some(&text[len + 1..]),
    }
}

// The name, where it is of the grammar.
fn checked(found: SdName<'_>) -> Option<SdName<'_>>
    ensures { option_map (λ name. record { id = name.id.now; param = option_copied name.param })
        result
        ≡ checked (record { id = found.entry.id.now; param = option_copied found.entry.param }) }
{
    if is_sd_name(found.id) && is_param_name(found.param) {
        Some(found)
    } else {
        None
    }
}

// What the name of a pair says, where it is of the grammar.
#[tactic(auto, unfolding(crate::specs::Elements::sd_name))]
fn sd_name(name: &[u8]) -> Option<SdName<'_>>
    ensures { option_map (λ found. record { id = found.id.now; param = option_copied found.param })
        result
        ≡ sd_name name.now }
{
    match name.strip_prefix(b".SDATA.") {
        Some(text) => checked(split_name(text)),
        None => None,
    }
}

// The bytes before the first that stands behind a backslash.
fn plain_length(value: &[u8]) -> usize
    ensures value { result ≡ prefix_len (λ b. not (is_escaped b)) value.now }
    ensures within { result ≤ length value.now }
{
    value.iter().take_while(|byte| !is_escaped(**byte)).count()
}

// Appends a run of plain bytes and the byte behind them, and gives what is left.
#[tactic(auto, using(crate::proofs::Appending::appending))]
fn append_run<'v>(value: &'v [u8], out: &mut Vec<u8>) -> Result<&'v [u8], AllocError>
    requires { 0 < length value.now }
    ensures ok { IfOk result
        (λ rest. out.new.items ++ escaped rest.now ≡ out.old.items ++ escaped value.now) }
    ensures shorter { IfOk result (λ rest. length rest.now < length value.now) }
    ensures begins { BeginsWith out.old.items out.new.items }
{
    let (plain, behind) = value.split_at(plain_length(value));
    append(plain, out)?;
    match behind {
        [byte, rest @ ..] => {
            append(&[b'\\', *byte], out)?;
            Ok(rest)
        }
        [] => Ok(b""),
    }
}

fn append_escaped(value: &[u8], out: &mut Vec<u8>) -> Result<(), AllocError>
    ensures ok { OnOk result (out.new.items ≡ out.old.items ++ escaped value.now) }
    ensures err { OnErr result (BeginsWith out.old.items out.new.items) }
{
    let mut rest = value;
    while !rest.is_empty() {
        rest = append_run(rest, out)?;
    }
    Ok(())
}

#[tactic(auto, using(crate::proofs::Appending::appending))]
fn append_param(param: Option<&[u8]>, value: &[u8], out: &mut Vec<u8>) -> Result<(), AllocError>
    ensures ok { OnOk result
        (out.new.items ≡ out.old.items ++ param_text (option_copied param.entry) value.now) }
    ensures err { OnErr result (BeginsWith out.old.items out.new.items) }
{
    let Some(name) = param else {
        return Ok(());
    };
    append(b" ", out)?;
    append(name, out)?;
    append(b"=\"", out)?;
    append_escaped(value, out)?;
    append(b"\"", out)?;
    Ok(())
}

// Begins the element of this ID, behind the end of another one, where it isn't open.
#[tactic(auto, using(crate::proofs::Appending::appending))]
fn append_opening(current: Option<&[u8]>, id: &[u8], out: &mut Vec<u8>) -> Result<(), AllocError>
    ensures ok { OnOk result
        (out.new.items ≡ out.old.items ++ opening_text (option_copied current.entry) id.now) }
    ensures err { OnErr result (BeginsWith out.old.items out.new.items) }
{
    match current {
        Some(current) if current == id => return Ok(()),
        Some(_) => append(b"][", out)?,
        None => append(b"[", out)?,
    }
    append(id, out)?;
    Ok(())
}

// What stands behind the last element.
fn ending(current: Option<&[u8]>) -> &'static [u8]
    ensures { result.now ≡ elements_text (option_copied current.entry) [] }
{
    match current {
        Some(_) => b"]",
        None => b"-",
    }
}

// Appends what a pair adds behind those before it, and gives the ID of the element that is open then.
#[tactic(auto, using(crate::proofs::Appending::appending))]
fn append_item<'n>(
    current: Option<&'n [u8]>,
    name: &'n [u8],
    value: &[u8],
    out: &mut Vec<u8>,
) -> Result<Option<&'n [u8]>, AllocError>
    ensures ok { IfOk result (λ last. (rest : List SdItem)
        → out.new.items ++ elements_text (option_copied last) rest
        ≡ out.old.items ++ elements_text (option_copied current.entry)
        (cons_option (item_of (record { name = name.entry.now; value = value.now })) rest)) }
    ensures begins { BeginsWith out.old.items out.new.items }
{
    let Some(found) = sd_name(name) else {
        return Ok(current);
    };
    append_opening(current, found.id, out)?;
    append_param(found.param, value, out)?;
    Ok(Some(found.id))
}

#[tactic(auto, using(crate::proofs::Appending::appending), unfolding(crate::specs::Elements::sdata_text))]
pub(crate) fn append_sdata(message: &Message, out: &mut Vec<u8>) -> Result<(), AllocError>
    ensures ok { OnOk result (out.new.items ≡ out.old.items ++ sdata_text message.now.pairs) }
    ensures err { OnErr result (BeginsWith out.old.items out.new.items) }
{
    let mut current = None;
    for place in 0..message.pair_count() {
        let Some((name, value)) = message.pair(place) else {
            unreachable!()
        };
        current = append_item(current, name, value, out)?;
    }
    append(ending(current), out)?;
    Ok(())
}

/// Appends the STRUCTURED-DATA of RFC 5424, 6.3, that the message's pairs come to.
///
/// The pair `.SDATA.ID.NAME` is a parameter of the element ID, and the pair `.SDATA.ID` an element; the
/// ID ends before the first dot behind its first `@` that no digit follows, without an `@` before the
/// first dot;
/// pairs that the grammar has no place for are left out. Neighbours of one ID share an element. Where
/// there is none, the text is `-`. Without memory `out` stays as it was.
pub fn sdata_text(message: &Message, out: &mut Vec<u8>) -> Result<(), AllocError>
    ensures ok { OnOk result (out.new.items ≡ out.old.items ++ sdata_text message.now.pairs) }
    ensures err { OnErr result (out.new.items ≡ out.old.items) }
{
    let before = out.len();
    let appended = append_sdata(message, out);
    if appended.is_err() {
        out.truncate(before);
    }
    appended
}
