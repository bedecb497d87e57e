// Appending texts, and the texts of macros that aren't of a stamp.
ghost use Rattle.std.specs.Prelude.{◌≡◌, ◌≤◌, ◌<◌, ◌++◌, ◌∷◌, OnOk, OnErr, decimal, unwrap_or, []};
ghost use Rattle.sg_time.specs.Stamp.{IsValidStamp};
ghost use Rattle.sg_msg.specs.Message.{IsMessage};
ghost use Rattle.sg_template.specs.Begins.{BeginsWith};
ghost use Rattle.sg_template.specs.Texts.{hex_digit, hex_text, tags_text, text_of, or_default, macro_text, stamp_of};
ghost use Rattle.sg_template.specs.Render.{part_text, render_of};

use crate::date::append_date;
use crate::elements::append_sdata;
use crate::header::append_header;
use crate::{Env, facility_name, severity_name};
use itoa::Buffer;
use sg_macro::{Macro, StampKind, TemplatePart};
use sg_msg::Message;
use sg_time::Stamp;
use std::alloc::AllocError;

#[tactic(auto, using(crate::proofs::Appending::appending))]
fn append_byte(byte: u8, out: &mut Vec<u8>) -> Result<(), AllocError>
    ensures ok { OnOk result (out.new.items ≡ out.old.items ++ byte ∷ []) }
    ensures err { OnErr result (BeginsWith out.old.items out.new.items) }
{
    out.push(byte)?;
    Ok(())
}

fn append_bytes(text: &[u8], out: &mut Vec<u8>) -> Result<(), AllocError>
    ensures ok { OnOk result (out.new.items ≡ out.old.items ++ text.now) }
    ensures err { OnErr result (BeginsWith out.old.items out.new.items) }
{
    out.extend_from_slice(text)
}

pub(crate) fn append(text: &[u8], out: &mut Vec<u8>) -> Result<(), AllocError>
    ensures ok { OnOk result (out.new.items ≡ out.old.items ++ text.now) }
    ensures err { OnErr result (BeginsWith out.old.items out.new.items) }
{
    match text {
        [byte] => append_byte(*byte, out),
        _ => append_bytes(text, out),
    }
}

#[tactic(auto, using(crate::proofs::Appending::appending))]
fn append_number(number: u8, out: &mut Vec<u8>) -> Result<(), AllocError>
    ensures ok { OnOk result (out.new.items ≡ out.old.items ++ decimal number) }
    ensures err { OnErr result (BeginsWith out.old.items out.new.items) }
{
    let mut buffer = Buffer::new();
    append(buffer.format(number).as_bytes(), out)?;
    Ok(())
}

#[tactic(auto, using(crate::proofs::Appending::appending))]
fn append_hex(number: u8, out: &mut Vec<u8>) -> Result<(), AllocError>
    ensures ok { OnOk result (out.new.items ≡ out.old.items ++ hex_text number) }
    ensures err { OnErr result (BeginsWith out.old.items out.new.items) }
{
    append(&[hex_digit(number / 16), hex_digit(number % 16)], out)?;
    Ok(())
}

fn hex_digit(number: u8) -> u8
    requires { number < 16 }
    ensures { result ≡ hex_digit number }
{
    b"0123456789abcdef"[number as usize]
}

#[tactic(auto, using(crate::proofs::Appending::appending))]
fn append_tags(message: &Message, out: &mut Vec<u8>) -> Result<(), AllocError>
    ensures ok { OnOk result (out.new.items ≡ out.old.items ++ tags_text message.now.tags) }
    ensures err { OnErr result (BeginsWith out.old.items out.new.items) }
{
    let Some(first) = message.tag(0) else {
        return Ok(());
    };
    append(first, out)?;
    let mut place = 1;
    while let Some(tag) = message.tag(place) {
        append(b",", out)?;
        append(tag, out)?;
        place += 1;
    }
    Ok(())
}

/// The value of that name, empty where it has none.
pub fn text_of<'m>(message: &'m Message, name: &[u8]) -> &'m [u8]
    ensures { result.now ≡ text_of name.now message.now.pairs }
{
    match message.get(name) {
        Some(value) => value,
        None => b"",
    }
}

fn or_default<'t>(text: &'t [u8], default: &'t [u8]) -> &'t [u8]
    ensures { result.now ≡ or_default text.now default.now }
{
    if text.is_empty() { default } else { text }
}

fn old_value(env: &Env) -> &[u8]
    ensures { result.now ≡ unwrap_or env.now.old [] }
{
    match &env.old {
        Some(old) => old.bytes(),
        None => b"",
    }
}

fn stamp_of(kind: StampKind, message: &Message) -> Stamp
    requires { IsMessage message.now }
    ensures value { result ≡ stamp_of kind message.now }
    ensures valid { IsValidStamp result }
{
    match kind {
        StampKind::Sent => message.sent(),
        StampKind::Received => message.received(),
    }
}

#[tactic(auto, using(crate::proofs::Appending::appending), unfolding(crate::specs::Texts::macro_text))]
fn append_macro(
    kind: Macro,
    message: &Message,
    env: &Env,
    out: &mut Vec<u8>,
) -> Result<(), AllocError>
    ensures ok { OnOk result
        (out.new.items ≡ out.old.items ++ macro_text kind message.now env.now) }
    ensures err { OnErr result (BeginsWith out.old.items out.new.items) }
{
    let pri = message.pri();
    match kind {
        Macro::Pri => append_number(pri, out),
        Macro::FacilityNumber => append_number(pri / 8, out),
        Macro::SeverityNumber => append_number(pri % 8, out),
        Macro::Facility => append(facility_name(pri / 8), out),
        Macro::Severity => append(severity_name(pri % 8), out),
        Macro::PriHex => append_hex(pri, out),
        Macro::Tags => append_tags(message, out),
        Macro::Header => append_header(message, out),
        Macro::Sdata => append_sdata(message, out),
        Macro::OldValue => append(old_value(env), out),
        Macro::OfStamp(kind, part) => append_date(
            part,
            env.shown(stamp_of(kind, message)),
            env,
            out,
        ),
    }
}

#[tactic(auto, using(crate::proofs::Appending::appending))]
pub(crate) fn append_part(
    part: &TemplatePart,
    message: &Message,
    env: &Env,
    out: &mut Vec<u8>,
) -> Result<(), AllocError>
    ensures ok { OnOk result
        (out.new.items ≡ out.old.items ++ part_text message.now env.now part.now) }
    ensures err { OnErr result (BeginsWith out.old.items out.new.items) }
{
    match part {
        TemplatePart::Literal(text) => append(text.bytes(), out),
        TemplatePart::Macro { kind, default } => {
            let before = out.len();
            append_macro(*kind, message, env, out)?;
            if out.len() == before {
                return append(default.bytes(), out);
            }
            Ok(())
        }
        TemplatePart::Pair { name, default } => {
            append(
                or_default(text_of(message, name.bytes()), default.bytes()),
                out,
            )
        }
    }
}

#[tactic(auto, using(crate::proofs::Appending::appending), unfolding(crate::specs::Render::render_of))]
pub(crate) fn append_parts(
    parts: &[TemplatePart],
    message: &Message,
    env: &Env,
    out: &mut Vec<u8>,
) -> Result<(), AllocError>
    ensures ok { OnOk result
        (out.new.items ≡ out.old.items ++ render_of parts.now message.now env.now) }
    ensures err { OnErr result (BeginsWith out.old.items out.new.items) }
{
    for part in parts {
        append_part(part, message, env, out)?;
    }
    Ok(())
}
