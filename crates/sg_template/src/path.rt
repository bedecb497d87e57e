// The paths of files that templates name.
ghost use Rattle.std.specs.Prelude.{◌≡◌, ◌++◌, OnOk, OnErr, take, drop, length, map};
ghost use Rattle.std.specs.List.{flat_map};
ghost use Rattle.sg_template.specs.Begins.{BeginsWith};
ghost use Rattle.sg_template.specs.Path.{name_byte, name_text, path_part, fitted, path_of};

use crate::Env;
use crate::append::{append, append_part};
use sg_macro::TemplatePart;
use sg_msg::Message;
use std::alloc::AllocError;

const LONGEST: usize = 4095;

fn name_byte(byte: u8) -> u8
    ensures { result ≡ name_byte byte }
{
    if byte == b'/' || byte == 0 {
        b'_'
    } else {
        byte
    }
}

fn make_name_bytes(text: &mut [u8])
    ensures { text.new ≡ map name_byte text.old }
{
    for byte in text.iter_mut() {
        *byte = name_byte(*byte);
    }
}

// Makes the text the name of a file.
fn make_name(text: &mut [u8])
    ensures { text.new ≡ name_text text.old }
{
    let hidden = text.first() == Some(&b'.');
    make_name_bytes(text);
    if hidden {
        text[0] = b'_';
    }
}

#[tactic(auto, using(crate::proofs::Appending::appending))]
fn append_path_part(
    part: &TemplatePart,
    message: &Message,
    env: &Env,
    out: &mut Vec<u8>,
) -> Result<(), AllocError>
    ensures ok { OnOk result
        (out.new.items ≡ out.old.items ++ path_part message.now env.now part.now) }
    ensures err { OnErr result (BeginsWith out.old.items out.new.items) }
{
    let before = out.len();
    append_part(part, message, env, out)?;
    match part {
        TemplatePart::Literal(_) => {}
        TemplatePart::Macro { .. } => make_name(&mut out[before..]),
        TemplatePart::Pair { .. } => make_name(&mut out[before..]),
    }
    Ok(())
}

#[tactic(auto, using(crate::proofs::Appending::appending))]
fn append_path_parts(
    parts: &[TemplatePart],
    message: &Message,
    env: &Env,
    out: &mut Vec<u8>,
) -> Result<(), AllocError>
    ensures ok { OnOk result
        (out.new.items ≡ out.old.items ++ flat_map (path_part message.now env.now) parts.now) }
    ensures err { OnErr result (BeginsWith out.old.items out.new.items) }
{
    for part in parts {
        append_path_part(part, message, env, out)?;
    }
    Ok(())
}

#[tactic(auto, using(crate::proofs::Appending::appending), unfolding(crate::specs::Path::path_of))]
pub(crate) fn append_path(
    parts: &[TemplatePart],
    message: &Message,
    env: &Env,
    out: &mut Vec<u8>,
) -> Result<(), AllocError>
    ensures ok { OnOk result
        (out.new.items ≡ out.old.items ++ path_of parts.now message.now env.now) }
    ensures err { OnErr result (BeginsWith out.old.items out.new.items) }
{
    let before = out.len();
    append_path_parts(parts, message, env, out)?;
    if out.len() == before {
        append(b"_", out)?;
        return Ok(());
    }
    out.truncate(before + LONGEST);
    Ok(())
}
