// Writing a message.
ghost use Rattle.std.specs.Prelude.{◌≡◌, ◌<◌, ◌≤◌, ◌++◌, length, IfOk, OnOk, OnErr, codes, map};
ghost use Rattle.std.specs.List.{prefix_len};
ghost use Rattle.sg_msg.specs.Sets.{is_print};
ghost use Rattle.sg_time.specs.Text.{iso_stamp_text};
ghost use Rattle.sg_template.specs.Begins.{BeginsWith};
ghost use Rattle.sg_template.specs.Texts.{text_of};
ghost use Rattle.sg_template.specs.Elements.{sdata_text as sdata_of};
ghost use Rattle.sg_template.specs.Zone.{shown_stamp};
ghost use Rattle.sg_r5424.specs.Write.{printed, field_text, message_text, pri_text, fields_text, line_text};

use itoa::Buffer;
use sg_msg::{Message, is_print};
use sg_template::{Env, sdata_text, text_of};
use sg_time::iso_text;
use std::alloc::AllocError;

/// Appends the message as a line of RFC 5424, section 6, of version 1, without an end of line.
///
/// The stamp is shown as ISO, whatever the environment says of STAMP. In HOSTNAME, APP-NAME, PROCID
/// and MSGID each byte outside 33 to 126 is `_`, and they are cut to 255, 48, 128 and 32 bytes.
/// Where the stamp's year is 0001 to 9998, the line is a record that a reader accepts
/// (`lines_are_records`). Without memory `out` stays as it was.
pub fn write(message: &Message, env: &Env, out: &mut Vec<u8>) -> Result<(), AllocError>
    ensures ok { OnOk result (out.new.items ≡ out.old.items ++ line_text message.now env.now) }
    ensures err { OnErr result (out.new.items ≡ out.old.items) }
{
    let before = out.len();
    let written = append_line(message, env, out);
    if written.is_err() {
        out.truncate(before);
    }
    written
}

#[tactic(auto, using(sg_template::proofs::Appending::appending), unfolding(crate::specs::Write::line_text))]
fn append_line(message: &Message, env: &Env, out: &mut Vec<u8>) -> Result<(), AllocError>
    ensures ok { OnOk result (out.new.items ≡ out.old.items ++ line_text message.now env.now) }
    ensures err { OnErr result (BeginsWith out.old.items out.new.items) }
{
    append_pri(message.pri(), out)?;
    iso_text(env.shown(message.sent()), env.digits, out)?;
    append_fields(message, out)?;
    append(b" ", out)?;
    sdata_text(message, out)?;
    append_message(text_of(message, b"MESSAGE"), out)?;
    Ok(())
}

fn append(text: &[u8], out: &mut Vec<u8>) -> Result<(), AllocError>
    ensures ok { OnOk result (out.new.items ≡ out.old.items ++ text.now) }
    ensures err { OnErr result (BeginsWith out.old.items out.new.items) }
{
    out.extend_from_slice(text)
}

#[tactic(auto, using(sg_template::proofs::Appending::appending))]
fn append_pri(pri: u8, out: &mut Vec<u8>) -> Result<(), AllocError>
    ensures ok { OnOk result (out.new.items ≡ out.old.items ++ pri_text pri) }
    ensures err { OnErr result (BeginsWith out.old.items out.new.items) }
{
    let mut buffer = Buffer::new();
    append(b"<", out)?;
    append(buffer.format(pri).as_bytes(), out)?;
    append(b">1 ", out)?;
    Ok(())
}

#[tactic(auto, using(sg_template::proofs::Appending::appending))]
fn append_fields(message: &Message, out: &mut Vec<u8>) -> Result<(), AllocError>
    ensures ok { OnOk result (out.new.items ≡ out.old.items ++ fields_text message.now.pairs) }
    ensures err { OnErr result (BeginsWith out.old.items out.new.items) }
{
    append_field(255, text_of(message, b"HOST"), out)?;
    append_field(48, text_of(message, b"PROGRAM"), out)?;
    append_field(128, text_of(message, b"PID"), out)?;
    append_field(32, text_of(message, b"MSGID"), out)?;
    Ok(())
}

// A space, and a field of at most so many bytes.
#[tactic(auto, using(sg_template::proofs::Appending::appending))]
fn append_field(most: usize, value: &[u8], out: &mut Vec<u8>) -> Result<(), AllocError>
    ensures ok { OnOk result
        (out.new.items ≡ out.old.items ++ (codes " " ++ field_text most value.now)) }
    ensures err { OnErr result (BeginsWith out.old.items out.new.items) }
{
    append(b" ", out)?;
    if value.is_empty() {
        append(b"-", out)?;
        return Ok(());
    }
    append_printed(&value[..most.min(value.len())], out)?;
    Ok(())
}

fn print_length(value: &[u8]) -> usize
    ensures value { result ≡ prefix_len is_print value.now }
    ensures within { result ≤ length value.now }
{
    value.iter().take_while(|byte| is_print(**byte)).count()
}

// Appends a run of printing bytes and `_` for the byte behind it, and gives what is left.
#[tactic(auto, using(sg_template::proofs::Appending::appending))]
fn append_run<'v>(value: &'v [u8], out: &mut Vec<u8>) -> Result<&'v [u8], AllocError>
    requires { 0 < length value.now }
    ensures ok { IfOk result
        (λ rest. out.new.items ++ map printed rest.now ≡ out.old.items ++ map printed value.now) }
    ensures shorter { IfOk result (λ rest. length rest.now < length value.now) }
    ensures begins { BeginsWith out.old.items out.new.items }
{
    let (plain, behind) = value.split_at(print_length(value));
    append(plain, out)?;
    match behind {
        [_, rest @ ..] => {
            append(b"_", out)?;
            Ok(rest)
        }
        [] => Ok(b""),
    }
}

fn append_printed(value: &[u8], out: &mut Vec<u8>) -> Result<(), AllocError>
    ensures ok { OnOk result (out.new.items ≡ out.old.items ++ map printed value.now) }
    ensures err { OnErr result (BeginsWith out.old.items out.new.items) }
{
    let mut rest = value;
    while !rest.is_empty() {
        rest = append_run(rest, out)?;
    }
    Ok(())
}

#[tactic(auto, using(sg_template::proofs::Appending::appending))]
fn append_message(text: &[u8], out: &mut Vec<u8>) -> Result<(), AllocError>
    ensures ok { OnOk result (out.new.items ≡ out.old.items ++ message_text text.now) }
    ensures err { OnErr result (BeginsWith out.old.items out.new.items) }
{
    if text.is_empty() {
        return Ok(());
    }
    append(b" ", out)?;
    append(text, out)?;
    Ok(())
}
