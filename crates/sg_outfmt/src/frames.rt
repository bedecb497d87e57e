// Making frames.
ghost use Rattle.std.specs.Prelude.{◌≡◌, ◌≤◌, ◌+◌, ◌++◌, OnOk, OnErr, length, take, drop, codes, decimal};
ghost use Rattle.sg_template.specs.Begins.{BeginsWith};
ghost use Rattle.sg_r5424.specs.Write.{line_text};
ghost use Rattle.sg_outfmt.specs.Frame.{counted, frame_of};

use crate::Shape;
use crate::packed::packed_text;
use itoa::Buffer;
use sg_msg::Message;
use sg_r5424::write;
use sg_template::Env;
use std::alloc::AllocError;

/// Appends the frame of the message. Without memory `out` stays as it was.
pub fn frame(
    shape: &Shape,
    message: &Message,
    env: &Env,
    out: &mut Vec<u8>,
) -> Result<(), AllocError>
    ensures ok { OnOk result
        (out.new.items ≡ out.old.items ++ frame_of shape.now message.now env.now) }
    ensures err { OnErr result (out.new.items ≡ out.old.items) }
{
    match shape {
        Shape::Text(template) => template.render(message, env, out),
        Shape::Counted5424 => counted_line(message, env, out),
        Shape::ByPath { path, text } => packed_text(path, text, message, env, out),
    }
}

fn counted_line(message: &Message, env: &Env, out: &mut Vec<u8>) -> Result<(), AllocError>
    ensures ok { OnOk result
        (out.new.items ≡ out.old.items ++ counted (line_text message.now env.now)) }
    ensures err { OnErr result (out.new.items ≡ out.old.items) }
{
    let before = out.len();
    write(message, env, out)?;
    let line = out.len() - before;
    if let Err(fault) = append_count(line, out) {
        out.truncate(before);
        return Err(fault);
    }
    to_front(out, before, line);
    Ok(())
}

#[tactic(auto, using(sg_template::proofs::Appending::appending))]
fn append_count(count: usize, out: &mut Vec<u8>) -> Result<(), AllocError>
    ensures ok { OnOk result (out.new.items ≡ out.old.items ++ (decimal count ++ codes " ")) }
    ensures err { OnErr result (BeginsWith out.old.items out.new.items) }
{
    let mut buffer = Buffer::new();
    append(buffer.format(count).as_bytes(), out)?;
    append(b" ", out)?;
    Ok(())
}

pub(crate) fn append(text: &[u8], out: &mut Vec<u8>) -> Result<(), AllocError>
    ensures ok { OnOk result (out.new.items ≡ out.old.items ++ text.now) }
    ensures err { OnErr result (BeginsWith out.old.items out.new.items) }
{
    out.extend_from_slice(text)
}

// Moves what stands behind the line in front of it, in place.
fn to_front(out: &mut Vec<u8>, before: usize, line: usize)
    requires { before + line ≤ length out.old.items }
    ensures { out.new.items ≡ take before out.old.items
        ++ (drop (before + line) out.old.items ++ take line (drop before out.old.items)) }
{
    let behind = out.len() - before - line;
    out[before..].rotate_right(behind);
}
