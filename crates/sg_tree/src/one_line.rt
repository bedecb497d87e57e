// MESSAGE in one line.
ghost use Rattle.std.specs.Prelude.{◌≡◌, true, codes, IfOk, OnOk};
ghost use Rattle.std.specs.List.{list_any};
ghost use Rattle.sg_msg.specs.Message.{value_of};
ghost use Rattle.sg_tree.specs.Readings.{ends_line, without_lines, with_line, IsLine};

use bytes::Bytes;
use sg_msg::Message;
use std::alloc::{AllocError, Global};

fn ends_line(byte: u8) -> bool
    ensures { result ≡ ends_line byte }
{
    byte == b'\n' || byte == b'\r' || byte == 0
}

fn has_lines(text: &[u8]) -> bool
    ensures { result ≡ list_any ends_line text.now }
{
    text.iter().any(|byte| ends_line(*byte))
}

fn without_lines(alloc: Global, text: &[u8]) -> Result<Vec<u8>, AllocError>
    ensures { IfOk result (λ line. line.items ≡ without_lines text.now) }
{
    let mut line = Vec::with_capacity(alloc, text.len())?;
    for byte in text {
        line.push(if ends_line(*byte) { b' ' } else { *byte })?;
    }
    Ok(line)
}

/// Gives MESSAGE a space in the place of each LF, CR and NUL, where the message has one.
pub(crate) fn put_in_line(alloc: Global, message: &mut Message) -> Result<(), AllocError>
    ensures whole { OnOk result (message.new
        ≡ with_line (value_of (codes "MESSAGE") message.old.pairs) message.old) }
    ensures line { OnOk result (IsLine true (value_of (codes "MESSAGE") message.new.pairs)) }
{
    let Some(text) = message.get(b"MESSAGE") else {
        return Ok(());
    };
    if !has_lines(text) {
        return Ok(());
    }
    let line = Bytes::from_vec(without_lines(alloc, text)?)?;
    message.put(&Bytes::from_static(b"MESSAGE"), line)?;
    Ok(())
}
