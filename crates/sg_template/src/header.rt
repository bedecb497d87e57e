// The text that stands before a message: its program and process.
ghost use Rattle.std.specs.Prelude.{◌≡◌, ◌++◌, OnOk, OnErr, codes};
ghost use Rattle.sg_template.specs.Begins.{BeginsWith};
ghost use Rattle.sg_template.specs.Texts.{pid_text, header_text, text_of};

use crate::append::{append, text_of};
use sg_msg::Message;
use std::alloc::AllocError;

#[tactic(auto, using(crate::proofs::Appending::appending))]
fn append_pid(pid: &[u8], out: &mut Vec<u8>) -> Result<(), AllocError>
    ensures ok { OnOk result (out.new.items ≡ out.old.items ++ pid_text pid.now) }
    ensures err { OnErr result (BeginsWith out.old.items out.new.items) }
{
    if pid.is_empty() {
        return Ok(());
    }
    append(b"[", out)?;
    append(pid, out)?;
    append(b"]", out)?;
    Ok(())
}

#[tactic(auto, using(crate::proofs::Appending::appending))]
pub(crate) fn append_header(message: &Message, out: &mut Vec<u8>) -> Result<(), AllocError>
    ensures ok { OnOk result (out.new.items ≡ out.old.items
        ++ header_text (text_of (codes "PROGRAM") message.now.pairs)
        (text_of (codes "PID") message.now.pairs)) }
    ensures err { OnErr result (BeginsWith out.old.items out.new.items) }
{
    let program = text_of(message, b"PROGRAM");
    if program.is_empty() {
        return Ok(());
    }
    append(program, out)?;
    append_pid(text_of(message, b"PID"), out)?;
    append(b": ", out)?;
    Ok(())
}
