// The message of a record, as its inlet reads it.
ghost use Rattle.std.specs.Prelude.{◌≡◌, ◌≤ℤ◌, pos, codes, IfOk, OnOk};
ghost use Rattle.sg_msg.specs.Message.{value_of};
ghost use Rattle.sg_r3164.specs.declared.opts.ReadOpts.{ReadOpts as AReadOpts};
ghost use Rattle.sg_tree.specs.Offers.{is_skipped};
ghost use Rattle.sg_tree.specs.Readings.{inlet_of, in_lines, IsLine, IsRecordReading, Reads5424, ReadsByFormat, with_tags};

use crate::InletRule;
use crate::one_line::put_in_line;
use bytes::Bytes;
use sg_device::Name;
use sg_msg::Message;
use sg_r3164::ReadOpts;
use sg_r5424::{R5424Refusal, SdNames};
use std::alloc::{AllocError, Global};

// The message of a record of RFC 5424, or what one that isn't so becomes.
fn read_5424(
    alloc: Global,
    names: &mut SdNames,
    item: Bytes,
    at: i64,
    peer: &Bytes,
    opts: &ReadOpts,
) -> Result<Message, AllocError>
    requires { (pos 0 ≤ℤ at) × (at ≤ℤ pos 250_000_000_000_000_000) }
    ensures { IfOk result (Reads5424 item at peer.now opts.now) }
{
    match sg_r5424::read(alloc, names, item.clone()?, at, peer, opts) {
        Ok(message) => Ok(message),
        Err(R5424Refusal::Syntax(_)) => sg_r5424::refused(alloc, item, at, peer, opts),
        Err(R5424Refusal::NoMemory) => Err(AllocError),
    }
}

fn read_plain(
    alloc: Global,
    rule: &InletRule,
    names: &mut SdNames,
    item: Bytes,
    at: i64,
    peer: &Bytes,
) -> Result<Message, AllocError>
    requires { (pos 0 ≤ℤ at) × (at ≤ℤ pos 250_000_000_000_000_000) }
    ensures { IfOk result (ReadsByFormat rule.now.rfc5424 item at peer.now rule.now.opts) }
{
    if rule.rfc5424 {
        read_5424(alloc, names, item, at, peer, &rule.opts)
    } else {
        sg_r3164::read(alloc, item, at, peer, &rule.opts)
    }
}

// MESSAGE as the flag says.
fn put_message(alloc: Global, one_line: bool, message: &mut Message) -> Result<(), AllocError>
    ensures whole { OnOk result (message.new ≡ in_lines one_line message.old) }
    ensures line { OnOk result (IsLine one_line (value_of (codes "MESSAGE") message.new.pairs)) }
{
    if one_line {
        put_in_line(alloc, message)?;
    }
    Ok(())
}

fn set_tags(message: &mut Message, tags: &[Name]) -> Result<(), AllocError>
    ensures { OnOk result (message.new ≡ with_tags tags.now message.old) }
{
    for tag in tags {
        message.set_tag(tag.bytes())?;
    }
    Ok(())
}

/// Whether the record has no offers since it is empty.
pub fn is_skipped(rule: &InletRule, item: &[u8]) -> bool
    ensures { result ≡ is_skipped (inlet_of rule.now) item.now }
{
    item.is_empty() & !rule.empty_lines
}

/// The message of a record of an inlet, with its MESSAGE in one line where the inlet has that flag, and
/// with the inlet's tags. One that isn't of RFC 5424's form, where
/// the inlet reads by that, becomes the message of `sg_r5424::refused`. Names of pairs share the memory
/// of those of the records before.
///
/// `at` is the moment of the pull, in microseconds since 1970-01-01T00:00:00Z, 0 to
/// 250,000,000,000,000,000.
pub fn read_item(
    alloc: Global,
    rule: &InletRule,
    names: &mut SdNames,
    item: Bytes,
    at: i64,
    peer: &Bytes,
) -> Result<Message, AllocError>
    requires { (pos 0 ≤ℤ at) × (at ≤ℤ pos 250_000_000_000_000_000) }
    ensures reading { IfOk result (IsRecordReading (inlet_of rule.now) item at peer.now) }
    ensures line { IfOk result
        (λ message. IsLine rule.now.one_line (value_of (codes "MESSAGE") message.pairs)) }
{
    let mut message = read_plain(alloc, rule, names, item, at, peer)?;
    put_message(alloc, rule.one_line, &mut message)?;
    set_tags(&mut message, &rule.tags)?;
    Ok(message)
}
