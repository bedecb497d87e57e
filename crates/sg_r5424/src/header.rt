// The header of a record.
ghost use Rattle.std.specs.Prelude.{◌≡◌, ◌≤◌, ◌++◌, ◌∷◌, [], codes, bytes_eq, length, drop, Some, IfSome, IfOk, OnOk};
ghost use Rattle.std.specs.Option.{ForSome};
ghost use Rattle.sg_time.specs.Stamp.{IsValidStamp};
ghost use Rattle.sg_r5424.specs.Grammar.{IsStart, IsStamp, IsHeaderFront, IsNames, unless_nil};
ghost use Rattle.sg_r5424.specs.Takes.{TakesValue};
ghost use Rattle.sg_msg.specs.Build.{name_of, MayName, some_pair};
ghost use Rattle.sg_r3164.specs.Options.{host_of, sent_of};
ghost use Rattle.sg_r5424.specs.Spans.{span_text, names_said, IsWithin, AreNamesWithin, TakesSaid};
ghost use Rattle.sg_r5424.specs.Is5424.{put_in_order};

use crate::take::{Span, span_text, take_field, take_text};
use bytes::Bytes;
use sg_msg::{MessageBuilder, PairName, is_same, priority};
use sg_r3164::ReadOpts;
use sg_time::{Stamp, read_iso};
use std::alloc::{AllocError, Global};

/// PRI and TIMESTAMP, which is none where it is nil.
#[derive(Clone, Copy, Drop)]
pub(crate) struct HeaderFront {
    pub(crate) pri: u8,
    pub(crate) stamp: Option<Stamp>,
}

/// Where HOSTNAME, APP-NAME, PROCID and MSGID stand as they are written.
#[derive(Clone, Copy, Drop)]
pub(crate) struct NameSpans {
    pub(crate) host: Span,
    pub(crate) program: Span,
    pub(crate) pid: Span,
    pub(crate) msgid: Span,
}

// Takes PRI, VERSION and the space behind them.
#[tactic(none)]
fn take_start(text: &mut Bytes) -> Option<u8>
    ensures start { TakesValue IsStart text.old text.new result }
    ensures range { IfSome result (λ pri. pri ≤ 191) }
{
    let Some((pri, len)) = priority(text.as_slice()) else {
        return None;
    };
    text.advance(len);
    if !take_text(text, b"1 ") {
        return None;
    }
    Some(pri)
}

// Takes a TIMESTAMP that isn't nil, and the space behind it.
#[tactic(none)]
fn take_iso(text: &mut Bytes) -> Option<Stamp>
    ensures stamp { TakesValue (λ text stamp rest. IsStamp text (Some stamp) rest) text.old text.new
        result }
    ensures valid { IfSome result IsValidStamp }
{
    let Some((stamp, len)) = read_iso(text.as_slice()) else {
        return None;
    };
    text.advance(len);
    if !take_text(text, b" ") {
        return None;
    }
    Some(stamp)
}

// Takes PRI, VERSION and TIMESTAMP.
#[tactic(none)]
pub(crate) fn take_front(text: &mut Bytes) -> Option<HeaderFront>
    ensures front { TakesValue IsHeaderFront text.old text.new result }
    ensures pri { IfSome result (λ front. front.pri ≤ 191) }
    ensures stamp { IfSome result (λ front. ForSome front.stamp IsValidStamp) }
{
    let Some(pri) = take_start(text) else {
        return None;
    };
    if take_text(text, b"- ") {
        return Some(HeaderFront { pri, stamp: None });
    }
    let Some(stamp) = take_iso(text) else {
        return None;
    };
    Some(HeaderFront {
        pri,
        stamp: Some(stamp),
    })
}

// Takes HOSTNAME, APP-NAME, PROCID and MSGID.
pub(crate) fn take_names(text: &mut Bytes, end: usize) -> Option<NameSpans>
    requires { length text.old ≤ end }
    ensures names { TakesSaid names_said IsNames end text.old text.new result }
    ensures within { IfSome result (AreNamesWithin end) }
    ensures shorter { length text.new ≤ length text.old }
{
    let Some(host) = take_field(text, end, 255) else {
        return None;
    };
    let Some(program) = take_field(text, end, 48) else {
        return None;
    };
    let Some(pid) = take_field(text, end, 128) else {
        return None;
    };
    let Some(msgid) = take_field(text, end, 32) else {
        return None;
    };
    Some(NameSpans {
        host,
        program,
        pid,
        msgid,
    })
}

fn is_nil(item: &[u8], field: Span) -> bool
    requires { IsWithin (length item.now) field }
    ensures { result ≡ bytes_eq (span_text item.now field) (codes "-") }
{
    is_same(span_text(item, field), b"-")
}

// Puts a field, where it isn't nil.
fn put_field(builder: &mut MessageBuilder, name: PairName, field: Span) -> Result<(), AllocError>
    requires name { MayName name }
    requires field { IsWithin (length builder.old.item) field }
    ensures { OnOk result (builder.new ≡ record builder.old {
      put = builder.old.put
          ++ some_pair (name_of name) (unless_nil (span_text builder.old.item field));
    }) }
{
    if is_nil(builder.item(), field) {
        return Ok(());
    }
    builder.put_part(name, field.from, field.to)
}

// Puts HOST: the field, where it isn't nil and the source keeps it, and else the peer.
fn put_host(
    builder: &mut MessageBuilder,
    field: Span,
    peer: &Bytes,
    opts: &ReadOpts,
) -> Result<(), AllocError>
    requires { IsWithin (length builder.old.item) field }
    ensures { OnOk result (builder.new ≡ record builder.old {
      put = builder.old.put ++ (record {
        name = codes "HOST";
        value = host_of opts.now (unless_nil (span_text builder.old.item field)) peer.now;
      }) ∷ [];
    }) }
{
    if opts.keep_hostname && !is_nil(builder.item(), field) {
        return builder.put_part(PairName::Host, field.from, field.to);
    }
    builder.put(PairName::Host, peer.clone()?)
}

// The builder of the message of this header, with room for so many pairs, and none yet.
pub(crate) fn start_message(
    alloc: Global,
    room: usize,
    received: Stamp,
    opts: &ReadOpts,
    front: HeaderFront,
    item: Bytes,
) -> Result<MessageBuilder, AllocError>
    requires pri { front.pri ≤ 191 }
    requires sent { ForSome front.stamp IsValidStamp }
    requires received { IsValidStamp received }
    ensures { IfOk result (λ builder. builder ≡ record {
      pri = front.pri;
      sent = sent_of opts.now front.stamp received;
      received = received;
      item = item;
      put = [];
      tags = [];
    }) }
{
    let sent = opts.sent(front.stamp, received);
    let mut builder = MessageBuilder::of_record(alloc, front.pri, sent, received, item);
    builder.reserve(room)?;
    Ok(builder)
}

// Puts the pairs of the names, and what stands from this place of the item on as MESSAGE, in the order of
// their names.
pub(crate) fn put_names(
    builder: &mut MessageBuilder,
    names: NameSpans,
    peer: &Bytes,
    opts: &ReadOpts,
    from: usize,
    end: usize,
) -> Result<(), AllocError>
    requires names { AreNamesWithin (length builder.old.item) names }
    requires from { (from ≤ end) × (end ≡ length builder.old.item) }
    ensures { OnOk result (builder.new ≡ record builder.old {
      put = put_in_order opts.now peer.now (names_said builder.old.item names)
          (drop from builder.old.item) builder.old.put;
    }) }
{
    put_host(builder, names.host, peer, opts)?;
    builder.put_part(PairName::Message, from, end)?;
    put_field(builder, PairName::MessageId, names.msgid)?;
    put_field(builder, PairName::Pid, names.pid)?;
    put_field(builder, PairName::Program, names.program)?;
    Ok(())
}
