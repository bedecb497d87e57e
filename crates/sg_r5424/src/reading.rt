// From a record to its message.
ghost use Rattle.std.specs.Prelude.{◌≡◌, ◌≤◌, ◌≤ℤ◌, ◌++◌, [], ◌∷◌, pos, List, ℕ, codes, length, drop, IfOk, IfSome, OnOk, MatchOption};
ghost use Rattle.std.specs.List.{suffix_len};
ghost use Rattle.sg_time.specs.Stamp.{IsValidStamp};
ghost use Rattle.sg_msg.specs.Message.{with_all};
ghost use Rattle.sg_r5424.specs.Grammar.{IsMsgPart};
ghost use Rattle.sg_r5424.specs.Spans.{names_said, AreNamesWithin, EndsItem};
ghost use Rattle.sg_r5424.specs.Is5424.{is_end_byte, without_end, name_pairs, message_pair, Behind, ReadsSyslogMsg, Answers5424, TryReads, refusal, refusal_pairs};

use crate::elements::take_data;
use crate::header::{NameSpans, put_names, start_message, take_front, take_names};
use crate::{R5424Refusal, SdNames};
use bytes::Bytes;
use sg_msg::{Message, MessageBuilder, PairName};
use sg_r3164::ReadOpts;
use sg_time::Stamp;
use std::alloc::{AllocError, Global};

// HOST, PROGRAM, PID, MSGID and MESSAGE.
const HEADER_PAIRS: usize = 5;

fn is_end_byte(byte: u8) -> bool
    ensures { result ≡ is_end_byte byte }
{
    byte == b'\n' || byte == 0
}

// How many LF and NUL bytes stand at the end.
fn end_length(text: &[u8]) -> usize
    ensures value { result ≡ suffix_len is_end_byte text.now }
    ensures within { result ≤ length text.now }
{
    text.iter()
        .rev()
        .take_while(|byte| is_end_byte(**byte))
        .count()
}

fn drop_end(text: &mut Bytes)
    ensures { text.new ≡ without_end text.old }
{
    let end = end_length(text.as_slice());
    let len = text.len();
    text.truncate(len - end);
}

// Where what MSG says begins, where a text is at its end or goes on with it.
fn message_at(text: &[u8]) -> Option<usize>
    ensures said { MatchOption result ((message : List ℕ) → ¬ IsMsgPart text.now message)
        (λ at. IsMsgPart text.now (drop at text.now)) }
    ensures within { IfSome result (λ at. at ≤ length text.now) }
{
    match text {
        [] => Some(0),
        [b' ', 0xef, 0xbb, 0xbf, ..] => Some(4),
        [b' ', ..] => Some(1),
        _ => None,
    }
}

// Reads what stands behind the header, and puts the pairs of the header behind those of structured data.
fn read_behind(
    alloc: Global,
    pair_names: &mut SdNames,
    mut builder: MessageBuilder,
    text: &mut Bytes,
    end: usize,
    names: NameSpans,
    peer: &Bytes,
    opts: &ReadOpts,
) -> Result<Option<Message>, AllocError>
    requires ends { EndsItem builder.item text.old × (length builder.item ≡ end) }
    requires none { builder.put ≡ [] }
    requires names { AreNamesWithin end names }
    ensures { TryReads (Behind (record builder {
      put = name_pairs opts.now peer.now (names_said builder.item names);
    }) text.old) text.old text.new result }
{
    if !take_data(alloc, pair_names, &mut builder, text, end)? {
        return Ok(None);
    }
    let Some(at) = message_at(text.as_slice()) else {
        return Ok(None);
    };
    let from = end - text.len() + at;
    put_names(&mut builder, names, peer, opts, from, end)?;
    let message = builder.message()?;
    Ok(Some(message))
}

fn read_record(
    alloc: Global,
    pair_names: &mut SdNames,
    text: &mut Bytes,
    received: Stamp,
    peer: &Bytes,
    opts: &ReadOpts,
) -> Result<Option<Message>, AllocError>
    requires { IsValidStamp received }
    ensures { TryReads (ReadsSyslogMsg received peer.now opts.now text.old) text.old text.new
        result }
{
    let item = text.clone()?;
    let end = item.len();
    let Some(front) = take_front(text) else {
        return Ok(None);
    };
    let Some(names) = take_names(text, end) else {
        return Ok(None);
    };
    let room = HEADER_PAIRS + pair_names.restart();
    let builder = start_message(alloc, room, received, opts, front, item)?;
    read_behind(alloc, pair_names, builder, text, end, names, peer, opts)
}

/// The message of a record of RFC 5424. `Syntax` where the record isn't of that form. LF and NUL bytes
/// at its end belong to no field. Values that stand in the item share its memory; those of parameters
/// that are written with backslashes are copied. Names share that of the records before.
///
/// `at` is the moment of the pull, in microseconds since 1970-01-01T00:00:00Z, 0 to
/// 250,000,000,000,000,000. HOST and MESSAGE are set, PROGRAM, PID and MSGID where they aren't nil,
/// `.SDATA.ID.NAME` for each parameter, the last of one name, and `.SDATA.ID` for an element without
/// parameters.
pub fn read(
    alloc: Global,
    pair_names: &mut SdNames,
    item: Bytes,
    at: i64,
    peer: &Bytes,
    opts: &ReadOpts,
) -> Result<Message, R5424Refusal>
    requires { (pos 0 ≤ℤ at) × (at ≤ℤ pos 250_000_000_000_000_000) }
    ensures { Answers5424 item at peer.now opts.now result }
{
    let received = opts.received(at);
    let mut text = item;
    drop_end(&mut text);
    let len = text.len();
    match read_record(alloc, pair_names, &mut text, received, peer, opts)? {
        Some(message) => Ok(message),
        None => Err(R5424Refusal::Syntax(len - text.len())),
    }
}

// What is said of a record that has no message.
fn refusal_text(alloc: Global, item: &[u8]) -> Result<Bytes, AllocError>
    ensures { IfOk result (λ text. text ≡ codes "Error processing log message: " ++ item.now) }
{
    let mut text = Vec::with_capacity(alloc, item.len().saturating_add(30))?;
    text.extend_from_slice(b"Error processing log message: ")?;
    text.extend_from_slice(item)?;
    Ok(Bytes::from_vec(text)?)
}

// Gives a builder the pairs of a record that has no message.
fn put_refusal(builder: &mut MessageBuilder, host: Bytes, text: Bytes) -> Result<(), AllocError>
    ensures { OnOk result (builder.new ≡ record builder.old {
      put = builder.old.put ++ (record { name = codes "HOST"; value = host }) ∷ []
          ++ (record { name = codes "PROGRAM"; value = codes "syslog-ng" }) ∷ []
          ++ message_pair text ∷ [];
    }) }
{
    builder.put(PairName::Host, host)?;
    builder.put(PairName::Program, Bytes::from_static(b"syslog-ng"))?;
    builder.put(PairName::Message, text)
}

// What `refused` answers, at its moment.
fn refused_at(
    alloc: Global,
    item: &[u8],
    received: Stamp,
    peer: &Bytes,
) -> Result<Message, AllocError>
    requires { IsValidStamp received }
    ensures { IfOk result (λ message. message ≡ record {
      pri = 43;
      sent = received;
      received = received;
      pairs = with_all (refusal_pairs item.now peer.now) [];
      tags = [];
    }) }
{
    let host = peer.clone()?;
    let text = refusal_text(alloc, item)?;
    let mut builder = MessageBuilder::new(alloc, 43, received, received);
    put_refusal(&mut builder, host, text)?;
    builder.message()
}

/// What a record that has no message becomes: PRI 43, which is syslog's own facility and severity
/// err, both stamps the received one, HOST the peer, PROGRAM `syslog-ng`, and MESSAGE
/// `Error processing log message: ` with the item.
pub fn refused(
    alloc: Global,
    item: Bytes,
    at: i64,
    peer: &Bytes,
    opts: &ReadOpts,
) -> Result<Message, AllocError>
    requires { (pos 0 ≤ℤ at) × (at ≤ℤ pos 250_000_000_000_000_000) }
    ensures { IfOk result (λ message. message ≡ refusal item at peer.now opts.now) }
{
    refused_at(alloc, item.as_slice(), opts.received(at), peer)
}
