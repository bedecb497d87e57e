// From an item to its message.
ghost use Rattle.std.specs.Prelude.{◌≡◌, ◌≤◌, ◌<◌, ◌+◌, ◌^◌, ◌++◌, ◌∷◌, ◌≤ℤ◌, pos, [], true, false, length, take, drop, codes, option_map, is_some, IfOk, OnOk, OnErr, IfSome, MatchOption, ℕ};
ghost use Rattle.std.specs.Option.{ForSome};
ghost use Rattle.sg_time.specs.declared.stamp.Stamp.{Stamp as AStamp};
ghost use Rattle.sg_time.specs.Stamp.{IsValidStamp};
ghost use Rattle.sg_r3164.specs.Options.{sent_of, host_of};
ghost use Rattle.sg_r3164.specs.Places.{part_at, IsPart};
ghost use Rattle.sg_msg.specs.Build.{name_of, MayName, some_pair};
ghost use Rattle.sg_msg.specs.Priority.{priority};
ghost use Rattle.sg_r3164.specs.Parts.{tag, program_of, pid_of, behind_tag};
ghost use Rattle.sg_r3164.specs.Read3164.{is_end, HasBsd, HasIso, FindsStamp, Read3164, ReadsAs, pri_of, behind_pri, behind_stamp, host_behind, behind_host, parts, pairs_behind_stamp};

use crate::ReadOpts;
use crate::parts::{find_tag, host_len, past};
use bytes::Bytes;
use sg_msg::{Message, MessageBuilder, PairName, has_at, priority};
use sg_time::{Stamp, read_bsd, read_iso};
use std::alloc::{AllocError, Global};

// HOST, MESSAGE, PID and PROGRAM.
const PARTS: usize = 4;

// The PRI, and how much of the text it takes.
fn find_pri(text: &[u8], default: u8) -> (u8, usize)
    requires { default ≤ 191 }
    ensures value { result.0 ≡ pri_of (priority text.now) default }
    ensures rest { drop result.1 text.now ≡ behind_pri (priority text.now) text.now }
    ensures range { result.0 ≤ 191 }
    ensures within { result.1 ≤ length text.now }
{
    match priority(text) {
        Some((pri, len)) => (pri, len),
        None => (default, 0),
    }
}

// Whether the text ends at this place, or a space stands there.
fn ends_at(text: &[u8], place: usize) -> bool
    requires { place ≤ length text.now }
    ensures { result ≡ is_end text.now place }
{
    place == text.len() || has_at(text, place, b' ')
}

// The stamp of RFC 3164's form at the front of the text, and its length.
fn bsd_stamp(text: &[u8], received: Stamp) -> Option<(Stamp, usize)>
    requires { IsValidStamp received }
    ensures found { MatchOption result
        ((stamp : AStamp) (len : ℕ) → ¬ HasBsd text.now received stamp len)
        (λ found. HasBsd text.now received found.0 found.1) }
    ensures valid { IfSome result (λ found. IsValidStamp found.0) }
    ensures within { IfSome result (λ found. found.1 ≤ length text.now) }
{
    let Some((stamp, len)) = read_bsd(text, received) else {
        return None;
    };
    if !ends_at(text, len) {
        return None;
    }
    Some((stamp, len))
}

// The stamp of ISO 8601's form at the front of the text, and its length.
fn iso_stamp(text: &[u8]) -> Option<(Stamp, usize)>
    ensures found { MatchOption result
        ((stamp : AStamp) (len : ℕ) → ¬ HasIso text.now stamp len)
        (λ found. HasIso text.now found.0 found.1) }
    ensures valid { IfSome result (λ found. IsValidStamp found.0) }
    ensures within { IfSome result (λ found. found.1 ≤ length text.now) }
{
    let Some((stamp, len)) = read_iso(text) else {
        return None;
    };
    if !ends_at(text, len) {
        return None;
    }
    Some((stamp, len))
}

// The stamp at the front of the text, and its length.
fn find_stamp(text: &[u8], received: Stamp) -> Option<(Stamp, usize)>
    requires { IsValidStamp received }
    ensures found { FindsStamp text.now received result }
    ensures valid { IfSome result (λ found. IsValidStamp found.0) }
    ensures within { IfSome result (λ found. found.1 ≤ length text.now) }
{
    let Some(found) = bsd_stamp(text, received) else {
        return iso_stamp(text);
    };
    Some(found)
}

// How much of the text the stamp takes, with the space behind it.
fn stamp_len(text: &[u8], found: Option<(Stamp, usize)>) -> usize
    requires { ForSome found (λ found. found.1 ≤ length text.now) }
    ensures rest { drop result text.now ≡ behind_stamp found text.now }
    ensures within { result ≤ length text.now }
{
    match found {
        Some((_, len)) => past(text, len, b' '),
        None => 0,
    }
}

// Where the host behind a stamp stands, and the place behind it.
fn find_host(text: &[u8], at: usize, stamped: bool) -> (Option<(usize, usize)>, usize)
    requires { at ≤ length text.now }
    ensures host { part_at text.now result.0
        ≡ option_map (λ len. take len (drop at text.now)) (host_behind stamped (drop at text.now)) }
    ensures rest { drop result.1 text.now
        ≡ behind_host (host_behind stamped (drop at text.now)) (drop at text.now) }
    ensures within { IsPart text.now result.0 × (result.1 ≤ length text.now) }
{
    if !stamped {
        return (None, at);
    }
    match host_len(&text[at..]) {
        Some(len) => (Some((at, at + len)), at + len + 1),
        None => (None, at),
    }
}

/// Where what a tag names stands, and the place behind the tag.
#[derive(Clone, Copy, Drop)]
pub(crate) struct Tagged {
    pub(crate) program: Option<(usize, usize)>,
    pub(crate) pid: Option<(usize, usize)>,
    pub(crate) said: usize,
}

fn pid_part(from: usize, pid: Option<usize>) -> Option<(usize, usize)>
    requires { ForSome pid (λ len. from + len < 2 ^ 63) }
    ensures { result ≡ option_map (λ len. (from, from + len)) pid }
{
    match pid {
        Some(len) => Some((from, from + len)),
        None => None,
    }
}

// What the tag at this place names.
fn find_tagged(text: &[u8], at: usize) -> Tagged
    requires { at ≤ length text.now }
    ensures program { part_at text.now result.program
        ≡ program_of (tag (drop at text.now)) (drop at text.now) }
    ensures pid { part_at text.now result.pid
        ≡ pid_of (tag (drop at text.now)) (drop at text.now) }
    ensures rest { drop result.said text.now
        ≡ behind_tag (tag (drop at text.now)) (drop at text.now) }
    ensures within { IsPart text.now result.program × IsPart text.now result.pid
        × (result.said ≤ length text.now) }
{
    let Some(tag) = find_tag(&text[at..]) else {
        return Tagged {
            program: None,
            pid: None,
            said: at,
        };
    };
    Tagged {
        program: Some((at, at + tag.program)),
        pid: pid_part(at + tag.program + 1, tag.pid),
        said: at + tag.len,
    }
}

// Puts the part of the item as HOST, or the peer.
fn put_host(
    builder: &mut MessageBuilder,
    host: Option<(usize, usize)>,
    peer: &Bytes,
    opts: &ReadOpts,
) -> Result<(), AllocError>
    requires { IsPart builder.old.item host }
    ensures { OnOk result (builder.new ≡ record builder.old {
      put = builder.old.put ++ (record {
        name = codes "HOST";
        value = host_of opts.now (part_at builder.old.item host) peer.now;
      }) ∷ [];
    }) }
{
    match host {
        Some((from, to)) if opts.keep_hostname => builder.put_part(PairName::Host, from, to)?,
        _ => builder.put(PairName::Host, peer.clone()?)?,
    }
    Ok(())
}

// Puts a part of the item, where there is one.
fn put_range(
    builder: &mut MessageBuilder,
    name: PairName,
    range: Option<(usize, usize)>,
) -> Result<(), AllocError>
    requires name { MayName name }
    requires within { IsPart builder.old.item range }
    ensures { OnOk result (builder.new ≡ record builder.old {
      put = builder.old.put ++ some_pair (name_of name) (part_at builder.old.item range);
    }) }
{
    match range {
        Some((from, to)) => builder.put_part(name, from, to)?,
        None => {}
    }
    Ok(())
}

// Puts the pairs in the order of their names, in which they stay. MESSAGE is what stands behind the
// tag.
fn put_parts(
    builder: &mut MessageBuilder,
    host: Option<(usize, usize)>,
    tagged: Tagged,
    end: usize,
    peer: &Bytes,
    opts: &ReadOpts,
) -> Result<(), AllocError>
    requires put { builder.old.put ≡ [] }
    requires host { IsPart builder.old.item host }
    requires program { IsPart builder.old.item tagged.program }
    requires pid { IsPart builder.old.item tagged.pid }
    requires said { (tagged.said ≤ end) × (end ≡ length builder.old.item) }
    ensures { OnOk result (builder.new ≡ record builder.old {
      put = parts (host_of opts.now (part_at builder.old.item host) peer.now)
          (part_at builder.old.item tagged.program) (part_at builder.old.item tagged.pid)
          (drop tagged.said builder.old.item);
    }) }
{
    builder.reserve(PARTS)?;
    put_host(builder, host, peer, opts)?;
    builder.put_part(PairName::Message, tagged.said, end)?;
    put_range(builder, PairName::Pid, tagged.pid)?;
    put_range(builder, PairName::Program, tagged.program)?;
    Ok(())
}

fn sent(opts: &ReadOpts, found: Option<(Stamp, usize)>, received: Stamp) -> Stamp
    requires received { IsValidStamp received }
    requires found { ForSome found (λ found. IsValidStamp found.0) }
    ensures value { result ≡ sent_of opts.now (option_map (λ found. found.0) found) received }
    ensures valid { IsValidStamp result }
{
    match found {
        Some((stamp, _)) => opts.sent(Some(stamp), received),
        None => opts.sent(None, received),
    }
}

fn read_parsed(
    alloc: Global,
    item: Bytes,
    received: Stamp,
    peer: &Bytes,
    opts: &ReadOpts,
) -> Result<Message, AllocError>
    requires { IsValidStamp received }
    ensures { IfOk result (ReadsAs true opts.now received peer.now item) }
{
    let text = item.as_slice();
    let end = text.len();
    let (pri, at) = find_pri(text, opts.pri);
    let found = find_stamp(&text[at..], received);
    let sent = sent(opts, found, received);
    let at = at + stamp_len(&text[at..], found);
    let (host, behind) = find_host(text, at, found.is_some());
    let tagged = find_tagged(text, behind);
    let mut builder = MessageBuilder::of_record(alloc, pri, sent, received, item);
    put_parts(&mut builder, host, tagged, end, peer, opts)?;
    builder.message()
}

fn read_unparsed(
    alloc: Global,
    item: Bytes,
    received: Stamp,
    peer: &Bytes,
    opts: &ReadOpts,
) -> Result<Message, AllocError>
    requires { IsValidStamp received }
    ensures { IfOk result (ReadsAs false opts.now received peer.now item) }
{
    let end = item.len();
    let tagged = Tagged {
        program: None,
        pid: None,
        said: 0,
    };
    let mut builder = MessageBuilder::of_record(alloc, opts.pri, received, received, item);
    put_parts(&mut builder, None, tagged, end, peer, opts)?;
    builder.message()
}

/// The message of a record: every item has one. Values share the memory of the item and of the
/// peer's name.
///
/// `at` is the moment of the pull, in microseconds since 1970-01-01T00:00:00Z, 0 to
/// 250,000,000,000,000,000. HOST, PROGRAM, PID and MESSAGE are set; PROGRAM and PID only where the
/// record has a tag.
pub fn read(
    alloc: Global,
    item: Bytes,
    at: i64,
    peer: &Bytes,
    opts: &ReadOpts,
) -> Result<Message, AllocError>
    requires { (pos 0 ≤ℤ at) × (at ≤ℤ pos 250_000_000_000_000_000) }
    ensures { IfOk result (Read3164 item at peer.now opts.now) }
{
    let received = opts.received(at);
    if opts.parse {
        read_parsed(alloc, item, received, peer, opts)
    } else {
        read_unparsed(alloc, item, received, peer, opts)
    }
}
