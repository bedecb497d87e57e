// Messages from end to end, and the table of macros.
use bytes::Bytes;
use sg_msg::{Message, MessageBuilder, MsgRefusal, PairName, is_hard};
use sg_time::Stamp;
use std::alloc::{AllocError, Global};
use std::test::Fail;

const STAMP: Stamp = Stamp { at: 0, offset: 0 };

// One name a row, and whether it is a macro (syslog-ng's guide, "Macros of syslog-ng").
const NAMES: [(&[u8], bool); 14] = [
    (b"PRI", true),
    (b"SEVERITY", true),
    (b"TAGS", true),
    (b"MSGHDR", true),
    (b"SDATA", true),
    (b"_", true),
    (b"DATE", true),
    (b"S_UNIXTIME", true),
    (b"R_TZOFFSET", true),
    (b"S_PRI", false),
    (b"MESSAGE", false),
    (b"MSG", false),
    (b"FULLHOST", false),
    (b"date", false),
];

#[test]
fn macros_are_hard(rt: HostRuntime) {
    for (name, hard) in NAMES {
        assert_eq!(rt; is_hard(name), hard);
    }
}

// Whether this is the pair of this place, and the value of its name.
fn has_pair(message: &Message, place: usize, name: &[u8], value: &[u8]) -> bool {
    let (Some(pair), Some(found)) = (message.pair(place), message.get(name)) else {
        return false;
    };
    pair.0 == name && pair.1 == value && found == value
}

// Whether these are all the pairs.
fn has_pairs(message: &Message, pairs: &[(&[u8], &[u8])]) -> bool {
    for (place, (name, value)) in pairs.iter().enumerate() {
        if !has_pair(message, place, name, value) {
            return false;
        }
    }
    message.pair_count() == pairs.len() && message.pair(pairs.len()).is_none()
}

fn has_tag(message: &Message, place: usize, tag: &[u8]) -> bool {
    match message.tag(place) {
        Some(found) => found == tag,
        None => false,
    }
}

// Whether these are all the tags.
fn has_tags(message: &Message, tags: &[&[u8]]) -> bool {
    for (place, tag) in tags.iter().enumerate() {
        if !has_tag(message, place, tag) {
            return false;
        }
    }
    message.tag(tags.len()).is_none()
}

// Whether these are all the pairs and all the tags.
fn says(message: &Message, pairs: &[(&[u8], &[u8])], tags: &[&[u8]]) -> bool {
    has_pairs(message, pairs) && has_tags(message, tags)
}

fn put_first(builder: &mut MessageBuilder) -> Result<(), AllocError> {
    builder.put(PairName::Program, Bytes::from_static(b"p"))?;
    builder.put(PairName::Host, Bytes::from_static(b"first"))?;
    builder.put(PairName::Pid, Bytes::from_static(b"7"))?;
    builder.put(PairName::MessageId, Bytes::from_static(b"id"))
}

fn put_then(builder: &mut MessageBuilder) -> Result<(), AllocError> {
    builder.put_some(PairName::Message, None)?;
    builder.put(PairName::Message, Bytes::from_static(b"m"))?;
    builder.put(PairName::Host, Bytes::from_static(b"h"))?;
    builder.set_tag(b"t")
}

// Puts in an order of their own: the later of two of one name counts.
fn built(alloc: Global) -> Result<Message, AllocError> {
    let mut builder = MessageBuilder::new(alloc, 13, STAMP, STAMP);
    put_first(&mut builder)?;
    put_then(&mut builder)?;
    builder.message()
}

const BUILT: [(&[u8], &[u8]); 5] = [
    (b"HOST", b"h"),
    (b"MESSAGE", b"m"),
    (b"MSGID", b"id"),
    (b"PID", b"7"),
    (b"PROGRAM", b"p"),
];

#[test]
fn a_builder_puts_in_order(rt: HostRuntime) -> Result<(), Fail> {
    let message = built(rt.alloc())?;
    assert!(rt; says(&message, &BUILT, &[b"t"]));
    Ok(())
}

fn first(alloc: Global) -> Result<Message, AllocError> {
    let mut message = Message::new(alloc, 13, STAMP, STAMP)?;
    message.set(b"MESSAGE", b"one").ok();
    message.set_tag(b"first")?;
    Ok(message)
}

// Another handle of the message, changed.
fn changed(message: &Message) -> Result<Message, AllocError> {
    let mut copy = message.share()?;
    copy.set(b"MESSAGE", b"two").ok();
    copy.set_bytes(b"HOST", Bytes::from_static(b"h")).ok();
    copy.clear_tag(b"first")?;
    Ok(copy)
}

// Whether a change that is refused leaves the message as it was.
fn refuses(message: &mut Message) -> bool {
    let refused = message.set(b"PRI", b"5");
    refused == Err(MsgRefusal::HardMacro) && says(message, &[(b"MESSAGE", b"one")], &[b"first"])
}

// Whether the message has these two pairs, and only the one without the other.
fn unsets(message: &mut Message) -> bool {
    let both = says(message, &[(b"HOST", b"h"), (b"MESSAGE", b"two")], &[]);
    message.unset(b"HOST").ok();
    both && says(message, &[(b"MESSAGE", b"two")], &[])
}

// A change of one handle leaves the other as it was, and a refusal leaves all as it was.
#[test]
fn handles_keep_their_own(rt: HostRuntime) -> Result<(), Fail> {
    let mut message = first(rt.alloc())?;
    let mut copy = changed(&message)?;
    assert!(rt; refuses(&mut message));
    assert!(rt; unsets(&mut copy));
    assert_eq!(rt;
        (copy.pri(), copy.sent(), copy.received()),
        (13, STAMP, STAMP)
    );
    Ok(())
}
