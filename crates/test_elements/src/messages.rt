// Messages as the tables write them.
use crate::text::bytes_of;
use sg_msg::Message;
use sg_time::Stamp;
use std::alloc::{AllocError, Global};

const SENT: Stamp = Stamp {
    at: 1_500_000,
    offset: 60,
};

const RECEIVED: Stamp = Stamp {
    at: 2_000_000,
    offset: 0,
};

// Each character of this text is the byte of that number. A message: its PRI, its pairs, and its tags behind
// `#`.
const MESSAGES: &str = "\
38;HOST=web1;MESSAGE=Failed for root from 10.0.0.1;PID=42;PROGRAM=sshd
13;a=1;ab=2;b=3
13;MESSAGE=abc
13;MESSAGE=\u{ff}a\u{fe}\u{ff}
0;
13;MESSAGE=x;#red;#blue
165;.SDATA.id@1.event=7;.SDATA.id@1.user=Ann;.SDATA.z@1.q=;MESSAGE=m
13;MESSAGE=;k=AbAB aB
";

// Sets this pair. Says whether it could.
pub(crate) fn set(message: &mut Message, name: &[u8], value: &[u8]) -> bool {
    if name.is_empty() || name.len() > 255 {
        return false;
    }
    message.set(name, value).is_ok()
}

// A pair more.
fn put_pair(alloc: Global, message: &mut Message, name: &str, value: &str) -> bool {
    match bytes_of(alloc, value) {
        Ok(value) => set(message, name.as_bytes(), &value),
        Err(_) => false,
    }
}

// A pair or a tag more.
fn put(alloc: Global, message: &mut Message, item: &str) -> bool {
    if let Some(tag) = item.strip_prefix('#') {
        return message.set_tag(tag.as_bytes()).is_ok();
    }
    match item.split_once('=') {
        Some((name, value)) => put_pair(alloc, message, name, value),
        None => false,
    }
}

// The pairs and tags of a row more.
fn put_all(alloc: Global, message: &mut Message, items: &str) -> bool {
    if items.is_empty() {
        return true;
    }
    for item in items.split(';') {
        if !put(alloc, message, item) {
            return false;
        }
    }
    true
}

pub(crate) fn message_without_pairs(alloc: Global, pri: u8) -> Option<Message> {
    if pri > 191 {
        return None;
    }
    Message::new(alloc, pri, SENT, RECEIVED).ok()
}

fn message_of(alloc: Global, row: &str) -> Option<Message> {
    let Some((pri, items)) = row.split_once(';') else {
        return None;
    };
    let Ok(pri) = pri.parse::<u8>() else {
        return None;
    };
    let Some(mut message) = message_without_pairs(alloc, pri) else {
        return None;
    };
    if put_all(alloc, &mut message, items) {
        Some(message)
    } else {
        None
    }
}

// The message of this place.
pub(crate) fn message_at(alloc: Global, place: &str) -> Option<Message> {
    let Ok(place) = place.parse::<usize>() else {
        return None;
    };
    match MESSAGES.lines().nth(place) {
        Some(row) => message_of(alloc, row),
        None => None,
    }
}

// Puts the pair of this place behind the text, as the table writes it.
fn write_pair(message: &Message, place: usize, text: &mut Vec<u8>) -> Result<(), AllocError> {
    let Some((name, value)) = message.pair(place) else {
        return Ok(());
    };
    text.extend_from_slice(name)?;
    text.extend_from_slice(b"=")?;
    text.extend_from_slice(value)?;
    text.extend_from_slice(b";")
}

// Puts the tag of this place behind the text.
fn write_tag(message: &Message, place: usize, text: &mut Vec<u8>) -> Result<(), AllocError> {
    let Some(tag) = message.tag(place) else {
        return Ok(());
    };
    text.extend_from_slice(b"#")?;
    text.extend_from_slice(tag)?;
    text.extend_from_slice(b";")
}

fn write_pairs(message: &Message, text: &mut Vec<u8>) -> Result<(), AllocError> {
    for place in 0..message.pair_count() {
        write_pair(message, place, text)?;
    }
    Ok(())
}

// At most nine tags.
fn write_tags(message: &Message, text: &mut Vec<u8>) -> Result<(), AllocError> {
    for place in 0..9 {
        write_tag(message, place, text)?;
    }
    Ok(())
}

// The pairs and the tags, as the table writes them.
pub(crate) fn written(alloc: Global, message: &Message) -> Result<Vec<u8>, AllocError> {
    let mut text = Vec::new(alloc);
    write_pairs(message, &mut text)?;
    write_tags(message, &mut text)?;
    text.pop();
    Ok(text)
}
