// What the tests of readers say of the source, and how they look at messages.
use sg_msg::Message;
use sg_r3164::ReadOpts;
use sg_time::Stamp;

// 2026-02-05T17:32:21Z
pub(crate) const PULLED: i64 = 1_770_312_741_000_000;

pub(crate) const RECEIVED: Stamp = Stamp {
    at: PULLED,
    offset: 0,
};

pub(crate) const OPTS: ReadOpts = ReadOpts {
    pri: 13,
    zone: 0,
    keep_hostname: true,
    keep_timestamp: true,
    parse: true,
};

// Whether the message has this pair at this place.
fn has_pair_at(message: &Message, place: usize, pair: &str) -> bool {
    let Some((name, value)) = pair.split_once('=') else {
        return false;
    };
    match message.pair(place) {
        Some(found) => found.0 == name.as_bytes() && found.1 == value.as_bytes(),
        None => false,
    }
}

// Whether these are all the pairs, with this byte between them.
pub(crate) fn has_pairs(message: &Message, pairs: &str, between: char) -> bool {
    let mut count = 0;
    for pair in pairs.split(between) {
        if !has_pair_at(message, count, pair) {
            return false;
        }
        count = count.saturating_add(1);
    }
    message.pair(count).is_none()
}

// Whether the message has this PRI, was sent then, and was pulled in at PULLED.
pub(crate) fn has_head(message: &Message, pri: &str, sent: Stamp) -> bool {
    match pri.parse::<u8>() {
        Ok(pri) => {
            message.pri() == pri && message.sent() == sent && message.received() == RECEIVED
        }
        Err(_) => false,
    }
}

// The value of the name, or nothing.
pub(crate) fn value<'a>(message: &'a Message, name: &[u8]) -> &'a [u8] {
    match message.get(name) {
        Some(value) => value,
        None => b"",
    }
}
