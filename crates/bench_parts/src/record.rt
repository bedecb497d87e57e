// Records that are read, and the patterns that are looked for in them.
use bytes::Bytes;
use sg_device::Name;
use sg_lex::Line;
use sg_msg::Message;
use sg_pattern::{Flags, Kind, PatternText};
use sg_r3164::ReadOpts;
use std::alloc::{AllocError, Global};

pub(crate) const OPTS: ReadOpts = ReadOpts {
    pri: 13,
    zone: 0,
    keep_hostname: true,
    keep_timestamp: true,
    parse: true,
};

pub(crate) const LINE: Line = Line {
    file: 0,
    line: 1,
    at: 0,
};

/// A record of 100 bytes.
pub(crate) const RECORD: &[u8] =
    b"<12>Oct 11 22:14:15 host app[1234]: request 887766 of user alice timed out after 30000 milliseconds.";

// A record whose MESSAGE has 100 bytes.
const LONG: &[u8] =
    b"<13>Oct 11 22:14:15 host app[1234]: 2026-01-01 12:00:00 host app[1234]: request 887766 of user alice timed out after 30000 milliseconds.";

/// A message with HOST, PROGRAM, PID and a MESSAGE of 100 bytes.
pub(crate) fn message(alloc: Global) -> Result<Message, AllocError> {
    let item = Bytes::copy_from_slice(alloc, LONG)?;
    let peer = Bytes::copy_from_slice(alloc, b"peer")?;
    sg_r3164::read(alloc, item, 0, &peer, &OPTS)
}

/// A pattern that is found anywhere.
pub(crate) fn pattern(alloc: Global, kind: Kind, text: &[u8]) -> Result<PatternText, AllocError> {
    Ok(PatternText {
        kind,
        text: Name::new(alloc, text)?,
        flags: Flags {
            ignore_case: false,
            prefix: false,
            substring: true,
            global: false,
        },
        line: LINE,
    })
}
