// Records, and what RFC 5424 says of them.
ghost use Rattle.std.specs.Prelude.{◌≤ℤ◌, pos};

use crate::source::{OPTS, PULLED, RECEIVED, has_head, has_pairs};
use bytes::Bytes;
use sg_msg::Message;
use sg_r5424::{R5424Refusal, SdNames, read, records_say_one_message, refused};
use sg_time::Stamp;
use std::alloc::{AllocError, Global};
use std::test::Fail;

// Records, and their PRI, their stamp and its offset, and their pairs. The first four are the examples
// of RFC 5424, 6.5, and the last two have the first stamps of 6.2.3.1.
const RECORDS: &str = "\
<34>1 2003-10-11T22:14:15.003Z mymachine.example.com su - ID47 - \u{feff}'su root' failed for lonvick on /dev/pts/8 => 34 1065910455003000 0|HOST=mymachine.example.com|MESSAGE='su root' failed for lonvick on /dev/pts/8|MSGID=ID47|PROGRAM=su
<165>1 2003-08-24T05:14:15.000003-07:00 192.0.2.1 myproc 8710 - - %% It's time to make the do-nuts. => 165 1061727255000003 -420|HOST=192.0.2.1|MESSAGE=%% It's time to make the do-nuts.|PID=8710|PROGRAM=myproc
<165>1 2003-10-11T22:14:15.003Z mymachine.example.com evntslog - ID47 [exampleSDID@32473 iut=\"3\" eventSource=\"Application\" eventID=\"1011\"] \u{feff}An application event log entry... => 165 1065910455003000 0|.SDATA.exampleSDID@32473.eventID=1011|.SDATA.exampleSDID@32473.eventSource=Application|.SDATA.exampleSDID@32473.iut=3|HOST=mymachine.example.com|MESSAGE=An application event log entry...|MSGID=ID47|PROGRAM=evntslog
<165>1 2003-10-11T22:14:15.003Z mymachine.example.com evntslog - ID47 [exampleSDID@32473 iut=\"3\" eventSource=\"Application\" eventID=\"1011\"][examplePriority@32473 class=\"high\"] => 165 1065910455003000 0|.SDATA.examplePriority@32473.class=high|.SDATA.exampleSDID@32473.eventID=1011|.SDATA.exampleSDID@32473.eventSource=Application|.SDATA.exampleSDID@32473.iut=3|HOST=mymachine.example.com|MESSAGE=|MSGID=ID47|PROGRAM=evntslog
<165>1 2003-10-11T22:14:15.003Z mymachine.example.com evntslog - ID47 [exampleSDID@32473 iut=\"3\" eventSource=\"A\\\"p\\\\p\\]\\x\"] \u{feff}An event => 165 1065910455003000 0|.SDATA.exampleSDID@32473.eventSource=A\"p\\p]\\x|.SDATA.exampleSDID@32473.iut=3|HOST=mymachine.example.com|MESSAGE=An event|MSGID=ID47|PROGRAM=evntslog
<13>1 - - - - - - => 13 1770312741000000 0|HOST=peer|MESSAGE=
<13>1 - - - - - -  => 13 1770312741000000 0|HOST=peer|MESSAGE=
<013>1 - h a p m - x y => 13 1770312741000000 0|HOST=h|MESSAGE=x y|MSGID=m|PID=p|PROGRAM=a
<0>1 - -- --- - - -  x => 0 1770312741000000 0|HOST=--|MESSAGE= x|PROGRAM=---
<191>1 - - - - - - \u{feff} => 191 1770312741000000 0|HOST=peer|MESSAGE=
<13>1 - - - - - - \u{feff}\u{feff}x => 13 1770312741000000 0|HOST=peer|MESSAGE=\u{feff}x
<13>1 - - - - - [a] => 13 1770312741000000 0|.SDATA.a=|HOST=peer|MESSAGE=
<13>1 - - - - - [a][b c=\"d\"] m => 13 1770312741000000 0|.SDATA.a=|.SDATA.b.c=d|HOST=peer|MESSAGE=m
<13>1 - - - - - [a] [b] => 13 1770312741000000 0|.SDATA.a=|HOST=peer|MESSAGE=[b]
<13>1 - - - - - [a b=\"1\" c=\"\" b=\"2\"] => 13 1770312741000000 0|.SDATA.a.b=2|.SDATA.a.c=|HOST=peer|MESSAGE=
<13>1 - - - - - [a b=\"1\"][a b=\"2\"] => 13 1770312741000000 0|.SDATA.a.b=2|HOST=peer|MESSAGE=
<13>1 - - - - - [a.b c.d=\"e\"] => 13 1770312741000000 0|.SDATA.a.b.c.d=e|HOST=peer|MESSAGE=
<13>1 - - - - - [a b=\"\\\\\\\\\"] => 13 1770312741000000 0|.SDATA.a.b=\\\\|HOST=peer|MESSAGE=
<13>1 - - - - - [iiiiiiiiiiiiiiiiiiiiiiiiiiiiiiii nnnnnnnnnnnnnnnnnnnnnnnnnnnnnnnn=\"v\"] => 13 1770312741000000 0|.SDATA.iiiiiiiiiiiiiiiiiiiiiiiiiiiiiiii.nnnnnnnnnnnnnnnnnnnnnnnnnnnnnnnn=v|HOST=peer|MESSAGE=
<13>1 0001-01-01T00:00:00Z - - - - - => 13 -62135596800000000 0|HOST=peer|MESSAGE=
<13>1 9998-12-31T23:59:59.999999-23:59 - - - - - => 13 253370851139999999 -1439|HOST=peer|MESSAGE=
<7>1 1985-04-12T23:20:50.52Z - - - - - => 7 482196050520000 0|HOST=peer|MESSAGE=
<7>1 1985-04-12T19:20:50.52-04:00 - - - - - => 7 482196050520000 -240|HOST=peer|MESSAGE=";

// What isn't of the form.
const REFUSED: &str = "\
<34>
<192>1 - - - - - -
<34>2 - - - - - -
<34>1- - - - - -
34>1 - - - - - -
<34>1 - - - - -
<34>1 - - - - -  
<34>1  - - - - - -
<34>1 - - - - - -x
<34>1 2003-10-11t22:14:15.003Z - - - - -
<34>1 2003-10-11T22:14:15.003z - - - - -
<34>1 2003-08-24T05:14:15.000000003-07:00 - - - - -
<34>1 2003-10-11T22:14:60Z - - - - -
<34>1 2003-10-11T22:14:15 - - - - -
<34>1 - hé - - - -
<34>1 - - aaaaaaaaaaaaaaaaaaaaaaaaaaaaaaaaaaaaaaaaaaaaaaaaa - - -
<34>1 - - - - mmmmmmmmmmmmmmmmmmmmmmmmmmmmmmmmm -
<13>1 - - - - - [
<13>1 - - - - - []
<13>1 - - - - - [ a]
<13>1 - - - - - [a
<13>1 - - - - - [a]x
<13>1 - - - - - [a][
<13>1 - - - - - [a b]
<13>1 - - - - - [a b=c]
<13>1 - - - - - [a b=\"c]\"]
<13>1 - - - - - [a b=\"c\"
<13>1 - - - - - [a b=\"c\\\"]
<13>1 - - - - - [a  b=\"c\"]
<13>1 - - - - - [a b=\"c\" ]
<13>1 - - - - - [a b=\"c\"d=\"e\"]
<13>1 - - - - - [=]
<13>1 - - - - - [iiiiiiiiiiiiiiiiiiiiiiiiiiiiiiiii]";

// The message of an item, with the names that those before it had.
fn read_after(alloc: Global, names: &mut SdNames, item: &[u8]) -> Result<Message, R5424Refusal> {
    let peer = Bytes::from_static(b"peer");
    read(
        alloc,
        names,
        Bytes::copy_from_slice(alloc, item)?,
        PULLED,
        &peer,
        &OPTS,
    )
}

// The message of an item alone.
fn read_row(alloc: Global, item: &[u8]) -> Result<Message, R5424Refusal> {
    let mut names = SdNames::new(alloc);
    read_after(alloc, &mut names, item)
}

// A row's parts.
#[derive(Drop)]
struct Rfc5424Row<'r> {
    item: &'r str,
    pri: &'r str,
    stamp: &'r str,
    pairs: &'r str,
}

fn row_of(line: &str) -> Option<Rfc5424Row<'_>> {
    let Some((item, said)) = line.split_once(" => ") else {
        return None;
    };
    let Some((head, pairs)) = said.split_once('|') else {
        return None;
    };
    match head.split_once(' ') {
        Some((pri, stamp)) => Some(Rfc5424Row {
            item,
            pri,
            stamp,
            pairs,
        }),
        None => None,
    }
}

fn stamp_of(text: &str) -> Option<Stamp> {
    let Some((at, offset)) = text.split_once(' ') else {
        return None;
    };
    let Ok(at) = at.parse::<i64>() else {
        return None;
    };
    match offset.parse::<i16>() {
        Ok(offset) => Some(Stamp { at, offset }),
        Err(_) => None,
    }
}

fn says(message: &Message, row: &Rfc5424Row) -> bool {
    match stamp_of(row.stamp) {
        Some(sent) => has_head(message, row.pri, sent) && has_pairs(message, row.pairs, '|'),
        None => false,
    }
}

// Whether the item of a row is read as the message that it says, behind those before it.
fn holds(alloc: Global, names: &mut SdNames, line: &str) -> bool {
    let Some(row) = row_of(line) else {
        return false;
    };
    match read_after(alloc, names, row.item.as_bytes()) {
        Ok(message) => says(&message, &row),
        Err(_) => false,
    }
}

#[test]
fn records_are_read(rt: HostRuntime) {
    records_say_one_message();
    let mut names = SdNames::new(rt.alloc());
    for row in RECORDS.lines() {
        let mut none = SdNames::new(rt.alloc());
        assert!(rt; holds(rt.alloc(), &mut none, row), "alone {row}");
        assert!(rt; holds(rt.alloc(), &mut names, row), "{row}");
        assert!(rt; holds(rt.alloc(), &mut names, row), "again {row}");
    }
}

// Items with bytes that no line of a text has, and a pair of their messages.
const BYTES: [(&[u8], &[u8], &[u8]); 5] = [
    (b"<13>1 - - - - - - \xef\xbbx", b"MESSAGE", b"\xef\xbbx"),
    (
        b"<13>1 - - - - - [a b=\"[c =\xff\x0a\\n\\\\\"]",
        b".SDATA.a.b",
        b"[c =\xff\x0a\\n\\",
    ),
    (b"<13>1 - - - - - - m\n\0\n", b"MESSAGE", b"m"),
    (b"<13>1 - - - - - -\n", b"MESSAGE", b""),
    (
        b"<13>1 - - - - - [a b=\"c\"] \n\nm \n",
        b"MESSAGE",
        b"\n\nm ",
    ),
];

// Whether the item's message has this pair.
fn has_pair(alloc: Global, item: &[u8], name: &[u8], value: &[u8]) -> bool {
    let Ok(message) = read_row(alloc, item) else {
        return false;
    };
    match message.get(name) {
        Some(found) => found == value,
        None => false,
    }
}

#[test]
fn bytes_are_read(rt: HostRuntime) {
    for (item, name, value) in BYTES {
        assert!(rt; has_pair(rt.alloc(), item, name, value), "{item:?}");
    }
}

// How far a record could be read, or nothing.
fn stops_at(alloc: Global, item: &[u8]) -> Option<usize> {
    match read_row(alloc, item) {
        Err(R5424Refusal::Syntax(place)) => Some(place),
        _ => None,
    }
}

fn brackets(alloc: Global) -> Result<Vec<u8>, AllocError> {
    let mut text = Vec::new(alloc);
    for _ in 0..65_536 {
        text.push(b'[')?;
    }
    Ok(text)
}

fn brackets_stop_at(alloc: Global) -> Option<usize> {
    match brackets(alloc) {
        Ok(text) => stops_at(alloc, &text),
        Err(_) => None,
    }
}

#[test]
fn other_records_are_refused(rt: HostRuntime) {
    for item in REFUSED.lines() {
        assert!(rt; stops_at(rt.alloc(), item.as_bytes()).is_some(), "{item}");
    }
    assert_eq!(rt; stops_at(rt.alloc(), b""), Some(0));
    assert_eq!(rt; brackets_stop_at(rt.alloc()), Some(0));
}

// The message that stands for a refused item.
fn message_instead(alloc: Global, item: &[u8]) -> Result<Message, AllocError> {
    let peer = Bytes::from_static(b"peer");
    refused(
        alloc,
        Bytes::copy_from_slice(alloc, item)?,
        PULLED,
        &peer,
        &OPTS,
    )
}

fn brackets_pri(alloc: Global) -> Result<u8, AllocError> {
    let text = brackets(alloc)?;
    let message = message_instead(alloc, &text)?;
    Ok(message.pri())
}

#[test]
fn refused_records_are_told(rt: HostRuntime) -> Result<(), Fail> {
    assert_eq!(rt; brackets_pri(rt.alloc())?, 43);
    let message = message_instead(rt.alloc(), b"<34>1")?;
    let pairs = "HOST=peer|MESSAGE=Error processing log message: <34>1|PROGRAM=syslog-ng";
    assert!(rt; has_head(&message, "43", RECEIVED) && has_pairs(&message, pairs, '|'));
    Ok(())
}
