// Lines of RFC 5424.
use sg_msg::Message;
use sg_r5424::{data_is_said_again, lines_are_records, write};
use sg_template::Env;
use sg_time::Stamp;
use std::alloc::{AllocError, Global};

const EPOCH: Stamp = Stamp { at: 0, offset: 0 };

const SENT: Stamp = Stamp {
    at: 1_065_910_455_003_000,
    offset: 0,
};

const HEAD: &[u8; 44] = b"before <165>1 2003-10-11T22:14:15.003+00:00 ";

const ENV: Env = Env {
    zone: None,
    digits: 3,
    iso: false,
    old: None,
};

// Pairs, and what RFC 5424 has behind the stamp. The first row is of its second example, with another host.
const ROWS: &str = "\
HOST=h|PROGRAM=evntslog|MSGID=ID47|MESSAGE=An event => h evntslog - ID47 - An event
OTHER=x => - - - - -
HOST=a b|PROGRAM=caf\u{e9}|PID=7|MESSAGE= m => a_b caf__ 7 - -  m
MSGID=an id of more than 32 bytes, so cut => - - - an_id_of_more_than_32_bytes,_so_ -
PROGRAM=ppppppppppppppppppppppppppppppppppppppppppppppppp => - pppppppppppppppppppppppppppppppppppppppppppppppp - - -
.SDATA.a= => - - - - [a]
.SDATA.b.c=3|.SDATA.a.c=2|.SDATA.a.b=1|MESSAGE=m => - - - - [a b=\"1\" c=\"2\"][b c=\"3\"] m
.SDATA.a.b=q\"]\\x => - - - - [a b=\"q\\\"\\]\\\\x\"]
.SDATA.a b.c=1 => - - - - -
.SDATA.a.b.c=1 => - - - - [a b.c=\"1\"]
.SDATA.x@1.b.c=1|.SDATA.x@1.2.b=3 => - - - - [x@1.2 b=\"3\"][x@1 b.c=\"1\"]
.SDATA.a.b@1.2= => - - - - [a.b@1.2]
.SDATA.x@1..c=2 => - - - - [x@1 .c=\"2\"]
.SDATA.x@1.=2 => - - - - -
.SDATA.x@1.1a=v => - - - - [x@1.1a]
.SDATA.a.b@c=v => - - - - [a.b@c]
.SDATA.a.b@c.d=v => - - - - [a.b@c d=\"v\"]
.SDATA.x@1=|.SDATA.x@1.p=v => - - - - [x@1 p=\"v\"]";

fn set(message: &mut Message, name: &[u8], value: &[u8]) -> bool {
    if name.is_empty() || name.len() > 255 {
        return false;
    }
    message.set(name, value).is_ok()
}

// Sets this pair. Says whether it could.
fn set_pair(message: &mut Message, pair: &str) -> bool {
    match pair.split_once('=') {
        Some((name, value)) => set(message, name.as_bytes(), value.as_bytes()),
        None => false,
    }
}

// Sets these pairs. Says whether it could.
fn fill(message: &mut Message, pairs: &str) -> bool {
    for pair in pairs.split('|') {
        if !set_pair(message, pair) {
            return false;
        }
    }
    true
}

fn filled(alloc: Global, pairs: &str) -> Option<Message> {
    let Ok(mut message) = Message::new(alloc, 165, SENT, EPOCH) else {
        return None;
    };
    if fill(&mut message, pairs) {
        Some(message)
    } else {
        None
    }
}

fn append(message: &Message, out: &mut Vec<u8>) -> Result<(), AllocError> {
    out.extend_from_slice(b"before ")?;
    write(message, &ENV, out)
}

// Whether the line of these pairs ends so.
fn ends(alloc: Global, pairs: &str, behind: &str) -> bool {
    let Some(message) = filled(alloc, pairs) else {
        return false;
    };
    let mut out = Vec::new(alloc);
    append(&message, &mut out).is_ok()
        && out.as_slice().strip_prefix(HEAD.as_slice()) == Some(behind.as_bytes())
}

fn holds(alloc: Global, row: &str) -> bool {
    match row.split_once(" => ") {
        Some((pairs, behind)) => ends(alloc, pairs, behind),
        None => false,
    }
}

#[test]
fn lines(rt: HostRuntime) {
    lines_are_records();
    data_is_said_again();
    for row in ROWS.lines() {
        assert!(rt; holds(rt.alloc(), row), "{row}");
    }
}
