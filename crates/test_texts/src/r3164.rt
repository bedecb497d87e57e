// Records, and the messages that RFC 3164 and syslog-ng's guide say they are.
ghost use Rattle.std.specs.Prelude.{◌≤ℤ◌, pos};

use crate::source::{OPTS, PULLED, has_head, has_pairs, value};
use bytes::Bytes;
use sg_msg::Message;
use sg_r3164::{ReadOpts, read, readings_are_one};
use sg_time::Stamp;
use std::alloc::{AllocError, Global};

// Items, and their PRI, their stamp, and their pairs with tabs between. Without a host of its own an item
// has its peer's. The first four are examples of RFC 3164, section 5.4; the last fifty are what real
// devices send, each read otherwise by syslog-ng where docs/MIGRATION.md says so.
const ROWS: &str = "\
<34>Oct 11 22:14:15 mymachine su: 'su root' failed for lonvick on /dev/pts/8 => 34 1791756855000000\tHOST=mymachine\tMESSAGE='su root' failed for lonvick on /dev/pts/8\tPROGRAM=su
Use the BFG! => 13 1770312741000000\tHOST=peer\tMESSAGE=Use the BFG!
<165>Aug 24 05:34:00 CST 1987 mymachine myproc[10]: %% It's time to make the do-nuts. => 165 1787549640000000\tHOST=CST\tMESSAGE=1987 mymachine myproc[10]: %% It's time to make the do-nuts.
<0>1990 Oct 22 10:52:01 TZ-6 scapegoat.dmz.example.org 10.1.2.3 sched[0]: That's All Folks! => 0 1770312741000000\tHOST=peer\tMESSAGE=1990 Oct 22 10:52:01 TZ-6 scapegoat.dmz.example.org 10.1.2.3 sched[0]: That's All Folks!
<13>Feb  5 17:32:18 10.0.0.99 Use the BFG! => 13 1770312738000000\tHOST=10.0.0.99\tMESSAGE=Use the BFG!
<191>Feb  5 17:32:18 h p: m => 191 1770312738000000\tHOST=h\tMESSAGE=m\tPROGRAM=p
<192>Feb  5 17:32:18 h p: m => 13 1770312741000000\tHOST=peer\tMESSAGE=<192>Feb  5 17:32:18 h p: m
<007>p: m => 7 1770312741000000\tHOST=peer\tMESSAGE=m\tPROGRAM=p
<1234>x => 13 1770312741000000\tHOST=peer\tMESSAGE=<1234>x
<>x => 13 1770312741000000\tHOST=peer\tMESSAGE=<>x
<13 => 13 1770312741000000\tHOST=peer\tMESSAGE=<13
<5a>x => 13 1770312741000000\tHOST=peer\tMESSAGE=<5a>x
<5> => 5 1770312741000000\tHOST=peer\tMESSAGE=
 => 13 1770312741000000\tHOST=peer\tMESSAGE=
<5>Feb  5 17:32:18 => 5 1770312738000000\tHOST=peer\tMESSAGE=
<5>Feb  5 17:32:18x p: m => 5 1770312741000000\tHOST=peer\tMESSAGE=Feb  5 17:32:18x p: m
<5>Feb 05 17:32:18 h p: m => 5 1770312738000000\tHOST=h\tMESSAGE=m\tPROGRAM=p
<5>Feb 30 00:00:00 h p: m => 5 1770312741000000\tHOST=peer\tMESSAGE=Feb 30 00:00:00 h p: m
<5>2026-02-05T17:32:18Z h p: m => 5 1770312738000000\tHOST=h\tMESSAGE=m\tPROGRAM=p
<5>2026-02-05T17:32:18.000000Z h p: m => 5 1770312738000000\tHOST=h\tMESSAGE=m\tPROGRAM=p
<5>2026-02-05t17:32:18Z h p: m => 5 1770312741000000\tHOST=peer\tMESSAGE=32:18Z h p: m\tPROGRAM=2026-02-05t17
<5>su: x => 5 1770312741000000\tHOST=peer\tMESSAGE=x\tPROGRAM=su
<5>Feb  5 17:32:18 p: m => 5 1770312738000000\tHOST=peer\tMESSAGE=m\tPROGRAM=p
<5>Feb  5 17:32:18 a[1]: m => 5 1770312738000000\tHOST=peer\tMESSAGE=m\tPID=1\tPROGRAM=a
<5>Feb  5 17:32:18 h => 5 1770312738000000\tHOST=peer\tMESSAGE=h
<5>Feb  5 17:32:18  h p: m => 5 1770312738000000\tHOST=peer\tMESSAGE= h p: m
<5>Feb  5 17:32:18 hé p: m => 5 1770312738000000\tHOST=peer\tMESSAGE=hé p: m
<5>Feb  5 17:32:18 ::1 p: m => 5 1770312738000000\tHOST=::1\tMESSAGE=m\tPROGRAM=p
<5>Feb  5 17:32:18 h p[: m => 5 1770312738000000\tHOST=h\tMESSAGE=p[: m
<5>Feb  5 17:32:18 h p[7: m => 5 1770312738000000\tHOST=h\tMESSAGE=p[7: m
<5>Feb  5 17:32:18 h p[]: m => 5 1770312738000000\tHOST=h\tMESSAGE=p[]: m
<5>Feb  5 17:32:18 h p[7]m => 5 1770312738000000\tHOST=h\tMESSAGE=m\tPID=7\tPROGRAM=p
<5>Feb  5 17:32:18 h p[7]:m => 5 1770312738000000\tHOST=h\tMESSAGE=m\tPID=7\tPROGRAM=p
<5>Feb  5 17:32:18 h p[7] m => 5 1770312738000000\tHOST=h\tMESSAGE=m\tPID=7\tPROGRAM=p
<5>Feb  5 17:32:18 h p[a:b[c]: m => 5 1770312738000000\tHOST=h\tMESSAGE=m\tPID=a:b[c\tPROGRAM=p
<5>Feb  5 17:32:18 h p:  m => 5 1770312738000000\tHOST=h\tMESSAGE= m\tPROGRAM=p
<5>Feb  5 17:32:18 h p: => 5 1770312738000000\tHOST=h\tMESSAGE=\tPROGRAM=p
<5>Feb  5 17:32:18 h :m => 5 1770312738000000\tHOST=h\tMESSAGE=:m
<5>Feb  5 17:32:18 h a b: m => 5 1770312738000000\tHOST=h\tMESSAGE=a b: m
hello world => 13 1770312741000000\tHOST=peer\tMESSAGE=hello world
<34>Oct 11 22:14:15 h su[7]: plain => 34 1791756855000000\tHOST=h\tMESSAGE=plain\tPID=7\tPROGRAM=su
Oct 11 22:14:15.123 h p: frac bsd => 13 1770312741000000\tHOST=peer\tMESSAGE=Oct 11 22:14:15.123 h p: frac bsd
<13>2026-10-11T22:14:15.123456789+02:00 h p: nano iso => 13 1770312741000000\tHOST=peer\tMESSAGE=14:15.123456789+02:00 h p: nano iso\tPROGRAM=2026-10-11T22
<13>2026-10-11T22:14:15 h p: no zone => 13 1770312741000000\tHOST=peer\tMESSAGE=14:15 h p: no zone\tPROGRAM=2026-10-11T22
<13>2026-10-11T22:14:15+0200 h p: zone without colon => 13 1770312741000000\tHOST=peer\tMESSAGE=14:15+0200 h p: zone without colon\tPROGRAM=2026-10-11T22
<13>2026-10-11T22:14:15,123+02:00 h p: comma => 13 1770312741000000\tHOST=peer\tMESSAGE=14:15,123+02:00 h p: comma\tPROGRAM=2026-10-11T22
<134> Oct 11 22:14:15 h p: blank behind pri => 134 1770312741000000\tHOST=peer\tMESSAGE= Oct 11 22:14:15 h p: blank behind pri
<134>Oct 11 22:14:15  h p: two blanks behind stamp => 134 1791756855000000\tHOST=peer\tMESSAGE= h p: two blanks behind stamp
<134>Oct 11 22:14:15 h  p: two blanks behind host => 134 1791756855000000\tHOST=h\tMESSAGE= p: two blanks behind host
<189>123: *Mar  1 18:46:11.123 UTC: %SYS-5-CONFIG_I: Configured from console => 189 1770312741000000\tHOST=peer\tMESSAGE=*Mar  1 18:46:11.123 UTC: %SYS-5-CONFIG_I: Configured from console\tPROGRAM=123
<189>123: Mar  1 18:46:11.123: %SYS-5-CONFIG_I: Configured => 189 1770312741000000\tHOST=peer\tMESSAGE=Mar  1 18:46:11.123: %SYS-5-CONFIG_I: Configured\tPROGRAM=123
<189>Mar  1 18:46:11: %LINK-3-UPDOWN: Interface up => 189 1770312741000000\tHOST=peer\tMESSAGE=Mar  1 18:46:11: %LINK-3-UPDOWN: Interface up
<166>Oct 11 2026 22:14:15 asa1 : %ASA-6-302013: Built => 166 1770312741000000\tHOST=peer\tMESSAGE=Oct 11 2026 22:14:15 asa1 : %ASA-6-302013: Built
<166>Oct 11 2026 22:14:15: %ASA-6-302013: Built => 166 1770312741000000\tHOST=peer\tMESSAGE=Oct 11 2026 22:14:15: %ASA-6-302013: Built
<166>Oct 11 2026 22:14:15 asa1 p: Built => 166 1770312741000000\tHOST=peer\tMESSAGE=Oct 11 2026 22:14:15 asa1 p: Built
<13>Oct 11 22:14:15 2026 h p: year behind => 13 1791756855000000\tHOST=2026\tMESSAGE=h p: year behind
<13>Oct 11 22:14:15 last message repeated 3 times => 13 1791756855000000\tHOST=last\tMESSAGE=message repeated 3 times
<13>Oct 11 22:14:15 Message forwarded from h1: su: x => 13 1791756855000000\tHOST=Message\tMESSAGE=forwarded from h1: su: x
<13>Oct 11 22:14:15 h Message forwarded from h1: su: y => 13 1791756855000000\tHOST=h\tMESSAGE=Message forwarded from h1: su: y
<13>1 2026-10-11T22:14:15Z h app 7 - - m => 13 1770312741000000\tHOST=peer\tMESSAGE=1 2026-10-11T22:14:15Z h app 7 - - m
<13>Oct 11 22:14:15 h naïve: utf8 program => 13 1791756855000000\tHOST=h\tMESSAGE=naïve: utf8 program
<13>Oct 11 22:14:15 h CEF:0|a|b|c => 13 1791756855000000\tHOST=h\tMESSAGE=0|a|b|c\tPROGRAM=CEF
<13>Oct 11 22:14:15 h nginx: 1.2.3.4 - - \"GET\" => 13 1791756855000000\tHOST=h\tMESSAGE=1.2.3.4 - - \"GET\"\tPROGRAM=nginx
<13>Oct 11 22:14:15 nginx: 1.2.3.4 no host => 13 1791756855000000\tHOST=peer\tMESSAGE=1.2.3.4 no host\tPROGRAM=nginx
<13>Oct 11 22:14:15 h app message without colon => 13 1791756855000000\tHOST=h\tMESSAGE=app message without colon
<13>Oct 11 22:14:15 h app[12] no colon behind pid => 13 1791756855000000\tHOST=h\tMESSAGE=no colon behind pid\tPID=12\tPROGRAM=app
<13>Oct 11 22:14:15 h: colon host => 13 1791756855000000\tHOST=peer\tMESSAGE=colon host\tPROGRAM=h
<192>Oct 11 22:14:15 h p: pri 192 => 13 1770312741000000\tHOST=peer\tMESSAGE=<192>Oct 11 22:14:15 h p: pri 192
<>Oct 11 22:14:15 h p: empty pri => 13 1770312741000000\tHOST=peer\tMESSAGE=<>Oct 11 22:14:15 h p: empty pri
<13>Oct  1 2:14:15 h p: one digit hour => 13 1770312741000000\tHOST=peer\tMESSAGE=Oct  1 2:14:15 h p: one digit hour
<13>Oct 1 22:14:15 h p: one digit day one blank => 13 1770312741000000\tHOST=peer\tMESSAGE=Oct 1 22:14:15 h p: one digit day one blank
<13>oct 11 22:14:15 h p: lower month => 13 1770312741000000\tHOST=peer\tMESSAGE=oct 11 22:14:15 h p: lower month
<13>Oct 11 22:14:15h p: glued => 13 1770312741000000\tHOST=peer\tMESSAGE=Oct 11 22:14:15h p: glued
<13>Oct 11 22:14:15 => 13 1791756855000000\tHOST=peer\tMESSAGE=
<13> => 13 1770312741000000\tHOST=peer\tMESSAGE=
<13>Oct 11 22:14:15 h p: => 13 1791756855000000\tHOST=h\tMESSAGE=\tPROGRAM=p
<13>Oct 11 22:14:15 h p[]: empty pid => 13 1791756855000000\tHOST=h\tMESSAGE=p[]: empty pid
<13>Oct 11 22:14:15 h p[12: open pid => 13 1791756855000000\tHOST=h\tMESSAGE=p[12: open pid
<13>Oct 11 22:14:15 [10.0.0.1] p: host in brackets => 13 1791756855000000\tHOST=peer\tMESSAGE=[10.0.0.1] p: host in brackets
<13>Oct 11 22:14:15 fe80::1 p: ipv6 host => 13 1791756855000000\tHOST=fe80::1\tMESSAGE=ipv6 host\tPROGRAM=p
<13>Oct 11 22:14:15 h (su) 7: paren program => 13 1791756855000000\tHOST=h\tMESSAGE=(su) 7: paren program
<13>Oct 11 22:14:15 h kernel: [ 12.3] x => 13 1791756855000000\tHOST=h\tMESSAGE=[ 12.3] x\tPROGRAM=kernel
<13>Oct 11 22:14:15 h p/sub.x-y_z: slashes => 13 1791756855000000\tHOST=h\tMESSAGE=slashes\tPROGRAM=p/sub.x-y_z
<13>Oct 11 22:14:15 h %ASA-6-1: percent => 13 1791756855000000\tHOST=h\tMESSAGE=percent\tPROGRAM=%ASA-6-1
<13>Oct 11 22:14:15 CET h p: zone word => 13 1791756855000000\tHOST=CET\tMESSAGE=h p: zone word
<13>Oct 11 22:14:15 +01:00 h p: zone num => 13 1791756855000000\tHOST=+01:00\tMESSAGE=h p: zone num
<13>2026-10-11 22:14:15 h p: blank iso => 13 1770312741000000\tHOST=peer\tMESSAGE=2026-10-11 22:14:15 h p: blank iso
<13>2026-10-11T22:14:15Z: h p: iso colon => 13 1770312741000000\tHOST=peer\tMESSAGE=14:15Z: h p: iso colon\tPROGRAM=2026-10-11T22
<13>2026 Oct 11 22:14:15 h p: year front => 13 1770312741000000\tHOST=peer\tMESSAGE=2026 Oct 11 22:14:15 h p: year front
no header at all => 13 1770312741000000\tHOST=peer\tMESSAGE=no header at all";

fn message_of(alloc: Global, item: &[u8], at: i64, opts: &ReadOpts) -> Result<Message, AllocError>
    requires { (pos 0 ≤ℤ at) × (at ≤ℤ pos 250_000_000_000_000_000) }
{
    let peer = Bytes::from_static(b"peer");
    read(alloc, Bytes::copy_from_slice(alloc, item)?, at, &peer, opts)
}

// A row's parts.
#[derive(Drop)]
struct Rfc3164Row<'r> {
    item: &'r str,
    pri: &'r str,
    at: &'r str,
    pairs: &'r str,
}

fn row_of(line: &str) -> Option<Rfc3164Row<'_>> {
    let Some((item, said)) = line.split_once(" => ") else {
        return None;
    };
    let Some((head, pairs)) = said.split_once('\t') else {
        return None;
    };
    match head.split_once(' ') {
        Some((pri, at)) => Some(Rfc3164Row {
            item,
            pri,
            at,
            pairs,
        }),
        None => None,
    }
}

fn says(message: &Message, row: &Rfc3164Row) -> bool {
    match row.at.parse::<i64>() {
        Ok(at) => {
            has_head(message, row.pri, Stamp { at, offset: 0 })
                && has_pairs(message, row.pairs, '\t')
        }
        Err(_) => false,
    }
}

// Whether the item of a row is read as the message that it says.
fn holds(alloc: Global, line: &str) -> bool {
    let Some(row) = row_of(line) else {
        return false;
    };
    match message_of(alloc, row.item.as_bytes(), PULLED, &OPTS) {
        Ok(message) => says(&message, &row),
        Err(_) => false,
    }
}

#[test]
fn records_are_read(rt: HostRuntime) {
    readings_are_one();
    for row in ROWS.lines() {
        assert!(rt; holds(rt.alloc(), row), "{row}");
    }
}

// Options, an item, when it was pulled, and the stamp, HOST and MESSAGE of its message.
type ReadingCase = (
    ReadOpts,
    &'static [u8],
    i64,
    Stamp,
    &'static [u8],
    &'static [u8],
);

const PLAIN: ReadOpts = ReadOpts {
    pri: 30,
    zone: -90,
    keep_hostname: false,
    keep_timestamp: false,
    parse: true,
};

const KEPT: ReadOpts = ReadOpts {
    pri: 30,
    zone: -90,
    keep_hostname: false,
    keep_timestamp: true,
    parse: true,
};

const WHOLE: ReadOpts = ReadOpts {
    pri: 30,
    zone: -90,
    keep_hostname: true,
    keep_timestamp: true,
    parse: false,
};

const ITEM: &[u8] = b"<191>2026-02-05T17:32:18.5+01:00 h p: m";

// The last two are stamps around New Year.
const CHOICES: [ReadingCase; 5] = [
    (
        PLAIN,
        ITEM,
        PULLED,
        Stamp {
            at: PULLED,
            offset: -90,
        },
        b"peer",
        b"m",
    ),
    (
        KEPT,
        ITEM,
        PULLED,
        Stamp {
            at: 1_770_309_138_500_000,
            offset: 60,
        },
        b"peer",
        b"m",
    ),
    (
        WHOLE,
        ITEM,
        PULLED,
        Stamp {
            at: PULLED,
            offset: -90,
        },
        b"peer",
        ITEM,
    ),
    (
        OPTS,
        b"<34>Dec 31 23:59:59 h su: x",
        1_704_067_210_000_000,
        Stamp {
            at: 1_704_067_199_000_000,
            offset: 0,
        },
        b"h",
        b"x",
    ),
    (
        OPTS,
        b"<34>Jan  1 00:00:00 h su[7]: x",
        1_704_067_190_000_000,
        Stamp {
            at: 1_704_067_200_000_000,
            offset: 0,
        },
        b"h",
        b"x",
    ),
];

// Whether the item of a choice is read as the message that it says.
fn chosen(alloc: Global, choice: &ReadingCase) -> bool {
    let (opts, item, at, sent, host, text) = *choice;
    if at < 0 || at > 250_000_000_000_000_000 {
        return false;
    }
    match message_of(alloc, item, at, &opts) {
        Ok(message) => {
            message.sent() == sent
                && value(&message, b"HOST") == host
                && value(&message, b"MESSAGE") == text
        }
        Err(_) => false,
    }
}

#[test]
fn options_and_years(rt: HostRuntime) {
    for (place, choice) in CHOICES.iter().enumerate() {
        assert!(rt; chosen(rt.alloc(), choice), "{place}");
    }
}
