// Templates over messages.
ghost use Rattle.sg_time.specs.Stamp.{IsValidStamp};

use crate::event::event;
use crate::time::read_row;
use sg_device::Name;
use sg_msg::Message;
use sg_template::{Env, Template, TemplateFault};
use sg_time::Stamp;
use std::alloc::{AllocError, Global};
use std::test::Fail;

const EPOCH: Stamp = Stamp { at: 0, offset: 0 };

// Stamps before 1970, on a leap day and far west, and what GNU date prints of them.
const STAMPS: &str = "\
-2500000 0 Dec 31 23:59:57.500000|1969 Dec 31 23:59:57.500000|1969-12-31T23:59:57.500000+00:00|Dec 31 23:59:57.500000|-3.500000|1969|12|31|23|59|57|Dec|+00:00
951823796789012 60 Feb 29 12:29:56.789012|2000 Feb 29 12:29:56.789012|2000-02-29T12:29:56.789012+01:00|Feb 29 12:29:56.789012|951823796.789012|2000|02|29|12|29|56|Feb|+01:00
1234567890000001 -1439 Feb 12 23:32:30.000001|2009 Feb 12 23:32:30.000001|2009-02-12T23:32:30.000001-23:59|Feb 12 23:32:30.000001|1234567890.000001|2009|02|12|23|32|30|Feb|-23:59";

const PLAIN: &str =
    "$DATE|$FULLDATE|$ISODATE|$STAMP|$UNIXTIME|$YEAR|$MONTH|$DAY|$HOUR|$MIN|$SEC|$MONTH_ABBREV|$TZOFFSET";

const SENT: &str =
    "$S_DATE|$S_FULLDATE|$S_ISODATE|$S_STAMP|$S_UNIXTIME|$S_YEAR|$S_MONTH|$S_DAY|$S_HOUR|$S_MIN|$S_SEC|$S_MONTH_ABBREV|$S_TZOFFSET";

const RECEIVED: &str =
    "$R_DATE|$R_FULLDATE|$R_ISODATE|$R_STAMP|$R_UNIXTIME|$R_YEAR|$R_MONTH|$R_DAY|$R_HOUR|$R_MIN|$R_SEC|$R_MONTH_ABBREV|$R_TZOFFSET";

// Templates, and their texts (`=>`) or paths (`->`) over one message, in a zone an hour east of its
// stamp.
const TEXTS: &str = "\
$PRI $FACILITY_NUM $LEVEL_NUM $FACILITY $LEVEL $PRIORITY $SEVERITY $TAG => 165 20 5 local4 notice notice notice a5
$TAGS|$_|$MSG|$MSGONLY|$HOST|$FULLHOST => one,two|old|An event|An event|h|h
<${PRI}>${STAMP} ${HOST} ${MSGHDR}${MSG} => <165>2003-10-11T23:14:15.003+01:00 h evntslog[7]: An event
$SDATA => [examplePriority@32473 class=\"high\"][exampleSDID@32473 eventSource=\"A\\\"p\\\\p\\]x\" iut=\"3\"][origin]
${NOPE:-none}$$ $PRI => none$ 165
${HOST:-none}${NOPE}${:-a:-b} => ha:-b
$HOST.$PROGRAM-$PID$ => h.evntslog-7$
$1$PRIX$ $ => $ $
a$b ${MSGID:-x} => a x
$UNIXTIME => 1065910455.003
$S_TZOFFSET$R_TZOFFSET => +01:00+00:00
out-${A:-../x} -> out-_._x
/var/log/${A:-.}/$PROGRAM.log -> /var/log/_/evntslog.log
/a/${A:-b/c}$HOST -> /a/b_ch
/a/../$PRI.${A:-.h} -> /a/../165._h
${A:-a\0b.} -> a_b.
$A -> _
${A:-/} -> _
a$$b -> a$b";

fn text(
    alloc: Global,
    template: &str,
    message: &Message,
    env: &Env,
) -> Result<Vec<u8>, TemplateFault> {
    let template = Template::read(alloc, template.as_bytes())?;
    let mut out = Vec::new(alloc);
    template.render(message, env, &mut out)?;
    Ok(out)
}

fn path(
    alloc: Global,
    template: &str,
    message: &Message,
    env: &Env,
) -> Result<Vec<u8>, TemplateFault> {
    let template = Template::read(alloc, template.as_bytes())?;
    let mut out = Vec::new(alloc);
    template.render_path(message, env, &mut out)?;
    Ok(out)
}

fn is_shown(alloc: Global, row: &str, message: &Message, env: &Env) -> Result<bool, Fail> {
    if let Some((template, shown)) = row.split_once(" -> ") {
        return Ok(path(alloc, template, message, env)?.as_slice() == shown.as_bytes());
    }
    let (template, shown) = row.split_once(" => ").ok_or("no text")?;
    Ok(text(alloc, template, message, env)?.as_slice() == shown.as_bytes())
}

// Whether a template has this text over a message that was sent and received then.
fn is_stamped(
    alloc: Global,
    template: &str,
    sent: Stamp,
    received: Stamp,
    shown: &str,
) -> Result<bool, Fail>
    requires sent { IsValidStamp sent }
    requires received { IsValidStamp received }
{
    let env = Env {
        zone: None,
        digits: 6,
        iso: false,
        old: None,
    };
    let message = Message::new(alloc, 13, sent, received)?;
    Ok(text(alloc, template, &message, &env)?.as_slice() == shown.as_bytes())
}

// Whether the macros of a row's stamp have its texts, each with either prefix and with none.
fn is_printed(alloc: Global, row: &str) -> Result<bool, Fail> {
    let (stamp, shown) = read_row(row)?;
    if !stamp.is_valid() || !is_stamped(alloc, PLAIN, stamp, EPOCH, shown)? {
        return Ok(false);
    }
    if !is_stamped(alloc, SENT, stamp, EPOCH, shown)? {
        return Ok(false);
    }
    is_stamped(alloc, RECEIVED, EPOCH, stamp, shown)
}

#[test]
fn stamps_as_gnu_date_prints_them(rt: HostRuntime) -> Result<(), Fail> {
    for row in STAMPS.lines() {
        assert!(rt; is_printed(rt.alloc(), row)?, "{row}");
    }
    Ok(())
}

// A value that has to be escaped, an element without parameters and a name that the grammar doesn't
// have (RFC 5424, 6.3.5 and 6.5).
const VALUES: &str = "\
HOST|h
PROGRAM|evntslog
PID|7
MESSAGE|An event
.SDATA.exampleSDID@32473.iut|3
.SDATA.exampleSDID@32473.eventSource|A\"p\\p]x
.SDATA.examplePriority@32473.class|high
.SDATA.origin|
.SDATA.b=d.x|not a name";

// An event with two tags. In the zone the year of its arrival would be 10000.
fn tagged(alloc: Global) -> Result<Message, Fail> {
    let received = Stamp {
        at: 253_402_300_799_999_999,
        offset: 0,
    };
    let mut message = event(alloc, received, VALUES)?;
    message.set_tag(b"one")?;
    message.set_tag(b"two")?;
    Ok(message)
}

// A zone an hour east of the event's stamp.
fn zoned(alloc: Global) -> Result<Env, AllocError> {
    Ok(Env {
        zone: Some(60),
        digits: 3,
        iso: true,
        old: Some(Name::new(alloc, b"old")?),
    })
}

#[test]
fn texts_and_paths_of_an_event(rt: HostRuntime) -> Result<(), Fail> {
    let message = tagged(rt.alloc())?;
    let env = zoned(rt.alloc())?;
    for row in TEXTS.lines() {
        assert!(rt; is_shown(rt.alloc(), row, &message, &env)?, "{row}");
    }
    Ok(())
}

fn long_path(alloc: Global, message: &Message, env: &Env) -> Result<usize, TemplateFault> {
    let mut out = Vec::new(alloc);
    Template::read(alloc, &[b'x'; 5000])?.render_path(message, env, &mut out)?;
    Ok(out.len())
}

#[test]
fn faults_and_a_long_path(rt: HostRuntime) -> Result<(), Fail> {
    let message = tagged(rt.alloc())?;
    let env = zoned(rt.alloc())?;
    let function = text(rt.alloc(), "$( ${A", &message, &env).err();
    assert_eq!(rt; function, Some(TemplateFault::Function));
    let open = text(rt.alloc(), "${A $(", &message, &env).err();
    assert_eq!(rt; open, Some(TemplateFault::OpenBrace));
    assert_eq!(rt; long_path(rt.alloc(), &message, &env)?, 4095);
    Ok(())
}
