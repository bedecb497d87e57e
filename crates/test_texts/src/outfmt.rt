// Frames of the three kinds of destinations.
use crate::event::event;
use sg_msg::Message;
use sg_outfmt::{DriverKind, Shape, default_shape, frame, unpacked};
use sg_template::{Env, Template, TemplateFault};
use sg_time::Stamp;
use std::alloc::{AllocError, Global};
use std::test::Fail;

const EPOCH: Stamp = Stamp { at: 0, offset: 0 };

const FRAMES: [(DriverKind, &str); 3] = [
    (
        DriverKind::File,
        "Oct 11 22:14:15.003 h evntslog: An event\n",
    ),
    (
        DriverKind::Network,
        "<165>Oct 11 22:14:15.003 h evntslog: An event\n",
    ),
    (
        DriverKind::Syslog,
        "65 <165>1 2003-10-11T22:14:15.003+00:00 h evntslog - ID47 - An event",
    ),
];

const VALUES: &str = "\
HOST|h
PROGRAM|evntslog
MSGID|ID47
MESSAGE|An event";

// Whether the frame of the event is this text, which is appended.
fn has_frame(
    shape: &Shape,
    message: &Message,
    out: &mut Vec<u8>,
    text: &[u8],
) -> Result<bool, AllocError> {
    let env = Env {
        zone: None,
        digits: 3,
        iso: false,
        old: None,
    };
    let before = out.len();
    frame(shape, message, &env, out)?;
    Ok(&out[before..] == text)
}

#[test]
fn frames(rt: HostRuntime) -> Result<(), Fail> {
    let message = event(rt.alloc(), EPOCH, VALUES)?;
    let mut out = Vec::new(rt.alloc());
    for (driver, text) in FRAMES {
        let shape = default_shape(rt.alloc(), driver)?;
        assert!(rt;
            has_frame(&shape, &message, &mut out, text.as_bytes())?,
            "{text}"
        );
    }
    Ok(())
}

fn by_text(alloc: Global) -> Result<Shape, TemplateFault> {
    Ok(Shape::Text(Template::read(alloc, b"$MSG\n")?))
}

fn by_path(alloc: Global) -> Result<Shape, TemplateFault> {
    Ok(Shape::ByPath {
        path: Template::read(alloc, b"/out/$MSGID")?,
        text: Template::read(alloc, b"$MSG\n")?,
    })
}

// Whether the frame by a template is this text, which is appended.
fn has_text(
    alloc: Global,
    message: &Message,
    out: &mut Vec<u8>,
    text: &[u8],
) -> Result<bool, Fail> {
    let shape = by_text(alloc)?;
    Ok(has_frame(&shape, message, out, text)?)
}

// Whether the frame by a path and a template is this text, which is appended.
fn has_path(
    alloc: Global,
    message: &Message,
    out: &mut Vec<u8>,
    text: &[u8],
) -> Result<bool, Fail> {
    let shape = by_path(alloc)?;
    Ok(has_frame(&shape, message, out, text)?)
}

#[test]
fn frames_of_templates(rt: HostRuntime) -> Result<(), Fail> {
    let message = event(rt.alloc(), EPOCH, VALUES)?;
    let mut out = Vec::new(rt.alloc());
    assert!(rt; has_text(rt.alloc(), &message, &mut out, b"An event\n")?);
    assert!(rt; has_path(rt.alloc(), &message, &mut out, b"\0\x09/out/ID47An event\n")?);
    Ok(())
}

// Frames, their paths and their texts.
const PACKED: [(&[u8], &[u8], &[u8]); 6] = [
    (b"", b"", b""),
    (b"\0", b"", b"\0"),
    (b"\0\0text", b"", b"\0\0text"),
    (b"\0\x02/atext", b"/a", b"text"),
    (b"\0\x02/a", b"/a", b""),
    (b"\x01\0/a", b"", b"\x01\0/a"),
];

#[test]
fn paths(rt: HostRuntime) -> Result<(), Fail> {
    for (packed, path, text) in PACKED {
        let found = unpacked(packed);
        assert_eq!(rt; found.0, path);
        assert_eq!(rt; found.1, text);
    }
    Ok(())
}
