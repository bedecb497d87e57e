// Streams and their items, however the bytes are cut.
ghost use Rattle.std.specs.Prelude.{◌≡◌, ◌<◌, ◌^◌, length, OnOk};
ghost use Rattle.sg_frame.specs.Framing.{fed};

use bytes::Bytes;
use sg_device::NoMemory;
use sg_frame::{FrameKind, Framed, Framer};
use std::alloc::Global;
use std::test::Fail;

/// A text, the place behind the item, and that of the byte that made it whole.
type Want = (&'static [u8], u64, u64);

const COUNTED: [(u32, &[u8], &[Want], Option<u64>); 12] = [
    (
        65536,
        b"5 hello3 abc",
        &[(b"hello", 7, 6), (b"abc", 12, 11)],
        None,
    ),
    (65536, b"0 x", &[], Some(0)),
    (65536, b"12x", &[], Some(2)),
    (65536, b"65537 ", &[], Some(4)),
    (65536, b"99999999999999999999 x", &[], Some(4)),
    (5, b"5 a\r\0\nb6 x", &[(b"a\r\0\nb", 7, 6)], Some(7)),
    (9, b"1 ", &[], None),
    (9, b"1 01 a", &[(b"0", 3, 2), (b"a", 6, 5)], None),
    (9, b"1 a 1 b", &[(b"a", 3, 2)], Some(3)),
    (u32::MAX, b"4294967296 ", &[], Some(9)),
    (u32::MAX, b"4294967295 x", &[], None),
    (9, b"", &[], None),
];

const LINES: [(u32, &[u8], &[Want]); 8] = [
    (4, b"abcdef\n", &[(b"abcd", 4, 4), (b"ef", 7, 6)]),
    (4, b"abcd\n", &[(b"abcd", 5, 4)]),
    (4, b"abcde", &[(b"abcd", 4, 4)]),
    (4, b"abcdefghi", &[(b"abcd", 4, 4), (b"efgh", 8, 8)]),
    (
        9,
        b"a\r\n\nb\0\r\0\nc",
        &[(b"a", 3, 2), (b"", 4, 3), (b"b", 9, 8)],
    ),
    (9, b"\0a\r \n", &[(b"\0a\r ", 5, 4)]),
    (1, b"ab\n\n", &[(b"a", 1, 1), (b"b", 3, 2), (b"", 4, 3)]),
    (3, b"\r\r\r\r\n", &[(b"", 3, 3), (b"", 5, 4)]),
];

/// What a framer gave of a stream: its items, and the place of a bad byte.
#[derive(Drop)]
struct FramedItems {
    items: Vec<(Bytes, u64, i64)>,
    bad: Option<u64>,
}

fn drain(framer: &mut Framer, given: &mut FramedItems) -> Result<(), NoMemory>
    ensures { OnOk result (fed framer.new ≡ fed framer.old) }
{
    loop {
        match framer.next()? {
            Framed::Item { bytes, end, at } => given.items.push((bytes, end, at))?,
            Framed::More => return Ok(()),
            Framed::BadFrame(place) => {
                given.bad = Some(place);
                return Ok(());
            }
        }
    }
}

/// Feeds a stream in pieces of so many bytes. A piece's moment is the place of its first byte.
fn frame(
    alloc: Global,
    kind: FrameKind,
    limit: u32,
    stream: &[u8],
    step: usize,
) -> Result<FramedItems, NoMemory>
    requires limit { 0 < limit }
    requires step { 0 < step }
    requires small { length stream.now < 2 ^ 32 }
{
    let mut framer = Framer::new(alloc, kind, limit)?;
    let mut given = FramedItems {
        items: Vec::new(alloc),
        bad: None,
    };
    let mut place = 0;
    while place < stream.len() {
        let end = stream.len().min(place.saturating_add(step));
        framer.feed(&stream[place..end], place as i64)?;
        drain(&mut framer, &mut given)?;
        place = end;
    }
    given.bad = None;
    drain(&mut framer, &mut given)?;
    Ok(given)
}

// Whether an item of a stream in pieces of so many bytes is as wanted.
fn is_item(item: &(Bytes, u64, i64), want: &Want, step: usize) -> bool {
    if step == 0 {
        return false;
    }
    let at = want.2 - want.2 % step as u64;
    item.0.as_slice() == want.0 && item.1 == want.1 && u64::try_from(item.2).ok() == Some(at)
}

fn are_items(items: &[(Bytes, u64, i64)], wants: &[Want], step: usize) -> bool {
    for (item, want) in items.iter().zip(wants.iter()) {
        if !is_item(item, want, step) {
            return false;
        }
    }
    items.len() == wants.len()
}

/// A stream by its kind of frames, its limit, its items, and the place of a bad byte.
#[derive(Drop)]
struct FrameRow {
    kind: FrameKind,
    limit: u32,
    stream: &'static [u8],
    items: &'static [Want],
    bad: Option<u64>,
}

// Whether the stream in pieces of so many bytes gives what is wanted.
fn gives(alloc: Global, row: &FrameRow, step: usize) -> bool {
    if row.limit == 0 || step == 0 || row.stream.len() >= 100 {
        return false;
    }
    match frame(alloc, row.kind, row.limit, row.stream, step) {
        Ok(given) => given.bad == row.bad && are_items(given.items.as_slice(), row.items, step),
        Err(_) => false,
    }
}

// The first number of bytes of a piece with which it doesn't, from one to the whole stream and one more.
fn first_fault(alloc: Global, row: &FrameRow) -> Option<usize> {
    for step in 1..row.stream.len().saturating_add(2) {
        if !gives(alloc, row, step) {
            return Some(step);
        }
    }
    None
}

#[test]
fn counted_streams(rt: HostRuntime) {
    for (limit, stream, items, bad) in COUNTED {
        let row = FrameRow {
            kind: FrameKind::Counted,
            limit,
            stream,
            items,
            bad,
        };
        assert_eq!(rt; first_fault(rt.alloc(), &row), None, "{stream:?}");
    }
}

#[test]
fn lines_of_streams(rt: HostRuntime) {
    for (limit, stream, items) in LINES {
        let row = FrameRow {
            kind: FrameKind::Lines,
            limit,
            stream,
            items,
            bad: None,
        };
        assert_eq!(rt; first_fault(rt.alloc(), &row), None, "{stream:?}");
    }
}

// A framer that began again behind two bytes, and took a line and a byte since.
fn restarted(alloc: Global) -> Result<Framer, NoMemory> {
    let mut framer = Framer::new(alloc, FrameKind::Lines, 9)?;
    framer.feed(b"ab", 1)?;
    framer.restart();
    framer.feed(b"c\nd", 2)?;
    Ok(framer)
}

fn next_item(framer: &mut Framer) -> Result<Option<(Bytes, u64, i64)>, NoMemory> {
    match framer.next()? {
        Framed::Item { bytes, end, at } => Ok(Some((bytes, end, at))),
        Framed::More => Ok(None),
        Framed::BadFrame(_) => Ok(None),
    }
}

#[test]
fn a_framer_begins_again(rt: HostRuntime) -> Result<(), Fail> {
    let mut framer = restarted(rt.alloc())?;
    let (bytes, end, at) = next_item(&mut framer)?.ok_or("an item")?;
    assert_eq!(rt; (bytes.as_slice(), end, at), (b"c".as_slice(), 2, 2));
    assert!(rt; matches!(framer.next()?, Framed::More));
    Ok(())
}
