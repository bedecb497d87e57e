// An entry in both formats, and bytes that are none.
use sg_codec::{CodecRefusal, Kept, decode, encode, encoded_len};
use std::alloc::{AllocError, Global};
use std::test::Fail;

// The one pair MESSAGE=`one`, with flow-control, from inlet 0 with the end 4, PRI 13, all stamps 0.
const FORMAT1: &[u8; 47] =
    b"\x01\x01\0\0\0\0\0\0\0\0\0\0\0\x04\x0d\0\0\0\0\0\0\0\0\0\0\0\0\0\x01\0\0\0\x07MESSAGE\0\0\0\x03one";

const FORMAT2: &[u8; 61] =
    b"\x02\x01\0\0\0\0\0\0\0\0\0\0\0\x04\x0d\0\0\0\0\0\0\0\0\0\0\0\0\0\0\0\0\0\0\0\0\0\0\0\0\0\0\0\x01\0\0\0\x07MESSAGE\0\0\0\x03one";

// A byte of FORMAT2, another value of it, and the place of the damage that it does.
const DAMAGED: [(usize, u8, u64); 11] = [
    (0, 3, 0),
    (1, 2, 1),
    (6, 128, 6),
    (14, 192, 14),
    (15, 127, 23),
    (23, 127, 23),
    (33, 127, 33),
    (42, 2, 61),
    (45, 1, 43),
    (46, 0, 43),
    (57, 4, 58),
];

fn damage(alloc: Global, bytes: &[u8]) -> Option<u64> {
    match decode(alloc, bytes) {
        Err(CodecRefusal::Damage(place)) => Some(place),
        _ => None,
    }
}

fn says(kept: &Kept) -> bool {
    kept.source == 0
        && kept.flow
        && kept.message.pri() == 13
        && matches!(kept.message.get(b"MESSAGE"), Some(value) if value == b"one".as_slice())
}

// What is written of an entry with the end 4 and 61 bytes.
fn written(alloc: Global, kept: &Kept) -> Option<Vec<u8>> {
    if kept.end != 4 || encoded_len(kept) != 61 {
        return None;
    }
    encode(alloc, kept).ok()
}

fn is_written(alloc: Global, kept: &Kept) -> bool {
    match written(alloc, kept) {
        Some(bytes) => bytes.as_slice() == FORMAT2.as_slice(),
        None => false,
    }
}

// Whether the bytes are read as the entry, and that is written in the second format.
fn holds(alloc: Global, bytes: &[u8]) -> bool {
    match decode(alloc, bytes) {
        Ok(kept) => says(&kept) && is_written(alloc, &kept),
        Err(_) => false,
    }
}

#[test]
fn formats(rt: HostRuntime) {
    for bytes in [FORMAT1.as_slice(), FORMAT2.as_slice()] {
        assert!(rt; holds(rt.alloc(), bytes), "{bytes:?}");
    }
}

// The damage that this byte does at this place of FORMAT2.
fn damage_by(alloc: Global, place: usize, byte: u8) -> Option<u64> {
    let mut bytes = *FORMAT2;
    match bytes.get_mut(place) {
        Some(changed) => *changed = byte,
        None => return None,
    }
    damage(alloc, &bytes)
}

// The damage that a byte more does behind FORMAT1.
fn damage_behind(alloc: Global) -> Result<Option<u64>, AllocError> {
    let mut longer = Vec::from_slice(alloc, FORMAT1.as_slice())?;
    longer.push(0)?;
    Ok(damage(alloc, &longer))
}

#[test]
fn damaged(rt: HostRuntime) -> Result<(), Fail> {
    for (place, byte, at) in DAMAGED {
        assert_eq!(rt; damage_by(rt.alloc(), place, byte), Some(at), "{place}");
    }
    assert_eq!(rt; damage_behind(rt.alloc())?, Some(47));
    assert_eq!(rt; damage(rt.alloc(), &FORMAT1[..46]), Some(44));
    Ok(())
}
