// The frames of the records of a file.
ghost use Rattle.std.specs.Prelude.{◌≡◌, ◌≤◌, ◌^◌, length, IfOk, OnOk};
ghost use Rattle.sg_frame.specs.Framing.{fed};

use crate::convert::{Converter, PULLED};
use sg_frame::{Framed, Framer};
use std::alloc::AllocError;
use std::fs::File;
use std::io;
use std::io::{Read, Write};

// The longest record, and how many bytes are read and written at a time.
const LIMIT: u32 = 1 << 21;

const PIECE: usize = 16_384;

// Appends the frame of each record that is whole, and says how many they were.
fn append_frames(
    converter: &mut Converter,
    framer: &mut Framer,
    out: &mut Vec<u8>,
) -> io::Result<u64>
    ensures { OnOk result (fed framer.new ≡ fed framer.old) }
{
    for count in 0..u64::MAX {
        match framer.next()? {
            Framed::Item { bytes, .. } => converter.append_frame(bytes, out)?,
            Framed::More => return Ok(count),
            Framed::BadFrame(_) => return Err(io::Error::from(io::ErrorKind::InvalidData)),
        }
    }
    Ok(u64::MAX)
}

// Feeds a piece to a framer that was fed so many bytes, and says how many they are with it.
fn feed(framer: &mut Framer, piece: &[u8], before: u64) -> Result<u64, AllocError>
    requires range { before ≤ 2 ^ 62 }
    requires size { length piece.now ≤ 16384 }
    requires before { fed framer.old ≡ before }
    ensures { IfOk result (λ after. fed framer.new ≡ after) }
{
    framer.feed(piece, PULLED)?;
    Ok(before + piece.len() as u64)
}

// Makes the frames of all records of a file, and says how many they were.
fn convert(converter: &mut Converter, mut from: File, mut to: File) -> io::Result<u64> {
    let alloc = converter.alloc;
    let mut framer = Framer::new(alloc, converter.kind, LIMIT)?;
    let mut piece = vec![in alloc; 0u8; PIECE]?;
    let mut out = Vec::new(alloc);
    let mut fed = 0u64;
    let mut count = 0u64;
    for _ in 0..u64::MAX {
        let len = from.read(&mut piece)?;
        if len == 0 || fed > 1 << 62 {
            break;
        }
        fed = feed(&mut framer, &piece[..len], fed)?;
        count = count.saturating_add(append_frames(converter, &mut framer, &mut out)?);
        to.write_all(&out)?;
        out.clear();
    }
    Ok(count)
}

// Writes the frames of a file to another one, and says how many they were.
fn write(rt: HostRuntime, converter: &mut Converter, from: &str, to: &str) -> io::Result<bool> {
    let count = convert(converter, File::open(&rt, from)?, File::create(&rt, to)?)?;
    println!(rt; "{count}")?;
    Ok(true)
}

/// The frames of a file in another one. Whether the form is one.
pub(crate) fn run(rt: HostRuntime, form: &str, from: &str, to: &str) -> io::Result<bool> {
    let mut made = Converter::new(rt.alloc(), form)?;
    match &mut made {
        Some(converter) => write(rt, converter, from, to),
        None => Ok(false),
    }
}
