// The rows of standard input.

use crate::text::{copied, put_number};
use std::alloc::Global;
use std::io;

/// What is asked of a text.
#[derive(Clone, Copy)]
pub enum Area {
    Parse,
    Driver,
    Forest,
    Lower,
    Resolve,
    Plan,
    Load,
}

#[derive(Drop)]
pub struct ConfigurationRow {
    pub area: Area,
    pub text: Vec<u8>,
    /// Whether it is made of many pieces.
    pub is_long: bool,
}

fn area_of(word: &str) -> Option<Area> {
    match word {
        "parse" => Some(Area::Parse),
        "driver" => Some(Area::Driver),
        "forest" => Some(Area::Forest),
        "lower" => Some(Area::Lower),
        "resolve" => Some(Area::Resolve),
        "plan" => Some(Area::Plan),
        "load" => Some(Area::Load),
        _ => None,
    }
}

// What stands for the end of a line.
fn mark_of(area: Area, is_long: bool) -> u8 {
    match area {
        Area::Forest | Area::Lower | Area::Load => b'|',
        Area::Parse if is_long => b'\n',
        _ => b' ',
    }
}

// Each mark as the end of a line.
fn broken(alloc: Global, text: &[u8], mark: u8) -> io::Result<Vec<u8>> {
    let mut out = Vec::new(alloc);
    for byte in text {
        out.push(if *byte == mark { b'\n' } else { *byte })?;
    }
    Ok(out)
}

// A piece with its numbers.
fn put_piece(alloc: Global, out: &mut Vec<u8>, piece: &[u8], number: u32) -> io::Result<()> {
    for byte in piece {
        match byte {
            b'%' => put_number(alloc, out, b"", u64::from(number))?,
            b'^' => put_number(alloc, out, b"", u64::from(number) + 1)?,
            _ => out.push(*byte)?,
        }
    }
    Ok(())
}

// The head, the piece and the tail of a text of many pieces.
fn parts_of(parts: &str) -> Option<(&str, &str, &str)> {
    let Some((head, rest)) = parts.split_once('|') else {
        return None;
    };
    match rest.split_once('|') {
        Some((piece, tail)) => Some((head, piece, tail)),
        None => None,
    }
}

fn put_pieces(alloc: Global, out: &mut Vec<u8>, piece: &[u8], count: u32) -> io::Result<()> {
    for number in 0..count {
        put_piece(alloc, out, piece, number)?;
    }
    Ok(())
}

// A text of so many pieces.
fn long(alloc: Global, count: u32, head: &str, piece: &str, tail: &str) -> io::Result<Vec<u8>> {
    let mut out = copied(alloc, head.as_bytes())?;
    put_pieces(alloc, &mut out, piece.as_bytes(), count)?;
    out.extend_from_slice(tail.as_bytes())?;
    Ok(out)
}

fn row_of(
    alloc: Global,
    area: Area,
    text: &[u8],
    is_long: bool,
) -> io::Result<Option<ConfigurationRow>> {
    let text = broken(alloc, text, mark_of(area, is_long))?;
    Ok(Some(ConfigurationRow {
        area,
        text,
        is_long,
    }))
}

// A row of a text of so many pieces; none where its parts aren't there.
fn long_row(
    alloc: Global,
    area: Area,
    count: u32,
    parts: &str,
) -> io::Result<Option<ConfigurationRow>> {
    let Some((head, piece, tail)) = parts_of(parts) else {
        return Ok(None);
    };
    let text = long(alloc, count, head, piece, tail)?;
    row_of(alloc, area, &text, true)
}

// The number at the front of a text, and what stands behind it.
fn counted(text: &str) -> Option<(u32, &str)> {
    let Some((count, parts)) = text.split_once(' ') else {
        return None;
    };
    match count.parse::<u32>() {
        Ok(count) => Some((count, parts)),
        Err(_) => None,
    }
}

fn read_text(alloc: Global, area: Area, text: &str) -> io::Result<Option<ConfigurationRow>> {
    match counted(text) {
        Some((count, parts)) => long_row(alloc, area, count, parts),
        None => row_of(alloc, area, text.as_bytes(), false),
    }
}

/// The row of a line, where it is understood.
pub(crate) fn read_row(alloc: Global, line: &str) -> io::Result<Option<ConfigurationRow>> {
    let Some((word, text)) = line.split_once(' ') else {
        return Ok(None);
    };
    match area_of(word) {
        Some(area) => read_text(alloc, area, text),
        None => Ok(None),
    }
}
