// Where the reading of a real file begins.
ghost use Rattle.std.specs.Prelude.{IfOk};
ghost use Rattle.sg_file.specs.Seeking.{StartsAt};

use std::fs::File;
use std::io::{self, ErrorKind, Seek, SeekFrom};
use std::os::unix::fs::FileExt;

// So many bytes are looked at in one read.
const PIECE: usize = 4_096;

/// Moves to a place in a file, or stays at 0 where the file has fewer bytes, where the place is 2^63
/// or more, or where no record of lines of at most `limit` bytes can have ended there.
pub fn seek_to(file: &mut File, limit: u32, from: u64) -> io::Result<u64>
    ensures { IfOk result (StartsAt from) }
{
    if from == 0 || from >= 1 << 63 {
        return Ok(0);
    }
    if file.metadata()?.len() < from || !is_record_end(file, limit, from)? {
        return Ok(0);
    }
    file.seek(SeekFrom::Start(from))?;
    Ok(from)
}

// Whether the byte before the place is a line feed, or none of the `limit` bytes before it is one.
fn is_record_end(file: &File, limit: u32, place: u64) -> io::Result<bool> {
    let mut last = [0u8; 1];
    file.read_exact_at(&mut last, place.saturating_sub(1))?;
    if last[0] == b'\n' {
        return Ok(true);
    }
    if u64::from(limit) > place {
        return Ok(false);
    }
    has_no_line_feed(file, place - u64::from(limit), place)
}

fn has_no_line_feed(file: &File, from: u64, to: u64) -> io::Result<bool> {
    let mut piece = [0u8; PIECE];
    let mut at = from;
    for _ in 0..u64::MAX {
        if at >= to {
            return Ok(true);
        }
        let len = PIECE.min((to - at).min(PIECE as u64) as usize);
        let part = &mut piece[..len];
        file.read_exact_at(part, at)?;
        if part.contains(&b'\n') {
            return Ok(false);
        }
        at += len as u64;
    }
    Err(io::Error::from(ErrorKind::Interrupted))
}
