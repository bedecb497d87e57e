//! An outlet of files by their paths, in memory. A row has how many files are held open, what the calls of the opener come
//! to, and what is done; it says what each of that came to, and the texts that were taken under their paths.

ghost use Rattle.std.specs.Prelude.{◌<◌};
ghost use Rattle.sg_device.specs.Paths.{IsNewOpener};
ghost use Rattle.sg_memory.specs.Paths.{paths_of};

mod rows;

use rows::{frames, plan};
use sg_device::{Outlet, Reopened, SendRefusal};
use sg_dynfile::DynFile;
use sg_memory::{MemoryPaths, TakenText};
use std::alloc::{AllocError, Global};

fn sent(
    file: &mut DynFile<MemoryPaths>,
    alloc: Global,
    words: &str,
) -> Result<&'static str, AllocError> {
    let frames = frames(alloc, words)?;
    if frames.is_empty() {
        return Ok("nothing");
    }
    Ok(match file.send(&frames) {
        Ok(()) => "taken",
        Err(SendRefusal::Fault) => "fault",
        Err(SendRefusal::Later) => "later",
        Err(SendRefusal::NoMemory) => "no memory",
    })
}

fn reopened(file: &mut DynFile<MemoryPaths>) -> &'static str {
    match file.reopen() {
        Ok(Reopened::Ready) => "ready",
        Ok(Reopened::Later) => "later",
        Err(_) => "fault",
    }
}

fn flushed(file: &mut DynFile<MemoryPaths>) -> &'static str {
    file.flush();
    "flushed"
}

// What a word came to: a reopening, a flush, or a send.
fn step(
    file: &mut DynFile<MemoryPaths>,
    alloc: Global,
    word: &str,
    said: &mut Vec<u8>,
) -> Result<(), AllocError> {
    let answer = match word {
        "reopen" => reopened(file),
        "flush" => flushed(file),
        _ => sent(file, alloc, word)?,
    };
    let taken = file.taken();
    let files = file.open_files();
    let text = format!(in alloc; "{answer} {taken} in {files}; ")?;
    said.extend_from_slice(text.as_bytes())
}

fn steps(
    file: &mut DynFile<MemoryPaths>,
    alloc: Global,
    words: &str,
    said: &mut Vec<u8>,
) -> Result<(), AllocError> {
    for word in words.split(' ') {
        step(file, alloc, word, said)?;
    }
    Ok(())
}

fn put(taken: &TakenText, said: &mut Vec<u8>) -> Result<(), AllocError> {
    said.push(b' ')?;
    said.extend_from_slice(taken.path.bytes())?;
    said.push(b'=')?;
    said.extend_from_slice(&taken.text)
}

// The texts that were taken, and the number of files that are still open.
fn texts(opener: &MemoryPaths, alloc: Global, said: &mut Vec<u8>) -> Result<(), AllocError> {
    let files = opener.opened().len();
    let text = format!(in alloc; "{files} open:")?;
    said.extend_from_slice(text.as_bytes())?;
    for taken in opener.texts() {
        put(taken, said)?;
    }
    Ok(())
}

// Over so many files held open.
fn run(
    alloc: Global,
    opener: MemoryPaths,
    held: u32,
    words: &str,
    said: &mut Vec<u8>,
) -> Result<(), AllocError>
    requires fresh { IsNewOpener (paths_of opener) }
    requires some { 0 < held }
{
    let mut file = DynFile::new(alloc, opener, held);
    let done = steps(&mut file, alloc, words, said);
    let opener = file.into_opener();
    done?;
    texts(&opener, alloc, said)
}

// HELD PLAN WORDS
fn parts(row: &str) -> Option<(u32, &str, &str)> {
    let (held, rest) = row.split_once(' ')?;
    let (plan, words) = rest.split_once(' ')?;
    let held = held.parse::<u32>().ok()?;
    Some((held, plan, words))
}

/// Says what a row comes to.
pub(crate) fn tell(alloc: Global, row: &str, said: &mut Vec<u8>) -> Result<(), AllocError> {
    let Some((held, calls, words)) = parts(row) else {
        return said.extend_from_slice(b"not understood");
    };
    if held == 0 {
        return said.extend_from_slice(b"none held");
    }
    let opener = MemoryPaths::new(alloc, plan(alloc, calls)?);
    run(alloc, opener, held, words, said)
}
