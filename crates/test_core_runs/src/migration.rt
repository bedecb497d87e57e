// Cores over a disk-buffer of an older format.
ghost use Rattle.std.specs.Prelude.{◌≡◌, ◌≤◌, ◌<◌, ◌+◌, ◌^◌, IfOk, length};
ghost use Rattle.test_core_runs.specs.Cores.{IsTried};

use crate::cores::{FIFO, FIRST, SECOND, WINDOW, disks, open};
use crate::entries::MadeOffer;
use crate::images::{images, picks};
use crate::lines::DestLine;
use crate::openings::OpenedCore;
use crate::runs::{EndedRun, unbegun};
use crate::steps::RunSoFar;
use sg_core::{Core, CoreRefusal};
use sg_counter::CoreFront;
use sg_memory_disk::{DiskChange, MemoryDisk};
use sg_msg::Message;
use std::alloc::{AllocError, Global};
use test_replies::ReplyText;

// The store of destination 0.
const STORE: usize = 3;

// The bytes of a store, `PLACE WORDS` for each of its parts, with `;` between two: the words are hexadecimal, and
// what stands in no part is zero. It has 128 bytes at least.
fn bytes_of(alloc: Global, parts: &str) -> Result<Vec<u8>, AllocError> {
    let mut bytes = Vec::new(alloc);
    for part in parts.split(';') {
        let (at, words) = part.trim().split_once(' ').unwrap_or(("", ""));
        let at: usize = at.parse().unwrap_or(0);
        bytes.resize(at.min(1 << 20), 0)?;
        add_words(alloc, &mut bytes, words)?;
    }
    if bytes.len() < 128 {
        bytes.resize(128, 0)?;
    }
    Ok(bytes)
}

fn add_words(alloc: Global, bytes: &mut Vec<u8>, words: &str) -> Result<(), AllocError> {
    for word in words.split(' ') {
        if let Ok(part) = hex::decode(alloc, word) {
            bytes.extend_from_slice(&part)?;
        }
    }
    Ok(())
}

// Whether these are hexadecimal words.
fn are_words(words: &str) -> bool {
    for word in words.split(' ') {
        for digit in word.as_bytes() {
            if !matches!(*digit, b'0'..=b'9' | b'a'..=b'f') {
                return false;
            }
        }
        if word.len() % 2 != 0 {
            return false;
        }
    }
    true
}

// Whether it is a part of a store.
fn is_part(part: &str) -> bool {
    let (place, words) = part.split_once(' ').unwrap_or(("", ""));
    match place.parse::<usize>() {
        Ok(place) => place <= 1 << 20 && are_words(words),
        Err(_) => false,
    }
}

/// Whether these are the parts of a store.
pub(crate) fn are_parts(parts: &str) -> bool {
    for part in parts.split(';') {
        if !is_part(part.trim()) {
            return false;
        }
    }
    true
}

/// The disks of a core, of which that of destination 0 has these bytes and fails behind so many calls.
pub(crate) fn disks_with(
    alloc: Global,
    parts: &str,
    calls: Option<u64>,
) -> Result<Vec<MemoryDisk>, AllocError>
    ensures { IfOk result (λ disks. length disks.items ≡ 5) }
{
    let bytes = bytes_of(alloc, parts)?;
    let mut disks = disks(alloc)?;
    if bytes.len() < 1 << 30 {
        disks[STORE] = MemoryDisk::new(alloc, bytes)?;
    }
    if let Some(calls) = calls {
        disks[STORE].stop_after(calls);
    }
    Ok(disks)
}

/// A run that begins over so many entries at destination 0, which have three bytes of text each.
pub(crate) fn over_older(alloc: Global, count: u32) -> Result<EndedRun, AllocError> {
    let mut made = Vec::new(alloc);
    let mut numbers = Vec::new(alloc);
    for number in 0..count {
        made.push(MadeOffer {
            source: 0,
            end: 0,
            dest: 0,
            size: 61,
            flow: false,
            settled: false,
        })?;
        numbers.push(number)?;
    }
    let found = OpenedCore {
        positions: [0; 3],
        lines: [
            DestLine::over(alloc, numbers),
            DestLine::new(alloc),
            DestLine::new(alloc),
        ],
    };
    Ok(unbegun(RunSoFar::over(alloc, &made, found)?, [0; 3]))
}

fn put_texts(out: &mut ReplyText, messages: &[Message]) {
    for message in messages {
        out.put(message.get(b"MESSAGE").unwrap_or(b"?"));
        out.push(b',');
    }
}

// The texts of the entries of destination 0, with a comma behind each: the first one's place and their number.
fn put_front(
    alloc: Global,
    core: &mut Core<MemoryDisk>,
    out: &mut ReplyText,
) -> Result<(u64, u32), AllocError>
    requires tried { IsTried core.old }
    requires calls { core.old.calls + 1 < 2 ^ 54 }
    ensures tried { IsTried core.new }
    ensures calls { core.new.calls ≤ core.old.calls + 1 }
{
    match core.front(alloc, 0, 1000)? {
        CoreFront::Entries { place, messages } => {
            put_texts(out, messages.as_slice());
            Ok((place, messages.len().min(1000) as u32))
        }
        CoreFront::Empty => Ok((0, 0)),
        CoreFront::Broken => {
            out.put(b"broken");
            Ok((0, 0))
        }
    }
}

// The texts that a core finds over these disks, of which as many are settled as are shown, where that is asked.
fn found(
    alloc: Global,
    disks: Vec<MemoryDisk>,
    settles: bool,
) -> Result<(Vec<u8>, Vec<MemoryDisk>), AllocError>
    requires { length disks.items ≡ 5 }
{
    let mut out = ReplyText::new(alloc);
    let mut core = match open(alloc, WINDOW, FIFO, FIRST, SECOND, disks) {
        Ok(core) => core,
        Err((disks, _)) => return Ok((Vec::from_slice(alloc, b"refused")?, disks)),
    };
    let told = put_front(alloc, &mut core, &mut out);
    if let Ok((place, n)) = &told {
        if settles && *n > 0 {
            core.settle(0, *place, *n);
        }
    }
    let disks = core.into_stores();
    told?;
    Ok((out.done()?, disks))
}

fn put_change(out: &mut ReplyText, change: &DiskChange) {
    match change {
        DiskChange::Wrote(written) => {
            out.put_count(b" ", written.bytes.len() as u64);
            out.put_count(b"@", written.at);
        }
        DiskChange::Synced => out.put(b" sync"),
        DiskChange::Tore(_) | DiskChange::Lost(_) => out.put(b" torn"),
    }
}

// What the disk-buffer's store was changed by.
fn changes(alloc: Global, disks: &[MemoryDisk]) -> Result<Vec<u8>, AllocError> {
    let mut out = ReplyText::new(alloc);
    if let Some(disk) = disks.get(STORE) {
        for change in disk.changes() {
            put_change(&mut out, change);
        }
    }
    out.done()
}

// How often a stopped opening is refused, and how many images have these texts and how many haven't.
#[derive(Clone, Copy, Drop)]
struct StoppedCounts {
    refused: u64,
    same: u64,
    other: u64,
}

impl StoppedCounts {
    fn refuse(&mut self, refusal: CoreRefusal) {
        if refusal == CoreRefusal::DiskFault(STORE as u32) {
            self.refused = self.refused.saturating_add(1);
        }
    }

    fn compare(&mut self, said: &[u8], wanted: &[u8]) {
        if said == wanted {
            self.same = self.same.saturating_add(1);
        } else {
            self.other = self.other.saturating_add(1);
        }
    }

    fn put(&self, out: &mut ReplyText) {
        out.put_count(b"; ", self.refused);
        out.put_count(b" refused, ", self.same);
        out.put(b" images the same");
    }
}

// What an opening that stops behind so many calls leaves.
fn stop_opening(
    alloc: Global,
    parts: &str,
    calls: u64,
    sums: &mut StoppedCounts,
) -> Result<Vec<MemoryDisk>, AllocError> {
    let disks = disks_with(alloc, parts, Some(calls))?;
    match open(alloc, WINDOW, FIFO, FIRST, SECOND, disks) {
        Ok(core) => Ok(core.into_stores()),
        Err((disks, refusal)) => {
            sums.refuse(refusal);
            Ok(disks)
        }
    }
}

// What a core finds over an image of these disks.
fn look_into(
    alloc: Global,
    disks: &[MemoryDisk],
    letters: &str,
    wanted: &[u8],
    sums: &mut StoppedCounts,
) -> Result<(), AllocError> {
    let picks = picks(alloc, letters)?;
    let images = images(alloc, disks, &picks)?;
    if images.len() == 5 {
        let (said, _) = found(alloc, images, false)?;
        sums.compare(&said, wanted);
    }
    Ok(())
}

fn stop_openings(alloc: Global, parts: &str, wanted: &[u8]) -> Result<StoppedCounts, AllocError> {
    let mut sums = StoppedCounts {
        refused: 0,
        same: 0,
        other: 0,
    };
    for calls in 0..30u64 {
        let disks = stop_opening(alloc, parts, calls, &mut sums)?;
        for letters in ["o", "n", "1", "0"] {
            look_into(alloc, &disks, letters, wanted, &mut sums)?;
        }
    }
    Ok(sums)
}

// The texts that are found over what an opening left, and once more when these are settled.
fn put_again(alloc: Global, disks: Vec<MemoryDisk>, out: &mut ReplyText) -> Result<(), AllocError> {
    if disks.len() != 5 {
        out.put(b" no stores");
        return Ok(());
    }
    let (second, disks) = found(alloc, disks, true)?;
    out.push(b' ');
    out.put(&second);
    if disks.len() != 5 {
        out.put(b" no stores");
        return Ok(());
    }
    let (third, _) = found(alloc, disks, false)?;
    out.push(b' ');
    out.put(&third);
    Ok(())
}

fn answers(alloc: Global, parts: &str) -> Result<Vec<u8>, AllocError> {
    let (first, disks) = found(alloc, disks_with(alloc, parts, None)?, false)?;
    let changes = changes(alloc, &disks)?;
    let sums = stop_openings(alloc, parts, &first)?;
    let mut out = ReplyText::new(alloc);
    if sums.other > 0 {
        out.put_count(b"DIFFERS in ", sums.other);
        out.put(b": ");
    }
    out.put(&first);
    put_again(alloc, disks, &mut out)?;
    out.push(b':');
    out.put(&changes);
    sums.put(&mut out);
    out.done()
}

/// The texts of the entries that a core finds over these bytes, what it has changed by then, what another finds over
/// what that leaves, and once more when these are settled. Then its opening is stopped behind each number of calls
/// up to 30: how often it is refused, and how many images have the same texts.
pub(crate) fn said(alloc: Global, parts: &str) -> Result<Vec<u8>, AllocError> {
    if are_parts(parts) {
        return answers(alloc, parts);
    }
    Vec::from_slice(alloc, b"not understood")
}
