// Which frames are due, and which were taken.
use sg_device::{Frames, NoMemory};
use sg_memory::MemoryOutletCell;
use std::alloc::Global;

/// The lines of the file, each of which is a record.
pub(crate) const LINES: &[u8] = b"one\ntwo\nthree\nfour\nfive\n";

/// What outlets took of the frames that are due: those of the lines.
#[derive(Drop)]
pub(crate) struct Due {
    // For each line whether its frame was taken.
    taken: Vec<bool>,
    other: u64,
}

// Which line's frame this is.
fn place_of(frame: &[u8]) -> Option<usize> {
    let Some(text) = frame.strip_suffix(b"\n") else {
        return None;
    };
    for (place, line) in LINES.split(|byte| *byte == b'\n').enumerate() {
        if line == text {
            return Some(place);
        }
    }
    None
}

impl Due {
    /// Nothing was taken yet.
    pub(crate) fn new(alloc: Global) -> Result<Due, NoMemory> {
        let lines = LINES.iter().filter(|byte| **byte == b'\n').count();
        let mut taken = Vec::new(alloc);
        for _line in 0..lines {
            taken.push(false)?;
        }
        Ok(Due { taken, other: 0 })
    }

    /// The same was taken.
    pub(crate) fn copy(&self, alloc: Global) -> Result<Due, NoMemory> {
        Ok(Due {
            taken: Vec::from_slice(alloc, &self.taken)?,
            other: self.other,
        })
    }

    fn take(&mut self, frame: &[u8]) {
        match place_of(frame) {
            Some(place) if place < self.taken.len() => self.taken[place] = true,
            _ => self.other = self.other.saturating_add(1),
        }
    }

    fn take_frames(&mut self, frames: &Frames) {
        let mut rest = frames.bytes();
        for size in frames.sizes() {
            self.take(rest.get(..*size).unwrap_or(rest));
            rest = rest.get(*size..).unwrap_or(b"");
        }
    }

    /// The closed outlets took their frames.
    pub(crate) fn take_all(&mut self, cell: &MemoryOutletCell) {
        if let Some(before) = &cell.before {
            self.take_all(before);
        }
        if let Some(outlet) = &cell.closed {
            self.take_frames(outlet.frames());
        }
    }

    /// Each frame that is due was taken, and no other one.
    pub(crate) fn is_done(&self) -> bool {
        self.other == 0 && !self.taken.contains(&false)
    }

    /// A letter for each line, `t` where its frame was taken, and how many other frames were.
    pub(crate) fn said(&self, alloc: Global) -> Result<String, NoMemory> {
        let mut said = String::new(alloc);
        for taken in &self.taken {
            said.push(if *taken { 't' } else { '-' })?;
        }
        Ok(format!(in alloc; "{said} and {} others", self.other)?)
    }
}
