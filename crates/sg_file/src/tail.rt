// The bytes in front of the place at which a file is read.
use sg_device::NoMemory;
use std::alloc::Global;
use std::fs::File;
use std::io::ErrorKind;
use std::os::unix::fs::FileExt;

// So many of them are kept.
const MOST: usize = 64;

/// The last bytes that were read of a file, by which it shows where it was truncated and written anew.
#[derive(Drop)]
pub(crate) struct Tail {
    bytes: Vec<u8>,
}

impl Tail {
    /// Those in front of a place at which reading begins. Where they can't be read there are none.
    pub(crate) fn read(alloc: Global, file: &File, place: u64) -> Result<Tail, NoMemory> {
        let mut bytes = vec![in alloc; 0u8; MOST]?;
        let count = place.min(MOST as u64) as usize;
        bytes.truncate(count);
        if file
            .read_exact_at(&mut bytes, place.saturating_sub(count as u64))
            .is_err()
        {
            bytes.clear();
        }
        Ok(Tail { bytes })
    }

    /// These bytes were read behind them.
    pub(crate) fn add(&mut self, bytes: &[u8]) {
        let last = bytes.len().saturating_sub(MOST);
        let kept = MOST.saturating_sub(bytes.len()).min(self.bytes.len());
        let dropped = self.bytes.len() - kept;
        self.bytes.rotate_left(dropped);
        self.bytes.truncate(kept);
        if self.bytes.extend_from_slice(&bytes[last..]).is_err() {
            self.bytes.clear();
        }
    }

    /// Whether they still stand in front of this place.
    pub(crate) fn stands(&self, file: &File, place: u64) -> bool {
        let mut buffer = [0u8; MOST];
        let count = self.bytes.len().min(MOST);
        match file.read_exact_at(&mut buffer[..count], place.saturating_sub(count as u64)) {
            Ok(()) => is_same(&buffer[..count], &self.bytes[..count]),
            Err(error) => error.kind() != ErrorKind::UnexpectedEof,
        }
    }
}

fn is_same(one: &[u8], other: &[u8]) -> bool {
    one == other
}
