// One lock for each file that is appended to, whatever number of destinations append to it.
use std::alloc::{AllocError, Global};
use std::fs::File;
use std::os::unix::fs::MetadataExt;
use std::sync::atomic::{AtomicU64, Ordering};
use std::thread;
use std::time::Duration;

// The locks of a machine. Two files may have the same one.
const LOCKS: u64 = 256;

// A cut is under way. Other values are the number of writes under way.
const CUT: u64 = 1 << 32;

/// The locks of the files that are appended to. Any number of writes hold a file's lock together, and a
/// cut holds it alone: so a cut at the file's end takes away nothing that somebody else has appended
/// since it looked.
#[derive(Drop)]
pub(crate) struct Locks {
    counts: Vec<AtomicU64>,
}

impl Locks {
    pub(crate) fn new(alloc: Global) -> Result<Locks, AllocError> {
        let mut counts = Vec::new(alloc);
        for _ in 0..LOCKS {
            counts.push(AtomicU64::new(0))?;
        }
        Ok(Locks { counts })
    }

    /// A write of the file with this number begins, once no cut is under way.
    pub(crate) fn begin_write(&self, rt: &HostRuntime, number: u64) {
        let Some(count) = self.count_of(number) else {
            return;
        };
        for _ in 0..u64::MAX {
            if count.fetch_add(1, Ordering::SeqCst) < CUT {
                return;
            }
            count.fetch_sub(1, Ordering::SeqCst);
            thread::sleep(rt, Duration::from_millis(1));
        }
    }

    /// It has ended.
    pub(crate) fn end_write(&self, number: u64) {
        if let Some(count) = self.count_of(number) {
            count.fetch_sub(1, Ordering::SeqCst);
        }
    }

    /// A cut of the file with this number begins, where no write and no other cut is under way.
    pub(crate) fn try_begin_cut(&self, number: u64) -> bool {
        let Some(count) = self.count_of(number) else {
            return false;
        };
        count
            .compare_exchange(0, CUT, Ordering::SeqCst, Ordering::SeqCst)
            .is_ok()
    }

    /// It has ended.
    pub(crate) fn end_cut(&self, number: u64) {
        if let Some(count) = self.count_of(number) {
            count.fetch_sub(CUT, Ordering::SeqCst);
        }
    }

    fn count_of(&self, number: u64) -> Option<&AtomicU64> {
        self.counts.get((number % LOCKS) as usize)
    }
}

/// The number by which a file has its lock: equal for all openings of it.
pub(crate) fn number_of(file: &File) -> u64 {
    match file.metadata() {
        Ok(about) => about.dev().wrapping_mul(31).wrapping_add(about.ino()),
        Err(_) => 0,
    }
}
