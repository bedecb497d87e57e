// The files that a run reads or has its stores in: none of them is appended to.
use std::alloc::{AllocError, Global};
use std::fs::File;
use std::io;
use std::os::unix::fs::MetadataExt;
use std::sync::Arc;
use std::sync::atomic::{AtomicU64, Ordering};

// The most of them that are noted at a time. A run has 128 sources and 192 stores at most.
const MOST: u64 = 512;

// A device and an inode. No file has the inode 0.
#[derive(Drop)]
struct Place {
    device: AtomicU64,
    inode: AtomicU64,
}

/// The sources and the stores that are open, by their devices and inodes. They are opened before any file
/// that is appended to.
#[derive(Drop)]
pub(crate) struct Reserved {
    places: Vec<Place>,
}

impl Reserved {
    pub(crate) fn new(alloc: Global) -> Result<Reserved, AllocError> {
        let mut places = Vec::new(alloc);
        for _ in 0..MOST {
            places.push(Place {
                device: AtomicU64::new(0),
                inode: AtomicU64::new(0),
            })?;
        }
        Ok(Reserved { places })
    }

    /// Whether this file is one of them.
    pub(crate) fn has(&self, file: &File) -> io::Result<bool> {
        let about = file.metadata()?;
        for place in &self.places {
            if place.inode.load(Ordering::SeqCst) == about.ino()
                && place.device.load(Ordering::SeqCst) == about.dev()
            {
                return Ok(true);
            }
        }
        Ok(false)
    }

    // Notes a file, and tells where.
    fn add(&self, file: &File) -> Option<usize> {
        let about = file.metadata().ok()?;
        for (number, place) in self.places.iter().enumerate() {
            let free = place
                .inode
                .compare_exchange(0, about.ino(), Ordering::SeqCst, Ordering::SeqCst);
            if free.is_ok() {
                place.device.store(about.dev(), Ordering::SeqCst);
                return Some(number);
            }
        }
        None
    }

    fn remove(&self, number: usize) {
        if let Some(place) = self.places.get(number) {
            place.inode.store(0, Ordering::SeqCst);
        }
    }
}

/// A file stays reserved until this is dropped.
pub struct Reservation {
    reserved: Arc<Reserved>,
    // Where it is noted.
    number: Option<usize>,
}

impl Reservation {
    pub(crate) fn new(reserved: &Arc<Reserved>, file: &File) -> Result<Reservation, AllocError> {
        let reserved = Arc::try_clone(reserved)?;
        let number = reserved.add(file);
        Ok(Reservation { reserved, number })
    }
}

impl Drop for Reservation {
    fn drop(self) {
        let Reservation { reserved, number } = self;
        if let Some(number) = number {
            reserved.remove(number);
        }
    }
}
