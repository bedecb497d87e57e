// Opening a file for reading, with no call that waits for long.
use crate::open::open_to_read;
use std::alloc::{AllocError, Global};
use std::fs::File;
use std::io::{self, ErrorKind};
use std::sync::{Arc, OnceLock};
use std::thread::{self, Threads};
use std::time::Duration;

// How often it is looked whether the file is open, a millisecond apart.
const LOOKS: u32 = 5_000;

// A file that a thread of its own opens. Where a FIFO has got the name since it was looked at, the system's
// call waits for its other end and can't be broken off: so nobody joins the thread, which has nothing that
// another needs.
#[derive(Drop)]
struct OpenJob {
    rt: HostRuntime,
    path: String,
    place: Arc<OnceLock<io::Result<File>>>,
}

impl OpenJob {
    fn run(self) {
        // Nobody else writes there.
        let _written = self
            .place
            .try_set(open_to_read(&self.rt, self.path.as_str()));
    }
}

/// Opens a regular file for reading, within 5 seconds.
pub(crate) fn open_beside<T: Threads>(
    threads: &T,
    alloc: Global,
    rt: &HostRuntime,
    path: &str,
) -> io::Result<File> {
    let place = begin(threads, alloc, rt, path)?;
    for _ in 0..LOOKS {
        match place.get() {
            Some(Ok(file)) => return file.try_clone(),
            Some(Err(error)) => return Err(*error),
            None => thread::sleep(rt, Duration::from_millis(1)),
        }
    }
    Err(io::Error::from(ErrorKind::TimedOut))
}

fn begin<T: Threads>(
    threads: &T,
    alloc: Global,
    rt: &HostRuntime,
    path: &str,
) -> Result<Arc<OnceLock<io::Result<File>>>, AllocError> {
    let place = Arc::new(alloc, OnceLock::new())?;
    let job = OpenJob {
        rt: *rt,
        path: String::from_str(alloc, path)?,
        place: Arc::try_clone(&place)?,
    };
    let _left_alone = thread::spawn(threads, move || job.run())?;
    Ok(place)
}
