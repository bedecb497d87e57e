// A file that is read, and the mark of which one it is.
ghost use Rattle.std.specs.Prelude.{◌≡◌, codes, true, IfOk};
ghost use Rattle.sg_file.specs.Counts.{inlet_state, new_inlet};
ghost use Rattle.sg_file.specs.Seeking.{StartsAt};
ghost use Rattle.sg_host.specs.Marked.{marked_of};

use sg_device::{Inlet, InletFault, OpenRefusal, Pull};
use sg_file::{FileInlet, IdleWait, InletCounts, Mark};
use std::alloc::Global;
use std::thread::Threads;

/// A file that is read from a place on. Where its position is stored, a mark beside the store tells which file
/// that is the position in.
#[derive(Drop)]
pub struct MarkedFile {
    file: FileInlet,
    mark: Option<Mark>,
}

impl MarkedFile {
    /// Opens it as `FileInlet::open` does. With `marked` it begins at 0 too where the mark is another
    /// file's, which is told.
    pub fn open<T: Threads>(
        threads: &T,
        alloc: Global,
        rt: HostRuntime,
        path: &[u8],
        once: bool,
        limit: u32,
        from: u64,
        marked: bool,
        rest: &IdleWait,
    ) -> Result<MarkedFile, OpenRefusal>
        ensures opened { IfOk result (λ marked. marked_of marked
            ≡ new_inlet (codes "localhost") (marked_of marked).from true) }
        ensures place { IfOk result (λ marked. StartsAt from (marked_of marked).from) }
    {
        let file = FileInlet::open(threads, alloc, rt, path, once, limit, from, rest.share()?)?;
        if !marked {
            return Ok(MarkedFile { file, mark: None });
        }
        let mut mark = Mark::open(alloc, rt, path)?;
        if file.counts().place == 0 || !mark.is_another(&file) {
            return Ok(MarkedFile {
                file,
                mark: Some(mark),
            });
        }
        let file = FileInlet::open(threads, alloc, rt, path, once, limit, 0, rest.share()?)?;
        Ok(MarkedFile {
            file,
            mark: Some(mark),
        })
    }

    /// What was counted so far.
    pub fn counts(&self) -> &InletCounts
        ensures { inlet_state result.now ≡ marked_of self.now }
    {
        self.file.counts()
    }

    /// Closes the file, and hands out what was counted.
    pub fn into_counts(self) -> InletCounts
        ensures { inlet_state result ≡ marked_of self }
    {
        let MarkedFile { file, .. } = self;
        file.into_counts()
    }
}

impl Inlet for MarkedFile {
    ghost state = { marked_of };

    fn pull(&mut self, into: &mut [u8]) -> Result<Pull, InletFault> {
        if let Some(mark) = &mut self.mark {
            mark.keep(&self.file);
        }
        self.file.pull(into)
    }

    fn peer(&self) -> &[u8] {
        self.file.peer()
    }

    fn hangup(&mut self) {
        self.file.hangup();
    }
}
