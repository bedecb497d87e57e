// A real file that takes frames.
ghost use Rattle.std.specs.Prelude.{◌≡◌, IfOk};
ghost use Rattle.sg_file.specs.Counts.{outlet_state, new_outlet};
ghost use Rattle.sg_file.specs.Outlet.{outlet_of};

use crate::{Appending, IdleWait, OutletCounts, Target};
use sg_device::{Frames, OpenRefusal, Outlet, OutletFault, Reopened, SendRefusal};
use std::alloc::Global;

/// A file that is appended to, by one write for all frames of a send. A frame that was taken is with
/// the kernel, or on the disk where that is asked. What a full disk left of a frame that wasn't taken
/// is cut off again, where it is one piece at the file's end.
pub struct FileOutlet {
    target: Target,
    counts: OutletCounts,
}

impl Drop for FileOutlet {
    fn drop(self) {
        let FileOutlet {
            target: _target,
            counts: _counts,
        } = self;
    }
}

impl FileOutlet {
    /// Opens a file for appending, and makes it where it is missing. A failure is told on standard
    /// error.
    pub fn open(
        alloc: Global,
        rt: HostRuntime,
        path: &[u8],
        how: Appending,
        rest: IdleWait,
    ) -> Result<FileOutlet, OpenRefusal>
        ensures { IfOk result (λ outlet. outlet_of outlet ≡ new_outlet) }
    {
        Ok(FileOutlet {
            target: Target::open(alloc, rt, path, how, rest)?,
            counts: OutletCounts::new(),
        })
    }

    /// What was counted so far.
    pub fn counts(&self) -> OutletCounts
        ensures { outlet_state result ≡ outlet_of self.now }
    {
        self.counts
    }
}

impl Outlet for FileOutlet {
    ghost state = { outlet_of };

    fn send(&mut self, frames: &Frames) -> Result<(), SendRefusal> {
        let all = frames.len();
        let whole = if self.counts.has_room(all) {
            self.target.put(frames)
        } else {
            0
        };
        self.counts.sent(whole, all, SendRefusal::Fault)
    }

    fn taken(&self) -> u64 {
        self.counts.taken
    }

    fn reopen(&mut self) -> Result<Reopened, OutletFault> {
        let got = self.target.reopen();
        self.counts.reopened(got)
    }
}
