// An outlet over files by their paths.
ghost use Rattle.std.specs.Prelude.{◌≡◌, ◌≢◌, ◌≤◌, ◌<◌, [], length};
ghost use Rattle.sg_device.specs.Outlet.{Sends, Reopens, IsUnusedOutlet};
ghost use Rattle.sg_device.specs.Paths.{IsNewOpener};
ghost use Rattle.sg_dynfile.specs.Tracks.{IsClosed};
ghost use Rattle.sg_dynfile.specs.View.{outlet_of, LieUnderPaths};

use crate::sending::{close_after, close_all, close_unused, send_all};
use crate::{OpenPaths, Waiting};
use sg_by_path::SendsByPath;
use sg_device::{Frames, Outlet, OutletFault, Reopened, SendRefusal};
use std::alloc::Global;
use std::marker::Model;

/// An outlet for frames that say to which file they go. Each text goes to the file of its path, in
/// the order of the frames; those whose files are open are handed to the opener together. A send ends
/// at the first that is refused. So many files are held open at most: before one more is opened, the
/// one that was used least recently is closed.
pub struct DynFile<P: SendsByPath> {
    opener: P,
    open_paths: OpenPaths,
    // The texts that are sent together. There is none between sends.
    waiting: Waiting,
    // Whether the last send failed.
    failed: bool,
}

impl<P: SendsByPath> Model for DynFile<P> {
    ghost use Rattle.sg_dynfile.specs.View.{DynfileView, IsSound};

    ghost Value = { DynfileView P };

    ghost view = { λ file. record { opener = file.opener; open_paths = file.open_paths } };

    ghost invariant = { λ file. IsSound P.state
        (record { opener = file.opener; open_paths = file.open_paths }) };
}

impl<P: SendsByPath> DynFile<P> {
    /// Over an opener that has opened nothing yet. It takes no memory.
    pub fn new(alloc: Global, opener: P, held: u32) -> DynFile<P>
        requires fresh { IsNewOpener (P.state opener) }
        requires some { 0 < held }
        ensures fresh { IsUnusedOutlet (outlet_of P.state result) }
        ensures opener { result.opener ≡ opener }
        ensures held { result.open_paths.held ≡ held }
    {
        DynFile {
            opener,
            open_paths: OpenPaths::new(alloc, held),
            waiting: Waiting::new(alloc),
            failed: false,
        }
    }

    /// How many files are open.
    pub fn open_files(&self) -> usize
        ensures files { result ≡ length (P.state self.now.opener).opened }
        ensures most { result ≤ self.now.open_paths.held }
    {
        self.open_paths.names.len()
    }

    /// Closes all files, and gives the opener back. It takes no memory.
    pub fn into_opener(self) -> P
        ensures closed { IsClosed (P.state self.opener) (P.state result) }
        ensures texts { LieUnderPaths (outlet_of P.state self).taken (P.state result).taken }
    {
        let DynFile {
            mut opener,
            mut open_paths,
            waiting: _waiting,
            failed: _,
        } = self;
        close_all(&mut opener, &mut open_paths);
        opener
    }
}

impl<P: SendsByPath> Outlet for DynFile<P> {
    ghost use Rattle.sg_dynfile.specs.View.{outlet_of};

    ghost state = { outlet_of P.state };

    fn send(&mut self, frames: &Frames) -> Result<(), SendRefusal> {
        let answer = send_all(
            &mut self.opener,
            &mut self.open_paths,
            &mut self.waiting,
            frames,
        );
        self.waiting.clear();
        self.failed = answer == Err(SendRefusal::Fault);
        close_after(&mut self.opener, &mut self.open_paths, answer.is_ok());
        answer
    }

    fn taken(&self) -> u64 {
        self.opener.taken()
    }

    /// Opens the file anew that refused the last send, where it did and is still open.
    fn reopen(&mut self) -> Result<Reopened, OutletFault> {
        if !self.failed {
            return Ok(Reopened::Ready);
        }
        let Some(path) = self.open_paths.latest() else {
            return Ok(Reopened::Ready);
        };
        self.opener.reopen(path)
    }

    fn flush(&mut self) {
        close_unused(&mut self.opener, &mut self.open_paths);
    }
}

// An outlet may be handed to another thread where its opener may.
fn is_send<T: Send>() {}

fn files_are_send<P: SendsByPath + Send>() {
    is_send::<DynFile<P>>();
}
