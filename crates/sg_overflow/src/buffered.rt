// An outlet with or without frames that are held back.
ghost use Rattle.std.specs.Prelude.{◌≡◌, option_map, IfOk};
ghost use Rattle.sg_overflow.specs.Buffered.{buffered_of, FinishesAs, inner_of, disk_in, held_state, IsToldBy, has_failed};

use crate::{Finished, Overflow};
use sg_device::{Disk, Frames, NoMemory, Outlet, OutletFault, Reopened, SendRefusal};

/// An outlet, or one round which frames are held back.
pub enum Buffered<O: Outlet, D: Disk> {
    Direct(O),
    Overflow(Overflow<O, D>),
}

impl<O: Outlet, D: Disk> Buffered<O, D> {
    /// Forwards all that is held, and puts the rest into the store. Where nothing is held back there is
    /// nothing to do.
    pub fn finish(&mut self) -> Result<Finished, NoMemory>
        ensures finishes { IfOk result (FinishesAs O.state D.state self.old self.new) }
        ensures stays { buffered_of O.state D.state self.new
            ≡ buffered_of O.state D.state self.old }
    {
        match self {
            Buffered::Direct(_) => Ok(Finished::Empty),
            Buffered::Overflow(overflow) => overflow.finish(),
        }
    }

    /// The number of frames that are held; none where frames aren't held back.
    pub fn held(&self) -> Option<u64>
        ensures count { result ≡ option_map (λ held. held.count) (held_state D.state self.now) }
        ensures told { IsToldBy D.state self.now }
    {
        match self {
            Buffered::Direct(_) => None,
            Buffered::Overflow(overflow) => Some(overflow.held()),
        }
    }

    /// Whether the store of one that holds frames back has failed.
    pub fn failed(&self) -> bool
        ensures { result ≡ has_failed (held_state D.state self.now) }
    {
        match self {
            Buffered::Direct(_) => false,
            Buffered::Overflow(overflow) => overflow.failed(),
        }
    }

    /// Gives the outlet back, and the disk, where there is one.
    pub fn into_parts(self) -> (O, Option<D>)
        ensures inner { result.0 ≡ inner_of self }
        ensures disk { result.1 ≡ disk_in self }
    {
        match self {
            Buffered::Direct(outlet) => (outlet, None),
            Buffered::Overflow(overflow) => {
                let (outlet, disk) = overflow.into_parts();
                (outlet, Some(disk))
            }
        }
    }
}

impl<O: Outlet, D: Disk> Outlet for Buffered<O, D> {
    ghost use Rattle.sg_overflow.specs.Buffered.{buffered_of};

    ghost state = { buffered_of O.state D.state };

    fn send(&mut self, frames: &Frames) -> Result<(), SendRefusal> {
        match self {
            Buffered::Direct(outlet) => outlet.send(frames),
            Buffered::Overflow(overflow) => overflow.send(frames),
        }
    }

    fn taken(&self) -> u64 {
        match self {
            Buffered::Direct(outlet) => outlet.taken(),
            Buffered::Overflow(overflow) => overflow.taken(),
        }
    }

    fn reopen(&mut self) -> Result<Reopened, OutletFault> {
        match self {
            Buffered::Direct(outlet) => outlet.reopen(),
            Buffered::Overflow(overflow) => overflow.reopen(),
        }
    }

    fn flush(&mut self) {
        match self {
            Buffered::Direct(outlet) => outlet.flush(),
            Buffered::Overflow(overflow) => overflow.flush(),
        }
    }
}
