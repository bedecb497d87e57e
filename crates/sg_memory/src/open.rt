// Open devices, with the memory for their closing.
ghost use Rattle.std.specs.Prelude.{◌≡◌, ◌≢◌, ◌<◌, [], length};
ghost use Rattle.sg_device.specs.Inlet.{PullFills, PullTells, PullMoves, PullLeaves, PullAdds};
ghost use Rattle.sg_device.specs.Outlet.{Sends};
ghost use Rattle.sg_memory.specs.Inlet.{PullsByPlan};
ghost use Rattle.sg_memory.specs.Open.{feed_of, drain_of, opener_of};
ghost use Rattle.sg_memory.specs.Scripts.{SendsByScript};
ghost use Rattle.sg_memory_disk.specs.Plan.{after_call};

use crate::cells::{MemoryInletCell, MemoryOutletCell, MemoryPathsCell};
use crate::{MemoryInlet, MemoryOutlet, MemoryPaths};
use sg_by_path::SendsByPath;
use sg_device::{
    Frames, Inlet, InletFault, Opener, Outlet, OutletFault, Pull, Reopened, SendRefusal,
};

/// An open inlet of a machine in memory.
#[derive(Drop)]
pub struct MemoryFeed {
    pub inlet: MemoryInlet,
    pub(crate) cell: Box<MemoryInletCell>,
}

impl Inlet for MemoryFeed {
    ghost state = { feed_of };

    fn pull(&mut self, into: &mut [u8]) -> Result<Pull, InletFault>
        requires { 0 < length into.old }
        ensures fills { PullFills into.old into.new result }
        ensures told { PullTells (feed_of self.old) (feed_of self.new) into.new result }
        ensures place { PullMoves (feed_of self.old) (feed_of self.new) result }
        ensures left { PullLeaves (feed_of self.old) (feed_of self.new) into.new result }
        ensures adds { PullAdds (feed_of self.old) (feed_of self.new) result }
        ensures planned { PullsByPlan self.old.inlet self.new.inlet (length into.old) result }
    {
        self.inlet.pull(into)
    }

    fn peer(&self) -> &[u8] {
        self.inlet.peer()
    }

    fn hangup(&mut self) {
        self.inlet.hangup();
    }
}

/// An open outlet of a machine in memory.
#[derive(Drop)]
pub struct MemoryDrain {
    pub outlet: MemoryOutlet,
    pub(crate) cell: Box<MemoryOutletCell>,
}

impl Outlet for MemoryDrain {
    ghost state = { drain_of };

    fn send(&mut self, frames: &Frames) -> Result<(), SendRefusal>
        requires { frames.now ≢ [] }
        ensures sends { Sends (drain_of self.old) (drain_of self.new) frames.now result }
        ensures fails { SendsByScript self.old.outlet.plan self.old.outlet.laters result }
        ensures plan { self.new.outlet.plan ≡ record self.old.outlet.plan {
          fails = after_call self.old.outlet.plan.fails;
          waits = after_call self.old.outlet.plan.waits;
        } }
    {
        self.outlet.send(frames)
    }

    fn taken(&self) -> u64 {
        self.outlet.taken()
    }

    fn reopen(&mut self) -> Result<Reopened, OutletFault> {
        self.outlet.reopen()
    }
}

/// An open opener of a machine in memory.
#[derive(Drop)]
pub struct MemoryOpener {
    pub paths: MemoryPaths,
    pub(crate) cell: Box<MemoryPathsCell>,
}

impl Opener for MemoryOpener {
    ghost state = { opener_of };

    fn open(&mut self, path: &[u8]) -> Result<(), SendRefusal> {
        self.paths.open(path)
    }

    fn send(&mut self, path: &[u8], texts: &Frames) -> Result<(), SendRefusal> {
        self.paths.send(path, texts)
    }

    fn taken(&self) -> u64 {
        self.paths.taken()
    }

    fn reopen(&mut self, path: &[u8]) -> Result<Reopened, OutletFault> {
        self.paths.reopen(path)
    }

    fn is_unused(&mut self, path: &[u8]) -> bool {
        self.paths.is_unused(path)
    }

    fn close(&mut self, path: &[u8]) {
        self.paths.close(path);
    }
}

impl SendsByPath for MemoryOpener {
    fn send_each(&mut self, places: &[usize], texts: &Frames) -> Result<(), SendRefusal> {
        self.paths.send_each(places, texts)
    }
}
