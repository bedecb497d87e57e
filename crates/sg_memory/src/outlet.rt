// A file or a connection in memory that takes frames.
ghost use Rattle.std.specs.Prelude.{◌≡◌, ◌≢◌, ◌≤◌, [], ◌++◌, length, take};
ghost use Rattle.sg_device.specs.Outlet.{Sends, Reopens};

use crate::OutletScript;
use sg_device::{Frames, Outlet, OutletFault, Reopened, SendRefusal};
use std::alloc::Global;

/// An outlet that keeps the frames it takes, and tells them.
pub struct MemoryOutlet {
    frames: Frames,
    /// The calls that fail, and those that are too early.
    pub plan: OutletScript,
    faults: u64,
    failing: u64,
    laters: u64,
}

impl Drop for MemoryOutlet {
    fn drop(self) {
        let MemoryOutlet {
            frames: _frames,
            plan: _plan,
            faults: _faults,
            failing: _failing,
            laters: _laters,
        } = self;
    }
}

impl MemoryOutlet {
    ghost use Rattle.sg_memory.specs.Outlet.{new_outlet, outlet_of};

    /// An outlet that took nothing yet.
    pub fn new(alloc: Global, plan: OutletScript) -> MemoryOutlet
        ensures opened { outlet_of result ≡ new_outlet }
        ensures plan { result.plan ≡ plan }
    {
        MemoryOutlet {
            frames: Frames::new(alloc),
            plan,
            faults: 0,
            failing: 0,
            laters: 0,
        }
    }

    /// The frames taken, in order.
    pub fn frames(&self) -> &Frames
        ensures { result.now ≡ self.now.frames }
    {
        &self.frames
    }
}

impl Outlet for MemoryOutlet {
    ghost use Rattle.sg_memory.specs.Outlet.{outlet_of};
    ghost use Rattle.sg_memory.specs.Scripts.{SendsByScript, ReopensBy};
    ghost use Rattle.sg_memory_disk.specs.Plan.{after_call};

    ghost state = { outlet_of };

    fn send(&mut self, frames: &Frames) -> Result<(), SendRefusal>
        requires { frames.now ≢ [] }
        ensures sends { Sends (outlet_of self.old) (outlet_of self.new) frames.now result }
        ensures fails { SendsByScript self.old.plan self.old.laters result }
        ensures plan { self.new.plan ≡ record self.old.plan
            { fails = after_call self.old.plan.fails; waits = after_call self.old.plan.waits } }
    {
        let waits = self.plan.waits.next();
        let fails = self.plan.fails.next() || (waits && self.laters == u64::MAX);
        let wanted = if fails || waits {
            self.plan.first.min(frames.len() - 1)
        } else {
            frames.len()
        };
        let count = take_first(&mut self.frames, frames, wanted);
        if count > 0 {
            self.failing = 0;
        }
        if fails {
            self.faults = self.faults.saturating_add(1);
            self.failing = self.failing.saturating_add(1);
            return Err(SendRefusal::Fault);
        }
        if waits {
            self.laters += 1;
            return Err(SendRefusal::Later);
        }
        if count < frames.len() {
            return Err(SendRefusal::NoMemory);
        }
        Ok(())
    }

    fn taken(&self) -> u64 {
        self.frames.len() as u64
    }

    fn reopen(&mut self) -> Result<Reopened, OutletFault>
        ensures reopens { Reopens (outlet_of self.old) (outlet_of self.new) result }
        ensures fails { ReopensBy self.old.plan self.old.laters result }
    {
        let later = self.plan.laters.next();
        if self.plan.fails.next() || (later && self.laters == u64::MAX) {
            self.faults = self.faults.saturating_add(1);
            self.failing = self.failing.saturating_add(1);
            return Err(OutletFault);
        }
        if later {
            self.laters += 1;
            return Ok(Reopened::Later);
        }
        Ok(Reopened::Ready)
    }
}

// Takes the first frames, fewer only where memory runs out, and says how many.
fn take_first(taken: &mut Frames, frames: &Frames, wanted: usize) -> usize
    requires { wanted ≤ length frames.now }
    ensures taken { taken.new ≡ taken.old ++ take result frames.now }
    ensures bound { result ≤ wanted }
{
    let mut rest = frames.bytes();
    let mut count = 0;
    for size in &frames.sizes()[..wanted] {
        let (frame, behind) = rest.split_at(*size);
        if taken.push(frame).is_err() {
            return count;
        }
        rest = behind;
        count += 1;
    }
    count
}
